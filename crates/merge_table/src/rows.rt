//! Walks over the rows of a table.
ghost use Rattle.std.specs.Prelude.{length};
ghost use Rattle.std.specs.Iterator.{at_most};
ghost use Rattle.std.specs.Map.Iter.{TakesFirst, TakesLast, deref_pair};

use std::collections::btree_map::Range;
use std::iter::{DoubleEndedIterator, Iterator};
use std::marker::Model;

/// The rows that a walk has left, in the order of their keys. Slots without a row are passed by.
#[derive(Drop)]
pub struct Rows<'a, K, V> {
    pub(crate) slots: Range<'a, K, Option<V>>,
}

impl<'a, K, V> Model for Rows<'a, K, V> {
    ghost use Rattle.std.specs.Prelude.{List};
    ghost use Rattle.merge_table.specs.Contents.{rows_of};

    ghost Value = { List (K × V) };

    ghost view = { λ r. rows_of r.slots };
}

impl<'a, K, V> Iterator for Rows<'a, K, V> {
    type Item = (&'a K, &'a V);

    ghost next_gives = { TakesFirst deref_pair };

    ghost remaining = { λ rows. at_most (length rows) };

    fn next(&mut self) -> Option<(&'a K, &'a V)> {
        while let Some((key, slot)) = self.slots.next() {
            if let Some(row) = slot {
                return Some((key, row));
            }
        }
        None
    }
}

impl<'a, K, V> DoubleEndedIterator for Rows<'a, K, V> {
    ghost next_back_gives = { TakesLast deref_pair };

    fn next_back(&mut self) -> Option<(&'a K, &'a V)> {
        while let Some((key, slot)) = self.slots.next_back() {
            if let Some(row) = slot {
                return Some((key, row));
            }
        }
        None
    }
}
