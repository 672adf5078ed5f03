//! The table of the versions that lost: a list that grows by adding alone and shrinks by trimming
//! alone.
ghost use Rattle.std.specs.Prelude.{◌≡◌, ◌+◌, ◌≤◌, ◌<◌, ◌↔◌, [], ◌∷◌, ◌++◌, nat_le, nat_lt, filter, count_by, length, IsTrue, IsOk, IfOk, OnOk, OnErr, vec_len};
ghost use Rattle.std.specs.Vec.{vec_capacity};
ghost use Rattle.merge_conflict.specs.Rising.{AreRising, RiseAbove};
ghost use Rattle.merge_conflict.specs.Table.{kept_from, IsReady};

use crate::{ConflictRow, ConflictRows};
use merge_types::{Moment, NoMemory};
use std::alloc::Global;
use std::marker::Model;

/// The versions that lost, with numbers that rise from 1 on.
#[derive(Debug, Drop)]
pub struct ConflictTable {
    rows: Vec<ConflictRow>,
}

impl Model for ConflictTable {
    ghost use Rattle.std.specs.Prelude.{◌-◌, vec_len};
    ghost use Rattle.std.specs.Vec.{vec_capacity};
    ghost use Rattle.merge_conflict.specs.Rising.{AreRising};
    ghost use Rattle.merge_conflict.specs.Table.{RowsWithRoom};

    ghost Value = { RowsWithRoom };

    ghost view = { λ t. record { rows = t.rows.items; room = vec_capacity t.rows - vec_len t.rows } };

    ghost invariant = { λ t. AreRising t.rows.items };
}

/// Rows for which a table has made room.
#[derive(Debug, Drop)]
pub struct ConflictPlan {
    pub rows: ConflictRows,
}

/// Whether the rows are those of a table: the test for `ConflictTable::restore`.
pub fn are_rising(rows: &[ConflictRow]) -> bool
    ensures { IsTrue result ↔ AreRising rows.now }
{
    let mut above = 0;
    for row in rows {
        if row.number <= above {
            return false;
        }
        above = row.number;
    }
    true
}

impl ConflictTable {
    /// No rows.
    pub fn new(alloc: Global) -> Self
        ensures { result.rows ≡ [] }
    {
        ConflictTable {
            rows: Vec::new(alloc),
        }
    }

    /// The table with these rows, with no memory taken.
    pub fn restore(rows: ConflictRows) -> Self
        requires { AreRising rows }
        ensures { result.rows ≡ rows }
    {
        ConflictTable {
            rows: rows.into_vec(),
        }
    }

    /// The rows, by number.
    pub fn rows(&self) -> &[ConflictRow]
        ensures all { result.now ≡ self.now.rows }
        ensures rising { AreRising self.now.rows }
    {
        &self.rows
    }

    /// Adds a row behind.
    pub fn add(&mut self, row: ConflictRow) -> Result<(), NoMemory>
        requires { AreRising (self.old.rows ++ row ∷ []) }
        ensures ok { OnOk result (self.new.rows ≡ self.old.rows ++ row ∷ []) }
        ensures err { OnErr result (self.new ≡ self.old) }

        // Where there is room no memory is taken.
        ensures room { 0 < self.old.room → IsOk result }
    {
        self.rows.reserve(1)?;
        self.rows.push_reserved(row);
        Ok(())
    }

    /// Takes the memory for adding these rows, and gives the plan that adds them.
    pub fn prepare(&mut self, rows: ConflictRows) -> Result<ConflictPlan, NoMemory>
        requires { AreRising (self.old.rows ++ rows) }
        ensures plan { IfOk result (λ plan. plan.rows ≡ rows) }
        ensures ready { IfOk result (λ plan. IsReady self.new plan) }
        ensures same { self.new.rows ≡ self.old.rows }
        ensures room { self.old.room ≤ self.new.room }

        // Where there is room no memory is taken.
        ensures succeeds { length rows ≤ self.old.room → IsOk result }
    {
        self.rows.reserve(rows.len())?;
        Ok(ConflictPlan { rows })
    }

    /// Adds the rows of a plan. No memory is taken.
    pub fn settle(&mut self, plan: ConflictPlan)
        requires { IsReady self.old plan }
        ensures rows { self.new.rows ≡ self.old.rows ++ plan.rows }
        ensures room { self.new.room + length plan.rows ≡ self.old.room }
    {
        append(&mut self.rows, plan.rows.into_vec());
    }

    /// Takes away the rows from before the cutoff, and gives their count. No memory is taken.
    pub fn trim(&mut self, cutoff: Moment) -> u64
        ensures count { result ≡ count_by (λ row. nat_lt row.moment.0 cutoff.0) self.old.rows }
        ensures rows { self.new.rows ≡ kept_from cutoff self.old.rows }
        ensures room { self.new.room ≡ self.old.room + result }
    {
        let before = self.rows.len();
        keep_from(&mut self.rows, cutoff);
        (before - self.rows.len()) as u64
    }
}

// Adds rows for which there is room.
fn append(rows: &mut Vec<ConflictRow>, more: Vec<ConflictRow>)
    requires { vec_len rows.old + length more.items ≤ vec_capacity rows.old }
    ensures items { rows.new.items ≡ rows.old.items ++ more.items }
    ensures len { vec_len rows.new ≡ vec_len rows.old + length more.items }
    ensures capacity { vec_capacity rows.new ≡ vec_capacity rows.old }
{
    for row in more {
        rows.push_reserved(row);
    }
}

// Takes away the rows from before the cutoff.
fn keep_from(rows: &mut Vec<ConflictRow>, cutoff: Moment)
    ensures items { rows.new.items ≡ kept_from cutoff rows.old.items }
    ensures len { vec_len rows.new + count_by (λ row. nat_lt row.moment.0 cutoff.0) rows.old.items ≡ vec_len rows.old }
    ensures capacity { vec_capacity rows.new ≡ vec_capacity rows.old }
{
    rows.retain(|row| row.moment.0 >= cutoff.0);
}
