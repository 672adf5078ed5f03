//! Which rows were touched for a site, found by their generations.
ghost use Rattle.std.specs.Prelude.{◌≡◌, ◌<◌, IfOk};
ghost use Rattle.merge_types.specs.Limits.{number_limit};
ghost use Rattle.merge_model.specs.Judge.ByNumbers.{touch_by_mapping, touch_inside, touch_outside};
ghost use Rattle.merge_model.specs.Tables.Keys.{has_key};
ghost use Rattle.merge_model.specs.Publisher.PublisherDownload.{inside_keys};
ghost use Rattle.merge_pub.specs.Held.{publication_of, tables_of};
ghost use Rattle.merge_pub.specs.Touches.{HasTouched, is_in_between};

use crate::publisher::Publisher;
use merge_gens::{Mapping, MoveKind, RowSite, sort_rows};
use merge_steps::add_moved;
use merge_types::{NoMemory, RowKey, SiteId};

// The generation in which a row of the partition was touched: the later of its last change and of
// its coming in.
fn touch_inside(changed: u64, mapping: Option<Mapping>) -> u64
    ensures { result ≡ touch_inside changed mapping }
{
    match mapping {
        Some(
            Mapping {
                kind: MoveKind::Entered,
                generation,
            },
        ) => changed.max(generation),
        _ => changed,
    }
}

// The generation in which a row left the partition that is not in it.
fn touch_outside(mapping: Option<Mapping>) -> Option<u64>
    ensures { result ≡ touch_outside mapping }
{
    match mapping {
        Some(
            Mapping {
                kind: MoveKind::Left,
                generation,
            },
        ) => Some(generation),
        _ => None,
    }
}

impl Publisher {
    // Whether the row is in the site's partition.
    pub(crate) fn has_row(&self, site: SiteId, key: RowKey) -> bool
        ensures { result ≡ has_key (inside_keys (publication_of self.now) site (tables_of self.now)) key }
    {
        self.membership.is_in(key.article, key.row, site)
    }

    // The generation in which the row was touched for the site, by whether it is in its partition.
    fn touch(&self, site: SiteId, key: RowKey, is_in: bool) -> Option<u64>
        ensures { result ≡ touch_by_mapping (tables_of self.now) key site.0 is_in }
    {
        let place = RowSite { key, site: site.0 };
        let mapping = self.mappings.get(&place).copied();
        if !is_in {
            return touch_outside(mapping);
        }
        match self.rows.get(&key) {
            Some(row) => Some(touch_inside(row.changed, mapping)),
            None => None,
        }
    }

    // Whether the row is in the site's partition, where it was touched for the site in a generation
    // behind one, up to another.
    pub(crate) fn touched(&self, site: SiteId, from: u64, to: u64, key: RowKey) -> Option<bool>
        ensures { result ≡ is_in_between (publication_of self.now) (tables_of self.now) site from to key }
    {
        let is_in = self.has_row(site, key);
        match self.touch(site, key, is_in) {
            Some(generation) if from < generation && generation <= to => Some(is_in),
            _ => None,
        }
    }

    // The rows that changed, or moved for the site, in the generations behind one, up to another, by
    // article and row. The time grows with these.
    pub(crate) fn due_rows(&self, site: SiteId, from: u64, to: u64) -> Result<Vec<RowKey>, NoMemory>
        requires { from < number_limit }
        ensures { IfOk result (λ keys. HasTouched (publication_of self.now) (tables_of self.now) site from to keys.items) }
    {
        self.rows.is_ordered();
        let mut keys = Vec::new(self.alloc);
        self.changed.between(from, to, &mut keys)?;
        add_moved(&self.moved, site.0, from + 1, Some(to), &mut keys)?;
        sort_rows(&mut keys);
        Ok(keys)
    }
}
