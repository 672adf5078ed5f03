//! Batches of a download: how far one reaches, and what a site does with the rows of it.
ghost use Rattle.std.specs.Prelude.{◌≡◌, ◌<◌, ◌≤◌, ◌+◌, ◌-◌, ◌++◌, IfOk, OnOk, cond, count_by, filter, filter_map, is_some, length, map, min};
ghost use Rattle.std.specs.Option.{option_to_list};
ghost use Rattle.merge_types.specs.Limits.{generation_limit, number_limit};
ghost use Rattle.merge_batch.specs.Orders.{order_by};
ghost use Rattle.merge_model.specs.Judge.ByNumbers.{by_numbers};
ghost use Rattle.merge_model.specs.Publisher.PublisherDownload.{batch_end, is_between, item_of, touched_rows};
ghost use Rattle.merge_model.specs.Publisher.PublisherLocal.{version_at};
ghost use Rattle.merge_pub.specs.Held.{publication_of, tables_of};
ghost use Rattle.merge_pub.specs.Touches.{item_between, touched_between, touched_up_to};

use crate::publisher::Publisher;
use merge_batch::{Act, DownloadItem, DownloadItems};
use merge_types::limits::{GENERATION_LIMIT, ITEM_LIMIT};
use merge_types::{Listing, NoMemory, RowKey, SiteId};

// One where there is something.
fn one_if_some(found: Option<bool>) -> usize
    ensures count { result ≡ cond (is_some found) 1 0 }
    ensures bound { result ≤ 1 }
{
    match found {
        Some(_) => 1,
        None => 0,
    }
}

// The last generation that a batch may reach which begins behind one.
fn end_of(from: u64, last: u64) -> u64
    requires order { from ≤ last }
    requires low { last < number_limit }
    ensures end { result ≡ from + min generation_limit (last - from) }
    ensures low { result ≤ last }
{
    from + GENERATION_LIMIT.min(last - from)
}

impl Publisher {
    // How many of these rows were touched for the site in the generations behind one, up to another.
    fn count_among(&self, site: SiteId, from: u64, to: u64, keys: &[RowKey]) -> usize
        ensures count { result ≡ length (filter_map (touched_between (publication_of self.now) (tables_of self.now) site from to) keys.now) }
        ensures bound { result ≤ length keys.now }
    {
        let mut count = 0;
        for key in keys {
            count += one_if_some(self.touched(site, from, to, *key));
        }
        count
    }

    // How many rows were touched for the site in the generation behind one.
    fn count_touched(&self, site: SiteId, before: u64) -> Result<usize, NoMemory>
        requires { before < number_limit }
        ensures { IfOk result (λ count. count ≡ count_by (is_between before (before + 1)) (touched_rows (publication_of self.now) (by_numbers (tables_of self.now)) site (tables_of self.now))) }
    {
        let keys = self.due_rows(site, before, before + 1)?;
        Ok(self.count_among(site, before, before + 1, &keys))
    }

    // The last generation of a batch that begins behind one: the greatest up to which the batch has
    // neither too many generations nor too many items. It looks at one generation after the other,
    // and stops at the first that is one too many.
    pub(crate) fn batch_end(&self, site: SiteId, from: u64, last: u64) -> Result<u64, NoMemory>
        requires order { from ≤ last }
        requires low { last < number_limit }
        ensures { IfOk result (λ to. to ≡ batch_end (touched_up_to (publication_of self.now) (tables_of self.now) site from) from last) }
    {
        let end = end_of(from, last);
        let mut count = 0;
        for to in from..end {
            let more = self.count_touched(site, to)?;
            if more > ITEM_LIMIT - count {
                return Ok(to);
            }
            count += more;
        }
        Ok(end)
    }

    // What a site does with a row, by whether it is in its partition.
    fn act(&self, key: RowKey, is_in: bool) -> Result<Act, NoMemory>
        ensures { IfOk result (λ act. act ≡ order_by is_in (version_at (tables_of self.now) key)) }
    {
        match self.rows.get(&key) {
            Some(row) => Act::by(self.alloc, is_in, Some(&row.version)),
            None => Act::by(self.alloc, is_in, None),
        }
    }

    // Adds what the site does with a row, where it was touched between.
    fn add_item(
        &self,
        site: SiteId,
        from: u64,
        to: u64,
        key: RowKey,
        items: &mut DownloadItems,
    ) -> Result<(), NoMemory>
        ensures { OnOk result (items.new ≡ items.old ++ option_to_list (item_between (publication_of self.now) (tables_of self.now) site from to key)) }
    {
        let Some(is_in) = self.touched(site, from, to, key) else {
            return Ok(());
        };
        let act = self.act(key, is_in)?;
        items.push(DownloadItem {
            article: key.article,
            row: key.row,
            act,
        })
    }

    // What the site does with those of these rows that were touched between.
    fn items_among(
        &self,
        site: SiteId,
        from: u64,
        to: u64,
        keys: &[RowKey],
    ) -> Result<DownloadItems, NoMemory>
        ensures { IfOk result (λ items. items ≡ filter_map (item_between (publication_of self.now) (tables_of self.now) site from to) keys.now) }
    {
        let mut items = Listing::empty(self.alloc);
        for key in keys {
            self.add_item(site, from, to, *key, &mut items)?;
        }
        Ok(items)
    }

    // What the site does with each row that was touched between, by article and row.
    pub(crate) fn items(&self, site: SiteId, from: u64, to: u64) -> Result<DownloadItems, NoMemory>
        requires { from < number_limit }
        ensures { IfOk result (λ items. items ≡ map (item_of (tables_of self.now)) (filter (is_between from to) (touched_rows (publication_of self.now) (by_numbers (tables_of self.now)) site (tables_of self.now)))) }
    {
        let keys = self.due_rows(site, from, to)?;
        let items = self.items_among(site, from, to, &keys)?;
        Ok(items)
    }
}
