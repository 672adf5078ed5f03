//! A keeper in memory, which fails and stops at the calls that it is told.
ghost use Rattle.std.specs.Prelude.{◌≡◌, ◌||◌, false, true, map, IfOk, OnOk, OnErr, IsErrOf, if◌then◌else◌};
ghost use Rattle.merge_ports.specs.Entries.{change_of, map_after};
ghost use Rattle.merge_ports.specs.Faults.{is_listed, one_more};
ghost use Rattle.merge_ports.specs.Keeping.{HasKeepCause};
ghost use Rattle.merge_ports.specs.declared.keeper.KeepFault.TheVariants.{Failed as failed, NoMemory as no_memory};
ghost use Rattle.merge_keeper.specs.Kept.{after_call, after_load, after_commit, is_refused, commit_fails, stop_at, IsLeft};

use merge_ports::{Entries, EntryEdit, EntryKey, KeepFault, Keeper};
use merge_table::{Edit, Table};
use merge_types::{Listing, NoMemory, Octets};
use std::alloc::Global;
use std::marker::Model;

/// A commit at which a keeper stops, as a process that is killed there does: before its edits, or
/// after them.
#[derive(Clone, Copy, Debug, PartialEq, Eq)]
pub struct Stop {
    /// The number of the call, counted from 0 over loads and commits.
    pub call: u64,
    pub is_after: bool,
}

/// A map in memory. The calls whose numbers are listed, counted from 0 over loads and commits, fail,
/// and the commits that are listed as stops stop.
///
/// From a stop on each call fails, and the keeper tells the map from before the commit. What the
/// stop left is seen by `left` alone.
///
/// A commit costs its edits, each by the logarithm of the number of entries.
#[derive(Drop)]
pub struct MemoryKeeper {
    alloc: Global,
    map: Table<EntryKey, Octets>,
    failing: Listing<u64>,
    stops: Listing<Stop>,
    calls: u64,
    count: u64,
    is_stopped: bool,
    // What a stop made behind the map that is told, with room for it in the map.
    made: Vec<Edit<EntryKey, Octets>>,
}

impl Model for MemoryKeeper {
    ghost use Rattle.std.specs.Prelude.{◌≡◌, false, []};
    ghost use Rattle.merge_table.specs.Edits.{rows_after_all, IsReady};
    ghost use Rattle.merge_ports.specs.Entries.{entry_cmp};
    ghost use Rattle.merge_keeper.specs.Kept.{Kept};

    ghost Value = { Kept };

    ghost view = { λ k. record { map = k.map.rows; left = rows_after_all entry_cmp k.map.rows k.made.items; failing = k.failing; stops = k.stops; calls = k.calls; count = k.count; is_stopped = k.is_stopped } };

    ghost invariant = { λ k. IsReady entry_cmp k.map.slots k.made.items × (k.is_stopped ≡ false → k.made.items ≡ []) };
}

impl MemoryKeeper {
    /// A keeper of these entries, with no memory taken.
    pub fn new(alloc: Global, entries: Entries, failing: Listing<u64>, stops: Listing<Stop>) -> Self
        ensures { result ≡ record { map = entries; left = entries; failing = failing; stops = stops; calls = 0; count = 0; is_stopped = false } }
    {
        MemoryKeeper {
            alloc,
            map: entries.into_table(),
            failing,
            stops,
            calls: 0,
            count: 0,
            is_stopped: false,
            made: Vec::new(alloc),
        }
    }

    /// What a stop left, which is the map without a stop. It takes no memory.
    pub fn left(self) -> Entries
        ensures { result ≡ self.left }
    {
        let MemoryKeeper { mut map, made, .. } = self;
        map.apply(made);
        Entries::of(map)
    }
}

// Counts a call, and says whether it is refused: the keeper has stopped, or the call is listed.
fn is_refused(calls: &mut u64, count: &mut u64, is_stopped: bool, failing: &[u64]) -> bool
    ensures refused { result ≡ (is_stopped || is_listed failing.now calls.old) }
    ensures calls { calls.new ≡ one_more calls.old }
    ensures count { count.new ≡ (if result then one_more count.old else count.old) }
{
    let is_refused = is_stopped || failing.contains(&*calls);
    *calls = calls.saturating_add(1);
    if is_refused {
        *count = count.saturating_add(1);
    }
    is_refused
}

// Whether the keeper stops at the call, and then whether the edits are made before.
fn stop_at(stops: &[Stop], call: u64) -> Option<bool>
    ensures { result ≡ stop_at stops.now call }
{
    stops
        .iter()
        .find(|stop| stop.call == call)
        .map(|stop| stop.is_after)
}

fn change_of(edit: &EntryEdit) -> Result<Edit<EntryKey, Octets>, NoMemory>
    ensures { IfOk result (λ change. change ≡ change_of edit.now) }
{
    let key = EntryKey {
        table: edit.table,
        key: edit.key.clone()?,
    };
    match &edit.value {
        None => Ok(Edit::Take(key)),
        Some(value) => Ok(Edit::Put(key, value.clone()?)),
    }
}

// The edits as changes of the table.
fn changes_of(alloc: Global, edits: &[EntryEdit]) -> Result<Vec<Edit<EntryKey, Octets>>, NoMemory>
    ensures { IfOk result (λ changes. changes.items ≡ map change_of edits.now) }
{
    let mut changes = Vec::new(alloc);
    for edit in edits {
        changes.push(change_of(edit)?)?;
    }
    Ok(changes)
}

impl Keeper for MemoryKeeper {
    ghost use Rattle.std.specs.Prelude.{Some};

    ghost told = { λ k. Some k.map };

    ghost count = { λ k. k.count };

    fn load(&mut self) -> Result<Entries, KeepFault>
        ensures ok { IfOk result (λ entries. entries ≡ self.old.map) }
        ensures same { self.new.map ≡ self.old.map }
        ensures cause { HasKeepCause self.old.count self.new.count result }
        ensures loaded { OnOk result ((is_refused self.old ≡ false) × (self.new ≡ after_load self.old)) }
        ensures failed { IsErrOf result failed → (is_refused self.old ≡ true) × (self.new ≡ after_load self.old) }
        ensures starved { IsErrOf result no_memory → (is_refused self.old ≡ false) × (self.new ≡ after_call self.old) }
    {
        if is_refused(
            &mut self.calls,
            &mut self.count,
            self.is_stopped,
            self.failing.as_slice(),
        ) {
            return Err(KeepFault::Failed);
        }
        Ok(Entries::of(self.map.clone()?))
    }

    fn commit(&mut self, edits: &[EntryEdit]) -> Result<(), KeepFault>
        ensures ok { OnOk result (self.new.map ≡ map_after edits.now self.old.map) }
        ensures err { OnErr result (self.new.map ≡ self.old.map) }
        ensures cause { HasKeepCause self.old.count self.new.count result }
        ensures left { IsLeft edits.now self.old self.new }
        ensures made { OnOk result ((commit_fails self.old ≡ false) × (self.new ≡ after_commit edits.now self.old)) }
        ensures failed { IsErrOf result failed → (commit_fails self.old ≡ true) × (self.new ≡ after_commit edits.now self.old) }
        ensures starved { IsErrOf result no_memory → (is_refused self.old ≡ false) × (self.new ≡ after_call self.old) }
    {
        let call = self.calls;
        if is_refused(
            &mut self.calls,
            &mut self.count,
            self.is_stopped,
            self.failing.as_slice(),
        ) {
            return Err(KeepFault::Failed);
        }
        let changes = changes_of(self.alloc, edits)?;
        self.map.prepare(&changes)?;
        match stop_at(self.stops.as_slice(), call) {
            None => {
                self.map.apply(changes);
                Ok(())
            }
            Some(is_after) => {
                self.is_stopped = true;
                self.count = self.count.saturating_add(1);
                if is_after {
                    self.made = changes;
                }
                Err(KeepFault::Failed)
            }
        }
    }

    fn faults(&self) -> u64 {
        self.count
    }
}
