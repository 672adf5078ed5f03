//! Sites that have committed nothing, at stores that have no entry.
ghost use Rattle.std.specs.Prelude.{◌≡◌, ◌≤◌, [], IfErr, IfOk, MatchOption, OnOk};
ghost use Rattle.merge_site.specs.Beginning.{BeginsAt, IsEmptyStore, StartsNot};

use crate::loading::load;
use merge_batch::Refusal;
use merge_ports::{Entries, EntryKey, Keeper};
use merge_types::NoMemory;

/// Why a site does not start, and the keeper that it was given.
#[derive(Drop)]
pub struct NotStarted<K: Keeper> {
    pub keeper: K,
    pub why: Refusal,
}

// The key of the first entry, where there is one.
fn first_key(entries: &Entries) -> Result<Option<EntryKey>, NoMemory>
    ensures { IfOk result (λ key. MatchOption key (entries.now ≡ []) (λ first. BeginsAt first entries.now)) }
{
    let mut rest = entries.iter();
    match rest.next() {
        None => Ok(None),
        Some((key, _)) => Ok(Some(key.clone()?)),
    }
}

/// Refuses a store that has an entry.
pub(crate) fn check_empty<K: Keeper>(keeper: &mut K) -> Result<(), Refusal>
    ensures ok { OnOk result (IsEmptyStore (K.told keeper.new)) }
    ensures same { K.told keeper.new ≡ K.told keeper.old }
    ensures count { OnOk result (K.count keeper.new ≡ K.count keeper.old) }
    ensures later { K.count keeper.old ≤ K.count keeper.new }
    ensures why { IfErr result (λ why. StartsNot why (K.told keeper.old) (K.count keeper.old) (K.count keeper.new)) }
{
    let entries = load(keeper)?;
    match first_key(&entries)? {
        None => Ok(()),
        Some(EntryKey { table, key }) => Err(Refusal::Damaged { table, key }),
    }
}
