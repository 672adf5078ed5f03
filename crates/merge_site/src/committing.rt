//! A commit at a site's keeper.
ghost use Rattle.std.specs.Prelude.{◌≡◌, ◌≤◌, IfErr, OnErr, OnOk};
ghost use Rattle.merge_ports.specs.Entries.{told_after};
ghost use Rattle.merge_site.specs.Calls.{StopsAs};

use merge_batch::Refusal;
use merge_ports::{EntryEdit, KeepFault, Keeper};

/// Makes a step's edits, all or none. Once a keeper's count of faults is the greatest that there is
/// no further fault could be told, so nothing is committed any more.
pub(crate) fn commit<K: Keeper>(keeper: &mut K, edits: &[EntryEdit]) -> Result<(), Refusal>
    ensures ok { OnOk result (K.told keeper.new ≡ told_after edits.now (K.told keeper.old)) }
    ensures err { OnErr result (K.told keeper.new ≡ K.told keeper.old) }
    ensures count { OnOk result (K.count keeper.new ≡ K.count keeper.old) }
    ensures later { K.count keeper.old ≤ K.count keeper.new }
    ensures why { IfErr result (λ why. StopsAs why (K.count keeper.old) (K.count keeper.new)) }
{
    if keeper.faults() == u64::MAX {
        return Err(Refusal::NoMemory);
    }
    match keeper.commit(edits) {
        Ok(()) => Ok(()),
        Err(KeepFault::Failed) => Err(Refusal::StoreFault),
        Err(KeepFault::NoMemory) => Err(Refusal::NoMemory),
    }
}
