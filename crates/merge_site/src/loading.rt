//! A store is read whole.
ghost use Rattle.std.specs.Prelude.{◌≡◌, ◌<◌, ◌≤◌, IfErr, IfOk, IfSome, OnOk};
ghost use Rattle.merge_record.specs.Codec.{IsBytes};
ghost use Rattle.merge_keeper.specs.Given.{IsMap};
ghost use Rattle.merge_site.specs.Calls.{StopsAs};
ghost use Rattle.merge_site.specs.Loading.{refusal_of};

use merge_batch::Refusal;
use merge_keeper::StartFault;
use merge_ports::{Entries, EntryKey, KeepFault, Keeper};
use merge_types::Octets;

/// All entries of a store. Once a keeper's count of faults is the greatest that there is no further
/// fault could be told, so nothing is asked of it any more.
pub(crate) fn load<K: Keeper>(keeper: &mut K) -> Result<Entries, Refusal>
    ensures ok { IfOk result (λ entries. IfSome (K.told keeper.old) (λ map. entries ≡ map)) }
    ensures same { K.told keeper.new ≡ K.told keeper.old }
    ensures count { OnOk result (K.count keeper.new ≡ K.count keeper.old) }
    ensures later { K.count keeper.old ≤ K.count keeper.new }
    ensures why { IfErr result (λ why. StopsAs why (K.count keeper.old) (K.count keeper.new)) }
{
    if keeper.faults() == u64::MAX {
        return Err(Refusal::NoMemory);
    }
    match keeper.load() {
        Ok(entries) => Ok(entries),
        Err(KeepFault::Failed) => Err(Refusal::StoreFault),
        Err(KeepFault::NoMemory) => Err(Refusal::NoMemory),
    }
}

/// The refusal of a store that does not start.
pub(crate) fn refusal_of(fault: StartFault) -> Refusal
    ensures { result ≡ refusal_of fault }
{
    match fault {
        StartFault::Damaged(EntryKey { table, key }) => Refusal::Damaged { table, key },
        StartFault::NoMemory => Refusal::NoMemory,
    }
}

// A byte is one.
fn is_byte(byte: u8)
    ensures { byte < 256 }
{
    let _ = byte;
}

// Each of these is a byte. It is a fact for proofs.
fn are_bytes(octets: &Octets)
    ensures { IsBytes octets.now }
{
    let bytes = octets.as_slice();
    for i in 0..bytes.len() {
        is_byte(bytes[i]);
    }
}

/// That entries ascend by their keys, and are bytes. It is a fact for proofs.
pub(crate) fn are_map(entries: &Entries)
    ensures { IsMap entries.now }
{
    for (key, value) in entries.iter() {
        are_bytes(&key.key);
        are_bytes(value);
    }
}
