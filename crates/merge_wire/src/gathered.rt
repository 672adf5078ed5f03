//! Bytes as they come.
ghost use Rattle.std.specs.Prelude.{◌≡◌, ◌≤◌, ◌+◌, ◌*◌, ◌++◌, [], length as count, vec_len, vec_capacity, IfOk};

use merge_types::{NoMemory, Octets};
use std::alloc::Global;
use std::marker::Model;

/// Bytes that came. The memory that holds them has room for twice as many at the most.
#[derive(Drop)]
pub struct Gathered {
    bytes: Vec<u8>,
}

impl Model for Gathered {
    ghost use Rattle.std.specs.Prelude.{◌≤◌, ◌*◌, ℕ, List, vec_len, vec_capacity};

    ghost Value = { List ℕ };

    ghost view = { λ gathered. gathered.bytes.items };

    ghost invariant = { λ gathered. vec_capacity gathered.bytes ≤ 2 * vec_len gathered.bytes };
}

impl Gathered {
    /// None yet.
    pub fn none(alloc: Global) -> Gathered
        ensures { result ≡ [] }
    {
        Gathered {
            bytes: Vec::new(alloc),
        }
    }

    /// These and more behind.
    pub fn with(self, alloc: Global, more: &[u8]) -> Result<Gathered, NoMemory>
        ensures { IfOk result (λ all. all ≡ self ++ more.now) }
    {
        let mut bytes = with_room(alloc, self.bytes, more)?;
        append(&mut bytes, more);
        Ok(Gathered { bytes })
    }

    pub fn as_slice(&self) -> &[u8]
        ensures { result.now ≡ self.now }
    {
        self.bytes.as_slice()
    }

    pub fn len(&self) -> usize
        ensures { result ≡ count self.now }
    {
        self.bytes.len()
    }

    /// The same bytes, with no memory taken.
    pub fn into_octets(self) -> Octets
        ensures { result ≡ self }
    {
        Octets::new(self.bytes)
    }
}

// The bytes, with room for more. Where it lacks, they move to where there is room for twice as many as they will be.
fn with_room(alloc: Global, bytes: Vec<u8>, more: &[u8]) -> Result<Vec<u8>, NoMemory>
    requires { vec_capacity bytes ≤ 2 * vec_len bytes }
    ensures items { IfOk result (λ roomy. roomy.items ≡ bytes.items) }
    ensures len { IfOk result (λ roomy. vec_len roomy ≡ vec_len bytes) }
    ensures room { IfOk result (λ roomy. vec_len bytes + count more.now ≤ vec_capacity roomy) }
    ensures bounded { IfOk result (λ roomy. vec_capacity roomy ≤ 2 * (vec_len bytes + count more.now)) }
{
    if more.len() <= bytes.capacity() - bytes.len() {
        return Ok(bytes);
    }
    let wanted = bytes.len() + more.len();
    let mut roomy = Vec::with_capacity(alloc, wanted.saturating_mul(2))?;
    append(&mut roomy, bytes.as_slice());
    Ok(roomy)
}

// Adds bytes for which there is room.
fn append(bytes: &mut Vec<u8>, more: &[u8])
    requires { vec_len bytes.old + count more.now ≤ vec_capacity bytes.old }
    ensures items { bytes.new.items ≡ bytes.old.items ++ more.now }
    ensures len { vec_len bytes.new ≡ vec_len bytes.old + count more.now }
    ensures capacity { vec_capacity bytes.new ≡ vec_capacity bytes.old }
{
    for byte in more {
        bytes.push_reserved(*byte);
    }
}
