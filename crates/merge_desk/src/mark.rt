//! What is told of a request and its reply.
ghost use Rattle.std.specs.Prelude.{◌≡◌, IfOk};
ghost use Rattle.sha2.specs.Sha256.{sha256};
ghost use Rattle.merge_json.specs.Sendable.{IsSendableReply, IsSendableRequest};
ghost use Rattle.merge_desk.specs.Comparing.{mark_for_missing};
ghost use Rattle.merge_desk.specs.Marks.{is_refused, mark_on};

use merge_batch::{Kind, Reply, Request};
use merge_json::{write_reply, write_request};
use merge_types::{Moment, NoMemory};
use sha2::{Digest, Sha256};
use std::alloc::Global;

/// A request that was answered: the place of its entry in the journal, from 1, the moment at which it
/// was answered, the kind of the request, whether it was refused, and the SHA-256 of the bodies of the
/// request and of the reply.
#[derive(Clone, Copy, Debug, PartialEq, Eq)]
pub struct Mark {
    pub place: u64,
    pub moment: Moment,
    pub kind: Kind,
    pub refused: bool,
    pub asked: [u8; 32],
    pub digest: [u8; 32],
}

fn is_refused(reply: &Reply) -> bool
    ensures { result ≡ is_refused reply.now }
{
    match reply {
        Reply::Refused { .. } => true,
        _ => false,
    }
}

/// The mark of a request that was answered at a moment and of its reply, at a place of the journal.
pub(crate) fn mark_on(
    alloc: Global,
    place: u64,
    now: Moment,
    request: &Request,
    reply: &Reply,
) -> Result<Mark, NoMemory>
    requires request { IsSendableRequest request.now }
    requires reply { IsSendableReply reply.now }
    ensures { IfOk result (λ mark. mark ≡ mark_on place now request.now reply.now) }
{
    let asked = write_request(alloc, request)?;
    let told = write_reply(alloc, reply)?;
    Ok(Mark {
        place,
        moment: now,
        kind: request.kind(),
        refused: is_refused(reply),
        asked: Sha256::digest(asked.as_slice()),
        digest: Sha256::digest(told.as_slice()),
    })
}

/// What stands for a mark that there is not, beside one that there is.
pub(crate) fn missing(other: &Mark) -> Mark
    ensures { result ≡ mark_for_missing other.now }
{
    Mark {
        place: 0,
        moment: other.moment,
        kind: other.kind,
        refused: false,
        asked: [0; 32],
        digest: [0; 32],
    }
}
