//! Replies as bodies.
ghost use Rattle.std.specs.Prelude.{◌≡◌, ◌≤◌, length, IfOk, IfErr};
ghost use Rattle.serde_json.specs.View.{view};
ghost use Rattle.serde_json.specs.Written.{compact_text};
ghost use Rattle.merge_batch.specs.Heads.{answered_kind};
ghost use Rattle.merge_json.specs.Outcomes.{GivesAt};
ghost use Rattle.merge_json.specs.Replies.{reply_at};
ghost use Rattle.merge_json.specs.Bodies.{reply_of};
ghost use Rattle.merge_json.specs.Limits.{body_limit, IsShortReply};
ghost use Rattle.merge_json.specs.Messages.{IsAnswered, IsAnsweredBad, IsFault};
ghost use Rattle.merge_json.specs.Sendable.{IsSendableReply};
ghost use Rattle.merge_json.specs.WrittenReplies.{reply_data};

use crate::answers::{joined, ranged, refused, uploaded};
use crate::downloads::downloaded;
use crate::written_replies::reply_value;
use crate::{BodyFault, body};
use merge_batch::{Kind, Reply};
use merge_types::{NoMemory, Octets};
use serde_json::Value;
use std::alloc::Global;

/// The body of a reply.
pub fn write_reply(alloc: Global, reply: &Reply) -> Result<Octets, NoMemory>
    requires { IsSendableReply reply.now }
    ensures text { IfOk result (λ body. body ≡ compact_text (reply_data reply.now)) }
    ensures reads_back { IfOk result (λ body. IsAnswered (answered_kind reply.now) body reply.now) }
    ensures short { IfOk result (λ body. IsShortReply reply.now → length body ≤ body_limit) }
{
    let value = reply_value(alloc, reply)?;
    let body = body::write(alloc, &value)?;
    Ok(body)
}

/// The reply of a body that is to be of a kind.
pub fn read_reply(alloc: Global, kind: Kind, body: &[u8]) -> Result<Reply, BodyFault>
    ensures read { IfOk result (IsAnswered kind body.now) }
    ensures fault { IfErr result (IsFault (IsAnsweredBad kind body.now)) }
    ensures sendable { IfOk result IsSendableReply }
{
    read_kind(alloc, kind, body)
}

#[tactic(auto, unfolding(crate::specs::Bodies::reply_of))]
fn read_kind(alloc: Global, kind: Kind, body: &[u8]) -> Result<Reply, BodyFault>
    ensures { GivesAt (λ r. r) result (reply_of kind body.now) }
{
    let value = body::read(alloc, body)?;
    reply(alloc, kind, &value)
}

#[tactic(auto, unfolding(crate::specs::Replies::reply_at))]
fn reply(alloc: Global, kind: Kind, value: &Value) -> Result<Reply, BodyFault>
    ensures { GivesAt (λ r. r) result (reply_at kind (view value.now)) }
{
    match kind {
        Kind::Join => Ok(Reply::Joined(joined(value)?)),
        Kind::Upload => Ok(Reply::Uploaded(uploaded(value)?)),
        Kind::Ranges => Ok(Reply::Ranged(ranged(alloc, value)?)),
        Kind::Download => Ok(Reply::Downloaded(downloaded(alloc, value)?)),
        Kind::Refused => Ok(refused(alloc, value)?),
    }
}
