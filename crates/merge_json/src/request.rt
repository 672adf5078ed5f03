//! Requests as bodies.
ghost use Rattle.std.specs.Prelude.{◌≡◌, ◌≤◌, length, IfOk, IfErr};
ghost use Rattle.serde_json.specs.View.{view};
ghost use Rattle.serde_json.specs.Written.{compact_text};
ghost use Rattle.merge_batch.specs.Heads.{kind_of};
ghost use Rattle.merge_json.specs.Outcomes.{GivesAt};
ghost use Rattle.merge_json.specs.Requests.{request_at, path_of};
ghost use Rattle.merge_json.specs.Bodies.{request_of, request_sent};
ghost use Rattle.merge_json.specs.Limits.{body_limit, IsShortRequest};
ghost use Rattle.merge_json.specs.Messages.{IsSent, IsSentBad, IsFault};
ghost use Rattle.merge_json.specs.Sendable.{IsSendableRequest};
ghost use Rattle.merge_json.specs.WrittenRequests.{request_data};

use crate::asks::{ask, download, join};
use crate::uploads::upload;
use crate::written_requests::request_value;
use crate::{BodyFault, body, kind_of_path};
use merge_batch::{Kind, Request};
use merge_types::{NoMemory, Octets};
use serde_json::Value;
use std::alloc::Global;

/// The body of a request.
pub fn write_request(alloc: Global, request: &Request) -> Result<Octets, NoMemory>
    requires { IsSendableRequest request.now }
    ensures text { IfOk result (λ body. body ≡ compact_text (request_data request.now)) }
    ensures reads_back { IfOk result (λ body. IsSent (path_of (kind_of request.now)) body request.now) }
    ensures short { IfOk result (λ body. IsShortRequest request.now → length body ≤ body_limit) }
{
    let value = request_value(alloc, request)?;
    let body = body::write(alloc, &value)?;
    Ok(body)
}

/// The request of a body that came to a path. To any other path than those of `path_of` goes none.
pub fn read_request(alloc: Global, path: &[u8], body: &[u8]) -> Result<Request, BodyFault>
    ensures read { IfOk result (IsSent path.now body.now) }
    ensures fault { IfErr result (IsFault (IsSentBad path.now body.now)) }
    ensures sendable { IfOk result IsSendableRequest }
{
    read_sent(alloc, path, body)
}

#[tactic(auto, unfolding(crate::specs::Bodies::request_sent))]
fn read_sent(alloc: Global, path: &[u8], body: &[u8]) -> Result<Request, BodyFault>
    ensures { GivesAt (λ r. r) result (request_sent path.now body.now) }
{
    match kind_of_path(path) {
        Some(kind) => read_kind(alloc, kind, body),
        None => Err(BodyFault::BadBody { place: 0 }),
    }
}

#[tactic(auto, unfolding(crate::specs::Bodies::request_of))]
fn read_kind(alloc: Global, kind: Kind, body: &[u8]) -> Result<Request, BodyFault>
    ensures { GivesAt (λ r. r) result (request_of kind body.now) }
{
    let value = body::read(alloc, body)?;
    request(alloc, kind, &value)
}

#[tactic(auto, unfolding(crate::specs::Requests::request_at))]
fn request(alloc: Global, kind: Kind, value: &Value) -> Result<Request, BodyFault>
    ensures { GivesAt (λ r. r) result (request_at kind (view value.now)) }
{
    match kind {
        Kind::Join => Ok(Request::Join(join(value)?)),
        Kind::Upload => Ok(Request::Upload(upload(alloc, value)?)),
        Kind::Ranges => Ok(Request::Ranges(ask(alloc, value)?)),
        Kind::Download => Ok(Request::Download(download(value)?)),
        Kind::Refused => Err(BodyFault::BadBody { place: 0 }),
    }
}
