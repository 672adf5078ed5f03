//! What a response tells.
ghost use Rattle.std.specs.Prelude.{◌≡◌, IfOk};
ghost use Rattle.merge_agent.specs.Answers.{Tells, TellsBody, TellsBy, form_of};

use merge_batch::{Kind, Reply};
use merge_json::{BodyFault, read_reply};
use merge_types::NoMemory;
use merge_wire::{Message, WireFault, read_response};
use std::alloc::Global;

/// What a response is by its status: its body is a reply of a kind, the status is a refusal of this
/// number, or it is no answer of a publisher.
#[derive(Clone, Copy, Debug, PartialEq, Eq)]
pub enum Form {
    Body(Kind),
    Refusal(u8),
    Stray,
}

/// What a response tells.
#[derive(Debug, Drop)]
pub enum Told {
    Replied(Reply),
    /// It is no answer. The place is that of the first item of its body that has no reading, counted
    /// from 1, or 0.
    Spoiled { place: u64 },
    /// The publisher refused with this number, and told no more.
    Declined { number: u8 },
}

// What a response to a message of a kind is by its status.
fn form_of(kind: Kind, status: u16) -> Form
    ensures { result ≡ form_of kind status }
{
    match status {
        200 => Form::Body(kind),
        409 => Form::Body(Kind::Refused),
        500 => Form::Refusal(7),
        507 => Form::Refusal(0),
        _ => Form::Stray,
    }
}

// What a body tells that is to be a reply of a kind.
fn told_body(alloc: Global, kind: Kind, body: &[u8]) -> Result<Told, NoMemory>
    ensures { IfOk result (TellsBody kind body.now) }
{
    match read_reply(alloc, kind, body) {
        Ok(reply) => Ok(Told::Replied(reply)),
        Err(BodyFault::BadBody { place }) => Ok(Told::Spoiled { place }),
        Err(BodyFault::NoMemory) => Err(NoMemory),
    }
}

fn told_by(alloc: Global, form: Form, response: &Message) -> Result<Told, NoMemory>
    ensures { IfOk result (TellsBy form response.now.body) }
{
    match form {
        Form::Body(kind) => told_body(alloc, kind, response.body.as_slice()),
        Form::Refusal(number) => Ok(Told::Declined { number }),
        Form::Stray => Ok(Told::Spoiled { place: 0 }),
    }
}

/// What the bytes of a response tell, where they answer a message of this kind.
#[tactic(auto, unfolding(crate::specs::Answers::Tells))]
pub(crate) fn told_in(alloc: Global, kind: Kind, bytes: &[u8]) -> Result<Told, NoMemory>
    ensures { IfOk result (Tells kind bytes.now) }
{
    match read_response(alloc, bytes) {
        Ok(response) => told_by(alloc, form_of(kind, response.status), &response),
        Err(WireFault::NoMemory) => Err(NoMemory),
        Err(_) => Ok(Told::Spoiled { place: 0 }),
    }
}
