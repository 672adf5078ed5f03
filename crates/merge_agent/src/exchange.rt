//! A message with its answer.
ghost use Rattle.std.specs.Prelude.{◌≡◌};
ghost use Rattle.merge_wire.specs.Written.{IsVisible};
ghost use Rattle.merge_world.specs.Messages.{sending_of};
ghost use Rattle.merge_agent.specs.Meetings.{meeting};
ghost use Rattle.merge_agent.specs.Turns.{Advances, Exchanges};

use crate::answer::told_in;
use crate::fault::SessionFault;
use crate::message::{make_message, request_bytes};
use crate::take::take;
use merge_batch::Reply;
use merge_link::{Clock, Link};
use merge_types::Words;
use merge_world::{Sending, SubscriberSite};
use std::alloc::Global;

/// The subscriber makes a message, the link carries it, and the subscriber takes the reply. None where
/// there is no message to make.
pub(crate) fn exchange<S: SubscriberSite, N: Link, C: Clock>(
    alloc: Global,
    site: &mut S,
    link: &mut N,
    address: &Words,
    clock: &mut C,
    sending: Sending,
) -> Result<Option<Reply>, SessionFault>
    requires { IsVisible address.now }
    ensures peer { N.peer link.new ≡ N.peer link.old }
    ensures advances { Advances (S.view site.old).tables (S.view site.new).tables result }
    ensures exchanges { Exchanges address.now (sending_of sending)
        (meeting (S.view site.old) (N.coming link.old) (N.exchanges link.old) (N.count link.old) (C.told clock.old))
        (meeting (S.view site.new) (N.coming link.new) (N.exchanges link.new) (N.count link.new) (C.told clock.new)) result }
{
    let made = clock.now();
    let Some(request) = make_message(site, made, sending)? else {
        return Ok(None);
    };
    let bytes = request_bytes(alloc, address, &request)?;
    let response = link.ask(bytes.as_slice())?;
    let now = clock.now();
    let told = told_in(alloc, request.kind(), response.as_slice())?;
    let reply = take(site, now, told)?;
    Ok(Some(reply))
}
