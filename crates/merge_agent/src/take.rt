//! What comes of an answer at the subscriber.
ghost use Rattle.std.specs.Prelude.{◌≡◌};
ghost use Rattle.merge_agent.specs.Turns.{StepEnds, taken_by};

use crate::answer::Told;
use crate::fault::{SessionFault, refused_as};
use merge_batch::Reply;
use merge_model::Taken;
use merge_types::Moment;
use merge_world::SubscriberSite;

/// The subscriber takes what was told, and gives the reply. A reply that does not answer the
/// outstanding message does not fit.
pub(crate) fn take<S: SubscriberSite>(
    site: &mut S,
    now: Moment,
    told: Told,
) -> Result<Reply, SessionFault>
    ensures stepped { StepEnds (taken_by (S.view site.old).publication now told (S.view site.old).tables) (S.view site.old).tables (S.view site.new).tables (S.view site.old).faults (S.view site.new).faults result }
    ensures publication { (S.view site.new).publication ≡ (S.view site.old).publication }
{
    match told {
        Told::Spoiled { place } => Err(SessionFault::BadReply { place }),
        Told::Declined { number } => Err(SessionFault::Refused { number }),
        Told::Replied(Reply::Refused { number, values }) => {
            Err(refused_as(number, values.as_slice()))
        }
        Told::Replied(reply) => match site.take_reply(now, &reply)? {
            Taken::Acted => Ok(reply),
            Taken::Missed { .. } => Err(SessionFault::BadReply { place: 0 }),
        },
    }
}
