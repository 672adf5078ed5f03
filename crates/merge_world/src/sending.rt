//! Messages that subscribers make.
ghost use Rattle.std.specs.Prelude.{◌≡◌, ◌<◌, option_map, vec_len, vec_capacity};
ghost use Rattle.merge_batch.specs.declared.request.Request.TheVariants as request;
ghost use Rattle.merge_model.specs.World.Calls.{message_commits, message_or_none};
ghost use Rattle.merge_model.specs.World.Steps.{Send};
ghost use Rattle.merge_world.specs.Messages.{request_of_sending, sending_of};
ghost use Rattle.merge_world.specs.Views.{Does, IsOrdered, SubscriberCall};

use crate::sites::{PublisherSite, SubscriberSite};
use crate::world::{Seen, Sites};
use merge_batch::{Join, RangeAsk, Refusal, Request, Upload};
use merge_model::{Message, Outcome};
use merge_types::{Moment, SiteId};

/// A message that a subscriber is told to make.
#[derive(Clone, Copy, Debug, PartialEq, Eq)]
pub enum Sending {
    Join,
    Upload,
    Ranges,
    Download,
}

fn of_join(join: Option<Join>) -> Option<Request>
    ensures { result ≡ option_map request.Join join }
{
    match join {
        None => None,
        Some(join) => Some(Request::Join(join)),
    }
}

fn of_upload(upload: Option<Upload>) -> Option<Request>
    ensures { result ≡ option_map request.Upload upload }
{
    match upload {
        None => None,
        Some(upload) => Some(Request::Upload(upload)),
    }
}

fn of_ranges(ask: Option<RangeAsk>) -> Option<Request>
    ensures { result ≡ option_map request.Ranges ask }
{
    match ask {
        None => None,
        Some(ask) => Some(Request::Ranges(ask)),
    }
}

/// The message that a subscriber makes, where it has one to make.
pub fn request_of<S: SubscriberSite>(
    subscriber: &mut S,
    moment: Moment,
    sending: Sending,
) -> Result<Option<Request>, Refusal>
    ensures called { SubscriberCall (message_or_none (S.view subscriber.old).tables (request_of_sending (sending_of sending) moment (S.view subscriber.old).tables)) message_commits (S.view subscriber.old) (S.view subscriber.new) result }
    ensures publication { (S.view subscriber.new).publication ≡ (S.view subscriber.old).publication }
    ensures site { (S.view subscriber.new).tables.site ≡ (S.view subscriber.old).tables.site }
{
    match sending {
        Sending::Join => Ok(of_join(subscriber.make_join()?)),
        Sending::Upload => Ok(of_upload(subscriber.make_upload(moment)?)),
        Sending::Ranges => Ok(of_ranges(subscriber.make_ranges()?)),
        Sending::Download => Ok(Some(Request::Download(subscriber.make_ask()?))),
    }
}

impl<P: PublisherSite, S: SubscriberSite> Sites<P, S> {
    /// A subscriber makes a message, which enters the pool.
    pub fn send(&mut self, site: SiteId, sending: Sending) -> Outcome
        requires { IsOrdered (⟦<Sites<P, S> as Seen>⟧.seen self.old) }
        ensures { Does (Send site (sending_of sending)) (⟦<Sites<P, S> as Seen>⟧.seen self.old) (⟦<Sites<P, S> as Seen>⟧.seen self.new) result }
    {
        if let Err(_) = self.make_room() {
            return Outcome::Refuses(Refusal::NoMemory);
        }
        self.send_with_room(site, sending)
    }

    fn send_with_room(&mut self, site: SiteId, sending: Sending) -> Outcome
        requires ordered { IsOrdered (⟦<Sites<P, S> as Seen>⟧.seen self.old) }
        requires room { vec_len self.old.pool < vec_capacity self.old.pool }
        ensures { Does (Send site (sending_of sending)) (⟦<Sites<P, S> as Seen>⟧.seen self.old) (⟦<Sites<P, S> as Seen>⟧.seen self.new) result }
    {
        let moment = self.moment;
        match self.place_of(site) {
            None => Outcome::Refuses(Refusal::UnknownSite { site }),
            Some(place) => match request_of(&mut self.subscribers[place], moment, sending) {
                Ok(None) => Outcome::NoPost,
                Ok(Some(request)) => self.post(site, Message::Asks(request)),
                Err(refusal) => Outcome::Refuses(refusal),
            },
        }
    }
}
