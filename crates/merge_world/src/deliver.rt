//! Messages that come to where they go.
ghost use Rattle.std.specs.Prelude.{◌≡◌, ◌<◌, vec_len, vec_capacity};
ghost use Rattle.merge_model.specs.World.Steps.{Deliver};
ghost use Rattle.merge_world.specs.Views.{IsOrdered, Moves, handed_view};

use crate::places::place_in;
use crate::pool::letter_at;
use crate::sites::{PublisherSite, SubscriberSite};
use crate::world::{Seen, Sites};
use merge_batch::Refusal;
use merge_model::{Message, Outcome};
use merge_resolve::Handed;

impl<P: PublisherSite, S: SubscriberSite> Sites<P, S> {
    /// The message with a number comes to the publisher, or to the subscriber that it replies to.
    pub fn deliver(&mut self, resolvers: &mut Vec<Handed>, number: u64) -> Outcome
        requires { IsOrdered (⟦<Sites<P, S> as Seen>⟧.seen self.old) }
        ensures { Moves (Deliver number) (⟦<Sites<P, S> as Seen>⟧.seen self.old) (⟦<Sites<P, S> as Seen>⟧.seen self.new)
            (handed_view (λ r. says r) (λ r. tally_of r) resolvers.old.items) (handed_view (λ r. says r) (λ r. tally_of r) resolvers.new.items) result }
    {
        if let Err(_) = self.make_room() {
            return Outcome::Refuses(Refusal::NoMemory);
        }
        self.deliver_with_room(resolvers, number)
    }

    fn deliver_with_room(&mut self, resolvers: &mut Vec<Handed>, number: u64) -> Outcome
        requires ordered { IsOrdered (⟦<Sites<P, S> as Seen>⟧.seen self.old) }
        requires room { vec_len self.old.pool < vec_capacity self.old.pool }
        ensures { Moves (Deliver number) (⟦<Sites<P, S> as Seen>⟧.seen self.old) (⟦<Sites<P, S> as Seen>⟧.seen self.new)
            (handed_view (λ r. says r) (λ r. tally_of r) resolvers.old.items) (handed_view (λ r. says r) (λ r. tally_of r) resolvers.new.items) result }
    {
        let moment = self.moment;
        match letter_at(self.pool.as_slice(), number) {
            None => Outcome::NoLetter,
            Some(letter) => match &letter.message {
                Message::Asks(request) => {
                    let site = letter.site;
                    match self.publisher.handle(resolvers, moment, request) {
                        Ok(reply) => self.post(site, Message::Replies(reply)),
                        Err(refusal) => Outcome::Refuses(refusal),
                    }
                }
                Message::Replies(reply) => {
                    let site = letter.site;
                    match place_in(&self.subscribers, site) {
                        None => Outcome::Refuses(Refusal::UnknownSite { site }),
                        Some(place) => match self.subscribers[place].take_reply(moment, reply) {
                            Ok(taken) => Outcome::Took(taken),
                            Err(refusal) => Outcome::Refuses(refusal),
                        },
                    }
                }
            },
        }
    }
}
