//! A message of a session, with its answer.
ghost use Rattle.std.specs.Prelude.{◌≡◌, ◌≤◌, Some, option_copied};
ghost use Rattle.merge_world.specs.Messages.{sending_of};
ghost use Rattle.merge_world.specs.Sessions.{Reports, SitesExchange, brings_found, download_in, grants, is_past, last_in, left_in, one_if};
ghost use Rattle.merge_world.specs.Views.{IsOrdered, handed_view};

use crate::sending::Sending;
use crate::sites::{PublisherSite, SubscriberSite};
use crate::world::{Seen, Sites};
use merge_batch::{Downloaded, Refusal, Reply};
use merge_model::{Message, Outcome};
use merge_resolve::Handed;
use merge_types::SiteId;

/// What came of a message and its answer.
#[derive(Debug, Drop)]
pub(crate) enum Exchanged {
    /// The answer was taken. The flag says whether it brings generations, here and in the next.
    Taken(bool),
    /// The message was answered, and the answer was refused, or came to nothing.
    Answered(bool, Option<Refusal>),
    /// The message was refused, or there was none to make.
    Unanswered(Option<Refusal>),
}

/// From where a site asked, and the last closed generation of the publisher, which is beyond.
#[derive(Clone, Copy, Debug, PartialEq, Eq)]
pub(crate) struct Span {
    pub from: u64,
    pub last: u64,
}

/// 1 or 0.
pub(crate) fn one_if(flag: bool) -> u64
    ensures value { result ≡ one_if flag }
    ensures within { result ≤ 1 }
{
    if flag { 1 } else { 0 }
}

// What a message replies to a download, where it does.
fn download_of(message: &Message) -> Option<&Downloaded>
    ensures { option_copied result ≡ download_in (Some message.now) }
{
    match message {
        Message::Asks(_) => None,
        Message::Replies(reply) => match reply {
            Reply::Joined(_) => None,
            Reply::Uploaded(_) => None,
            Reply::Ranged(_) => None,
            Reply::Downloaded(reply) => Some(reply),
            Reply::Refused { .. } => None,
        },
    }
}

// Whether a message grants a range.
fn grants_range(message: &Message) -> bool
    ensures { result ≡ grants (Some message.now) }
{
    match message {
        Message::Asks(_) => false,
        Message::Replies(reply) => match reply {
            Reply::Joined(_) => false,
            Reply::Uploaded(_) => false,
            Reply::Ranged(reply) => reply.grants.len() > 0,
            Reply::Downloaded(_) => false,
            Reply::Refused { .. } => false,
        },
    }
}

impl<P: PublisherSite, S: SubscriberSite> Sites<P, S> {
    // A message of a site comes to the publisher.
    fn ask(&mut self, resolvers: &mut Vec<Handed>, site: SiteId, sending: Sending) -> Outcome
        requires { IsOrdered (⟦<Sites<P, S> as Seen>⟧.seen self.old) }
        ensures { Reports site (sending_of sending) (⟦<Sites<P, S> as Seen>⟧.seen self.old) (⟦<Sites<P, S> as Seen>⟧.seen self.new)
            (handed_view (λ r. says r) (λ r. tally_of r) resolvers.old.items) (handed_view (λ r. says r) (λ r. tally_of r) resolvers.new.items) result }
    {
        match self.send(site, sending) {
            Outcome::Posted(number) => self.deliver(resolvers, number),
            other => other,
        }
    }

    // The last message that was made.
    fn last_message(&self) -> Option<&Message>
        ensures { option_copied result ≡ last_in (⟦<Sites<P, S> as Seen>⟧.seen self.now).pool }
    {
        match self.pool.as_slice().last() {
            Some(letter) => Some(&letter.message),
            None => None,
        }
    }

    // What it replies to a download, where it does.
    fn last_download(&self) -> Option<&Downloaded>
        ensures { option_copied result ≡ download_in (last_in (⟦<Sites<P, S> as Seen>⟧.seen self.now).pool) }
    {
        match self.last_message() {
            Some(message) => download_of(message),
            None => None,
        }
    }

    // Whether that brings generations.
    fn brings_generations(&self) -> bool
        ensures { result ≡ brings_found (download_in (last_in (⟦<Sites<P, S> as Seen>⟧.seen self.now).pool)) }
    {
        match self.last_download() {
            Some(reply) => reply.from < reply.to,
            None => false,
        }
    }

    /// Whether the last message grants a range.
    pub(crate) fn grants(&self) -> bool
        ensures { result ≡ grants (last_in (⟦<Sites<P, S> as Seen>⟧.seen self.now).pool) }
    {
        match self.last_message() {
            Some(message) => grants_range(message),
            None => false,
        }
    }

    /// A message of a site comes to the publisher, and the answer to the site.
    pub(crate) fn exchange(
        &mut self,
        resolvers: &mut Vec<Handed>,
        site: SiteId,
        sending: Sending,
    ) -> Exchanged
        requires { IsOrdered (⟦<Sites<P, S> as Seen>⟧.seen self.old) }
        ensures { SitesExchange site (sending_of sending) (⟦<Sites<P, S> as Seen>⟧.seen self.old) (⟦<Sites<P, S> as Seen>⟧.seen self.new)
            (handed_view (λ r. says r) (λ r. tally_of r) resolvers.old.items) (handed_view (λ r. says r) (λ r. tally_of r) resolvers.new.items) result }
    {
        match self.ask(resolvers, site, sending) {
            Outcome::Posted(number) => {
                let brings = self.brings_generations();
                match self.deliver(resolvers, number) {
                    Outcome::Took(_) => Exchanged::Taken(brings),
                    Outcome::Refuses(refusal) => Exchanged::Answered(brings, Some(refusal)),
                    _ => Exchanged::Answered(brings, None),
                }
            }
            Outcome::Refuses(refusal) => Exchanged::Unanswered(Some(refusal)),
            _ => Exchanged::Unanswered(None),
        }
    }

    /// Whether the site asked from the target on, or the last message replies to no download.
    pub(crate) fn is_past(&self, target: u64) -> bool
        ensures { result ≡ is_past target (download_in (last_in (⟦<Sites<P, S> as Seen>⟧.seen self.now).pool)) }
    {
        match self.last_download() {
            Some(reply) => target <= reply.from,
            None => true,
        }
    }

    /// What is left to download behind the first answer.
    pub(crate) fn downloads_left(&self) -> Option<Span>
        ensures { result ≡ left_in (download_in (last_in (⟦<Sites<P, S> as Seen>⟧.seen self.now).pool)) }
    {
        match self.last_download() {
            Some(reply) if reply.last > reply.from => Some(Span {
                from: reply.from,
                last: reply.last,
            }),
            _ => None,
        }
    }
}
