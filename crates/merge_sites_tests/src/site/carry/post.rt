//! A publisher and a subscriber at keepers in memory, and all messages that were made.
use super::playing::{Answer, Carry, Step};
use super::reports::{
    Report, asked, write_grants_there, write_held_here, write_lost_here, write_rows_here,
    write_rows_there, write_standing_there,
};
use crate::site::edits::{Edit, SITE, can_be_asked, change_of, publication_of};
use crate::site::pair::{Sends, resolvers};
use crate::site::starting::{Both, beside, keeper_of};
use crate::site::telling::told;
use merge_batch::{Refusal, Reply, Request};
use merge_keeper::MemoryKeeper;
use merge_model::Message;
use merge_ports::Entries;
use merge_resolve::Handed;
use merge_site::{KeptPublisher, KeptSubscriber, NotStarted};
use merge_types::{Change, Moment, NoMemory, RowId};
use std::alloc::Global;
use std::test::Fail;

/// Two sites, and the messages that they made, in the order in which they were made.
#[derive(Drop)]
pub struct Post {
    alloc: Global,
    publisher: KeptPublisher<MemoryKeeper>,
    subscriber: KeptSubscriber<MemoryKeeper>,
    resolvers: Vec<Handed>,
    messages: Vec<Message>,
}

// Local changes.
impl Post {
    fn change_publisher(&mut self, now: Moment, change: &Change) -> Result<RowId, Refusal> {
        if !can_be_asked(self.publisher.publication(), change) {
            return Err(Refusal::NoRow);
        }
        self.publisher.local(now, change)
    }

    fn change_subscriber(&mut self, now: Moment, change: &Change) -> Result<RowId, Refusal> {
        if !can_be_asked(self.subscriber.publication(), change) {
            return Err(Refusal::NoRow);
        }
        self.subscriber.local(now, change)
    }

    fn change_there(&mut self, now: Moment, edit: Edit) -> Result<Answer, Refusal> {
        let change = change_of(self.alloc, edit)?;
        Ok(Answer::Row(self.change_publisher(now, &change)?))
    }

    fn change_here(&mut self, now: Moment, edit: Edit) -> Result<Answer, Refusal> {
        let change = change_of(self.alloc, edit)?;
        Ok(Answer::Row(self.change_subscriber(now, &change)?))
    }
}

// Messages. They are numbered from 1.
impl Post {
    fn keep(&mut self, message: Message, says: (&'static str, u64)) -> Result<Answer, NoMemory> {
        self.messages.push(message)?;
        let (word, number) = says;
        Ok(Answer::Message(self.messages.len(), word, number))
    }

    fn keep_request(&mut self, request: Request) -> Result<Answer, NoMemory> {
        let says = asked(&request);
        self.keep(Message::Asks(request), says)
    }

    fn keep_reply(&mut self, reply: Reply) -> Result<Answer, NoMemory> {
        let says = told(&reply);
        self.keep(Message::Replies(reply), says)
    }

    fn send_join(&mut self) -> Result<Answer, Refusal> {
        let Some(join) = self.subscriber.make_join()? else {
            return Ok(Answer::Nothing);
        };
        Ok(self.keep_request(Request::Join(join))?)
    }

    fn send_upload(&mut self, now: Moment) -> Result<Answer, Refusal> {
        let Some(upload) = self.subscriber.make_upload(now)? else {
            return Ok(Answer::Nothing);
        };
        Ok(self.keep_request(Request::Upload(upload))?)
    }

    fn send_ranges(&mut self) -> Result<Answer, Refusal> {
        let Some(ask) = self.subscriber.make_ranges()? else {
            return Ok(Answer::Nothing);
        };
        Ok(self.keep_request(Request::Ranges(ask))?)
    }

    fn send_download(&mut self) -> Result<Answer, Refusal> {
        let ask = self.subscriber.make_ask()?;
        Ok(self.keep_request(Request::Download(ask))?)
    }

    fn send(&mut self, now: Moment, message: Sends) -> Result<Answer, Refusal> {
        match message {
            Sends::Join => self.send_join(),
            Sends::Upload => self.send_upload(now),
            Sends::Ranges => self.send_ranges(),
            Sends::Download => self.send_download(),
        }
    }

    // The publisher answers the request at a place, and the reply is a new message.
    fn answer(&mut self, now: Moment, place: usize) -> Result<Answer, Refusal> {
        let Some(Message::Asks(request)) = self.messages.as_slice().get(place) else {
            return Ok(Answer::NoMessage);
        };
        let reply = self.publisher.handle(&mut self.resolvers, now, request)?;
        Ok(self.keep_reply(reply)?)
    }

    // The subscriber takes the reply at a place.
    fn take(&mut self, now: Moment, place: usize) -> Result<Answer, Refusal> {
        let Some(Message::Replies(reply)) = self.messages.as_slice().get(place) else {
            return Ok(Answer::NoMessage);
        };
        Ok(Answer::Took(self.subscriber.take_reply(now, reply)?))
    }

    fn is_request(&self, place: usize) -> bool {
        matches!(self.messages.as_slice().get(place), Some(Message::Asks(_)))
    }

    // The message at a place comes to where it goes.
    fn deliver(&mut self, now: Moment, place: usize) -> Result<Answer, Refusal> {
        if self.is_request(place) {
            self.answer(now, place)
        } else {
            self.take(now, place)
        }
    }
}

// The site, or why it did not start. A site is of a type that it does not know.
fn or_why<T: Drop>(made: Result<T, NotStarted<MemoryKeeper>>) -> Result<T, Refusal> {
    match made {
        Ok(site) => Ok(site),
        Err(unstarted) => {
            let NotStarted {
                keeper: _keeper,
                why,
            } = unstarted;
            Err(why)
        }
    }
}

fn begun_publisher(alloc: Global, file: &[u8]) -> Result<KeptPublisher<MemoryKeeper>, Fail> {
    let publication = publication_of(alloc, file)?;
    let keeper = keeper_of(alloc, Entries::empty(alloc));
    Ok(or_why(KeptPublisher::new(alloc, keeper, &publication))?)
}

fn begun_subscriber(alloc: Global, file: &[u8]) -> Result<KeptSubscriber<MemoryKeeper>, Fail> {
    let publication = publication_of(alloc, file)?;
    let keeper = keeper_of(alloc, Entries::empty(alloc));
    Ok(or_why(KeptSubscriber::new(alloc, keeper, publication, SITE))?)
}

fn begun_both(alloc: Global, file: &[u8]) -> Result<Both, Fail> {
    beside(begun_publisher(alloc, file)?, begun_subscriber(alloc, file))
}

impl Carry for Post {
    fn begun(alloc: Global, file: &[u8]) -> Result<Self, Fail> {
        let made = beside(resolvers(alloc)?, begun_both(alloc, file))?;
        let (resolvers, (publisher, subscriber)) = made;
        Ok(Post {
            alloc,
            publisher,
            subscriber,
            resolvers,
            messages: Vec::new(alloc),
        })
    }

    fn step(&mut self, now: Moment, step: Step) -> Result<Answer, Refusal> {
        match step {
            Step::There(edit) => self.change_there(now, edit),
            Step::Here(edit) => self.change_here(now, edit),
            Step::Closes => Ok(Answer::Closed(self.subscriber.close_generation(now)?)),
            Step::BeginsAnew => Ok(Answer::Discarded(self.subscriber.reinitialise(now)?)),
            Step::Purges => Ok(Answer::Purged(self.publisher.purge(now)?)),
            Step::Sends(message) => self.send(now, message),
            Step::Delivers(number) => self.deliver(now, number.wrapping_sub(1)),
        }
    }

    fn report(&self, text: &mut String, report: Report) -> Result<(), NoMemory> {
        match report {
            Report::RowsThere => write_rows_there(text, &self.publisher),
            Report::RowsHere => write_rows_here(text, &self.subscriber),
            Report::LostHere => write_lost_here(text, &self.subscriber),
            Report::GrantsThere => write_grants_there(text, &self.publisher),
            Report::HeldHere => write_held_here(text, &self.subscriber),
            Report::StandingThere => write_standing_there(text, &self.publisher),
        }
    }
}
