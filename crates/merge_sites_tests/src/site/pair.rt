//! A publisher and a subscriber at keepers in memory, and what they do step by step.
use super::edits::{Edit, can_be_asked, change_of};
use super::playing::Play;
use super::starting::{Call, begun, beside, started};
use super::telling::{
    check_publisher, check_subscriber, told, write_own, write_publisher, write_subscriber,
};
use merge_batch::{Refusal, Reply, Request};
use merge_keeper::MemoryKeeper;
use merge_model::Taken;
use merge_resolve::{Handed, Priority};
use merge_site::{KeptPublisher, KeptSubscriber};
use merge_types::{Change, Moment, NoMemory, RowId};
use std::alloc::Global;
use std::process::Abort;
use std::test::Fail;

/// Two sites, and the last request and reply that were made.
#[derive(Drop)]
pub struct Pair {
    alloc: Global,
    publisher: KeptPublisher<MemoryKeeper>,
    subscriber: KeptSubscriber<MemoryKeeper>,
    resolvers: Vec<Handed>,
    request: Option<Request>,
    reply: Option<Reply>,
}

/// What the publisher does by itself.
#[derive(Clone, Copy, Debug)]
pub enum There {
    Changes(Edit),
    Closes,
    Purges,
    Restarts,
}

/// What the subscriber does by itself.
#[derive(Clone, Copy, Debug)]
pub enum Here {
    Changes(Edit),
    Closes,
    BeginsAnew,
    Restarts,
}

/// What the subscriber sends.
#[derive(Clone, Copy, Debug)]
pub enum Sends {
    Join,
    Upload,
    Ranges,
    Download,
}

/// A call of one of the sites. The publisher answers the last request, and the subscriber takes the
/// last reply.
#[derive(Clone, Copy, Debug)]
pub enum Step {
    There(There),
    Here(Here),
    Sends(Sends),
    Answers,
    Takes,
}

/// What a step answers where there is no message.
pub const NO_MESSAGE: u64 = 999;

// The number of the change that made the row.
fn number_of(row: RowId) -> u64 {
    match row.maker() {
        Some(dot) => dot.number,
        None => 0,
    }
}

// Local changes and messages.
impl Pair {
    fn change_publisher(&mut self, now: Moment, change: &Change) -> Result<RowId, Refusal> {
        if !can_be_asked(self.publisher.publication(), change) {
            return Err(Refusal::NoRow);
        }
        self.publisher.local(now, change)
    }

    fn change_subscriber(&mut self, now: Moment, change: &Change) -> Result<RowId, Refusal> {
        if !can_be_asked(self.subscriber.publication(), change) {
            return Err(Refusal::NoRow);
        }
        self.subscriber.local(now, change)
    }

    // The number of the message.
    fn join(&mut self) -> Result<u64, Refusal> {
        let Some(join) = self.subscriber.make_join()? else {
            return Ok(NO_MESSAGE);
        };
        self.request = Some(Request::Join(join));
        Ok(join.seq)
    }

    // The last change that is sent.
    fn upload(&mut self, now: Moment) -> Result<u64, Refusal> {
        let Some(upload) = self.subscriber.make_upload(now)? else {
            return Ok(NO_MESSAGE);
        };
        let through = upload.through;
        self.request = Some(Request::Upload(upload));
        Ok(through)
    }

    // How many articles have ranges.
    fn ranges(&mut self) -> Result<u64, Refusal> {
        let Some(ask) = self.subscriber.make_ranges()? else {
            return Ok(NO_MESSAGE);
        };
        let count = ask.wants.len() as u64;
        self.request = Some(Request::Ranges(ask));
        Ok(count)
    }

    // From which generation on it asks.
    fn download(&mut self) -> Result<u64, Refusal> {
        let ask = self.subscriber.make_ask()?;
        self.request = Some(Request::Download(ask));
        Ok(ask.from)
    }

    fn answer_last(&mut self, now: Moment) -> Result<u64, Refusal> {
        let Some(request) = &self.request else {
            return Ok(NO_MESSAGE);
        };
        let reply = self.publisher.handle(&mut self.resolvers, now, request)?;
        let (_, number) = told(&reply);
        self.reply = Some(reply);
        Ok(number)
    }

    // 1 where the reply acted.
    fn take_last(&mut self, now: Moment) -> Result<u64, Refusal> {
        let Some(reply) = &self.reply else {
            return Ok(NO_MESSAGE);
        };
        match self.subscriber.take_reply(now, reply)? {
            Taken::Acted => Ok(1),
            Taken::Missed { .. } => Ok(0),
        }
    }
}

// Steps. Each gives a number of its answer: of a change the number of the change that made its row, of
// a closing the last closed generation, of a purge how many tombstones it forgot, and of a making anew
// how many rows it discarded.
impl Pair {
    fn step_there(&mut self, now: Moment, step: There) -> Result<u64, Refusal> {
        match step {
            There::Changes(edit) => {
                let change = change_of(self.alloc, edit)?;
                Ok(number_of(self.change_publisher(now, &change)?))
            }
            There::Closes => self.publisher.close_generation(now),
            There::Purges => Ok(self.publisher.purge(now)?.tombstones),
            There::Restarts => {
                self.publisher.restart()?;
                Ok(0)
            }
        }
    }

    fn step_here(&mut self, now: Moment, step: Here) -> Result<u64, Refusal> {
        match step {
            Here::Changes(edit) => {
                let change = change_of(self.alloc, edit)?;
                Ok(number_of(self.change_subscriber(now, &change)?))
            }
            Here::Closes => self.subscriber.close_generation(now),
            Here::BeginsAnew => self.subscriber.reinitialise(now),
            Here::Restarts => {
                self.subscriber.restart()?;
                Ok(0)
            }
        }
    }

    fn send(&mut self, now: Moment, message: Sends) -> Result<u64, Refusal> {
        match message {
            Sends::Join => self.join(),
            Sends::Upload => self.upload(now),
            Sends::Ranges => self.ranges(),
            Sends::Download => self.download(),
        }
    }
}

/// What a publisher asks of conflicts.
pub fn resolvers(alloc: Global) -> Result<Vec<Handed>, Fail> {
    let mut resolvers: Vec<Handed> = Vec::new(alloc);
    resolvers.push(Box::new(alloc, Priority::new())?)?;
    Ok(resolvers)
}

impl Play for Pair {
    fn begun(alloc: Global, failing: Option<Call>) -> Result<Self, Fail> {
        let made = beside(resolvers(alloc)?, begun(alloc, failing))?;
        let (resolvers, (publisher, subscriber)) = made;
        Ok(Pair {
            alloc,
            publisher,
            subscriber,
            resolvers,
            request: None,
            reply: None,
        })
    }

    fn started_again(self) -> Result<Self, Fail> {
        let Pair {
            alloc,
            publisher,
            subscriber,
            resolvers,
            request,
            reply,
        } = self;
        let there = publisher.into_keeper().left();
        let here = subscriber.into_keeper().left();
        let kept = (resolvers, request, reply);
        let (kept, (publisher, subscriber)) = beside(kept, started(alloc, there, here))?;
        let (resolvers, request, reply) = kept;
        Ok(Pair {
            alloc,
            publisher,
            subscriber,
            resolvers,
            request,
            reply,
        })
    }

    fn step(&mut self, now: Moment, step: Step) -> Result<u64, Refusal> {
        match step {
            Step::There(step) => self.step_there(now, step),
            Step::Here(step) => self.step_here(now, step),
            Step::Sends(message) => self.send(now, message),
            Step::Answers => self.answer_last(now),
            Step::Takes => self.take_last(now),
        }
    }

    fn answer(&mut self, now: Moment, request: &Request) -> Result<Reply, Refusal> {
        self.publisher.handle(&mut self.resolvers, now, request)
    }

    fn take(&mut self, now: Moment, reply: &Reply) -> Result<Taken, Refusal> {
        self.subscriber.take_reply(now, reply)
    }

    fn write_there(&self, text: &mut String) -> Result<(), NoMemory> {
        write_publisher(text, &self.publisher)
    }

    fn write_here(&self, text: &mut String) -> Result<(), NoMemory> {
        write_subscriber(text, &self.subscriber)
    }

    fn write_own(&self, text: &mut String) -> Result<(), NoMemory> {
        write_own(text, &self.subscriber)
    }

    fn rows_here(&self) -> usize {
        self.subscriber.rows().len()
    }

    fn faults(&self) -> (u64, u64) {
        (self.publisher.faults(), self.subscriber.faults())
    }

    fn check<R: Abort>(&self, rt: &R) -> Result<(), NoMemory> {
        check_publisher(rt, &self.publisher)?;
        check_subscriber(rt, &self.subscriber);
        Ok(())
    }
}
