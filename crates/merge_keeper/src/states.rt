//! The state records of both kinds of site, and the values of conflicts.
ghost use Rattle.std.specs.Prelude.{◌≡◌, ◌++◌, OnOk};
ghost use Rattle.merge_record.specs.Reading.{Gives};
ghost use Rattle.merge_keeper.specs.States.{AreTalkNumbers, front_spelling, head_fields_at, head_spelling, AreHeadFields, IsFront, talk_spelling, front_talk_at, is_talk, numbers_at, of_publisher_at, talk_at, verdict_at};
ghost use Rattle.merge_keeper.specs.Entries.{verdict_number};

use merge_conflict::Verdict;
use merge_record::{Field, Stop};
use merge_types::{Moment, NoMemory, RowId, SiteId};
use merge_units::Version;
use std::alloc::Global;

/// What the state records of both kinds of site begin with.
#[derive(Clone, Copy, Debug, PartialEq, Eq)]
pub struct Front {
    pub site: u16,
    pub changes: u64,
    pub last_closed: u64,
    /// How many entries the open generation holds.
    pub filled: u64,
    pub conflicts: u64,
    pub latest: u64,
}

/// The state record of the publisher.
#[derive(Clone, Copy, Debug, PartialEq, Eq)]
pub struct PublisherState(pub Front);

/// Where a subscriber stands with the publisher, as the state record has it: the outstanding message
/// by its number, 0 where none is, its kind (0 none, 1 join, 2 upload, 3 ranges, 4 download), and the
/// generations that it asks from and up to, 0 where its kind names none; the phase is 1 for joining
/// and 2 for joined.
#[derive(Clone, Copy, Debug, PartialEq, Eq)]
pub struct Talk {
    pub seq: u64,
    pub outstanding: u64,
    pub from: u64,
    pub to: u64,
    pub received: u64,
    pub watermark: u64,
    pub kind: u8,
    pub phase: u8,
}

/// The state record of a subscriber.
#[derive(Clone, Copy, Debug, PartialEq, Eq)]
pub struct SubscriberState {
    pub front: Front,
    pub talk: Talk,
}

/// What the record of a conflict begins with. Its number is the record's key.
#[derive(Clone, Copy, Debug, PartialEq, Eq)]
pub struct ConflictHead {
    pub article: u8,
    pub row: RowId,
    /// The number of its kind.
    pub kind: u8,
    /// The site whose version lost.
    pub from: SiteId,
    pub verdict: Verdict,
    pub moment: Moment,
}

/// A row of the conflict table without its number.
#[derive(Debug, Drop)]
pub struct ConflictValue {
    pub head: ConflictHead,
    pub losing: Version,
}

impl Field for Front {
    ghost use Rattle.merge_keeper.specs.States.{front_at, front_spelling, IsFront};

    ghost spelling = { front_spelling };

    ghost reading = { front_at };

    ghost IsSpelled = { IsFront };

    ghost IsShort = { λ _. Unit {0} };

    fn put(&self, out: &mut Vec<u8>) -> Result<(), NoMemory> {
        let counts = (self.filled, (self.conflicts, self.latest));
        (self.site, (self.changes, (self.last_closed, counts))).put(out)
    }

    #[tactic(auto, unfolding(crate::specs::States::front_at))]
    fn take(alloc: Global, bytes: &[u8]) -> Result<(Front, &[u8]), Stop> {
        let (site, rest) = u16::take(alloc, bytes)?;
        let (changes, rest) = u64::take(alloc, rest)?;
        let (last_closed, rest) = u64::take(alloc, rest)?;
        let (filled, rest) = u64::take(alloc, rest)?;
        let (conflicts, rest) = u64::take(alloc, rest)?;
        let (latest, rest) = u64::take(alloc, rest)?;
        let front = Front {
            site,
            changes,
            last_closed,
            filled,
            conflicts,
            latest,
        };
        Ok((front, rest))
    }
}

#[tactic(auto, unfolding(crate::specs::States::of_publisher_at))]
fn take_publisher(alloc: Global, bytes: &[u8]) -> Result<(PublisherState, &[u8]), Stop>
    ensures { Gives (λ x. (x.0, x.1.now)) result (of_publisher_at bytes.now) }
{
    let (front, rest) = Front::take(alloc, bytes)?;
    Ok((PublisherState(front), rest))
}

impl Field for PublisherState {
    ghost use Rattle.merge_keeper.specs.States.{publisher_state_at, publisher_spelling, IsPublisherState};

    ghost spelling = { publisher_spelling };

    ghost reading = { publisher_state_at };

    ghost IsSpelled = { IsPublisherState };

    ghost IsShort = { λ _. Unit {0} };

    fn put(&self, out: &mut Vec<u8>) -> Result<(), NoMemory> {
        out.extend_from_slice(&[1])?;
        self.0.put(out)
    }

    #[tactic(auto, unfolding(crate::specs::States::publisher_state_at))]
    fn take(alloc: Global, bytes: &[u8]) -> Result<(PublisherState, &[u8]), Stop> {
        let (tag, rest) = u8::take(alloc, bytes)?;
        if tag == 1 {
            take_publisher(alloc, rest)
        } else {
            Err(Stop::Broken)
        }
    }
}

#[tactic(auto, unfolding(crate::specs::States::numbers_at))]
fn take_numbers(alloc: Global, bytes: &[u8]) -> Result<(Talk, &[u8]), Stop>
    ensures { Gives (λ x. (x.0, x.1.now)) result (numbers_at bytes.now) }
{
    let (seq, rest) = u64::take(alloc, bytes)?;
    let (outstanding, rest) = u64::take(alloc, rest)?;
    let (from, rest) = u64::take(alloc, rest)?;
    let (to, rest) = u64::take(alloc, rest)?;
    let (received, rest) = u64::take(alloc, rest)?;
    let (watermark, rest) = u64::take(alloc, rest)?;
    let (kind, rest) = u8::take(alloc, rest)?;
    let (phase, rest) = u8::take(alloc, rest)?;
    let talk = Talk {
        seq,
        outstanding,
        from,
        to,
        received,
        watermark,
        kind,
        phase,
    };
    Ok((talk, rest))
}

// Whether the kind and the phase are known, and what a message of the kind does not ask is 0.
fn is_talk(talk: Talk) -> bool
    ensures { result ≡ is_talk talk }
{
    let asks = talk.kind == 2 || (talk.to == 0 && (talk.kind == 4 || talk.from == 0));
    talk.kind <= 4 && asks && (talk.phase == 1 || talk.phase == 2)
}

#[tactic(auto, unfolding(crate::specs::States::talk_at))]
fn take_talk(alloc: Global, bytes: &[u8]) -> Result<(Talk, &[u8]), Stop>
    ensures { Gives (λ x. (x.0, x.1.now)) result (talk_at bytes.now) }
{
    let (talk, rest) = take_numbers(alloc, bytes)?;
    if is_talk(talk) {
        return Ok((talk, rest));
    }
    Err(Stop::Broken)
}

fn put_talk(out: &mut Vec<u8>, talk: Talk) -> Result<(), NoMemory>
    ensures fits { OnOk result (AreTalkNumbers talk) }
    ensures bytes { OnOk result (out.new.items ≡ out.old.items ++ talk_spelling talk) }
{
    let marks = (talk.received, (talk.watermark, (talk.kind, talk.phase)));
    (talk.seq, (talk.outstanding, (talk.from, (talk.to, marks)))).put(out)
}

fn put_front_and_talk(out: &mut Vec<u8>, state: &SubscriberState) -> Result<(), NoMemory>
    ensures front { OnOk result (IsFront state.now.front) }
    ensures talk { OnOk result (AreTalkNumbers state.now.talk) }
    ensures bytes { OnOk result (out.new.items ≡ out.old.items ++ (front_spelling state.now.front ++ talk_spelling state.now.talk)) }
{
    state.front.put(out)?;
    put_talk(out, state.talk)
}

#[tactic(auto, unfolding(crate::specs::States::front_talk_at))]
fn take_front_and_talk(alloc: Global, bytes: &[u8]) -> Result<(SubscriberState, &[u8]), Stop>
    ensures { Gives (λ x. (x.0, x.1.now)) result (front_talk_at bytes.now) }
{
    let (front, rest) = Front::take(alloc, bytes)?;
    let (talk, rest) = take_talk(alloc, rest)?;
    Ok((SubscriberState { front, talk }, rest))
}

impl Field for SubscriberState {
    ghost use Rattle.merge_keeper.specs.States.{subscriber_state_at, subscriber_spelling, IsSubscriberState, IsShortState};

    ghost spelling = { subscriber_spelling };

    ghost reading = { subscriber_state_at };

    ghost IsSpelled = { IsSubscriberState };

    ghost IsShort = { IsShortState };

    fn put(&self, out: &mut Vec<u8>) -> Result<(), NoMemory> {
        out.extend_from_slice(&[2])?;
        put_front_and_talk(out, self)
    }

    #[tactic(auto, unfolding(crate::specs::States::subscriber_state_at))]
    fn take(alloc: Global, bytes: &[u8]) -> Result<(SubscriberState, &[u8]), Stop> {
        let (tag, rest) = u8::take(alloc, bytes)?;
        if tag == 2 {
            take_front_and_talk(alloc, rest)
        } else {
            Err(Stop::Broken)
        }
    }
}

#[tactic(auto, unfolding(crate::specs::States::verdict_at))]
fn take_verdict(bytes: &[u8]) -> Result<(Verdict, &[u8]), Stop>
    ensures { Gives (λ x. (x.0, x.1.now)) result (verdict_at bytes.now) }
{
    match bytes {
        [1, rest @ ..] => Ok((Verdict::Publisher, rest)),
        [2, rest @ ..] => Ok((Verdict::Subscriber, rest)),
        [3, rest @ ..] => Ok((Verdict::Custom, rest)),
        [4, rest @ ..] => Ok((Verdict::Purged, rest)),
        [5, rest @ ..] => Ok((Verdict::Discarded, rest)),
        _ => Err(Stop::Broken),
    }
}

fn verdict_number(verdict: Verdict) -> u8
    ensures { result ≡ verdict_number verdict }
{
    match verdict {
        Verdict::Publisher => 1,
        Verdict::Subscriber => 2,
        Verdict::Custom => 3,
        Verdict::Purged => 4,
        Verdict::Discarded => 5,
    }
}

#[tactic(auto, unfolding(crate::specs::States::head_fields_at))]
fn take_head_fields(alloc: Global, bytes: &[u8]) -> Result<(ConflictHead, &[u8]), Stop>
    ensures { Gives (λ x. (x.0, x.1.now)) result (head_fields_at bytes.now) }
{
    let (article, rest) = u8::take(alloc, bytes)?;
    let (row, rest) = u128::take(alloc, rest)?;
    let (kind, rest) = u8::take(alloc, rest)?;
    let (from, rest) = u16::take(alloc, rest)?;
    let (verdict, rest) = take_verdict(rest)?;
    let (moment, rest) = u64::take(alloc, rest)?;
    let head = ConflictHead {
        article,
        row: RowId(row),
        kind,
        from: SiteId(from),
        verdict,
        moment: Moment(moment),
    };
    Ok((head, rest))
}

// Writes a head whose verdict has this number.
fn put_head(out: &mut Vec<u8>, head: ConflictHead, verdict: u8) -> Result<(), NoMemory>
    requires { verdict ≡ verdict_number head.verdict }
    ensures fits { OnOk result (AreHeadFields head) }
    ensures bytes { OnOk result (out.new.items ≡ out.old.items ++ head_spelling head) }
{
    let outcome = (head.from.0, (verdict, head.moment.0));
    (head.article, (head.row.0, (head.kind, outcome))).put(out)
}

impl Field for ConflictHead {
    ghost use Rattle.merge_keeper.specs.States.{head_at, head_spelling, IsHead, IsShortHead};

    ghost spelling = { head_spelling };

    ghost reading = { head_at };

    ghost IsSpelled = { IsHead };

    ghost IsShort = { IsShortHead };

    fn put(&self, out: &mut Vec<u8>) -> Result<(), NoMemory> {
        put_head(out, *self, verdict_number(self.verdict))
    }

    #[tactic(auto, unfolding(crate::specs::States::head_at))]
    fn take(alloc: Global, bytes: &[u8]) -> Result<(ConflictHead, &[u8]), Stop> {
        let (head, rest) = take_head_fields(alloc, bytes)?;
        if head.kind <= 4 {
            return Ok((head, rest));
        }
        Err(Stop::Broken)
    }
}

impl Field for ConflictValue {
    ghost use Rattle.merge_keeper.specs.States.{conflict_at, conflict_spelling, IsConflict, IsShortConflict};

    ghost spelling = { conflict_spelling };

    ghost reading = { conflict_at };

    ghost IsSpelled = { IsConflict };

    ghost IsShort = { IsShortConflict };

    fn put(&self, out: &mut Vec<u8>) -> Result<(), NoMemory> {
        self.head.put(out)?;
        self.losing.put(out)
    }

    #[tactic(auto, unfolding(crate::specs::States::conflict_at))]
    fn take(alloc: Global, bytes: &[u8]) -> Result<(ConflictValue, &[u8]), Stop> {
        let (head, rest) = ConflictHead::take(alloc, bytes)?;
        let (losing, rest) = Version::take(alloc, rest)?;
        Ok((ConflictValue { head, losing }, rest))
    }
}
