//! Closed generations.
ghost use Rattle.std.specs.Prelude.{◌≡◌, ◌+◌, ◌≤◌, ◌<◌, ◌++◌, ◌↔◌, nat_lt, nat_le, count_by, filter, length, All, AllPairs, IsTrue, OnOk, IsOk, vec_len};
ghost use Rattle.std.specs.Vec.{vec_capacity};
ghost use Rattle.merge_gens.specs.Book.{closings_between, moment_of, last_before};

use merge_types::{Exact, Listing, Moment, NoMemory};

/// A closed generation. Its moment is the one at which it closed at the publisher, and the number
/// of its last change at a subscriber.
#[derive(Clone, Copy, Debug, PartialEq, Eq)]
pub struct Closing {
    pub generation: u64,
    pub moment: Moment,
}

impl Exact for Closing {
    ghost use Rattle.std.proofs.Common.{rules};

    ghost exact = { Prim.search rules };
}

/// Closed generations. Those of a book ascend.
pub type Closings = Listing<Closing>;

// Adds the generations behind one, up to another.
pub(crate) fn add_closings(
    closings: &mut Vec<Closing>,
    from: u64,
    to: u64,
    moment: Moment,
) -> Result<(), NoMemory>
    requires { from ≤ to }
    ensures items { OnOk result (closings.new.items ≡ closings.old.items ++ closings_between from to moment) }
    ensures nothing { from ≡ to → IsOk result }
{
    for closed in from..to {
        closings.push(Closing {
            generation: closed + 1,
            moment,
        })?;
    }
    Ok(())
}

// Adds closings for which there is room.
pub(crate) fn append(closings: &mut Vec<Closing>, more: &[Closing])
    requires { vec_len closings.old + length more.now ≤ vec_capacity closings.old }
    ensures items { closings.new.items ≡ closings.old.items ++ more.now }
    ensures len { vec_len closings.new ≡ vec_len closings.old + length more.now }
    ensures capacity { vec_capacity closings.new ≡ vec_capacity closings.old }
{
    for closing in more {
        closings.push_reserved(*closing);
    }
}

// The moment of the generation, which is sought by halves.
pub(crate) fn moment_at(closings: &[Closing], generation: u64) -> Option<u64>
    requires { AllPairs (λ a b. a.generation < b.generation) closings.now }
    ensures { result ≡ moment_of closings.now generation }
{
    match closings.binary_search_by_key(&generation, |closing| closing.generation) {
        Ok(place) => Some(closings[place].moment.0),
        Err(_) => None,
    }
}

// Drops the generations that closed before the cutoff.
pub(crate) fn keep_from(closings: &mut Vec<Closing>, cutoff: Moment)
    ensures items { closings.new.items ≡ filter (λ c. nat_le cutoff.0 c.moment.0) closings.old.items }
    ensures len { vec_len closings.new + count_by (λ c. nat_lt c.moment.0 cutoff.0) closings.old.items ≡ vec_len closings.old }
    ensures capacity { vec_capacity closings.new ≡ vec_capacity closings.old }
{
    closings.retain(|closing| closing.moment.0 >= cutoff.0);
}

// Drops the generations up to one.
pub(crate) fn keep_above(closings: &mut Vec<Closing>, up_to: u64)
    ensures items { closings.new.items ≡ filter (λ c. nat_lt up_to c.generation) closings.old.items }
    ensures len { vec_len closings.new + count_by (λ c. nat_le c.generation up_to) closings.old.items ≡ vec_len closings.old }
    ensures capacity { vec_capacity closings.new ≡ vec_capacity closings.old }
{
    closings.retain(|closing| closing.generation > up_to);
}

// The last generation that closed before the cutoff.
pub(crate) fn last_before(closings: &[Closing], cutoff: Moment) -> Option<u64>
    ensures { result ≡ last_before cutoff closings.now }
{
    let mut last = None;
    for closing in closings {
        if closing.moment.0 < cutoff.0 {
            last = Some(closing.generation);
        }
    }
    last
}

// How many generations closed before the cutoff.
pub(crate) fn count_before(closings: &[Closing], cutoff: Moment) -> u64
    ensures { result ≡ count_by (λ c. nat_lt c.moment.0 cutoff.0) closings.now }
{
    closings
        .iter()
        .filter(|closing| closing.moment.0 < cutoff.0)
        .count() as u64
}

// Whether each generation is above those before it.
pub(crate) fn generations_rise(closings: &[Closing]) -> bool
    ensures { IsTrue result ↔ AllPairs (λ a b. a.generation < b.generation) closings.now }
{
    closings.is_sorted_by(|before, behind| before.generation < behind.generation)
}

// Whether each generation is at most the last closed one.
pub(crate) fn each_closed(closings: &[Closing], last_closed: u64) -> bool
    ensures { IsTrue result ↔ All (λ c. c.generation ≤ last_closed) closings.now }
{
    closings
        .iter()
        .all(|closing| closing.generation <= last_closed)
}
