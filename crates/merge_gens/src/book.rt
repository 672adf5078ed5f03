//! A site's generations, and what is kept of the closed ones.
ghost use Rattle.std.specs.Prelude.{◌≡◌, ◌+◌, ◌≤◌, ◌<◌, ◌↔◌, [], nat_lt, nat_le, IsTrue, count_by, length, IfOk, IsOk, OnOk, OnErr};
ghost use Rattle.merge_types.specs.Limits.{entry_limit};
ghost use Rattle.merge_gens.specs.Filling.{generations_of, filling_after_close};
ghost use Rattle.merge_gens.specs.Book.{IsSound, moved_to, book_after_entries, closed_now, moment_of, book_after_purge, book_after_forgetting, last_before};
ghost use Rattle.merge_gens.specs.Plan.{book_after_plan, IsPrepared, AreAllowed, answers_of, book_after_all};

use crate::closings::{
    add_closings, append, count_before, each_closed, generations_rise, keep_above, keep_from,
    last_before, moment_at,
};
use crate::{Closing, Closings, Filling, GenerationAnswers, GenerationChange, GenerationPlan};
use merge_types::limits::ENTRY_LIMIT;
use merge_types::{Listing, Moment, NoMemory};
use std::alloc::Global;
use std::marker::Model;

/// A site's generations: where the filling stands, and the closed ones that are kept. SQL Server
/// keeps them in `MSmerge_genhistory`.
#[derive(Debug, Drop)]
pub struct GenerationBook {
    filling: Filling,
    closings: Vec<Closing>,
}

impl Model for GenerationBook {
    ghost use Rattle.std.specs.Prelude.{◌-◌, vec_len};
    ghost use Rattle.std.specs.Vec.{vec_capacity};
    ghost use Rattle.merge_gens.specs.Book.{BookWithRoom, IsSound};

    ghost Value = { BookWithRoom };

    ghost view = { λ b. record { book = record { filling = b.filling; closings = b.closings.items }; room = vec_capacity b.closings - vec_len b.closings } };

    ghost invariant = { λ b. IsSound (record { filling = b.filling; closings = b.closings.items }) };
}

impl GenerationBook {
    /// No entry yet. The first generation is open.
    pub fn new(alloc: Global) -> Self
        ensures { result.book ≡ record { filling = record { last_closed = 0; filled = 0 }; closings = [] } }
    {
        GenerationBook {
            filling: Filling {
                last_closed: 0,
                filled: 0,
            },
            closings: Vec::new(alloc),
        }
    }

    /// Whether a book can have these parts: the open generation is not full, and the kept
    /// generations ascend and have closed.
    pub fn can_restore(filling: Filling, closings: &[Closing]) -> bool
        ensures { IsTrue result ↔ IsSound (record { filling = filling; closings = closings.now }) }
    {
        filling.filled < ENTRY_LIMIT
            && generations_rise(closings)
            && each_closed(closings, filling.last_closed)
    }

    /// The book with these parts, with no memory taken.
    pub fn restore(filling: Filling, closings: Closings) -> Self
        requires { IsSound (record { filling = filling; closings = closings }) }
        ensures { result.book ≡ record { filling = filling; closings = closings } }
    {
        GenerationBook {
            filling,
            closings: closings.into_vec(),
        }
    }

    /// Adds so many entries, and gives the generation of each, in order. A generation closes as its
    /// 1000th entry is added, and keeps the moment.
    pub fn enter(&mut self, count: u64, moment: Moment) -> Result<Vec<u64>, NoMemory>
        requires { self.old.book.filling.last_closed + count < u64.MAX }
        ensures generations { IfOk result (λ generations. generations.items ≡ generations_of self.old.book.filling count) }
        ensures ok { OnOk result (self.new.book ≡ book_after_entries self.old.book count moment) }
        ensures err { OnErr result (self.new.book ≡ self.old.book) }

        // What takes no memory is not refused.
        ensures nothing { count ≡ 0 → IsOk result }
    {
        let (generations, plan) = self.prepare_enter(count, moment)?;
        self.settle(plan);
        Ok(generations)
    }

    /// Closes the open generation where it has an entry, and gives the last closed one.
    pub fn close(&mut self, moment: Moment) -> Result<u64, NoMemory>
        requires { self.old.book.filling.last_closed < u64.MAX }
        ensures last { IfOk result (λ last. last ≡ (filling_after_close self.old.book.filling).last_closed) }
        ensures ok { OnOk result (self.new.book ≡ closed_now self.old.book moment) }
        ensures err { OnErr result (self.new.book ≡ self.old.book) }

        // What takes no memory is not refused.
        ensures nothing { self.old.book.filling.filled ≡ 0 → IsOk result }
    {
        let (last, plan) = self.prepare_close(moment)?;
        self.settle(plan);
        Ok(last)
    }

    /// Takes the memory for adding so many entries, and gives their generations and the plan.
    pub fn prepare_enter(
        &mut self,
        count: u64,
        moment: Moment,
    ) -> Result<(Vec<u64>, GenerationPlan), NoMemory>
        requires { self.old.book.filling.last_closed + count < u64.MAX }
        ensures generations { IfOk result (λ prepared. prepared.0.items ≡ generations_of self.old.book.filling count) }
        ensures plan { IfOk result (λ prepared. book_after_plan self.old.book prepared.1 ≡ book_after_entries self.old.book count moment) }
        ensures ready { IfOk result (λ prepared. IsPrepared self.new prepared.1) }
        ensures same { self.new.book ≡ self.old.book }
        ensures room { self.old.room ≤ self.new.room }

        // What takes no memory is not refused.
        ensures nothing { count ≡ 0 → IsOk result }
    {
        let generations = self.filling.generations(self.alloc(), count)?;
        let plan = self.prepare_to(self.filling.filled_by(count), moment)?;
        Ok((generations, plan))
    }

    /// Takes the memory for closing the open generation, and gives the last closed one afterwards
    /// and the plan.
    pub fn prepare_close(&mut self, moment: Moment) -> Result<(u64, GenerationPlan), NoMemory>
        requires { self.old.book.filling.last_closed < u64.MAX }
        ensures last { IfOk result (λ prepared. prepared.0 ≡ (filling_after_close self.old.book.filling).last_closed) }
        ensures plan { IfOk result (λ prepared. book_after_plan self.old.book prepared.1 ≡ closed_now self.old.book moment) }
        ensures ready { IfOk result (λ prepared. IsPrepared self.new prepared.1) }
        ensures same { self.new.book ≡ self.old.book }
        ensures room { self.old.room ≤ self.new.room }

        // What takes no memory is not refused.
        ensures nothing { self.old.book.filling.filled ≡ 0 → IsOk result }
    {
        let filling = self.filling.closed();
        let plan = self.prepare_to(filling, moment)?;
        Ok((filling.last_closed, plan))
    }

    /// Takes the memory for several changes, and gives what each answers and the plan.
    pub fn prepare(
        &mut self,
        changes: &[GenerationChange],
    ) -> Result<(GenerationAnswers, GenerationPlan), NoMemory>
        requires { AreAllowed self.old.book.filling changes.now }
        ensures answers { IfOk result (λ prepared. prepared.0 ≡ answers_of self.old.book.filling changes.now) }
        ensures plan { IfOk result (λ prepared. book_after_plan self.old.book prepared.1 ≡ book_after_all self.old.book changes.now) }
        ensures ready { IfOk result (λ prepared. IsPrepared self.new prepared.1) }
        ensures same { self.new.book ≡ self.old.book }
        ensures room { self.old.room ≤ self.new.room }

        // What takes no memory is not refused.
        ensures nothing { changes.now ≡ [] → IsOk result }
    {
        let (answers, plan) = GenerationPlan::of_changes(self.alloc(), self.filling, changes)?;
        self.closings.reserve(plan.closings.len())?;
        Ok((answers, plan))
    }

    /// Makes the changes of a plan. The book stands where it stood when the plan was made: nothing
    /// was added and nothing closed since. No memory is taken.
    pub fn settle(&mut self, plan: GenerationPlan)
        requires { IsPrepared self.old plan }
        ensures book { self.new.book ≡ book_after_plan self.old.book plan }
        ensures room { self.new.room + length plan.closings ≡ self.old.room }
    {
        let GenerationPlan {
            filling,
            closings,
            ..
        } = plan;
        append(&mut self.closings, closings.as_slice());
        self.filling = filling;
    }

    /// The last closed generation, and 0 before the first has closed.
    pub fn last_closed(&self) -> u64
        ensures { result ≡ self.now.book.filling.last_closed }
    {
        self.filling.last_closed
    }

    /// How many entries the open generation holds.
    pub fn filled(&self) -> u64
        ensures value { result ≡ self.now.book.filling.filled }
        ensures unfilled { result < entry_limit }
    {
        self.filling.filled
    }

    /// The moment at which the generation closed, and none exactly where it is not kept.
    pub fn closed_at(&self, generation: u64) -> Option<u64>
        ensures { result ≡ moment_of self.now.book.closings generation }
    {
        moment_at(&self.closings, generation)
    }

    /// How many closed generations are kept.
    pub fn kept(&self) -> u64
        ensures { result ≡ length self.now.book.closings }
    {
        self.closings.len() as u64
    }

    /// The closed generations that are kept, in ascending order.
    pub fn closings(&self) -> &[Closing]
        ensures closings { result.now ≡ self.now.book.closings }
        ensures sound { IsSound self.now.book }
    {
        // A field that is read tells the proof that the book is sound.
        let _ = &self.filling;
        self.closings.as_slice()
    }

    /// Forgets each kept generation that closed before the cutoff, and gives their count.
    pub fn purge(&mut self, cutoff: Moment) -> u64
        ensures count { result ≡ count_by (λ c. nat_lt c.moment.0 cutoff.0) self.old.book.closings }
        ensures book { self.new.book ≡ book_after_purge self.old.book cutoff }
        ensures room { self.new.room ≡ self.old.room + result }
    {
        let before = self.closings.len();
        keep_from(&mut self.closings, cutoff);
        (before - self.closings.len()) as u64
    }

    /// Forgets each kept generation up to one, and gives their count.
    pub fn forget(&mut self, up_to: u64) -> u64
        ensures count { result ≡ count_by (λ c. nat_le c.generation up_to) self.old.book.closings }
        ensures book { self.new.book ≡ book_after_forgetting self.old.book up_to }
        ensures room { self.new.room ≡ self.old.room + result }
    {
        let before = self.closings.len();
        keep_above(&mut self.closings, up_to);
        (before - self.closings.len()) as u64
    }

    /// The last kept generation that closed before the cutoff. Where moments do not fall, a purge
    /// forgets the generations up to it. The time grows with the generations that are kept.
    pub fn last_before(&self, cutoff: Moment) -> Option<u64>
        ensures { result ≡ last_before cutoff self.now.book.closings }
    {
        last_before(&self.closings, cutoff)
    }

    /// How many generations a purge will forget.
    pub fn count_before(&self, cutoff: Moment) -> u64
        ensures { result ≡ count_by (λ c. nat_lt c.moment.0 cutoff.0) self.now.book.closings }
    {
        count_before(&self.closings, cutoff)
    }

    // Where the book takes its memory from.
    fn alloc(&self) -> Global {
        *self.closings.allocator()
    }

    // Takes the memory for moving on to a filling.
    fn prepare_to(&mut self, filling: Filling, moment: Moment) -> Result<GenerationPlan, NoMemory>
        requires unfilled { filling.filled < entry_limit }
        requires onward { self.old.book.filling.last_closed ≤ filling.last_closed }
        ensures plan { IfOk result (λ plan. book_after_plan self.old.book plan ≡ moved_to self.old.book filling moment) }
        ensures ready { IfOk result (λ plan. IsPrepared self.new plan) }
        ensures same { self.new.book ≡ self.old.book }
        ensures room { self.old.room ≤ self.new.room }
        ensures nothing { self.old.book.filling.last_closed ≡ filling.last_closed → IsOk result }
    {
        let mut closings = Vec::new(self.alloc());
        add_closings(
            &mut closings,
            self.filling.last_closed,
            filling.last_closed,
            moment,
        )?;
        self.closings.reserve(closings.len())?;
        Ok(GenerationPlan {
            before: self.filling,
            filling,
            closings: Listing::new(closings),
        })
    }
}
