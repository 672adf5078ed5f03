//! The messages that change no list: a join, and what asks for ranges and for rows.
ghost use Rattle.std.specs.Prelude.{◌≡◌, ◌<◌, ◌⊎◌, Err, IfOk, IsOk, Ok, map};
ghost use Rattle.merge_types.specs.Limits.{counter_limit};
ghost use Rattle.merge_batch.specs.declared.refusal.Refusal.{Refusal as OneRefusal};
ghost use Rattle.merge_batch.specs.declared.refusal.Refusal.TheVariants.{NoMemory as no_memory};
ghost use Rattle.merge_model.specs.Subscriber.Sending.{make_ask, make_join, make_ranges, want_of, with_message};
ghost use Rattle.merge_model.specs.World.Calls.{RefusesOnlyAs};
ghost use Rattle.merge_sub.specs.Drafts.{IsDrafted, IsDraftedIfAny, after, drafted, drafted_if_any};
ghost use Rattle.merge_sub.specs.Held.{tables_of};

use crate::still::still;
use crate::{Draft, State, Subscriber};
use merge_batch::{Download, Join, Outstanding, RangeAsk, Refusal, Want, Wants};
use merge_ident::Ranges;
use merge_table::Table;
use merge_types::{Listing, NoMemory};
use std::alloc::Global;

impl Subscriber {
    /// Works out a join, which says how far the site is. None where the site has joined. It takes no
    /// memory.
    pub fn draft_join(&mut self) -> Result<Option<(Draft, Join)>, Refusal>
        ensures made { IfOk result (λ made. make_join (tables_of self.old) ≡ Ok (drafted_if_any (tables_of self.old) made)) }
        ensures ready { IfOk result (λ made. IsDraftedIfAny self.new made) }
        ensures refused { RefusesOnlyAs (make_join (tables_of self.old)) result }
        ensures same { tables_of self.new ≡ tables_of self.old }
        ensures publication { self.new.publication ≡ self.old.publication }
    {
        self.check_counters()?;
        if self.state.is_joined {
            return Ok(None);
        }
        let join = Join {
            site: self.site,
            seq: self.state.seq + 1,
            generation: self.gens.last_closed(),
            number: self.state.changes,
        };
        Ok(Some((self.draft_message(Outstanding::Join)?, join)))
    }

    /// Works out what the site asks of identity ranges. None where no article has an identity
    /// column.
    pub fn draft_ranges(&mut self) -> Result<Option<(Draft, RangeAsk)>, Refusal>
        ensures made { IfOk result (λ made. make_ranges (tables_of self.old) ≡ Ok (drafted_if_any (tables_of self.old) made)) }
        ensures ready { IfOk result (λ made. IsDraftedIfAny self.new made) }
        ensures refused { (refusal : OneRefusal) → result ≡ Err refusal → (refusal ≡ no_memory) ⊎ (make_ranges (tables_of self.old) ≡ Err refusal) }
        ensures same { tables_of self.new ≡ tables_of self.old }
        ensures publication { self.new.publication ≡ self.old.publication }
    {
        self.check_sending()?;
        if self.held.is_empty() {
            return Ok(None);
        }
        let ask = RangeAsk {
            site: self.site,
            seq: self.state.seq + 1,
            wants: wants(self.alloc, &self.held)?,
        };
        Ok(Some((self.draft_message(Outstanding::Ranges)?, ask)))
    }

    /// Works out what the site asks for: the rows that changed above its watermark. It takes no
    /// memory.
    pub fn draft_ask(&mut self) -> Result<(Draft, Download), Refusal>
        ensures made { IfOk result (λ made. make_ask (tables_of self.old) ≡ Ok (drafted (tables_of self.old) made)) }
        ensures ready { IfOk result (λ made. IsDrafted self.new made.0) }
        ensures refused { RefusesOnlyAs (make_ask (tables_of self.old)) result }
        ensures same { tables_of self.new ≡ tables_of self.old }
        ensures publication { self.new.publication ≡ self.old.publication }
    {
        self.check_sending()?;
        let from = self.state.watermark;
        let ask = Download {
            site: self.site,
            seq: self.state.seq + 1,
            from,
        };
        Ok((self.draft_message(Outstanding::Download { from })?, ask))
    }

    // The draft of a message that is made of what is held as it stands. It takes the next number.
    #[tactic(auto, unfolding(merge_table::specs::Edits::IsReady))]
    fn draft_message(&mut self, sent: Outstanding) -> Result<Draft, NoMemory>
        requires { self.old.state.seq < counter_limit }
        ensures made { IfOk result (λ draft. after draft.changes (tables_of self.old) ≡ with_message sent (tables_of self.old)) }
        ensures ready { IfOk result (λ draft. IsDrafted self.new draft) }
        ensures same { tables_of self.new ≡ tables_of self.old }
        ensures publication { self.new.publication ≡ self.old.publication }

        // What takes no memory is not refused.
        ensures nothing { IsOk result }
    {
        let seq = self.state.seq + 1;
        let state = State {
            seq,
            outstanding: Some((seq, sent)),
            ..self.state
        };
        let (_, gens) = self.gens.prepare(&[])?;
        let _ = self.conflicts.rows();
        Ok(still(self.alloc, state, gens))
    }
}

// What is wanted of each article: how many of its ranges were heard of, and whether one is due.
fn wants(alloc: Global, held: &Table<u8, Ranges>) -> Result<Wants, NoMemory>
    ensures { IfOk result (λ wants. wants ≡ map want_of held.now.rows) }
{
    let mut wants = Listing::empty(alloc);
    for (article, ranges) in held.iter() {
        wants.push(Want {
            article: *article,
            have: ranges.holding().have,
            due: ranges.due(),
        })?;
    }
    Ok(wants)
}
