//! A publisher of no articles, to which no site subscribes. So it refuses every request.
use merge_batch::{Refusal, Request};
use merge_draft::{Drafted, DraftingPublisher};
use merge_ports::KeepFault;
use merge_types::Moment;

#[derive(Drop)]
pub(crate) struct Nobody {
    /// How many requests came.
    pub asked: u64,
}

impl DraftingPublisher for Nobody {
    ghost use Rattle.std.specs.Prelude.{[], None, false, ⊤};
    ghost use Rattle.merge_model.specs.Publisher.{empty_publisher};
    ghost use Rattle.merge_desk.specs.Replay.{no_publication};

    type Work = ();

    ghost view = { λ p. record { publication = no_publication; tables = empty_publisher no_publication; faults = 0; says = λ place tally asked. None; tallies = [] } };

    ghost after = { λ w p. p };

    ghost commits = { λ w. false };

    ghost IsReady = { λ p w. ⊤ };

    fn draft(&mut self, now: Moment, request: &Request) -> Result<Drafted<()>, Refusal> {
        self.asked = self.asked.wrapping_add(1);
        Err(Refusal::UnknownSite {
            site: request.site(),
        })
    }

    fn settle(&mut self, work: ()) -> Result<(), KeepFault> {
        Ok(())
    }

    fn faults(&self) -> u64 {
        0
    }
}
