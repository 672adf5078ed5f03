//! Sites that stop and start again.
ghost use Rattle.std.specs.Prelude.{◌≡◌, ℕ, Err, IfErr, IfOk, List, true};
ghost use Rattle.merge_batch.specs.declared.refusal.Refusal.TheVariants.{Damaged, NoMemory as no_memory};
ghost use Rattle.merge_model.specs.World.Events.{is_site};
ghost use Rattle.merge_model.specs.declared.answer.Answer.TheVariants as answers;
ghost use Rattle.merge_model.specs.declared.event.Event.TheVariants as event;
ghost use Rattle.merge_world.specs.Happenings.{Proceeds};
ghost use Rattle.merge_world.specs.Resuming.{Resumes};
ghost use Rattle.merge_world.specs.Views.{IsOrdered};

use crate::sites::{PublisherSite, SubscriberSite};
use crate::world::{Seen, Sites};
use merge_batch::Refusal;
use merge_model::Answer;
use merge_types::SiteId;

// Want of memory is answered, and all else that a restart can meet ends the run.
fn unless_ended(refusal: Refusal) -> Result<Answer, Refusal>
    ensures wanting { IfOk result (λ told. (told ≡ answers.Refused no_memory) × (refusal ≡ no_memory)) }
    ensures ended { IfErr result (λ why. (why ≡ refusal) × (refusal ≡ no_memory → ⊥)) }
{
    match refusal {
        Refusal::NoMemory => Ok(Answer::Refused(Refusal::NoMemory)),
        refusal => Err(refusal),
    }
}

impl<P: PublisherSite, S: SubscriberSite> Sites<P, S> {
    /// A site stops, and starts from what it keeps. Where that cannot be read, or is damaged, the
    /// run ends.
    pub fn restart_event(&mut self, site: SiteId) -> Result<Answer, Refusal>
        requires { IsOrdered (⟦<Sites<P, S> as Seen>⟧.seen self.old) }
        ensures happened { (h : _) → Proceeds (event.Restart site) (⟦<Sites<P, S> as Seen>⟧.seen self.old) (⟦<Sites<P, S> as Seen>⟧.seen self.new) h h result }
        ensures damaged { (table : ℕ) (key : List ℕ) → result ≡ Err (Damaged table key) → ⟦<Sites<P, S> as Seen>⟧.IsDamaged self.new site table key }
    {
        match self.check_site(site) {
            Ok(()) => self.restart_known(site),
            Err(refusal) => Ok(Answer::Refused(refusal)),
        }
    }

    // The same of a site that there is.
    fn restart_known(&mut self, site: SiteId) -> Result<Answer, Refusal>
        requires ordered { IsOrdered (⟦<Sites<P, S> as Seen>⟧.seen self.old) }
        requires known { is_site (⟦<Sites<P, S> as Seen>⟧.seen self.old).publication site ≡ true }
        ensures happened { (h : _) → Proceeds (event.Restart site) (⟦<Sites<P, S> as Seen>⟧.seen self.old) (⟦<Sites<P, S> as Seen>⟧.seen self.new) h h result }
        ensures damaged { (table : ℕ) (key : List ℕ) → result ≡ Err (Damaged table key) → ⟦<Sites<P, S> as Seen>⟧.IsDamaged self.new site table key }
    {
        match self.restart(site) {
            Ok(()) => Ok(Answer::Fine),
            Err(refusal) => unless_ended(refusal),
        }
    }

    fn restart(&mut self, site: SiteId) -> Result<(), Refusal>
        requires { IsOrdered (⟦<Sites<P, S> as Seen>⟧.seen self.old) }
        ensures resumes { Resumes (⟦<Sites<P, S> as Seen>⟧.seen self.old) (⟦<Sites<P, S> as Seen>⟧.seen self.new) result }
        ensures damaged { (table : ℕ) (key : List ℕ) → result ≡ Err (Damaged table key) → ⟦<Sites<P, S> as Seen>⟧.IsDamaged self.new site table key }
    {
        if site.0 == 0 {
            self.restart_publisher()
        } else {
            self.restart_subscriber(site)
        }
    }

    fn restart_publisher(&mut self) -> Result<(), Refusal>
        ensures resumes { Resumes (⟦<Sites<P, S> as Seen>⟧.seen self.old) (⟦<Sites<P, S> as Seen>⟧.seen self.new) result }
        ensures damaged { (table : ℕ) (key : List ℕ) → result ≡ Err (Damaged table key) → ⟦<Sites<P, S> as Seen>⟧.IsDamaged self.new (record { 0 = 0 }) table key }
    {
        self.publisher.restart()
    }

    // Where there is no such subscriber, there is nothing to start.
    fn restart_subscriber(&mut self, site: SiteId) -> Result<(), Refusal>
        requires { IsOrdered (⟦<Sites<P, S> as Seen>⟧.seen self.old) }
        ensures resumes { Resumes (⟦<Sites<P, S> as Seen>⟧.seen self.old) (⟦<Sites<P, S> as Seen>⟧.seen self.new) result }
        ensures damaged { (table : ℕ) (key : List ℕ) → result ≡ Err (Damaged table key) → ⟦<Sites<P, S> as Seen>⟧.IsDamaged self.new site table key }
    {
        match self.place_of(site) {
            None => Ok(()),
            Some(place) => self.subscribers[place].restart(),
        }
    }
}
