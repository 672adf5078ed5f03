//! What a keeper's commit asks of a publisher.
ghost use Rattle.std.specs.Prelude.{◌≡◌};
ghost use Rattle.merge_ident.specs.Grants.{AreGrants};
ghost use Rattle.merge_model.specs.Laws.{AreSorted};
ghost use Rattle.merge_pub.specs.Held.{tables_of};

use crate::publisher::Publisher;
use merge_ident::Grant;
use merge_types::Moment;

impl Publisher {
    /// The ranges that were granted, by article and begin.
    pub fn grants(&self) -> &[Grant]
        ensures grants { result.now ≡ (tables_of self.now).grants }
        ensures fit { AreGrants (tables_of self.now).grants }
    {
        self.grants.grants()
    }

    /// That the lists ascend. It is a fact for proofs, and does nothing.
    pub fn sorted(&self)
        ensures { AreSorted (tables_of self.now) }
    {
        self.rows.is_ordered();
        self.mappings.is_ordered();
        self.sites.is_ordered();
        let _ = self.gens.closings();
    }

    /// The greatest moment that a call was given that was not refused.
    pub fn latest(&self) -> Moment
        ensures { result ≡ (tables_of self.now).latest }
    {
        self.latest
    }

    /// How many entries the open generation has.
    pub fn filled(&self) -> u64
        ensures { result ≡ (tables_of self.now).gens.filling.filled }
    {
        self.gens.filled()
    }
}
