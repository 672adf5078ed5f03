//! What the tables of every publisher keep.
ghost use Rattle.std.specs.Prelude.{ℕ};
ghost use Rattle.std.specs.List.Sorted.{IsStrictlySortedBy};
ghost use Rattle.std.specs.Map.{keys_of};
ghost use Rattle.std.specs.Ordering.{nat_cmp};
ghost use Rattle.merge_ident.specs.Grants.{AreGrants, AreInOrder};
ghost use Rattle.merge_schema.specs.Valid.{IsValid};
ghost use Rattle.merge_pub.specs.Held.{publication_of, tables_of};
ghost use Rattle.merge_steps.specs.Keeps.{KeepsRules};
ghost use Rattle.merge_pub.specs.Restoring.{CanStand};

use crate::publisher::Publisher;

impl Publisher {
    /// That a publisher can be restored with the tables of this one. It is a fact for proofs, and
    /// does nothing.
    pub fn can_stand(&self)
        ensures valid { (resolvers : ℕ) × IsValid resolvers (publication_of self.now) }
        ensures stands { CanStand (publication_of self.now) (tables_of self.now) }
    {
        self.sorted();
        self.held_ascend();
        self.grants_fit();
        self.keeps_rules();
    }

    // That the publisher's own ranges stand by article.
    fn held_ascend(&self)
        ensures { IsStrictlySortedBy nat_cmp (keys_of (tables_of self.now).held) }
    {
        self.held.is_ordered();
    }

    // That grants stand by article and begin, and none gives a value twice.
    fn grants_fit(&self)
        ensures granted { AreGrants (tables_of self.now).grants }
        ensures in_order { AreInOrder (tables_of self.now).grants }
    {
        let _ = self.grants.grants();
    }

    // What holds of all that is held.
    pub(crate) fn keeps_rules(&self)
        ensures valid { (count : ℕ) × IsValid count (publication_of self.now) }
        ensures rules { KeepsRules (publication_of self.now) (tables_of self.now) }
    {
        let _ = self.rows.len();
    }
}
