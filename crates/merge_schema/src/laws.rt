//! What holds of every publication. These functions do nothing: their contracts are the laws.
ghost use Rattle.merge_schema.specs.AncestorLaws.{AncestorsAreFound};
ghost use Rattle.merge_schema.specs.PartitionLaws.{PartitionMeetsRule, PartitionIsLeast, PartitionHasReasons, PartitionIsOnly, IsInByPartition, NullHasNoParent, SameValuesJoin};
ghost use Rattle.merge_schema.specs.ValidityLaws.{ValidFiltersFit, ValidSitesAreDistinct};

/// A site's partition is the least set of live rows that meets the rule. It meets the rule, and is
/// the only set that does and whose rows all have a reason, where the articles have an order in
/// which parents come first.
pub fn partition_laws()
    ensures meets_rule { PartitionMeetsRule }
    ensures least { PartitionIsLeast }
    ensures reasons { PartitionHasReasons }
    ensures only { PartitionIsOnly }
    ensures is_in { IsInByPartition }
    ensures null { NullHasNoParent }
    ensures joined { SameValuesJoin }
{}

/// The search for ancestors, which goes through as many joins as there are articles, finds exactly
/// those that a chain of any number of joins leads to.
pub fn ancestor_laws()
    ensures { AncestorsAreFound }
{}

/// The filters of a valid publication fit their articles, and no two of its subscriptions are of the
/// same site.
pub fn validity_laws()
    ensures filters { ValidFiltersFit }
    ensures sites { ValidSitesAreDistinct }
{}
