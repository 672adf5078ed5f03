//! Laws on what the sites store.
ghost use Rattle.merge_laws.specs.Laws.{OfEveryValidRun};
ghost use Rattle.merge_stored.specs.Closings.{ClosingsLoad};
ghost use Rattle.merge_stored.specs.Conflicts.{ConflictsLoad};
ghost use Rattle.merge_stored.specs.Lost.{LostRowsLoad};
ghost use Rattle.merge_stored.specs.Own.{OwnAreHeld};
ghost use Rattle.merge_stored.specs.PublisherLoading.{PublisherRowsLoad};
ghost use Rattle.merge_stored.specs.Ranges.{RangesLoad};
ghost use Rattle.merge_stored.specs.States.{StatesLoad};
ghost use Rattle.merge_stored.specs.Subscriptions.{SitesLoad};
ghost use Rattle.merge_stored.specs.Versions.{VersionsLoad};

/// Each row that a site holds is one that a record can have, and a start takes its version.
pub fn rows_have_records()
    ensures { OfEveryValidRun VersionsLoad }
{}

/// A site's conflicts are numbered from 1 to their counter, which is below 2^62. Each lost a version
/// of the publisher or of a site that subscribes, at a moment that has been.
pub fn conflicts_are_numbered()
    ensures { OfEveryValidRun ConflictsLoad }
{}

/// A site's state is one that a record can have, and a start takes it.
pub fn states_have_records()
    ensures { OfEveryValidRun StatesLoad }
{}

/// A start takes each closed generation that a site keeps, and a subscriber keeps all those above the
/// received one.
pub fn closings_have_records()
    ensures { OfEveryValidRun ClosingsLoad }
{}

/// The publisher's grants are those of a book. What a site holds of ranges reads back from what is
/// stored of it, a start takes it, and nothing else is held than was there in the beginning.
pub fn ranges_have_records()
    ensures { OfEveryValidRun RangesLoad }
{}

/// Of each article the publisher received as many ranges as it granted to itself, and holds none of
/// them or the last.
pub fn own_ranges_are_held()
    ensures { OfEveryValidRun OwnAreHeld }
{}

/// Each row of a conflict table is one that a record can have, and a start takes it behind those in
/// front of it.
pub fn conflicts_have_records()
    ensures { OfEveryValidRun LostRowsLoad }
{}

/// What the publisher remembers of each site that joined is one that a record can have, and a start
/// takes it.
pub fn sites_have_records()
    ensures { OfEveryValidRun SitesLoad }
{}

/// A start takes each row and each mapping of the publisher behind those in front of it.
pub fn publisher_rows_load()
    ensures { OfEveryValidRun PublisherRowsLoad }
{}
