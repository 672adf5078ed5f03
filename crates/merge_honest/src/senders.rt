//! Laws on who sends a request, and where it begins.
ghost use Rattle.merge_honest.specs.Delivered.{NoneIsRefusedFor, breaks, is_gap, is_not_joined, is_unknown_site, is_wrong_watermark};
ghost use Rattle.merge_laws.specs.Laws.{OfEveryValidRun};

/// No delivery of an upload leaves a gap, whatever happened before and however late it comes: where
/// an upload begins the publisher has taken its site's generations.
pub fn uploads_are_never_gaps()
    ensures { OfEveryValidRun (NoneIsRefusedFor is_gap) }
{}

/// No ask tells a generation that the publisher has not closed.
pub fn asks_tell_held_watermarks()
    ensures { OfEveryValidRun (NoneIsRefusedFor is_wrong_watermark) }
{}

/// No ask for ranges is refused for what it names: it names articles with an identity column, each
/// once, and tells of each no more ranges than were granted to the site.
pub fn asks_name_granted_ranges()
    ensures { OfEveryValidRun (NoneIsRefusedFor (breaks 13)) }
{}

/// Every request is of a site that subscribes; and every request but a join is of a site that the
/// publisher remembers, since it made none before it heard that its join had acted.
pub fn senders_are_known()
    ensures subscribe { OfEveryValidRun (NoneIsRefusedFor is_unknown_site) }
    ensures joined { OfEveryValidRun (NoneIsRefusedFor is_not_joined) }
{}
