//! What holds of every step. These functions do nothing: their contracts are the laws.
ghost use Rattle.merge_model.specs.Laws.{RefusedChangesNothing, RefusedNotesNothing, ReportsChangeNothing, ReportsNoteNothing, AnsweredUploadChangesNothing, EventsKeepWhatStepsKeep, FailingEventsKeepWhatStepsKeep, PublisherNumbersRise, RangesNeverOverlap, ModelRangesNeverOverlap, PublisherStaysSorted, SubscriberNumbersRise, SubscribersStaySorted, NoGenerationActsTwice, ActingAreNew};

/// A step that is refused leaves the world as it was, and its history.
pub fn refusals_change_nothing()
    ensures world { RefusedChangesNothing }
    ensures history { RefusedNotesNothing }
{}

/// Reports and restarts leave the world as it was, and its history.
pub fn reports_change_nothing()
    ensures world { ReportsChangeNothing }
    ensures history { ReportsNoteNothing }
{}

/// An upload whose generations have all acted changes nothing but the publisher's moment.
pub fn answered_uploads_change_nothing()
    ensures { AnsweredUploadChangesNothing }
{}

/// What each step keeps is kept by sessions, which are steps one after the other, and by every
/// list of events. Where steps may fail, so is what other tallies of resolvers keep too.
pub fn events_keep_what_steps_keep()
    ensures made { EventsKeepWhatStepsKeep }
    ensures failing { FailingEventsKeepWhatStepsKeep }
{}

/// The changes, closed generations, conflict rows and moments of the sites only rise, and the
/// numbers of a subscriber's messages.
pub fn numbers_only_rise()
    ensures publisher { PublisherNumbersRise }
    ensures subscriber { SubscriberNumbersRise }
{}

/// No two ranges of an article overlap that the publisher granted, whatever happened, where the
/// publication's ranges have values.
pub fn ranges_never_overlap()
    ensures machine { RangesNeverOverlap }
    ensures model { ModelRangesNeverOverlap }
{}

/// The publisher's rows, mappings, sites and closed generations ascend by their keys, whatever
/// happened, so that none stands twice; and so do the rows and closed generations of a subscriber.
pub fn lists_stay_sorted()
    ensures publisher { PublisherStaysSorted }
    ensures subscribers { SubscribersStaySorted }
{}

/// No generation is noted twice as acted: each comes once among those that have acted, and the
/// generations of an upload that are noted are none of these. This holds by how they are noted,
/// whatever the sites decide by; that none takes effect twice is said in `merge_laws`.
pub fn no_generation_acts_twice()
    ensures once { NoGenerationActsTwice }
    ensures new { ActingAreNew }
{}
