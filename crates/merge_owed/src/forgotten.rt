//! Laws on what is forgotten and what reports tell.
ghost use Rattle.merge_laws.specs.Laws.{OfEveryModel, OfEveryValidRun};
ghost use Rattle.merge_owed.specs.Forgotten.{JoinsForgetByLines, PublisherTellsDone, PurgesAnswerByLines, PurgesForgetByLines, SubscribersTellMade, TombstonesAreOldByLines};

/// What a join and a purge forget is what the last lines say. A join forgets the mappings of just
/// those rows that have left its site by their last line for it. A purge forgets the mappings of just
/// those rows and sites whose last line says that the row left, in an old generation, and just the
/// deleted rows whose last line of a change stands in an old generation. The counts that it answers
/// are the numbers of these, and of the closed generations that are kept and old.
pub fn what_is_forgotten_is_read_of_lines()
    ensures joins { OfEveryModel JoinsForgetByLines }
    ensures purges { OfEveryValidRun PurgesForgetByLines }
    ensures tombstones { OfEveryValidRun TombstonesAreOldByLines }
    ensures counts { OfEveryValidRun PurgesAnswerByLines }
{}

/// The numbers in reports are what the history says: of each site the last generation that has acted,
/// its last change in one that has, and its last change that was met; and of a subscriber how many
/// rows it changed in generations that are not received.
pub fn reports_tell_what_has_acted()
    ensures publisher { OfEveryValidRun PublisherTellsDone }
    ensures subscribers { OfEveryValidRun SubscribersTellMade }
{}
