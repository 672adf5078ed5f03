//! The laws.
ghost use Rattle.merge_laws.specs.Laws.{OfEveryModel, ReceivedIsDone, ActedIsDone, GapIsDone, TakesOnlyClosed, ReceivedNumberIsDone, UnmetIsDone, ClosingsKeepTheLast, UploadsTellTheLast, SubscribersDecideAlike, KnowsOnlyMade, JoinedTakesActed, OfEach, OfEveryRun, OfEveryDecidedRun, OfEveryValidRun};
ghost use Rattle.merge_laws.specs.Laws.ActsOnce.{ActedItemsDoNothing, ActedRowsStay, ActedUploadsOnlyAnswer, DoneStays, LettersStay, TakenHaveActed, TakenOnlyAnswer};
ghost use Rattle.merge_laws.specs.Laws.LastLines.{MappingIsLastLine, ChangedIsLastChange, LeftByLine, TouchedInsideByLine, TouchedOutsideByLine};
ghost use Rattle.merge_model.specs.Laws.Bridge.{PublisherDecidesAlike};
ghost use Rattle.merge_model.specs.Laws.Promises.{AllAccounted, AllStand, IdentitiesApart, OldIsPast, RepliesStayInside, SessionSettles, SettledHoldsPartition};
ghost use Rattle.merge_laws.specs.Laws.Deciding.{CasesDecideAlike, EachStepAlike, AnswersAlike, FailingAnswersAlike, FailingTablesAlike, TablesAlike};
ghost use Rattle.merge_laws.specs.Facts.Identities.{OfEveryRuledModel, TakenWereGranted};
ghost use Rattle.merge_laws.specs.Facts.Watermarks.{WatermarksAreHeld};
ghost use Rattle.merge_laws.specs.Facts.Knowledge.{MadeAreNumbered, KnownWereMade};
ghost use Rattle.merge_laws.specs.Facts.LineagesStand.{StandsByInvariant};
ghost use Rattle.merge_laws.specs.Facts.Standing.{TellingStands, ToldAfterChange, ToldAfterMerge, StandingAgrees, CaseIsByTops, NewsIsByTops};

/// The one number that the publisher keeps of a site says which of its generations have acted,
/// whatever happened: local changes, messages that come late, twice or never, joins, and sites made
/// anew. And no side takes a generation for received that its site has not closed.
pub fn received_numbers_are_the_generations_that_acted()
    ensures received { OfEveryModel ReceivedIsDone }
    ensures acted { OfEveryModel ActedIsDone }
    ensures gap { OfEveryModel GapIsDone }
    ensures closed { OfEveryModel TakesOnlyClosed }
{}

/// The publisher keeps the last move of a row for a site, and with each row the generation of its
/// last change. Both are what its last lines say, whatever happened; and so is what it reads of
/// them: whether a row left a site's partition, and in which generation it was touched for the site.
pub fn mappings_are_the_last_lines()
    ensures mappings { OfEveryModel MappingIsLastLine }
    ensures changes { OfEveryModel ChangedIsLastChange }
    ensures has_left { OfEveryModel LeftByLine }
    ensures touch_inside { OfEveryModel TouchedInsideByLine }
    ensures touch_outside { OfEveryModel TouchedOutsideByLine }
{}

/// The number that the publisher keeps of a site's last change is that of the last change in the
/// generations that have acted, whatever happened. So a change has acted just where its number is no
/// greater. A site keeps the same of each closed generation that is not received, and an upload tells
/// it of its last generation.
pub fn received_change_numbers_are_the_last_that_acted()
    ensures number { OfEveryModel ReceivedNumberIsDone }
    ensures unmet { OfEveryModel UnmetIsDone }
    ensures kept { OfEveryModel ClosingsKeepTheLast }
    ensures told { OfEveryModel UploadsTellTheLast }
{}

/// A subscriber decides by the generations that it keeps with its rows as by the changes that it made,
/// whatever happened: which rows are unsent, and which rows an upload has.
pub fn subscribers_decide_as_their_changes_do()
    ensures { OfEveryModel SubscribersDecideAlike }
{}

/// No lineage knows a change that was not made, whatever happened: of rows at all sites, in messages
/// that may come late or never, and of versions that lost. And its sites are in order.
pub fn lineages_know_only_changes_that_were_made()
    ensures { OfEveryModel KnowsOnlyMade }
{}

/// A site that has joined takes no generation for received that has not acted at the publisher,
/// whatever happened.
pub fn joined_sites_take_for_received_what_has_acted()
    ensures { OfEveryModel JoinedTakesActed }
{}

/// No two inserts of an article take one identity value, at whatever sites and whenever they are
/// made, where the publication's ranges have values: messages may come late, twice or never, and
/// sites may be made anew. What an insert took lies in a range that was granted to its site.
pub fn identity_values_are_taken_once()
    ensures apart { OfEveryRuledModel IdentitiesApart }
    ensures granted { OfEveryRuledModel TakenWereGranted }
{}

/// A purge takes what stands in generations that closed long ago. Whatever happened, no joined and
/// unexpired site still needs it: the site has asked for what lies above the generation, or the
/// generation had closed when it last joined.
pub fn purges_take_nothing_that_live_sites_need()
    ensures { OfEveryRun OldIsPast }
{}

/// The answer to a download puts a row only where it is in the site's partition now, and removes one
/// only where the last line of it for the site says that it left. This holds of every model, so of
/// each that a list of events leads to, and of the tables that an ask leaves.
pub fn downloads_stay_in_the_partition()
    ensures { OfEach RepliesStayInside }
{}

/// The publisher keeps a watermark of each site, and purges by it. Whatever happened, that of a site
/// that has joined is no more than the site's own: no ask that comes late, twice, or after the site
/// was made anew says more.
pub fn watermarks_are_held()
    ensures { OfEveryModel WatermarksAreHeld }
{}

/// The changes that a site made are numbered from 1 on, in the order in which they were made, and its
/// count is the last number. Whatever a version knows, at a site, in a message or in a conflict table,
/// was made of its row; and what knows a change knows all that was known where it was made.
pub fn known_changes_were_made()
    ensures numbered { OfEveryModel MadeAreNumbered }
    ensures known { OfEveryModel KnownWereMade }
{}

/// A version tells of what its past knows where each number of its lineage is that of a known change, no
/// change is known above it, and the changes that made its body are known. Changes and merges keep this.
/// Such a lineage decides as what is known does, of each change that was known to the later changes of its
/// site on the row where they were made; so the two agree on a body that such changes made. And a case is
/// decided by no more than what each side knows of the changes that made the other's body. Where the
/// invariant holds that carries this, every lineage stands for what its version knows;
/// `lineages_decide_as_histories_do` says that it holds after every list of events.
pub fn lineages_that_tell_stand()
    ensures stands { TellingStands }
    ensures after_change { ToldAfterChange }
    ensures after_merge { ToldAfterMerge }
    ensures agrees { StandingAgrees }
    ensures case { CaseIsByTops }
    ensures news { NewsIsByTops }
    ensures invariant { StandsByInvariant }
{}

/// Where a publication can be said by a file, lineages decide as histories do, whatever happened. Each
/// lineage of a row at a site, in a message or in a conflict table stands for what its version knows:
/// of each change of the row that is not given up, it knows just what the version knows. So the
/// publisher decides by its numbers and mappings as the history does, and which case an upload's item
/// is, and what is news in it, is the same by lineages and by what versions know. And each step that
/// the machine takes from its tables is the step of the model, with the history left out.
pub fn lineages_decide_as_histories_do()
    ensures stand { OfEveryValidRun (λ publication says m. AllStand m) }
    ensures publisher { OfEveryValidRun (λ publication says m. PublisherDecidesAlike m) }
    ensures cases { OfEveryValidRun (λ publication says m. CasesDecideAlike m) }
    ensures steps { OfEveryValidRun EachStepAlike }
{}

/// Where a publication can be said by a file, the machine, which has tables alone, answers every list of
/// events as the model does, which decides by histories; and it has the model's tables.
pub fn machine_answers_as_the_model()
    ensures answers { AnswersAlike }
    ensures tables { TablesAlike }
    ensures failing_answers { FailingAnswersAlike }
    ensures failing_tables { FailingTablesAlike }
{}

/// Where a publication can be said by a file, a settled site holds exactly its partition, whatever
/// happened: messages that come late, twice or never, closings, joins, sites made anew, and purges. A
/// site is settled that has joined and is not expired, has nothing unsent, and holds every generation
/// of the publisher, whose open one is empty. Its live rows are then those of its partition, with the
/// publisher's versions.
pub fn settled_sites_hold_their_partitions()
    ensures { OfEveryValidRun (λ publication says m. SettledHoldsPartition publication m) }
{}

/// An upload takes effect once. Its items that stand in generations that have acted do nothing: the upload
/// does what it would do without them. So a row of which it has no other item stays as it is, whatever the
/// rest of the upload does: the version that the publisher holds, the generation of its change, what
/// conflict tables have of it, and the changes that were made of it. An upload whose generations have all
/// acted is only answered, or refused. After a delivery that was not refused each generation of the upload
/// has acted, and what has acted stays so. So another delivery of the letter, at once or after whatever
/// happened, changes no row, no conflict table and no change.
pub fn uploads_take_effect_once()
    ensures rows { ActedRowsStay }
    ensures items { ActedItemsDoNothing }
    ensures answered { ActedUploadsOnlyAnswer }
    ensures taken { OfEveryDecidedRun TakenHaveActed }
    ensures stay { OfEveryDecidedRun DoneStays }
    ensures letters { OfEveryDecidedRun LettersStay }
    ensures again { OfEveryDecidedRun TakenOnlyAnswer }
{}

/// A session that nothing refused leaves its site settled, whatever happened before it: the site has
/// joined and is not expired, has nothing unsent, and holds every generation of the publisher, whose
/// open one is empty. So a session makes uploads and downloads enough, however many generations they
/// take. That a session is not refused is not said. Where a publication can be said by a file, the site
/// then holds exactly its partition (`settled_sites_hold_their_partitions`).
pub fn finished_sessions_settle_their_sites()
    ensures { OfEveryDecidedRun SessionSettles }
{}

/// Where a publication can be said by a file, no change is lost, whatever happened: messages that come
/// late, twice or never, conflicts however they are decided, joins, sites made anew, and purges. Each
/// cell that a change set, and the row that a change deleted, is accounted for. The publisher's version
/// of the row descends from the change there; or a version that does stands in a conflict table, of the
/// publisher or of a site that was made anew; or the change is in its own site's version of the row,
/// which is unsent; or the row was deleted, and its tombstone was purged.
pub fn no_change_is_lost()
    ensures { OfEveryValidRun (λ publication says m. AllAccounted m) }
{}
