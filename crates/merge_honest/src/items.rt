//! Laws on the rules of messages that requests keep, each by its number.
ghost use Rattle.merge_honest.specs.Delivered.{NoneIsRefusedFor, breaks};
ghost use Rattle.merge_honest.specs.Valued.{InsertsTook, RowsAreValued};
ghost use Rattle.merge_laws.specs.Laws.{OfEveryValidRun};

use merge_laws::identity_values_are_taken_once;

/// No upload is refused for how it is made: it has a generation, at most 100, and at most 2,000 items,
/// each row once and in order, each item in a generation of the upload.
pub fn uploads_are_made_well()
    ensures some { OfEveryValidRun (NoneIsRefusedFor (breaks 1)) }
    ensures generations { OfEveryValidRun (NoneIsRefusedFor (breaks 2)) }
    ensures items { OfEveryValidRun (NoneIsRefusedFor (breaks 3)) }
    ensures order { OfEveryValidRun (NoneIsRefusedFor (breaks 5)) }
    ensures interval { OfEveryValidRun (NoneIsRefusedFor (breaks 8)) }
{}

/// No upload is refused for what its items tell: each change that last set a cell or deleted the row
/// is of the publisher or of a site that subscribes, and is known to the item's lineage; and the
/// lineage knows no change of the publisher that it did not make, and none of a third site that the
/// publisher never saw.
pub fn items_tell_what_is_known()
    ensures tops { OfEveryValidRun (NoneIsRefusedFor (breaks 9)) }
    ensures seen { OfEveryValidRun (NoneIsRefusedFor (breaks 11)) }
{}

/// No request is refused for its numbers. Those of a join and of an upload are below 2^62, and the
/// last change number of an upload does not fall behind the one that was taken. An item's lineage has
/// its sites in order, each the publisher or one that subscribes, with a number that a change can
/// have, and has a number of its own site.
pub fn numbers_and_lineages_fit()
    ensures numbers { OfEveryValidRun (NoneIsRefusedFor (breaks 4)) }
    ensures lineages { OfEveryValidRun (NoneIsRefusedFor (breaks 7)) }
{}

/// No upload is refused for the maker of a row: each row's identifier carries a change, of the
/// publisher that it made, of the uploader, or of another site that subscribes and was taken.
pub fn makers_are_heard_of()
    ensures { OfEveryValidRun (NoneIsRefusedFor (breaks 10)) }
{}

/// No upload is refused for the identity value of a row: it was granted to the site that made the row,
/// and is that of the live row that the publisher holds.
pub fn identity_values_are_right()
    ensures { OfEveryValidRun (NoneIsRefusedFor (breaks 12)) }
{
    identity_values_are_taken_once();
}

/// No upload is refused for what its rows hold: its article exists, and a live row has as many cells as
/// its article tells, with values of the columns' types, each within its length and the row within its
/// limit, and a whole number where there is an identity column.
pub fn rows_fit_their_articles()
    ensures { OfEveryValidRun (NoneIsRefusedFor (breaks 6)) }
{}

/// Where a publication can be said by a file, each insert of an article with an identity column took a
/// value, whatever happened. So each live version of such a row has one: at every site, in every message
/// and in every conflict table. It is the value that the insert took (`identity_values_stay` in `merge_owed`).
pub fn inserts_take_values()
    ensures took { OfEveryValidRun InsertsTook }
    ensures rows { OfEveryValidRun RowsAreValued }
{}
