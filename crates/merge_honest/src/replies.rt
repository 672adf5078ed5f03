//! Laws on replies that come back to the sites that asked.
ghost use Rattle.merge_honest.specs.Replied.{NoReplyIsRefused, PutsFit, RemovalsFit, RepliesAnswer, RepliesFit};
ghost use Rattle.merge_laws.specs.Laws.{OfEveryValidRun};

/// A reply that has the number of its site's outstanding message answers that message: it is of the
/// kind that was asked for, an upload was taken to its end, and a download begins where it was asked.
pub fn replies_answer_what_was_asked()
    ensures { OfEveryValidRun RepliesAnswer }
{}

/// A reply is never refused, however late it comes and however often: one that acts fits the outstanding
/// message, and another is passed over. That holds of answers to joins, to uploads and to asks for ranges,
/// and of replies to downloads.
pub fn replies_are_taken()
    ensures fit { OfEveryValidRun RepliesFit }
    ensures taken { OfEveryValidRun NoReplyIsRefused }
{}

/// What a reply to a download puts is fit for its site, however late the reply comes: the row fits its
/// article, its lineage is in order and knows the changes that last set its cells, each is of the
/// publisher or of a site that subscribes, and of the site itself none is told that it did not make.
pub fn rows_that_are_put_fit()
    ensures { OfEveryValidRun PutsFit }
{}

/// A row that a reply to a download removes is of an article that there is, and its maker is no change
/// of the site itself that the site did not make.
pub fn rows_that_are_removed_fit()
    ensures { OfEveryValidRun RemovalsFit }
{}
