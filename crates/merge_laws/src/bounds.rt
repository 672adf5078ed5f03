//! Laws on the bounds of sessions.
ghost use Rattle.merge_laws.specs.Laws.Bounds.{DownloadsAreEnough, UploadsAreEnough};
ghost use Rattle.merge_laws.specs.Laws.{OfEveryValidRun};

/// The bounds on a session's uploads and downloads are never what ends it, where a publication can
/// be said by a file: with any greater bound the session goes the same way, since the site has
/// nothing more to send, or has asked from the publisher's last generation, or was refused before.
pub fn bounds_never_end_a_session()
    ensures uploads { OfEveryValidRun UploadsAreEnough }
    ensures downloads { OfEveryValidRun DownloadsAreEnough }
{}
