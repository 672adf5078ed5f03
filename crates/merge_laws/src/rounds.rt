//! The law that a round of uploads and downloads settles all sites.
ghost use Rattle.merge_laws.specs.Laws.{OfEveryValidRun};
ghost use Rattle.merge_laws.specs.Laws.Rounds.{RoundSettles};

/// Where a publication can be said by a file: when every subscriber has completed an upload, and
/// then every one a download, in whatever order, and nothing else at all happens from the first to
/// the last, every subscriber is settled, whatever happened before. An upload is completed where
/// the site has joined and nothing is refused until there is none to make, and a download where
/// nothing is refused until the site has asked from the publisher's last generation. No step of
/// these fails.
pub fn rounds_settle_all_sites()
    ensures { OfEveryValidRun RoundSettles }
{}
