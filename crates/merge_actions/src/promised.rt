//! The promises, of every list of actions.
ghost use Rattle.merge_actions.specs.Actions.{DownloadsStayInside, MachineHasPromisesBehindActions, NoneIsLost, SettledHold};
ghost use Rattle.merge_laws.specs.Laws.Bounds.{DownloadsAreEnough, UploadsAreEnough};
ghost use Rattle.merge_laws.specs.Facts.Identities.{OfEveryRuledActions, TakenWereGranted};
ghost use Rattle.merge_laws.specs.Laws.{OfEveryActions, OfEveryValidActions};
ghost use Rattle.merge_laws.specs.Laws.Promised.{Promised};
ghost use Rattle.merge_laws.specs.Laws.Rounds.{RoundSettles};
ghost use Rattle.merge_model.specs.Laws.Promises.{IdentitiesApart, RangesApart, SessionSettles};

/// Where a publication can be said by a file, all promises hold of the model behind every list of
/// actions, in whatever order they come and whichever fail. So they hold of the machine, which has
/// the tables of such a model. A list of events is such a list, since an event is one action, or a
/// session, which is some (`no_generation_takes_effect_twice` in `merge_laws`).
pub fn promises_hold_of_actions()
    ensures model { OfEveryValidActions Promised }
    ensures machine { MachineHasPromisesBehindActions }
{}

/// No change is lost that was made among actions, where a publication can be said by a file: each is
/// accounted for as `no_change_is_lost` in `merge_laws` says.
pub fn actions_lose_no_change()
    ensures { OfEveryValidActions NoneIsLost }
{}

/// A settled site holds exactly its partition, and a session that nothing refused settles its site,
/// whatever actions came before. So does a round of uploads and then of downloads settle all sites.
/// The answer to a download puts only what is in its site's partition, and removes only what left it.
/// The bounds on a session's uploads and downloads are never what ends it.
pub fn actions_settle_sites()
    ensures partition { OfEveryValidActions SettledHold }
    ensures sessions { OfEveryActions SessionSettles }
    ensures inside { OfEveryActions DownloadsStayInside }
    ensures rounds { OfEveryValidActions RoundSettles }
    ensures uploads { OfEveryValidActions UploadsAreEnough }
    ensures downloads { OfEveryValidActions DownloadsAreEnough }
{}

/// No two inserts of an article take one identity value, each value lies in a range that was granted
/// to the site of its insert, and no two granted ranges overlap, whatever actions came, where the
/// publication's ranges have values.
pub fn actions_take_identity_values_once()
    ensures apart { OfEveryRuledActions IdentitiesApart }
    ensures granted { OfEveryRuledActions TakenWereGranted }
    ensures ranges { OfEveryRuledActions RangesApart }
{}
