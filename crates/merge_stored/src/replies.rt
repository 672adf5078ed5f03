//! Laws on what a subscriber keeps whatever reply comes, forged or honest.
ghost use Rattle.merge_stored.specs.AnyReply.{AnyReplyKeepsRules, SubscriberKeeps};
ghost use Rattle.merge_stored.specs.AnySteps.{AfterAnySteps, NewSubscribersKeepRules, StartedSubscribersKeepRules, TablesLoad};

use merge_keeper::{loaded_keeps_rules, stored_tables_load};

/// Whatever reply comes, honest or not, and whatever step the site makes: tables that keep the rules
/// of a start keep them afterwards.
pub fn any_reply_keeps_rules()
    ensures { AnyReplyKeepsRules }
{}

/// A subscriber begins with tables that keep the rules of a start, and every start gives such tables.
pub fn subscribers_begin_with_rules()
    ensures new { NewSubscribersKeepRules }
    ensures started { StartedSubscribersKeepRules }
{
    loaded_keeps_rules();
}

/// From there on, whatever steps a subscriber makes, in whatever order and whoever made the replies that
/// come, its tables keep these rules, so the store that is written of them loads and gives these tables.
pub fn any_steps_load()
    ensures rules { AfterAnySteps SubscriberKeeps }
    ensures loads { AfterAnySteps TablesLoad }
{
    stored_tables_load();
}
