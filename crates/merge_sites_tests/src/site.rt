//! A publisher and a subscriber at keepers in memory: what their calls answer in a script, what they
//! refuse, and what they are once a call of a keeper has failed.
mod carry;
mod edits;
mod pair;
mod playing;
mod replies;
mod requests;
mod script;
mod settling;
mod starting;
mod telling;
mod versions;

use edits::SITE;
use merge_types::SiteId;
use pair::Pair;
use playing::{begin_anew, fail_in_turn, follow, start_again};
use replies::{commit_once, hear_each};
use requests::{REQUESTS, UPLOADS, ask_in_turn};
use starting::refuse_unknown;
use std::test::Fail;

#[test]
fn each_call_answers_what_is_worked_out(rt: HostRuntime) -> Result<(), Fail> {
    follow::<Pair, _>(&rt, rt.alloc())
}

#[test]
fn sites_that_start_again_have_what_is_worked_out(rt: HostRuntime) -> Result<(), Fail> {
    start_again::<Pair, _>(&rt, rt.alloc())
}

// Behind 39 steps the ticket has a change that was not sent.
#[test]
fn a_site_that_begins_anew_keeps_what_is_its_own(rt: HostRuntime) -> Result<(), Fail> {
    begin_anew::<Pair, _>(&rt, rt.alloc(), 39)
}

#[test]
fn a_site_that_is_no_subscription_is_not_started(rt: HostRuntime) -> Result<(), Fail> {
    refuse_unknown(&rt, rt.alloc())
}

#[test]
fn requests_are_answered_or_refused(rt: HostRuntime) -> Result<(), Fail> {
    ask_in_turn::<Pair, _>(&rt, rt.alloc(), REQUESTS)
}

#[test]
fn uploads_are_taken_or_refused(rt: HostRuntime) -> Result<(), Fail> {
    ask_in_turn::<Pair, _>(&rt, rt.alloc(), UPLOADS)
}

#[test]
fn replies_that_do_not_fit_change_nothing(rt: HostRuntime) -> Result<(), Fail> {
    hear_each::<Pair, _>(&rt, rt.alloc())
}

#[test]
fn a_reply_is_one_commit(rt: HostRuntime) -> Result<(), Fail> {
    commit_once::<Pair, _>(&rt, rt.alloc())
}

// Each site, and how often its keeper is called by the script: the load of the start, the commits, and
// the load of the restart.
const CALLS: &[(SiteId, u64)] = &[(SiteId(0), 19), (SITE, 32)];

#[test]
fn a_step_whose_store_fails_is_made_again(rt: HostRuntime) -> Result<(), Fail> {
    fail_in_turn::<Pair, _>(&rt, rt.alloc(), CALLS)
}
