//! A publisher and a subscriber whose messages are kept, and carried by hand: late, again, or never.
mod playing;
mod post;
mod reports;
mod scripts;
mod uploads;

use playing::{fill_each, play};
use post::Post;
use scripts::{
    EXPIRED, FIRST_SESSION, ITEMS, JOINING, LATE_REPLY, MADE_ANEW, RANGES_AGAIN, SENT_AGAIN,
    TICKETS, USED_UP,
};
use std::test::Fail;
use uploads::FILLINGS;

#[test]
fn an_upload_that_comes_again_acts_once(rt: HostRuntime) -> Result<(), Fail> {
    play::<Post, _>(&rt, rt.alloc(), ITEMS, &[FIRST_SESSION, SENT_AGAIN])
}

#[test]
fn a_reply_that_comes_late_does_nothing(rt: HostRuntime) -> Result<(), Fail> {
    play::<Post, _>(&rt, rt.alloc(), ITEMS, &[FIRST_SESSION, LATE_REPLY])
}

#[test]
fn a_site_that_begins_anew_takes_no_earlier_reply(rt: HostRuntime) -> Result<(), Fail> {
    play::<Post, _>(&rt, rt.alloc(), ITEMS, &[MADE_ANEW])
}

#[test]
fn a_site_that_has_not_joined_does_nothing_else(rt: HostRuntime) -> Result<(), Fail> {
    play::<Post, _>(&rt, rt.alloc(), ITEMS, &[JOINING])
}

#[test]
fn uploads_are_cut_by_rows_and_generations(rt: HostRuntime) -> Result<(), Fail> {
    fill_each::<Post, _>(&rt, rt.alloc(), ITEMS, FIRST_SESSION, FILLINGS)
}

#[test]
fn a_site_expires_and_a_purge_forgets_to_the_second(rt: HostRuntime) -> Result<(), Fail> {
    play::<Post, _>(&rt, rt.alloc(), ITEMS, &[FIRST_SESSION, EXPIRED])
}

#[test]
fn identity_values_are_used_up(rt: HostRuntime) -> Result<(), Fail> {
    play::<Post, _>(&rt, rt.alloc(), TICKETS, &[USED_UP])
}

#[test]
fn ranges_that_are_asked_for_again_are_the_same(rt: HostRuntime) -> Result<(), Fail> {
    play::<Post, _>(&rt, rt.alloc(), TICKETS, &[RANGES_AGAIN])
}
