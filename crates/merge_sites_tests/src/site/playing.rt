//! Two sites play the script, and are asked and told what does not fit.
use super::pair::{Here, Step};
use super::script::{LATE, SCRIPT};
use super::starting::Call;
use crate::same::{same, same_in};
use merge_batch::{Refusal, Reply, Request};
use merge_model::Taken;
use merge_types::{Moment, NoMemory, SiteId};
use std::alloc::Global;
use std::process::Abort;
use std::test::Fail;

/// Two sites that play.
///
/// What plays them is generic over them: where the types of sites are known, the proof of a drop goes
/// through all their tables.
pub trait Play: Drop {
    /// Two sites that hold nothing.
    fn begun(alloc: Global, failing: Option<Call>) -> Result<Self, Fail>;

    /// The sites that start with what their keepers hold, and the messages as they were.
    fn started_again(self) -> Result<Self, Fail>;

    /// Makes the step, and gives a number of its answer.
    fn step(&mut self, now: Moment, step: Step) -> Result<u64, Refusal>;

    /// The publisher answers a request.
    fn answer(&mut self, now: Moment, request: &Request) -> Result<Reply, Refusal>;

    /// The subscriber takes a reply.
    fn take(&mut self, now: Moment, reply: &Reply) -> Result<Taken, Refusal>;

    /// Writes what the publisher has.
    fn write_there(&self, text: &mut String) -> Result<(), NoMemory>;

    /// Writes what the subscriber has.
    fn write_here(&self, text: &mut String) -> Result<(), NoMemory>;

    /// Writes what the subscriber keeps that begins anew.
    fn write_own(&self, text: &mut String) -> Result<(), NoMemory>;

    /// How many rows the subscriber has.
    fn rows_here(&self) -> usize;

    /// How often the store of each site failed.
    fn faults(&self) -> (u64, u64);

    /// That both have what is worked out for the end of the script.
    fn check<R: Abort>(&self, rt: &R) -> Result<(), NoMemory>;
}

/// Each step of the script answers what is worked out.
pub fn follow<T: Play, R: Abort>(rt: &R, alloc: Global) -> Result<(), Fail> {
    let mut sites = T::begun(alloc, None)?;
    for (place, (now, step, wanted)) in SCRIPT.iter().enumerate() {
        same_in(rt, &sites.step(Moment(*now), *step)?, wanted, &place);
    }
    Ok(())
}

/// Two sites behind so many steps of the script.
pub fn played<T: Play>(alloc: Global, failing: Option<Call>, count: usize) -> Result<T, Fail> {
    let mut sites = T::begun(alloc, failing)?;
    for (place, (now, step, _)) in SCRIPT.iter().enumerate() {
        if place < count {
            sites.step(Moment(*now), *step)?;
        }
    }
    Ok(sites)
}

/// Both sites that start again behind the script have what is worked out.
pub fn start_again<T: Play, R: Abort>(rt: &R, alloc: Global) -> Result<(), Fail> {
    let sites = played::<T>(alloc, None, SCRIPT.len())?;
    let sites = sites.started_again()?;
    same(rt, &sites.faults(), &(0, 0));
    Ok(sites.check(rt)?)
}

fn own<T: Play>(alloc: Global, sites: &T) -> Result<String, NoMemory> {
    let mut text = String::new(alloc);
    sites.write_own(&mut text)?;
    Ok(text)
}

/// Behind so many steps the subscriber begins anew, and keeps what is its own. What it discards comes
/// behind its other conflicts.
pub fn begin_anew<T: Play, R: Abort>(rt: &R, alloc: Global, count: usize) -> Result<(), Fail> {
    let mut sites = played::<T>(alloc, None, count)?;
    let before = own(alloc, &sites)?;
    let discarded = sites.step(Moment(LATE), Step::Here(Here::BeginsAnew))?;
    let after = own(alloc, &sites)?;
    same(rt, &(discarded, sites.rows_here()), &(1, 0));
    same(rt, &after.as_str().starts_with(before.as_str()), &true);
    Ok(())
}

// The answer of a step. One whose store fails is made again.
fn answered<T: Play>(sites: &mut T, now: Moment, step: Step) -> Result<u64, Refusal> {
    match sites.step(now, step) {
        Err(Refusal::StoreFault) => sites.step(now, step),
        answer => answer,
    }
}

// What is told of the script: each answer, and what both sites then have; and how often a store failed.
fn told<T: Play>(alloc: Global, failing: Option<Call>) -> Result<(String, (u64, u64)), Fail> {
    let mut text = String::new(alloc);
    let mut sites = T::begun(alloc, failing)?;
    for (now, step, _) in SCRIPT {
        let answer = answered(&mut sites, Moment(*now), *step)?;
        writeln!(text, "{answer}")?;
    }
    sites.write_there(&mut text)?;
    sites.write_here(&mut text)?;
    Ok((text, sites.faults()))
}

// How often the stores of both sites failed, where one call of a site's keeper fails, or none.
fn faults_of(site: SiteId, fails: bool) -> (u64, u64) {
    let faults = u64::from(fails);
    if site.0 == 0 {
        (faults, 0)
    } else {
        (0, faults)
    }
}

// Each call of a site's keeper fails in turn, but for the load of its start. Behind the last call
// nothing fails, so that there are just as many.
fn fail_at<T: Play, R: Abort>(
    rt: &R,
    alloc: Global,
    site: SiteId,
    calls: u64,
    wanted: &str,
) -> Result<(), Fail> {
    for number in 1..=calls {
        let (text, faults) = told::<T>(alloc, Some(Call { site, number }))?;
        same_in(rt, &text.as_str(), &wanted, &number);
        same_in(rt, &faults, &faults_of(site, number < calls), &number);
    }
    Ok(())
}

/// What is told of the script is the same where a call of a keeper fails, and the step is made again.
/// The sites come with how often their keepers are called.
pub fn fail_in_turn<T: Play, R: Abort>(
    rt: &R,
    alloc: Global,
    sites: &[(SiteId, u64)],
) -> Result<(), Fail> {
    let (wanted, _) = told::<T>(alloc, None)?;
    for (site, calls) in sites {
        fail_at::<T, R>(rt, alloc, *site, *calls, wanted.as_str())?;
    }
    Ok(())
}
