use crate::same::same;
use merge_link::{Clock, Link, LinkFault, MemoryClock, MemoryLink};
use merge_types::{Listing, Moment, Octets};
use std::alloc::Global;
use std::test::Fail;

fn octets(alloc: Global, bytes: &[u8]) -> Result<Octets, Fail> {
    Ok(Listing::new(bytes.to_vec(alloc)?))
}

fn link(alloc: Global, failing: &[u64]) -> Result<MemoryLink, Fail> {
    let mut responses = Listing::empty(alloc);
    responses.push(octets(alloc, b"one")?)?;
    responses.push(octets(alloc, b"two")?)?;
    Ok(MemoryLink::new(alloc, responses, Listing::new(failing.to_vec(alloc)?)))
}

#[test]
fn a_link_gives_its_responses_and_keeps_what_was_asked(rt: HostRuntime) -> Result<(), Fail> {
    let mut link = link(rt.alloc(), &[])?;
    let asked = [(b"a".as_slice(), b"one".as_slice()), (b"b", b"two")];
    for (request, response) in asked {
        let given = link.ask(request)?;
        same(&rt, &given.as_slice(), &response);
    }
    same(&rt, &link.ask(b"c").err(), &Some(LinkFault::Failed));
    same(&rt, &link.faults(), &1);
    same(&rt, &link.exchanges.len(), &2);
    for (exchange, (request, response)) in link.exchanges.iter().zip(asked) {
        same(&rt, &exchange.request.as_slice(), &request);
        same(&rt, &exchange.response.as_slice(), &response);
    }
    Ok(())
}

#[test]
fn a_failing_call_takes_no_response(rt: HostRuntime) -> Result<(), Fail> {
    let mut link = link(rt.alloc(), &[0])?;
    same(&rt, &link.ask(b"a").err(), &Some(LinkFault::Failed));
    same(&rt, &(link.faults(), link.exchanges.len()), &(1, 0));
    let given = link.ask(b"a")?;
    same(&rt, &given.as_slice(), &b"one".as_slice());
    Ok(())
}

#[test]
fn a_clock_stays_at_its_last_moment(rt: HostRuntime) -> Result<(), Fail> {
    let moments = [Moment(5), Moment(3)];
    let mut clock = MemoryClock::new(Listing::new(moments.to_vec(rt.alloc())?));
    for moment in [5, 3, 3] {
        same(&rt, &clock.now(), &Moment(moment));
    }
    let mut clock = MemoryClock::new(Listing::empty(rt.alloc()));
    same(&rt, &clock.now(), &Moment(0));
    Ok(())
}
