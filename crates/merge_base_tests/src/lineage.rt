//! Lineages of a few sites, with the answers that the rules give.
use crate::same::same;
use merge_lineage::{Lineage, Order4, are_ascending};
use merge_types::{Dot, SiteId};
use std::alloc::Global;
use std::process::Abort;
use std::test::Fail;

fn dot(site: u16, number: u64) -> Dot {
    Dot {
        site: SiteId(site),
        number,
    }
}

fn lineage(rt: &impl Abort, alloc: Global, pairs: &[(u16, u64)]) -> Result<Lineage, Fail> {
    let mut dots = Vec::new(alloc);
    for (site, number) in pairs {
        dots.push(dot(*site, *number))?;
    }
    assert!(rt; are_ascending(&dots), "{pairs:?}");
    Ok(Lineage::restore(dots))
}

#[test]
fn compares_and_joins(rt: HostRuntime) -> Result<(), Fail> {
    let both: &[(u16, u64)] = &[(0, 2), (1, 3)];
    let cases: [(&[(u16, u64)], &[(u16, u64)], Order4, &[(u16, u64)]); 5] = [
        (both, &[(0, 2)], Order4::Greater, both),
        (both, &[(0, 3)], Order4::Concurrent, &[(0, 3), (1, 3)]),
        (&[], &[(63, 1)], Order4::Less, &[(63, 1)]),
        (both, both, Order4::Equal, both),
        (&[(0, 9)], &[(1, 1)], Order4::Concurrent, &[(0, 9), (1, 1)]),
    ];
    for (ours, theirs, order, joined) in cases {
        let here = lineage(&rt, rt.alloc(), ours)?;
        let there = lineage(&rt, rt.alloc(), theirs)?;
        assert_eq!(rt; here.compare(&there), order, "{ours:?} to {theirs:?}");
        let join = here.join(&there)?;
        assert_eq!(rt;
            join.dots(),
            lineage(&rt, rt.alloc(), joined)?.dots(),
            "{ours:?} with {theirs:?}"
        );
    }
    Ok(())
}

#[test]
fn knows_what_it_advanced_to(rt: HostRuntime) -> Result<(), Fail> {
    let mut seen = Lineage::new(rt.alloc());
    for (site, number) in [(1, 4), (0, 2), (1, 5)] {
        let change = dot(site, number);
        assert!(rt; !seen.knows(change), "{change:?}");
        seen = seen.advance(change)?;
        assert!(rt; seen.knows(change), "{change:?}");
    }
    assert!(rt; seen.knows(dot(1, 3)));
    assert!(rt; !seen.knows(dot(0, 3)));
    assert!(rt; !seen.knows(dot(2, 1)));
    same(&rt, &seen.number_of(SiteId(1)), &5);
    same(&rt, &seen.number_of(SiteId(2)), &0);
    assert!(rt; seen.covers(&lineage(&rt, rt.alloc(), &[(1, 5)])?));
    assert!(rt; !seen.covers(&lineage(&rt, rt.alloc(), &[(1, 6)])?));
    same(
        &rt,
        &seen.clone()?.into_vec().as_slice(),
        &[dot(0, 2), dot(1, 5)].as_slice(),
    );
    Ok(())
}

#[test]
fn a_site_comes_once(rt: HostRuntime) {
    let cases: [(&[Dot], bool); 4] = [
        (&[], true),
        (&[dot(0, 2), dot(3, 1)], true),
        (&[dot(0, 2), dot(0, 3)], false),
        (&[dot(3, 1), dot(0, 2)], false),
    ];
    for (dots, answer) in cases {
        assert_eq!(rt; are_ascending(dots), answer, "{dots:?}");
    }
}
