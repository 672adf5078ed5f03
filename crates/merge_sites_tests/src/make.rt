//! How many events scripts have, by the formula.
use crate::same::same;
use merge_make::Script;

fn count_of(customers: u16) -> u32 {
    let mut count = 0u32;
    for _ in Script::new(customers) {
        count = count.wrapping_add(1);
    }
    count
}

#[test]
fn scripts_have_so_many_events(rt: HostRuntime) {
    for (customers, events) in [(1, 21), (60, 292), (20000, 91874)] {
        same(&rt, &count_of(customers), &events);
    }
}
