//! Stores of the publisher that fail, and one that is damaged.
use crate::ending::{NONE, is_ended, outside_over, play};
use crate::scripts::ITEM;
use merge_keeper::MemoryKeeper;
use merge_ports::{Entries, EntryKey};
use merge_types::{Listing, Octets};
use std::alloc::Global;
use std::test::Fail;

fn keeper(alloc: Global, entries: Entries, failing: &[u64]) -> Result<MemoryKeeper, Fail> {
    let failing = Listing::new(failing.to_vec(alloc)?);
    Ok(MemoryKeeper::new(alloc, entries, failing, Listing::empty(alloc)))
}

const SCRIPT: &str = r#"sync 1
insert 1 item qty=1
insert 1 item qty=2
insert 1 item qty=3
sync 1
count 0
sync 1
restart 0
count 0
"#;

const ANSWERS: &str = r#"done 0 0 0
row 00000000-0001-8000-8000-000000000001
row 00000000-0001-8000-8000-000000000002
row 00000000-0001-8000-8000-000000000003
stopped 0 0 refused 7 store fault
item 0
done 1 1 1
ok
item 3
"#;

// The load and the commit of the join go well, and then that of the upload fails.
#[test]
fn a_commit_that_fails_changes_nothing(rt: HostRuntime) -> Result<(), Fail> {
    let publisher = keeper(rt.alloc(), Entries::empty(rt.alloc()), &[2])?;
    let outside = outside_over(rt.alloc(), publisher, &[])?;
    let (ended, host) = play(rt.alloc(), ITEM, SCRIPT.as_bytes(), &NONE, outside)?;
    assert!(rt; is_ended(ended, &host, 0, ANSWERS, ""));
    Ok(())
}

// No record has table 9.
#[test]
fn a_record_of_no_kind_is_damage(rt: HostRuntime) -> Result<(), Fail> {
    let alloc = rt.alloc();
    let mut entries = Entries::empty(alloc);
    let key = EntryKey {
        table: 9,
        key: Octets::empty(alloc),
    };
    entries.insert(key, Octets::empty(alloc))?;
    let outside = outside_over(alloc, keeper(alloc, entries, &[])?, &[])?;
    let (ended, host) = play(alloc, ITEM, SCRIPT.as_bytes(), &NONE, outside)?;
    assert!(rt; is_ended(ended, &host, 10, "", "damaged 9 -\n"));
    Ok(())
}
