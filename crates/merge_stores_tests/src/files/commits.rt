//! What commits leave in a file that is opened again.
use super::{Entry, Told, clear, edits_of, holds};
use merge_ports::Keeper;
use merge_sqlite::SqliteKeeper;
use std::test::Fail;

const STORE: &str = "kept.db";

// The edits of a commit to the file, and the entries behind it in the order of their keys.
const COMMITS: &[(&[Told<'static>], &[Entry<'static>])] = &[
    (&[], &[]),
    (
        &[
            (3, &[1, 0], Some(&[9])),
            (255, &[128], Some(&[0])),
            (3, &[1], Some(&[7])),
            (0, &[255], Some(&[])),
            (3, &[], Some(&[8])),
        ],
        &[
            (0, &[255], &[]),
            (3, &[], &[8]),
            (3, &[1], &[7]),
            (3, &[1, 0], &[9]),
            (255, &[128], &[0]),
        ],
    ),
    // what is put again, put and taken, taken and put, and taken without being there
    (
        &[
            (3, &[1], Some(&[5, 5])),
            (4, &[2], Some(&[1])),
            (4, &[2], None),
            (3, &[], None),
            (3, &[], Some(&[6])),
            (0, &[255], None),
            (9, &[], None),
        ],
        &[
            (3, &[], &[6]),
            (3, &[1], &[5, 5]),
            (3, &[1, 0], &[9]),
            (255, &[128], &[0]),
        ],
    ),
];

// Opens the file, makes one commit, and lets the file go.
fn commit_to_file(rt: &HostRuntime, told: &[Told<'_>]) -> Result<(), Fail> {
    let mut keeper = SqliteKeeper::open(rt, STORE)?;
    let edits = edits_of(rt.alloc(), told)?;
    keeper.commit(&edits)?;
    Ok(())
}

fn file_holds(rt: &HostRuntime, wanted: &[Entry<'_>]) -> Result<bool, Fail> {
    let mut keeper = SqliteKeeper::open(rt, STORE)?;
    Ok(holds(&mut keeper, wanted)?)
}

#[test]
fn a_file_that_is_opened_again_holds_what_was_committed(rt: HostRuntime) -> Result<(), Fail> {
    clear(&rt, &[STORE, "kept.db-wal"]);
    for (told, wanted) in COMMITS {
        commit_to_file(&rt, told)?;
        assert!(rt; file_holds(&rt, wanted)?, "{told:?}");
    }
    Ok(())
}
