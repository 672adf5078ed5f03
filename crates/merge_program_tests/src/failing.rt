//! Ports that fail at each of their calls.
use crate::ending::{Failing, is_ended, outside, play};
use crate::scripts::{ITEM, ITEM_AT_TWO};
use std::alloc::Global;
use std::process::Abort;
use std::test::*;

// A publication, a script, its answers, and how many events it has: each answer is a write.
struct Played {
    publication: &'static str,
    script: &'static str,
    answers: &'static str,
    events: u64,
}

const PLAYED: &[Played] = &[
    Played {
        publication: ITEM,
        script: "insert 0 item qty=7\nsync 1\nshow 1 item\n",
        answers: r#"row 00000000-0000-8000-8000-000000000001
done 0 1 1
00000000-0000-8000-8000-000000000001 7
rows 1
"#,
        events: 3,
    },
    Played {
        publication: ITEM_AT_TWO,
        script: r#"insert 0 item qty=1
sync 1
sync 2
update 1 item 0.1 qty=10
update 2 item 0.1 qty=20
sync 2
sync 1
sync 2
show 1 item
conflicts 0
"#,
        answers: r#"row 00000000-0000-8000-8000-000000000001
done 0 1 1
done 0 1 1
ok
ok
done 1 1 2
done 1 1 3
done 0 1 3
00000000-0000-8000-8000-000000000001 20
rows 1
1 item 00000000-0000-8000-8000-000000000001 1 1 publisher 0 live 10
conflicts 1
"#,
        events: 10,
    },
];

// Whether a run in which these calls fail ends so, and wrote a part of the answers in front.
fn breaks_off(
    alloc: Global,
    played: &Played,
    failing: &Failing,
    status: u8,
    note: &str,
) -> Result<bool, Fail> {
    let outside = outside(alloc, &[])?;
    let script = played.script.as_bytes();
    let (ended, host) = play(alloc, played.publication, script, failing, outside)?;
    let written = host.output.bytes.as_slice();
    let is_front = played.answers.as_bytes().starts_with(written);
    Ok(
        ended == status
            && is_front
            && written.len() < played.answers.len()
            && host.notes.bytes.as_slice() == note.as_bytes(),
    )
}

// The bytes of the input come with the first read, and its end with the second.
fn reads_fail<R: Abort>(rt: &R, alloc: Global, played: &Played) -> Result<(), Fail> {
    for call in 0..2u64 {
        let told = breaks_off(alloc, played, &[&[call], &[], &[]], 4, "read fault\n")?;
        let untold = breaks_off(alloc, played, &[&[call], &[], &[0]], 4, "")?;
        assert!(rt; told && untold, "read {call}");
    }
    Ok(())
}

fn writes_fail<R: Abort>(rt: &R, alloc: Global, played: &Played) -> Result<(), Fail> {
    for call in 0..played.events {
        let told = breaks_off(alloc, played, &[&[], &[call], &[]], 5, "write fault\n")?;
        let untold = breaks_off(alloc, played, &[&[], &[call], &[0]], 5, "")?;
        assert!(rt; told && untold, "write {call}");
    }
    Ok(())
}

#[test]
fn ports_that_fail(rt: HostRuntime) -> Result<(), Fail> {
    for played in PLAYED {
        reads_fail(&rt, rt.alloc(), played)?;
        writes_fail(&rt, rt.alloc(), played)?;
    }
    Ok(())
}

// No call fails but one that is not made.
#[test]
fn ports_that_do_not_fail(rt: HostRuntime) -> Result<(), Fail> {
    for played in PLAYED {
        let outside = outside(rt.alloc(), &[])?;
        let events = [played.events];
        let failing: Failing = [&[2], &events, &[0]];
        let script = played.script.as_bytes();
        let (ended, host) = play(rt.alloc(), played.publication, script, &failing, outside)?;
        assert!(rt; is_ended(ended, &host, 0, played.answers, ""));
    }
    Ok(())
}
