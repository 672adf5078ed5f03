//! What words make the program do.
use crate::ending::{Failing, NONE, end, is_ended, outside};
use std::alloc::Global;
use std::test::Fail;

// As cases/make-60.out has it.
const MADE_60: &str =
    "made 60 events 292 refused 0\ncustomer 60\norders 108\ncustomer 21\norders 37\ncustomer 19\norders 34\ncustomer 20\norders 37\nconflicts 15\n";

// As cases/large/make-20000.out has it.
const MADE_20000: &str =
    "made 20000 events 91874 refused 0\ncustomer 20000\norders 36000\ncustomer 6666\norders 11998\ncustomer 6666\norders 11999\ncustomer 6668\norders 12003\nconflicts 5000\n";

// The one customer is of region 1, and so at site 2.
const MADE_1: &str =
    "made 1 events 21 refused 0\ncustomer 1\norders 2\ncustomer 0\norders 0\ncustomer 1\norders 2\ncustomer 0\norders 0\nconflicts 0\n";

// What the notes are told where the words are no command: a word, and the help with a line for each command.
const USAGE: &str = r#"usage
Merge replication between a publisher and its subscribers

Usage: replmerge [COMMAND]

Commands:
  play    Read a publication, a line --- and a script, and answer each event
  make    Play a script that is made for N customers, 1 to 20000, and sum up its answers
  change  Read a script that changes the site SITE of the publication in the file PUB, at the store STORE
  show    Show the rows of the article ARTICLE at that site
  sync    Synchronise that site, a subscriber, with the publisher at ADDRESS over HTTP
  serve   Serve subscribers at ADDRESS over HTTP from the publisher at the store STORE, by 1 to 16 WORKERS and for 1 to 1000000 REQUESTS, and sum up

The lines of a script and their answers: docs/use/script.md and docs/use/commands.md
"#;

// A line of words, the writes and the openings of stores that fail, and how the program ends.
type Command = (
    &'static str,
    &'static [u64],
    &'static [u64],
    (u8, &'static str, &'static str),
);

const COMMANDS: &[Command] = &[
    ("make 1", &[], &[], (0, MADE_1, "")),
    ("make 60", &[], &[], (0, MADE_60, "")),
    ("make 60", &[0], &[], (5, "", "write fault\n")),
    ("make 60", &[], &[0], (6, "", "store fault\n")),
    ("make 60", &[], &[3], (6, "", "store fault\n")),
    (
        "play",
        &[],
        &[],
        (2, "", "publication refused: 2 missing name\n"),
    ),
];

fn does(alloc: Global, command: &Command) -> Result<bool, Fail> {
    let (line, writes, openings, (status, output, notes)) = *command;
    let failing: Failing = [&[], writes, &[]];
    let outside = outside(alloc, openings)?;
    let (ended, host) = end(alloc, line, b"", &failing, outside)?;
    Ok(is_ended(ended, &host, status, output, notes))
}

#[test]
fn commands(rt: HostRuntime) -> Result<(), Fail> {
    for command in COMMANDS {
        assert!(rt; does(rt.alloc(), command)?, "{command:?}");
    }
    Ok(())
}

// The script for the most customers takes the longest, and so has a test of its own.
#[test]
fn the_largest_script(rt: HostRuntime) -> Result<(), Fail> {
    let command: Command = ("make 20000", &[], &[], (0, MADE_20000, ""));
    assert!(rt; does(rt.alloc(), &command)?);
    Ok(())
}

// Whether the program only tells how it is used.
fn tells_usage(alloc: Global, line: &str, input: &str) -> Result<bool, Fail> {
    let outside = outside(alloc, &[])?;
    let (ended, host) = end(alloc, line, input.as_bytes(), &NONE, outside)?;
    Ok(is_ended(ended, &host, 1, "", USAGE))
}

const NO_COMMANDS: &[&str] = &[
    "",
    "help",
    "--help",
    "-h",
    "play 1",
    "make",
    "make 0",
    "make 20001",
    "make 65537",
    "make 07",
    "make x",
    "make 1x",
    "make +1",
    "make 1 1",
    "MAKE 1",
    "change",
    "change p1 s",
    "change p1 s x",
    "change p1 s 65536",
    "change p1 s 1 item",
    "change -p1 s 1",
    "change p1 -s 1",
    "show p1 s 1",
    "show p1 s 1 -item",
    "show p1 s 1 item more",
    "sync",
    "sync p1 s 1",
    "sync p1 s x a",
    "sync p1 s 65536 a",
    "sync p1 s 1 -a",
    "sync p1 s 1 ",
    "sync p1 -s 1 a",
    "sync p1 s 1 a more",
];

#[test]
fn words_that_are_no_command(rt: HostRuntime) -> Result<(), Fail> {
    for line in NO_COMMANDS {
        assert!(rt; tells_usage(rt.alloc(), line, "")?, "{line}");
    }
    Ok(())
}

const NO_LINES: &[&str] = &["sync 1", "insert 1 item qty=7", "wait 1", "restart 0"];

// A line of another site ends the script.
#[test]
fn lines_of_no_site(rt: HostRuntime) -> Result<(), Fail> {
    for line in NO_LINES {
        assert!(rt; tells_usage(rt.alloc(), "change p1  0", line)?, "{line}");
    }
    Ok(())
}

// A line of words with an input, and how the program ends.
const STEPS: &[(&str, &str, u8, &str, &str)] = &[
    (
        "change p1  0",
        "insert 0 item qty=7\n",
        0,
        "row 00000000-0000-8000-8000-000000000001\n",
        "",
    ),
    (
        "show p1  0 item",
        "",
        0,
        "00000000-0000-8000-8000-000000000001 7\nrows 1\n",
        "",
    ),
    ("show p1  1 item", "", 0, "rows 0\n", ""),
    (
        "change p1  1",
        "count 1\ninsert 1 item qty=3\n",
        0,
        "item 0\nrefused 15 joining\n",
        "",
    ),
    (
        "change p1  0",
        "count 0\nwat 0\n",
        3,
        "item 1\n",
        "line 2 word 1: no event\n",
    ),
    ("change p1  2", "", 12, "", "refused 1\n"),
    ("show p1  0 items", "", 12, "", "refused 18\n"),
    ("show p2  0 item", "", 4, "", "read fault\n"),
    ("show p1 s 0 item", "", 6, "", "store fault\n"),
];

// What is changed at one store, line after line; each command begins where the last one ended.
#[test]
fn sites_at_their_stores(rt: HostRuntime) -> Result<(), Fail> {
    let mut next = outside(rt.alloc(), &[])?;
    for (line, input, status, output, notes) in STEPS {
        let (ended, host) = end(rt.alloc(), line, input.as_bytes(), &NONE, next)?;
        assert!(rt;
            is_ended(ended, &host, *status, output, notes),
            "{line} {input}"
        );
        next = host.outside;
    }
    Ok(())
}
