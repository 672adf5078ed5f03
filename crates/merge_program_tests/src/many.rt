//! Scripts with many events, of which the last answers are told.
use crate::ending::{NONE, outside, play};
use crate::scripts::ITEM;
use merge_types::Value;
use std::alloc::Global;
use std::test::Fail;

// So many inserts at site 1, and behind each of them this, between two sessions.
struct Inserts {
    count: u64,
    behind: &'static str,
    last: &'static str,
}

// An upload has at most 1,000 entries in a generation, 100 generations and 2,000 rows.
const INSERTS: &[Inserts] = &[
    Inserts {
        count: 1000,
        behind: "",
        last: "\ndone 1 1 1\n",
    },
    Inserts {
        count: 1001,
        behind: "",
        last: "\ndone 1 1 2\n",
    },
    Inserts {
        count: 2001,
        behind: "",
        last: "\ndone 2 2 3\n",
    },
    Inserts {
        count: 100,
        behind: "close 1\n",
        last: "\ndone 1 1 1\n",
    },
    Inserts {
        count: 101,
        behind: "close 1\n",
        last: "\ndone 2 1 1\n",
    },
];

fn script_of(alloc: Global, inserts: &Inserts) -> Result<Vec<u8>, Fail> {
    let mut script = b"sync 1\n".as_slice().to_vec(alloc)?;
    for _ in 0..inserts.count {
        script.extend_from_slice(b"insert 1 item qty=1\n".as_slice())?;
        script.extend_from_slice(inserts.behind.as_bytes())?;
    }
    script.extend_from_slice(b"sync 1\n".as_slice())?;
    Ok(script)
}

// Whether a script is played to its end, and its last answers are these.
fn ends_with(alloc: Global, publication: &str, script: &[u8], last: &[u8]) -> Result<bool, Fail> {
    let outside = outside(alloc, &[])?;
    let (ended, host) = play(alloc, publication, script, &NONE, outside)?;
    Ok(ended == 0 && host.output.bytes.as_slice().ends_with(last))
}

#[test]
fn uploads_of_many_rows(rt: HostRuntime) -> Result<(), Fail> {
    for inserts in INSERTS {
        let script = script_of(rt.alloc(), inserts)?;
        assert!(rt;
            ends_with(rt.alloc(), ITEM, &script, inserts.last.as_bytes())?,
            "{}",
            inserts.count
        );
    }
    Ok(())
}

// Customers of three regions with their orders, and a site for each region.
const OFFICES: &str = r#"name = "w"
[[article]]
name = "customer"
filter = "region = HOST_NAME()"
[[article.column]]
name = "id"
type = "int"
[[article.column]]
name = "region"
type = "text"
[[article.column]]
name = "credit"
type = "int"
[[article]]
name = "orders"
[[article.column]]
name = "id"
type = "int"
[[article.column]]
name = "cust"
type = "int"
[[article.join]]
column = "cust"
parent = "customer"
parent_column = "id"
[[subscription]]
site = 1
host = "r0"
[[subscription]]
site = 2
host = "r1"
[[subscription]]
site = 3
host = "r2"
"#;

const CUSTOMERS: i64 = 100;

// The pieces of a line, each with a number behind it, and the end of the line.
fn push_line(
    alloc: Global,
    script: &mut Vec<u8>,
    pieces: &[(&str, i64)],
    end: &str,
) -> Result<(), Fail> {
    for (piece, number) in pieces {
        script.extend_from_slice(piece.as_bytes())?;
        let number = Value::Int(*number).text(alloc)?;
        script.extend_from_slice(number.as_str().as_bytes())?;
    }
    script.extend_from_slice(end.as_bytes())?;
    Ok(())
}

fn push_customers(alloc: Global, script: &mut Vec<u8>) -> Result<(), Fail> {
    for id in 1..=CUSTOMERS {
        let pieces = [("insert 0 customer id=", id), (" region=\"r", id % 3)];
        push_line(alloc, script, &pieces, "\"\n")?;
    }
    Ok(())
}

// Two orders of each customer.
fn push_orders(alloc: Global, script: &mut Vec<u8>) -> Result<(), Fail> {
    for id in 1..=2 * CUSTOMERS {
        let pieces = [("insert 0 orders id=", id), (" cust=", (id + 1) / 2)];
        push_line(alloc, script, &pieces, "\n")?;
    }
    Ok(())
}

// The site of its region gives each customer credit.
fn push_credits(alloc: Global, script: &mut Vec<u8>) -> Result<(), Fail> {
    for id in 1..=CUSTOMERS {
        let pieces = [
            ("update ", id % 3 + 1),
            (" customer 0.", id),
            (" credit=", 1),
        ];
        push_line(alloc, script, &pieces, "\n")?;
    }
    Ok(())
}

const LAST: &str = r#"send 1 upload
deliver 19
sync 1
send 2 upload
sync 2
sync 3
sync 1
sync 2
count 1
count 2
count 3
conflicts 0
"#;

// The first upload is answered, and its reply is lost.
const LAST_ANSWERS: &str = r#"message 19
message 20
done 1 1 2
message 27
done 1 1 3
done 1 1 4
done 0 1 4
done 0 1 4
customer 33
orders 66
customer 34
orders 68
customer 33
orders 66
conflicts 0
"#;

// The answers behind the rows of the publisher: that of each first session, that of each credit, and
// the last ones.
fn answers_of_the_day(alloc: Global) -> Result<Vec<u8>, Fail> {
    let mut answers = b"done 0 1 1\ndone 0 1 1\ndone 0 1 1\n"
        .as_slice()
        .to_vec(alloc)?;
    for _ in 0..CUSTOMERS {
        answers.extend_from_slice(b"ok\n".as_slice())?;
    }
    answers.extend_from_slice(LAST_ANSWERS.as_bytes())?;
    Ok(answers)
}

#[test]
fn a_day_of_three_offices(rt: HostRuntime) -> Result<(), Fail> {
    let mut script = Vec::new(rt.alloc());
    push_customers(rt.alloc(), &mut script)?;
    push_orders(rt.alloc(), &mut script)?;
    script.extend_from_slice(b"sync 1\nsync 2\nsync 3\n".as_slice())?;
    push_credits(rt.alloc(), &mut script)?;
    script.extend_from_slice(LAST.as_bytes())?;
    let answers = answers_of_the_day(rt.alloc())?;
    assert!(rt; ends_with(rt.alloc(), OFFICES, &script, &answers)?);
    Ok(())
}
