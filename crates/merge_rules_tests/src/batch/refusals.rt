//! What is printed of each refusal, and the reply that tells it.
use crate::same::{same, same_in};
use merge_batch::{Refusal, Reply};
use merge_types::{Moment, Octets, SiteId, Words};
use std::alloc::Global;
use std::test::Fail;

// A refusal of this number, which holds no key and no name.
fn refusal(number: u8) -> Refusal {
    match number {
        1 => Refusal::UnknownSite { site: SiteId(9) },
        2 => Refusal::Expired {
            last_sync: Moment(1209600),
            now: Moment(2419201),
        },
        3 => Refusal::Stale {
            seq: 4,
            joined_at: 5,
        },
        4 => Refusal::Gap {
            from: 3,
            received: 1,
        },
        5 => Refusal::BadBatch { item: 2, rule: 5 },
        6 => Refusal::WrongWatermark { from: 7, last: 4 },
        7 => Refusal::StoreFault,
        8 => Refusal::NoRow,
        9 => Refusal::WrongType { column: 3 },
        10 => Refusal::RowTooLong { length: 8001 },
        11 => Refusal::IdentityUsedUp { end: 4 },
        12 => Refusal::TooManyRows { count: 200001 },
        13 => Refusal::IdentityColumn { column: 0 },
        15 => Refusal::Joining,
        16 => Refusal::CounterEnd { value: 1 << 61 },
        17 => Refusal::NotJoined,
        _ => Refusal::NoMemory,
    }
}

// A refusal by its number, its words, and the fields of the reply that tells it, if one does.
const REFUSALS: &[(u8, &str, Option<&[u64]>)] = &[
    (1, "unknown site 9", Some(&[9])),
    (2, "expired 1209600 2419201", Some(&[1209600, 2419201])),
    (3, "stale 4 5", Some(&[4, 5])),
    (4, "gap 3 1", Some(&[3, 1])),
    (5, "bad batch 2 5", Some(&[2, 5])),
    (6, "wrong watermark 7 4", Some(&[7, 4])),
    (7, "store fault", None),
    (8, "no row", None),
    (9, "wrong type 3", None),
    (10, "row too long 8001", None),
    (11, "identity used up 4", None),
    (12, "too many rows 200001", Some(&[200001])),
    (13, "identity column 0", None),
    (15, "joining", None),
    (
        16,
        "counter end 2305843009213693952",
        Some(&[2305843009213693952]),
    ),
    (17, "not joined", Some(&[])),
    (0, "no memory", None),
];

fn is_printed(alloc: Global, refusal: &Refusal, text: &str) -> Result<bool, Fail> {
    let printed = format!(in alloc; "{refusal}")?;
    Ok(printed.as_str() == text)
}

// Whether a reply with this number and these fields tells a copy of the refusal.
fn is_replied(
    alloc: Global,
    refusal: &Refusal,
    told: u8,
    fields: Option<&[u64]>,
) -> Result<bool, Fail> {
    let reply = refusal.clone()?.reply(alloc)?;
    match (&reply, fields) {
        (Some(Reply::Refused { number, values }), Some(fields)) => {
            Ok(*number == told && values.as_slice() == fields)
        }
        (None, None) => Ok(true),
        _ => Ok(false),
    }
}

#[test]
fn refusals(rt: HostRuntime) -> Result<(), Fail> {
    for (number, text, fields) in REFUSALS {
        let refusal = refusal(*number);
        same_in(&rt, &refusal.number(), number, &text);
        assert!(rt; is_printed(rt.alloc(), &refusal, text)?, "{text}");
        assert!(rt;
            is_replied(rt.alloc(), &refusal, *number, *fields)?,
            "{text}"
        );
    }
    Ok(())
}

fn damaged(alloc: Global, table: u8, key: &[u8]) -> Result<Refusal, Fail> {
    Ok(Refusal::Damaged {
        table,
        key: Octets::new(key.to_vec(alloc)?),
    })
}

const DAMAGES: &[(u8, &[u8], &str)] = &[(9, &[], "damaged 9 -"), (2, &[0, 171], "damaged 2 00ab")];

// Refusals that hold a key or a name. No reply tells them.
#[test]
fn refusals_with_keys_and_names(rt: HostRuntime) -> Result<(), Fail> {
    for (table, key, text) in DAMAGES {
        let refusal = damaged(rt.alloc(), *table, key)?;
        same_in(&rt, &refusal.number(), &14, &text);
        assert!(rt; is_printed(rt.alloc(), &refusal, text)?, "{text}");
    }
    let name = Words::of(rt.alloc(), "colour")?;
    let refusal = Refusal::UnknownName { name };
    same(&rt, &refusal.number(), &18);
    assert!(rt; is_printed(rt.alloc(), &refusal, "name colour")?);
    assert!(rt; is_replied(rt.alloc(), &refusal, 18, None)?);
    Ok(())
}
