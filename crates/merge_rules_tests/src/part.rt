//! The membership beside the slow program, over scripts of changes.
mod slow;
mod trial;
mod worked;

use crate::same::same_in;
use std::test::Fail;
use trial::Cell::{Int, Null, Text};
use trial::{Line, agreeing};

const CUSTOMER: u8 = 0;

const ORDERS: u8 = 1;

const LINE: u8 = 2;

const PRODUCT: u8 = 3;

const NOTE: u8 = 4;

// Orders follow customers, and lines follow orders and products. An order of more than 100 is
// everyone's, and so is each note.
const SHOP: &str = r#"name = "shop"
article = [{ name = "customer", filter = "region = HOST_NAME()", column = [{ name = "id", type = "int" }, { name = "region", type = "text" }] }, { name = "orders", filter = "id > 100", column = [{ name = "id", type = "int" }, { name = "cust", type = "int" }], join = [{ column = "cust", parent = "customer", parent_column = "id" }] }, { name = "line", column = [{ name = "ord", type = "int" }, { name = "item", type = "int" }], join = [{ column = "ord", parent = "orders", parent_column = "id" }, { column = "item", parent = "product", parent_column = "id" }] }, { name = "product", filter = "NOT maker = HOST_NAME()", column = [{ name = "id", type = "int" }, { name = "maker", type = "text" }] }, { name = "note", column = [{ name = "id", type = "int" }, { name = "text", type = "text" }] }]
subscription = [{ site = 1, host = "north" }, { site = 2, host = "south" }, { site = 4, host = "east" }]
"#;

// Two customers of one number are both parents of an order, and one after the other they go.
const SEVERAL_PARENTS: &[&[Line]] = &[
    &[
        Line(ORDERS, 5, Some((Int(10), Int(1)))),
        Line(LINE, 7, Some((Int(10), Null))),
    ],
    &[
        Line(CUSTOMER, 1, Some((Int(1), Text("north")))),
        Line(CUSTOMER, 2, Some((Int(1), Text("north")))),
        Line(CUSTOMER, 3, Some((Int(1), Text("south")))),
    ],
    &[Line(CUSTOMER, 1, None)],
    &[Line(CUSTOMER, 2, Some((Int(1), Text("south"))))],
    &[Line(CUSTOMER, 3, None)],
    &[Line(CUSTOMER, 2, None)],
];

// A line follows its order and its product, and stays while one of them holds it.
const TWO_JOINS: &[&[Line]] = &[
    &[
        Line(CUSTOMER, 1, Some((Int(1), Text("north")))),
        Line(ORDERS, 5, Some((Int(10), Int(1)))),
        Line(LINE, 7, Some((Int(10), Int(3)))),
    ],
    &[Line(PRODUCT, 2, Some((Int(3), Text("south"))))],
    &[Line(CUSTOMER, 1, Some((Int(1), Text("south"))))],
    &[Line(PRODUCT, 2, Some((Int(3), Text("north"))))],
    &[Line(LINE, 7, Some((Int(11), Int(3))))],
    &[
        Line(ORDERS, 5, Some((Int(11), Int(1)))),
        Line(PRODUCT, 2, Some((Int(4), Text("north")))),
    ],
];

// A chain of three articles, of which the first moves, is cut and is joined again.
const CHAINS: &[&[Line]] = &[
    &[
        Line(LINE, 7, Some((Int(10), Null))),
        Line(LINE, 8, Some((Int(10), Null))),
        Line(ORDERS, 5, Some((Int(10), Int(1)))),
        Line(CUSTOMER, 1, Some((Int(1), Text("east")))),
    ],
    &[Line(CUSTOMER, 1, Some((Int(1), Text("west"))))],
    &[
        Line(CUSTOMER, 1, Some((Int(1), Text("north")))),
        Line(ORDERS, 5, Some((Int(10), Int(2)))),
    ],
    &[Line(ORDERS, 5, Some((Int(10), Int(1))))],
    &[
        Line(ORDERS, 6, Some((Int(101), Null))),
        Line(LINE, 8, Some((Int(101), Null))),
    ],
    &[Line(ORDERS, 6, Some((Int(99), Null)))],
];

// A Null passes no filter, and joins with nothing, also not with a Null.
const NULLS: &[&[Line]] = &[
    &[
        Line(CUSTOMER, 1, Some((Null, Text("north")))),
        Line(CUSTOMER, 2, Some((Int(1), Null))),
        Line(PRODUCT, 3, Some((Null, Null))),
    ],
    &[
        Line(ORDERS, 5, Some((Null, Null))),
        Line(ORDERS, 6, Some((Int(10), Int(1)))),
        Line(LINE, 7, Some((Null, Null))),
    ],
    &[
        Line(ORDERS, 5, Some((Int(200), Null))),
        Line(NOTE, 1, Some((Null, Null))),
    ],
    &[Line(CUSTOMER, 1, Some((Int(1), Text("north"))))],
    &[
        Line(CUSTOMER, 1, Some((Null, Text("north")))),
        Line(ORDERS, 6, Some((Int(10), Null))),
    ],
];

// A customer gets another number while orders come, go and change theirs in the same step.
const A_PARENT_GETS_ANOTHER_VALUE: &[&[Line]] = &[
    &[
        Line(CUSTOMER, 1, Some((Int(1), Text("north")))),
        Line(CUSTOMER, 2, Some((Int(2), Text("south")))),
        Line(ORDERS, 5, Some((Int(10), Int(1)))),
        Line(ORDERS, 6, Some((Int(20), Int(2)))),
        Line(LINE, 7, Some((Int(10), Null))),
    ],
    &[Line(CUSTOMER, 1, Some((Int(2), Text("north"))))],
    &[
        Line(CUSTOMER, 1, Some((Int(1), Text("north")))),
        Line(CUSTOMER, 2, Some((Int(1), Text("south")))),
        Line(ORDERS, 6, Some((Int(20), Int(1)))),
    ],
    &[
        Line(CUSTOMER, 1, Some((Int(3), Text("south")))),
        Line(ORDERS, 5, Some((Int(10), Int(3)))),
        Line(ORDERS, 4, Some((Int(10), Int(1)))),
    ],
];

// A parent and its child go in one step, and come back in one step.
const A_PARENT_AND_ITS_CHILD_GO: &[&[Line]] = &[
    &[
        Line(CUSTOMER, 1, Some((Int(1), Text("north")))),
        Line(ORDERS, 5, Some((Int(10), Int(1)))),
        Line(LINE, 7, Some((Int(10), Null))),
    ],
    &[Line(ORDERS, 5, None), Line(CUSTOMER, 1, None)],
    &[
        Line(ORDERS, 5, Some((Int(10), Int(1)))),
        Line(CUSTOMER, 1, Some((Int(1), Text("south")))),
    ],
    &[
        Line(CUSTOMER, 1, None),
        Line(LINE, 7, None),
        Line(NOTE, 3, None),
    ],
];

const SCRIPTS: &[(&str, &[&[Line]])] = &[
    ("several parents of one row", SEVERAL_PARENTS),
    ("a row with two joins", TWO_JOINS),
    ("a chain of three articles", CHAINS),
    ("Nulls pass no filter and join with nothing", NULLS),
    (
        "a parent gets another value as its children change",
        A_PARENT_GETS_ANOTHER_VALUE,
    ),
    (
        "a parent and its child go and come back together",
        A_PARENT_AND_ITS_CHILD_GO,
    ),
];

#[test]
fn the_membership_agrees_with_the_slow_program(rt: HostRuntime) -> Result<(), Fail> {
    for (shows, script) in SCRIPTS {
        let steps = agreeing(rt.alloc(), SHOP.as_bytes(), script)?;
        same_in(&rt, &steps, &script.len(), &shows);
    }
    Ok(())
}
