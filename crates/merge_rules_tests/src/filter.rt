//! Texts with their answers, and truth tables.
ghost use Rattle.std.specs.Prelude.{◌≡◌, ◌≤◌};

use crate::same::{same, same_in};
use merge_filter::{FilterFault, Truth, eval, parse};
use merge_types::{Column, ColumnType, HostName, NoMemory, Octets, Steps, Value, Words};
use std::alloc::Global;
use std::marker::Brand;
use std::sync::ledger::{Blank, Ledger};
use std::test::Fail;

fn column(alloc: Global, name: &str, ty: ColumnType) -> Result<Column, NoMemory> {
    let name = Words::of(alloc, name)?;
    Ok(Column { name, ty })
}

fn columns(alloc: Global) -> Result<Vec<Column>, NoMemory> {
    let mut columns = Vec::new(alloc);
    columns.push(column(alloc, "qty", ColumnType::Int)?)?;
    columns.push(column(alloc, "region", ColumnType::Text)?)?;
    columns.push(column(alloc, "d", ColumnType::Bytes)?)?;
    columns.push(column(alloc, "day", ColumnType::Day)?)?;
    columns.push(column(alloc, "g", ColumnType::Guid)?)?;
    columns.push(column(alloc, "b", ColumnType::Bit)?)?;
    columns.push(column(alloc, "AND", ColumnType::Int)?)?;
    Ok(columns)
}

fn fault_of(alloc: Global, text: &str) -> Result<Option<FilterFault>, NoMemory> {
    let columns = columns(alloc)?;
    match parse(alloc, text.as_bytes(), &columns) {
        Ok(_) => Ok(None),
        Err(fault) => Ok(Some(fault)),
    }
}

const BAD_TOKENS: [(usize, &str); 19] = [
    (0, "007 = qty"),
    (0, "0xabc = d"),
    (0, "-0 = qty"),
    (6, "qty = 9223372036854775808"),
    (9, "region = 'a''"),
    (0, "[a b] = 1"),
    (0, "[AND = 1"),
    (
        0,
        "aaaaaaaaaaaaaaaaaaaaaaaaaaaaaaaaaaaaaaaaaaaaaaaaaaaaaaaaaaaaaaaaa = 1",
    ),
    (4, "qty # 1"),
    (0, "-=1 AND (region IS NOT NULL OR NOT HOST_NAME()=region)"),
    (
        1,
        "(007>DATE'2024-02-29')day or gNOTGUID'00000000-0000-8000-8000-000000000001' and b=BIT 1 OR d <= 0x00ff",
    ),
    (
        4,
        "qty=0xabc AND (region IS NOT NULL OR NOT HOST_NAME()=region)",
    ),
    (
        10,
        "(''''>DATE'2024-02-29''x or g<>GUID\t and b=BIT 1 OR d <= 0x00ff",
    ),
    (
        11,
        "qty=1 AND (#region IS NOT NULL OR 'a'HOST_NAME()=region)",
    ),
    (
        16,
        "regionqty=1 AND 0xabcregion IS NOT NULL OR NOT HOST_NAME()=region)",
    ),
    (17, "qty=1 AND (region'x IS NOT NULLbNOT [AND]()=region)"),
    (
        18,
        "qty=1'x AND ('2024-02-29'region IS NOT NULL OR NOT HOST_NAME()=region)",
    ),
    (
        20,
        "qty=1 AND (region IS-HOST_NAME OR NOT HOST_NAME()=region)",
    ),
    (
        22,
        "(day>DATE'2024-02-29')007g<>GUID'00000000-0000-8000-8000-000000000001' and b=BIT 1 OR d <= 0x00ff",
    ),
];

const BAD_FORMS: [(usize, &str); 30] = [
    (9, "region = "),
    (0, ""),
    (2, "  "),
    (3, "qty"),
    (6, "qty = "),
    (4, "qty "),
    (5, "qty ="),
    (6, "qty IS"),
    (10, "qty IS NOT"),
    (11, "qty = 1 AND"),
    (10, "qty = 1 or"),
    (3, "noT"),
    (1, "("),
    (8, "(qty = 1"),
    (9, "Host_Name"),
    (11, "HOST_NAME ("),
    (4, "BIT 2 = b"),
    (3, "BIT"),
    (5, "DATE '2023-02-29' = day"),
    (5, "GUID 'x' = g"),
    (0, "=1 AND (region IS NOT NULL OR NOT HOST_NAME()region)"),
    (
        3,
        "qty'2023-02-29'1 AND (region IS NOT NULL OR NOT HOST_NAME()=region)",
    ),
    (5, "qty1 AND 1region IS NOT NULL OR NOT HOST_NAME()=)"),
    (
        6,
        "region(day>DATE-5) or g<>GUID'00000000-0000-8000-8000-000000000001' and b=BIT 1 OR d <= 0x00ff",
    ),
    (
        7,
        "(day>-5DATE'2024-02-29')g<>GUID'00000000-0000-8000-8000-000000000001' and b=BIT 1 OR d <= 0x00ff",
    ),
    (
        8,
        "(dayDATE'2024-02-29') or <>GUID'00000000-0000-8000-8000-000000000001' and b=BIT 1 OR d <= 0x00ff",
    ),
    (
        9,
        "(day>DATE[AND]) or g<>GUIDqty( and b=BIT 1 OR d <= 0x00ff",
    ),
    (
        11,
        "qty=1 AND (OR IS NOT NULLGUID OR NOT HOST_NAME()=region)",
    ),
    (12, "qty=1 AND ( IS NOT NULL OR NOT HOST_NAME()=region)"),
    (
        13,
        "qty=1 AND (0xregion IS NOT NULL OR NOT HOST_NAME  )=region)",
    ),
];

const UNKNOWN_COLUMNS: [(usize, &str); 15] = [
    (0, "x = 1"),
    (0, "qt = 1"),
    (0, "qtyy = 1"),
    (11, "qty = b OR x = 1"),
    (0, "[qTy] = 1"),
    (
        0,
        "ANDqty=1 AND (region IS NOT NULL OR NOT HOST_NAME()=region)",
    ),
    (
        1,
        "(HOST_NAMEday>DATE'2024-02-29') or g<>GUID'00000000-0000-8000-8000-000000000001' and b=BIT 1",
    ),
    (
        4,
        "qty=zz AND (region IS NOT NULL OR NOT HOST_NAME()=region)",
    ),
    (
        5,
        "(day>DATEb) or g<>GUID'00000000-0000-8000-8000-000000000001' and b=BIT 1 OR d <= 0x00ff",
    ),
    (11, "qty=1 AND (region0x IS NOT NULL OR HOST_NAME()=region)"),
    (
        26,
        "(day>DATE'2024-02-29') or bg<>GUID'00000000-0000-8000-8000-000000000001' and b=BITzzregion",
    ),
    (
        29,
        "(day>DATE'2024-02-29') or g<>GUIDregion and b=BIT 1 OR d <= 0x00ff",
    ),
    (
        49,
        "qty=1 AND (region IS NOT NULL OR NOT HOST_NAME()=bregion)",
    ),
    (
        76,
        "(day>DATE'2024-02-29') or g<>GUID'00000000-0000-8000-8000-000000000001' and b0x=BIT 1 OR d <= 0x00ff",
    ),
    (
        78,
        "(day>DATE'2024-02-29') or g<>GUID'00000000-0000-8000-8000-000000000001' and b=zz OR d <= 0x00ff",
    ),
];

const TYPE_MISMATCHES: [(usize, &str); 13] = [
    (4, "qty = 'a'"),
    (2, "b = 1"),
    (4, "day = '2024-02-29'"),
    (1, "b=1 AND (region IS NOT NULL OR NOT HOST_NAME()=region)"),
    (
        2,
        "(b>DATE'2024-02-29') or g<>GUID'00000000-0000-8000-8000-000000000001' and b=BIT 1 OR d <= 0x00ff",
    ),
    (
        3,
        "qty=d AND (region IS NOT NULL OR NOT HOST_NAME()=region)",
    ),
    (
        4,
        "(day>'2024-02-29') or g<>GUID'00000000-0000-8000-8000-000000000001' and b=BIT 1",
    ),
    (
        5,
        "(''''>DATE'2024-02-29') or g<>GUID'00000000-0000-8000-8000-000000000001' and b=BIT 1 OR d <= 0x00ff",
    ),
    (
        7,
        "(region>DATE'2024-02-29') or g<>GUID'00000000-0000-8000-8000-000000000001' and b=BIT 1 OR d <= 0x00ff",
    ),
    (
        27,
        "(day>DATE'2024-02-29') or g<>'00000000-0000-8000-8000-000000000001' and b=BIT 1",
    ),
    (
        30,
        "(day>DATE'2024-02-29') or ''''<>GUID'00000000-0000-8000-8000-000000000001' and b=BIT 1 OR d <= 0x00ff",
    ),
    (
        38,
        "(day>DATE'2024-02-29') or '2024-02-29'<>GUID'00000000-0000-8000-8000-000000000001' and b=BIT 1 OR d <= 0x00ff",
    ),
    (48, "qty=1 AND (region IS NOT NULL OR NOT HOST_NAME()=1)"),
];

const FILTERS: [&str; 23] = [
    "NOT NOT NOT NOT NOT NOT NOT NOT NOT NOT NOT NOT NOT NOT NOT NOT NOT NOT NOT NOT NOT NOT NOT NOT NOT NOT NOT NOT NOT NOT NOT NOT qty = 1",
    "((((((((((((((((((((((((((((((((qty = 1))))))))))))))))))))))))))))))))",
    "qty=1AND qty=2",
    "[AND] = 1",
    "region = ''",
    "region = ''''",
    "d = 0x",
    "qty = -9223372036854775808",
    "bIt 0 < b",
    "nOt qty iS nOt nUlL oR hOst_nAme() = region",
    "day = dAtE '0001-01-01' and day <= DATE '9999-12-31'",
    "g = GuId '00000000-0000-8000-8000-0000000000FF'",
    "qty is null aNd region is not null",
    "qty=1 AND (region IS NULL OR HOST_NAME()=region)",
    "qty=1 AND (region IS NOT NULL OR HOST_NAME()=region)",
    "qty=1 AND (region IS NULL OR NOT HOST_NAME()=region)",
    "qty=1 AND (day IS NOT NULL OR NOT HOST_NAME()=region)",
    "qty=1 AND (region IS NOT NULL OR \tHOST_NAME()=region)",
    "qty=1 AND (region IS NULL OR NOT HOST_NAME(\t)=region)",
    "1=1 AND (region IS NOT NULL OR NOT HOST_NAME()=region)",
    "qty=1 AND (  region IS NULL OR NOT HOST_NAME()=region)",
    "qty=1 AND region IS NOT NULL OR NOT HOST_NAME()=region",
    "qty=1 AND ([AND] IS NOT NULL OR NOT HOST_NAME()=region)",
];

// Levels 33 and on, each time before anything else is wrong.
const TOO_DEEP: [&str; 3] = [
    "NOT NOT NOT NOT NOT NOT NOT NOT NOT NOT NOT NOT NOT NOT NOT NOT NOT NOT NOT NOT NOT NOT NOT NOT NOT NOT NOT NOT NOT NOT NOT NOT NOT qty = 1",
    "(((((((((((((((((((((((((((((((((qty = 1)))))))))))))))))))))))))))))))))",
    "NOT NOT NOT NOT NOT NOT NOT NOT NOT NOT NOT NOT NOT NOT NOT NOT NOT NOT NOT NOT NOT NOT NOT NOT NOT NOT NOT NOT NOT NOT NOT NOT (qty = ",
];

#[test]
fn too_deep(rt: HostRuntime) -> Result<(), Fail> {
    for text in TOO_DEEP {
        let fault = fault_of(rt.alloc(), text)?;
        same_in(&rt, &fault, &Some(FilterFault::TooDeep), &text);
    }
    Ok(())
}

#[test]
fn bad_tokens(rt: HostRuntime) -> Result<(), Fail> {
    for (place, text) in BAD_TOKENS {
        let fault = fault_of(rt.alloc(), text)?;
        same_in(&rt, &fault, &Some(FilterFault::BadToken { place }), &text);
    }
    Ok(())
}

#[test]
fn bad_forms(rt: HostRuntime) -> Result<(), Fail> {
    for (place, text) in BAD_FORMS {
        let fault = fault_of(rt.alloc(), text)?;
        same_in(&rt, &fault, &Some(FilterFault::BadForm { place }), &text);
    }
    Ok(())
}

#[test]
fn unknown_columns(rt: HostRuntime) -> Result<(), Fail> {
    for (place, text) in UNKNOWN_COLUMNS {
        let fault = fault_of(rt.alloc(), text)?;
        same_in(
            &rt,
            &fault,
            &Some(FilterFault::UnknownColumn { place }),
            &text,
        );
    }
    Ok(())
}

#[test]
fn type_mismatches(rt: HostRuntime) -> Result<(), Fail> {
    for (place, text) in TYPE_MISMATCHES {
        let fault = fault_of(rt.alloc(), text)?;
        same_in(
            &rt,
            &fault,
            &Some(FilterFault::TypeMismatch { place }),
            &text,
        );
    }
    Ok(())
}

#[test]
fn filters(rt: HostRuntime) -> Result<(), Fail> {
    for text in FILTERS {
        let fault = fault_of(rt.alloc(), text)?;
        same_in(&rt, &fault, &None, &text);
    }
    Ok(())
}

// A row with the quantity 5, no region, two bytes, the first day of 1970, an identifier and a set bit.
fn row(alloc: Global) -> Result<Vec<Value>, NoMemory> {
    let mut row = Vec::new(alloc);
    row.push(Value::Int(5))?;
    row.push(Value::Null)?;
    row.push(Value::Bytes(Octets::new(Vec::from_slice(alloc, b"\x01\x02")?)))?;
    row.push(Value::Day(0))?;
    row.push(Value::Guid(255))?;
    row.push(Value::Bit(true))?;
    row.push(Value::Int(-1))?;
    Ok(row)
}

fn truth_of(alloc: Global, text: &str) -> Result<Option<Truth>, NoMemory> {
    truth_counted::<Brand>(alloc, text.as_bytes(), Blank::new(1))
}

// The same, with the steps counted in the ledger that the blank opens.
fn truth_counted<L: Ledger>(
    alloc: Global,
    text: &[u8],
    blank: Blank,
) -> Result<Option<Truth>, NoMemory>
    requires name { blank.name ≡ L.name }
    requires parts { blank.parts ≡ L.parts }
    requires some { 1 ≤ blank.parts }
{
    let mut steps = Steps::<L>::new(blank);
    let columns = columns(alloc)?;
    let row = row(alloc)?;
    let host = HostName(Words::of(alloc, "north")?);
    let Ok(filter) = parse(alloc, text, &columns) else {
        return Ok(None);
    };
    if row.len() < columns.len() {
        return Ok(None);
    }
    let copy = filter.copy()?;
    Ok(Some(eval(&copy, &row, &host, &mut steps)))
}

const TRUTHS: [(Truth, &str); 26] = [
    (Truth::True, "qty = 5"),
    (Truth::False, "qty <> 5"),
    (Truth::False, "qty < 5"),
    (Truth::True, "qty <= 5"),
    (Truth::False, "qty > 5"),
    (Truth::True, "qty >= 5"),
    (Truth::True, "[AND] < qty"),
    (Truth::Unknown, "region = 'north'"),
    (Truth::Unknown, "NOT region = HOST_NAME()"),
    (Truth::True, "region IS NULL"),
    (Truth::False, "region IS NOT NULL"),
    (Truth::True, "HOST_NAME() = 'north'"),
    (Truth::False, "'north' < HOST_NAME()"),
    (Truth::True, "d > 0x01"),
    (Truth::False, "d >= 0x0200"),
    (Truth::True, "day = DATE '1970-01-01'"),
    (Truth::True, "day > DATE '1969-12-31'"),
    (
        Truth::True,
        "g = GUID '00000000-0000-0000-0000-0000000000fF'",
    ),
    (Truth::True, "BIT 0 < b"),
    (Truth::False, "region = 'a' AND qty = 1"),
    (Truth::Unknown, "region = 'a' AND qty = 5"),
    (Truth::True, "region = 'a' OR qty = 5"),
    (Truth::Unknown, "region = 'a' OR qty = 1"),
    (Truth::True, "qty = 5 OR qty = 5 AND qty = 1"),
    (Truth::False, "(qty = 5 OR qty = 5) AND qty = 1"),
    (Truth::True, "NOT qty = 1 OR qty = 5"),
];

#[test]
fn truths(rt: HostRuntime) -> Result<(), Fail> {
    for (truth, text) in TRUTHS {
        let answer = truth_of(rt.alloc(), text)?;
        same_in(&rt, &answer, &Some(truth), &text);
    }
    Ok(())
}

#[test]
fn faults_have_numbers(rt: HostRuntime) -> Result<(), Fail> {
    for (number, text) in [
        (1, "qty # 1"),
        (2, "region = "),
        (3, "x = 1"),
        (4, "qty = 'a'"),
        (5, "((((((((((((((((((((((((((((((((((qty"),
    ] {
        let fault = fault_of(rt.alloc(), text)?.ok_or("no fault")?;
        same_in(&rt, &fault.number(), &Some(number), &text);
    }
    same(&rt, &FilterFault::NoMemory.number(), &None);
    Ok(())
}
