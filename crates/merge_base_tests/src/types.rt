//! Literals at their edges, by the formats' own words.
use crate::same::{same, same_in};
use merge_types::limits::{LAST_DAY, VALUE_LIMIT};
use merge_types::{ColumnType, Octets, RowId, Value, Values, Words, is_name};
use std::test::Fail;

// How a text reads and prints again; `-` stands for a text that is no literal.
fn again(rt: &HostRuntime, text: &str) -> Result<String, Fail> {
    let Some(value) = Value::read(rt.alloc(), text.as_bytes())
        .ok()
        .ok_or("no memory")?
    else {
        return Ok(String::from_str(rt.alloc(), "-")?);
    };
    if !value.is_proper() {
        return Ok(String::from_str(rt.alloc(), "improper")?);
    }
    Ok(
        value
            .text(rt.alloc())
            .ok()
            .ok_or("no memory")?
            .into_string(),
    )
}

#[test]
fn literals_print_again(rt: HostRuntime) -> Result<(), Fail> {
    for (text, want) in [
        ("null", "null"),
        ("true", "true"),
        ("false", "false"),
        ("0", "0"),
        ("-9223372036854775808", "-9223372036854775808"),
        ("9223372036854775807", "9223372036854775807"),
        ("0001-01-01", "0001-01-01"),
        ("1970-01-01", "1970-01-01"),
        ("2024-02-29", "2024-02-29"),
        ("9999-12-31", "9999-12-31"),
        ("\"\"", "\"\""),
        ("\"a\\\"\\\\\\n\\r\\tz\"", "\"a\\\"\\\\\\n\\r\\tz\""),
        ("\"\\u0000\\u001F\\u007f\"", "\"\\u0000\\u001f\\u007f\""),
        ("\"\\u0041\\u00e9\\uFFFF\"", "\"A\u{e9}\u{ffff}\""),
        ("x", "x"),
        ("x00fF", "x00ff"),
        (
            "00000000-0000-8000-8000-00000000ABCD",
            "00000000-0000-8000-8000-00000000abcd",
        ),
    ] {
        let printed = again(&rt, text)?;
        same_in(&rt, &printed.as_str(), &want, &text);
    }
    Ok(())
}

#[test]
fn other_texts_are_no_literals(rt: HostRuntime) -> Result<(), Fail> {
    for text in [
        "",
        "-",
        "-0",
        "+1",
        "007",
        "1.0",
        "9223372036854775808",
        "-9223372036854775809",
        "18446744073709551616",
        "Null",
        "TRUE",
        "0000-01-01",
        "2023-02-29",
        "1900-02-29",
        "2024-13-01",
        "2024-04-31",
        "2024-1-01",
        "10000-01-01",
        "\"",
        "\"\\\"",
        "\"a\"b\"",
        "\"\\u12g4\"",
        "\"\\ud800\"",
        "\"\\x\"",
        "\"a\nb\"",
        "x0",
        "xgg",
        "X00",
        "00000000000080008000000000000001",
        "{00000000-0000-8000-8000-000000000001}",
    ] {
        let printed = again(&rt, text)?;
        same_in(&rt, &printed.as_str(), &"-", &text);
    }
    Ok(())
}

#[test]
fn rows_have_two_texts(rt: HostRuntime) -> Result<(), Fail> {
    for (text, want) in [
        ("0.1", "00000000-0000-8000-8000-000000000001"),
        ("1.16", "00000000-0001-8000-8000-000000000010"),
        (
            "65535.4611686018427387903",
            "00000000-ffff-8000-bfff-ffffffffffff",
        ),
        (
            "00000000-0001-8000-8000-00000000000A",
            "00000000-0001-8000-8000-00000000000a",
        ),
        ("0.0", "-"),
        ("01.1", "-"),
        ("1.01", "-"),
        ("1.-1", "-"),
        ("1", "-"),
        ("1.2.3", "-"),
        ("65536.1", "-"),
        ("1.4611686018427387904", "-"),
        ("00000000-0001-4000-8000-00000000000a", "-"),
        ("00000000-0001-8000-8000-000000000000", "-"),
    ] {
        let printed = match RowId::read(text.as_bytes()) {
            Some(row) => row.text(rt.alloc()).ok().ok_or("no memory")?.into_string(),
            None => String::from_str(rt.alloc(), "-")?,
        };
        same_in(&rt, &printed.as_str(), &want, &text);
    }
    Ok(())
}

#[test]
fn values_have_stored_lengths(rt: HostRuntime) -> Result<(), Fail> {
    let mut row = Values::empty(rt.alloc());
    for (text, length, weight) in [
        ("null", 1, 0),
        ("7", 9, 9),
        ("true", 2, 2),
        ("\"ab\"", 5, 5),
        ("2024-02-29", 5, 5),
        ("00000000-0000-8000-8000-000000000001", 17, 17),
        ("x00ff00", 6, 6),
    ] {
        let value = Value::read(rt.alloc(), text.as_bytes())
            .ok()
            .ok_or("no memory")?
            .ok_or("none")?;
        same_in(&rt, &value.stored_len(), &length, &text);
        same_in(&rt, &value.weight(), &weight, &text);
        row.push(value).ok().ok_or("no memory")?;
    }
    same(&rt, &row.stored_len(), &45);
    same(&rt, &row.weight(), &44);
    Ok(())
}

#[test]
fn values_fit_columns_of_their_type(rt: HostRuntime) -> Result<(), Fail> {
    for (text, ty) in [
        ("7", ColumnType::Int),
        ("true", ColumnType::Bit),
        ("\"ab\"", ColumnType::Text),
        ("9999-12-31", ColumnType::Day),
        ("00000000-0000-8000-8000-000000000001", ColumnType::Guid),
        ("x00ff00", ColumnType::Bytes),
    ] {
        let value = Value::read(rt.alloc(), text.as_bytes())
            .ok()
            .ok_or("no memory")?
            .ok_or("none")?;
        assert!(rt; value.fits(ty), "at {text}");
        assert!(rt; Value::Null.fits(ty), "Null at {text}");
        same_in(
            &rt,
            &value.fits(ColumnType::Day),
            &(ty == ColumnType::Day),
            &text,
        );
    }
    Ok(())
}

#[test]
fn days_and_bytes_fit_up_to_their_limits(rt: HostRuntime) -> Result<(), Fail> {
    assert!(rt; !Value::Day(LAST_DAY + 1).fits(ColumnType::Day));
    assert!(rt; Value::Day(LAST_DAY + 1).has_type(ColumnType::Day));
    for (len, want) in [(VALUE_LIMIT, true), (VALUE_LIMIT + 1, false)] {
        let bytes = vec![in rt.alloc(); 7; len]?;
        let value = Value::Bytes(Octets::new(bytes));
        same(&rt, &value.content_len(), &len);
        same_in(&rt, &value.fits(ColumnType::Bytes), &want, &len);
    }
    Ok(())
}

#[test]
fn lists_and_texts_have_an_order(rt: HostRuntime) -> Result<(), Fail> {
    let short = Octets::new(vec![in rt.alloc(); 1, 2]?);
    let long = Octets::new(vec![in rt.alloc(); 1, 2, 0]?);
    let high = Octets::new(vec![in rt.alloc(); 1, 3]?);
    assert!(rt; short < long && long < high && !short.is_empty());
    same(&rt, &long.iter().count(), &3);
    let words = Words::of(rt.alloc(), "a\u{e9}").ok().ok_or("no memory")?;
    let more = Words::of(rt.alloc(), "b").ok().ok_or("no memory")?;
    assert!(rt; words < more && !words.is_empty());
    assert!(rt; Value::Null < Value::Int(9) && Value::Int(9) < Value::Bit(false));
    let shown = format!(in rt.alloc(); "{words}")?;
    same(&rt, &shown.as_str(), &"a\u{e9}");
    Ok(())
}

#[test]
fn notes_show_names_bare_and_other_texts_in_quotes(rt: HostRuntime) -> Result<(), Fail> {
    for (text, want) in [
        ("qty", "qty"),
        ("_1", "_1"),
        ("", "\"\""),
        ("1a", "\"1a\""),
        ("a-b", "\"a-b\""),
        ("a\nb", "\"a\\nb\""),
        ("\u{1b}[0m", "\"\\u001b[0m\""),
        ("\"\\\r\t\u{7f}", "\"\\\"\\\\\\r\\t\\u007f\""),
        ("\u{e9}", "\"\u{e9}\""),
    ] {
        let words = Words::of(rt.alloc(), text).ok().ok_or("no memory")?;
        let shown = words.shown();
        let told = format!(in rt.alloc(); "{shown}")?;
        same(&rt, &told.as_str(), &want);
        let printed = Value::Text(words).text(rt.alloc()).ok().ok_or("no memory")?;
        assert!(rt; is_name(text.as_bytes()) || printed.as_str() == want);
    }
    Ok(())
}
