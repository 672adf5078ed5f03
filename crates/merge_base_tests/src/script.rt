use crate::same::same;
use merge_script::{cut_input, cut_line, is_name, is_quiet, is_text, read_decimal, split_words};
use std::test::Fail;

#[test]
fn cuts_the_input(rt: HostRuntime) {
    let table = [
        (b"".as_slice(), b"".as_slice(), b"".as_slice()),
        (b"pub\n", b"pub\n", b""),
        (b"pub\n---\nline\n", b"pub\n", b"line\n"),
        (b"pub\r\n---\r\nline", b"pub\r\n", b"line"),
        (b"---", b"", b""),
        (b"pub\n---\r", b"pub\n", b""),
        (
            b"a\n----\n--- \n ---\n---\r\r\nb",
            b"a\n----\n--- \n ---\n---\r\r\nb",
            b"",
        ),
        (b"---\n---\n", b"", b"---\n"),
    ];
    for (input, publication, script) in table {
        let (front, behind) = cut_input(input);
        same(&rt, &front, &publication);
        same(&rt, &behind, &script);
    }
}

#[test]
fn cuts_lines(rt: HostRuntime) {
    let table = [
        (b"a\nb".as_slice(), b"a".as_slice(), b"b".as_slice()),
        (b"a\r\nb\n", b"a", b"b\n"),
        (b"\n", b"", b""),
        (b"a\r", b"a\r", b""),
        (b"a\r\r\n", b"a\r", b""),
    ];
    for (text, line, rest) in table {
        assert!(rt; !text.is_empty());
        let (first, behind) = cut_line(text);
        same(&rt, &first, &line);
        same(&rt, &behind, &rest);
    }
}

#[test]
fn splits_words(rt: HostRuntime) -> Result<(), Fail> {
    let empty: &[&[u8]] = &[];
    let table = [
        (b"".as_slice(), empty),
        (b" \t ", empty),
        (
            b"\tinsert  0 item\tqty=1 ",
            &[b"insert", b"0", b"item", b"qty=1"],
        ),
        (b"a=\"x y\" b", &[b"a=\"x y\"", b"b"]),
        (b"a=\"x\\\" y\" b", &[b"a=\"x\\\" y\"", b"b"]),
        (b"a\\\"b c\" d", &[b"a\\\"b c\"", b"d"]),
        (b"a \"b c ", &[b"a", b"\"b c "]),
        (b"\xff x", &[b"\xff", b"x"]),
    ];
    for (line, words) in table {
        let split = split_words(rt.alloc(), line)?;
        same(&rt, &split.as_slice(), &words);
    }
    Ok(())
}

#[test]
fn quiet_lines_are_told(rt: HostRuntime) {
    for (line, quiet) in [
        (b"".as_slice(), true),
        (b" \t", true),
        (b"\t# note", true),
        (b"a # note", false),
        (b"# \xff", false),
    ] {
        same(&rt, &is_quiet(line), &quiet);
    }
    assert!(rt; is_text(b"\xc3\xa9"));
    assert!(rt; !is_text(b"\xff"));
}

#[test]
fn names_are_told(rt: HostRuntime) {
    for (word, name) in [
        (b"".as_slice(), false),
        (b"_a1", true),
        (b"1a", false),
        (b"a-b", false),
        (&[b'a'; 64], true),
        (&[b'a'; 65], false),
    ] {
        same(&rt, &is_name(word), &name);
    }
}

#[test]
fn decimals_are_read(rt: HostRuntime) {
    for (word, number) in [
        (b"".as_slice(), None),
        (b"0", Some(0)),
        (b"007", None),
        (b"-0", None),
        (b"+1", None),
        (b"9999999999999999999", Some(9_999_999_999_999_999_999)),
        (b"18446744073709551615", Some(18_446_744_073_709_551_615)),
        (b"18446744073709551616", None),
    ] {
        same(&rt, &read_decimal(word), &number);
    }
}
