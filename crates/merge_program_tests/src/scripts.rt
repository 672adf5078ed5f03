//! Worked scripts with their answers.
use crate::ending::{NONE, end, is_ended, outside, play};
use crate::rows::MORE;
use std::test::Fail;

// One table with one column, and one site.
pub(crate) const ITEM: &str = r#"name = "first"
[[article]]
name = "item"
[[article.column]]
name = "qty"
type = "int"
[[subscription]]
site = 1
host = "h1"
"#;

// The same with two sites.
pub(crate) const ITEM_AT_TWO: &str = r#"name = "first"
[[article]]
name = "item"
[[article.column]]
name = "qty"
type = "int"
[[subscription]]
site = 1
host = "h1"
[[subscription]]
site = 2
host = "h2"
"#;

// Two servers, of which the first has the greater priority.
pub(crate) const FIRST_IS_GREATER: &str = r#"name = "first"
[[article]]
name = "item"
[[article.column]]
name = "qty"
type = "int"
[[subscription]]
site = 1
host = "h1"
kind = "server"
priority = 7500
[[subscription]]
site = 2
host = "h2"
kind = "server"
priority = 2500
"#;

// Two servers of one priority.
const EQUAL: &str = r#"name = "first"
[[article]]
name = "item"
[[article.column]]
name = "qty"
type = "int"
[[subscription]]
site = 1
host = "h1"
kind = "server"
priority = 5000
[[subscription]]
site = 2
host = "h2"
kind = "server"
priority = 5000
"#;

// A table that is tracked by columns.
const PART: &str = r#"name = "first"
[[article]]
name = "part"
tracking = "column"
[[article.column]]
name = "a"
type = "int"
[[article.column]]
name = "b"
type = "int"
[[subscription]]
site = 1
host = "h1"
[[subscription]]
site = 2
host = "h2"
"#;

// A table of which a site has the rows of its host.
const CUSTOMER: &str = r#"name = "r"
[[article]]
name = "customer"
filter = "region = HOST_NAME()"
[[article.column]]
name = "region"
type = "text"
[[subscription]]
site = 1
host = "north"
"#;

// A table with an identity column.
const TICKET: &str = r#"name = "t"
[[article]]
name = "ticket"
[[article.column]]
name = "no"
type = "int"
[article.column.identity]
seed = 1
range = 2
pub_range = 2
threshold = 100
greatest = 8
[[article.column]]
name = "note"
type = "text"
[[subscription]]
site = 1
host = "h1"
"#;

// Two articles of one name.
const TWICE: &str = r#"name = "first"
[[article]]
name = "item"
[[article.column]]
name = "qty"
type = "int"
[[article]]
name = "item"
[[article.column]]
name = "qty"
type = "int"
[[subscription]]
site = 1
host = "h1"
"#;

// A join with an article that is not there.
const FAR: &str = r#"name = "first"
[[article]]
name = "item"
[[article.column]]
name = "qty"
type = "int"
[[article.join]]
column = "qty"
parent = "far"
parent_column = "x"
[[subscription]]
site = 1
host = "h1"
"#;

// Its name, a publication, a script, and the answers.
const WORKED: &[(&str, &str, &str, &str)] = &[
    ("empty script", ITEM, r#""#, r#""#),
    (
        "first session",
        ITEM,
        r#"insert 0 item qty=7
sync 1
show 1 item
"#,
        r#"row 00000000-0000-8000-8000-000000000001
done 0 1 1
00000000-0000-8000-8000-000000000001 7
rows 1
"#,
    ),
    (
        "two updates",
        ITEM_AT_TWO,
        r#"insert 0 item qty=1
sync 1
sync 2
update 1 item 0.1 qty=10
update 2 item 0.1 qty=20
sync 2
sync 1
sync 2
show 1 item
conflicts 0
"#,
        r#"row 00000000-0000-8000-8000-000000000001
done 0 1 1
done 0 1 1
ok
ok
done 1 1 2
done 1 1 3
done 0 1 3
00000000-0000-8000-8000-000000000001 20
rows 1
1 item 00000000-0000-8000-8000-000000000001 1 1 publisher 0 live 10
conflicts 1
"#,
    ),
    (
        "greater priority wins",
        FIRST_IS_GREATER,
        r#"insert 0 item qty=1
sync 1
sync 2
update 1 item 0.1 qty=10
update 2 item 0.1 qty=20
sync 2
sync 1
sync 2
show 1 item
conflicts 0
"#,
        r#"row 00000000-0000-8000-8000-000000000001
done 0 1 1
done 0 1 1
ok
ok
done 1 1 2
done 1 1 3
done 0 1 3
00000000-0000-8000-8000-000000000001 10
rows 1
1 item 00000000-0000-8000-8000-000000000001 1 0 subscriber 0 live 20
conflicts 1
"#,
    ),
    (
        "equal priorities",
        EQUAL,
        r#"insert 0 item qty=1
sync 1
sync 2
update 1 item 0.1 qty=10
update 2 item 0.1 qty=20
sync 2
sync 1
sync 2
show 1 item
conflicts 0
"#,
        r#"row 00000000-0000-8000-8000-000000000001
done 0 1 1
done 0 1 1
ok
ok
done 1 1 2
done 1 1 3
done 0 1 3
00000000-0000-8000-8000-000000000001 20
rows 1
1 item 00000000-0000-8000-8000-000000000001 1 1 publisher 0 live 10
conflicts 1
"#,
    ),
    (
        "columns of one row",
        PART,
        r#"insert 0 part a=1 b=1
sync 1
sync 2
update 1 part 0.1 a=2
update 2 part 0.1 b=3
sync 1
sync 2
sync 1
show 1 part
update 1 part 0.1 a=4 b=4
update 2 part 0.1 a=5
sync 1
sync 2
show 2 part
conflicts 0
"#,
        r#"row 00000000-0000-8000-8000-000000000001
done 0 1 1
done 0 1 1
ok
ok
done 1 1 2
done 1 1 3
done 0 1 3
00000000-0000-8000-8000-000000000001 2 3
rows 1
ok
ok
done 1 1 4
done 1 1 5
00000000-0000-8000-8000-000000000001 4 4
rows 1
1 part 00000000-0000-8000-8000-000000000001 2 2 publisher 0 live 5 3
conflicts 1
"#,
    ),
    (
        "deleted at both sites",
        ITEM_AT_TWO,
        r#"insert 0 item qty=1
sync 1
sync 2
update 1 item 0.1 qty=10
delete 1 item 0.1
delete 2 item 0.1
sync 2
sync 1
conflicts 0
"#,
        r#"row 00000000-0000-8000-8000-000000000001
done 0 1 1
done 0 1 1
ok
ok
ok
done 1 1 2
done 1 1 3
conflicts 0
"#,
    ),
    (
        "upload delivered again",
        ITEM,
        r#"sync 1
insert 1 item qty=5
send 1 upload
deliver 5
deliver 5
deliver 5
deliver 8
deliver 6
generations 0
"#,
        r#"done 0 0 0
row 00000000-0001-8000-8000-000000000001
message 5
message 6
message 7
message 8
applied
ignored 3 0
closed 0 open 1 kept 0
1 joined 1 received 1 number 1 watermark 0 synced 0
"#,
    ),
    (
        "reply that comes late",
        ITEM,
        r#"sync 1
insert 1 item qty=5
send 1 upload
deliver 5
update 0 item 1.1 qty=9
send 1 download
deliver 7
deliver 8
deliver 5
deliver 6
show 1 item
"#,
        r#"done 0 0 0
row 00000000-0001-8000-8000-000000000001
message 5
message 6
ok
message 7
message 8
applied
message 9
ignored 3 0
00000000-0001-8000-8000-000000000001 9
rows 1
"#,
    ),
    (
        "filter by host",
        CUSTOMER,
        r#"insert 0 customer region=null
insert 0 customer region="north"
partition 1
"#,
        r#"row 00000000-0000-8000-8000-000000000001
row 00000000-0000-8000-8000-000000000002
customer 00000000-0000-8000-8000-000000000002
rows 1
"#,
    ),
    (
        "identity ranges",
        TICKET,
        r#"sync 1
insert 1 ticket note="a"
insert 1 ticket note="a"
insert 1 ticket note="a"
insert 1 ticket note="a"
insert 1 ticket note="a"
insert 0 ticket note="b"
show 0 ticket
sync 1
insert 1 ticket note="a"
insert 1 ticket note="a"
insert 1 ticket note="a"
insert 1 ticket no=3
ranges 0
"#,
        r#"done 0 0 0
row 00000000-0001-8000-8000-000000000001
row 00000000-0001-8000-8000-000000000002
row 00000000-0001-8000-8000-000000000003
row 00000000-0001-8000-8000-000000000004
refused 11 identity used up 4
row 00000000-0000-8000-8000-000000000001
00000000-0000-8000-8000-000000000001 5 "b"
rows 1
done 1 1 1
row 00000000-0001-8000-8000-000000000005
row 00000000-0001-8000-8000-000000000006
refused 11 identity used up 8
refused 13 identity column no
ticket 1 1 1 2
ticket 1 2 3 4
ticket 0 1 5 6
ticket 1 3 7 8
ranges 4
"#,
    ),
    (
        "ranges asked again",
        TICKET,
        r#"send 1 join
deliver 1
deliver 2
send 1 ranges
deliver 3
deliver 3
send 1 ranges
deliver 6
deliver 7
ranges 1
ranges 0
deliver 99
"#,
        r#"message 1
message 2
applied
message 3
message 4
message 5
message 6
message 7
applied
ticket 1 1 2 - -
ranges 1
ticket 1 1 1 2
ranges 1
no message 99
"#,
    ),
];

#[test]
fn worked_scripts(rt: HostRuntime) -> Result<(), Fail> {
    for (name, publication, script, answers) in WORKED.iter().chain(MORE) {
        let outside = outside(rt.alloc(), &[])?;
        let (ended, host) = play(rt.alloc(), publication, script.as_bytes(), &NONE, outside)?;
        assert!(rt; is_ended(ended, &host, 0, answers, ""), "{name}");
    }
    Ok(())
}

// Adds a text, each line with CR LF at its end.
fn push_with_returns(input: &mut Vec<u8>, text: &str) -> Result<(), Fail> {
    for byte in text.as_bytes() {
        if *byte == b'\n' {
            input.push(b'\r')?;
        }
        input.push(*byte)?;
    }
    Ok(())
}

// The same scripts with CR LF throughout: in the publication, at the bar and in the script.
#[test]
fn lines_may_end_with_cr_lf(rt: HostRuntime) -> Result<(), Fail> {
    for (name, publication, script, answers) in WORKED {
        let mut input: Vec<u8> = Vec::new(rt.alloc());
        push_with_returns(&mut input, publication)?;
        push_with_returns(&mut input, "---\n")?;
        push_with_returns(&mut input, script)?;
        let outside = outside(rt.alloc(), &[])?;
        let (ended, host) = end(rt.alloc(), "play", &input, &NONE, outside)?;
        assert!(rt; is_ended(ended, &host, 0, answers, ""), "{name}");
    }
    Ok(())
}

// A publication, a script, and how the program ends.
const EARLY: &[(&str, &str, u8, &str, &str)] = &[
    (
        ITEM,
        "show 0 item\ninsrt 0 item\n",
        3,
        "rows 0\n",
        "line 2 word 1: no event\n",
    ),
    (
        "name = 3\n",
        "",
        2,
        "",
        "publication refused: 3 bad value name\n",
    ),
    (
        "name = \"a\"\n",
        "",
        2,
        "",
        "publication refused: 2 missing article\n",
    ),
    (TWICE, "", 2, "", "publication refused: 4 duplicate item\n"),
    (
        FAR,
        "",
        2,
        "",
        "publication refused: 5 unknown article far\n",
    ),
];

#[test]
fn inputs_that_end_early(rt: HostRuntime) -> Result<(), Fail> {
    for (publication, script, status, output, notes) in EARLY {
        let outside = outside(rt.alloc(), &[])?;
        let (ended, host) = play(rt.alloc(), publication, script.as_bytes(), &NONE, outside)?;
        assert!(rt; is_ended(ended, &host, *status, output, notes), "{notes}");
    }
    Ok(())
}
