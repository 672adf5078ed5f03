//! More worked scripts with their answers.
use crate::scripts::{FIRST_IS_GREATER, ITEM, ITEM_AT_TWO};

// A filter that takes what is Null.
const OF_NULL: &str = r#"name = "r"
[[article]]
name = "customer"
filter = "region IS NULL"
[[article.column]]
name = "region"
type = "text"
[[subscription]]
site = 1
host = "north"
"#;

// A filter that is denied.
const DENIED: &str = r#"name = "r"
[[article]]
name = "customer"
filter = "NOT region = HOST_NAME()"
[[article.column]]
name = "region"
type = "text"
[[subscription]]
site = 1
host = "north"
"#;

// Customers of a region, their orders, and the lines of these.
const LINES: &str = r#"name = "p3"
[[article]]
name = "customer"
tracking = "column"
filter = "region = HOST_NAME()"
[[article.column]]
name = "id"
type = "int"
[[article.column]]
name = "region"
type = "text"
[[article]]
name = "orders"
[[article.column]]
name = "id"
type = "int"
[[article.column]]
name = "cust"
type = "int"
[[article.join]]
column = "cust"
parent = "customer"
parent_column = "id"
[[article]]
name = "line"
[[article.column]]
name = "ord"
type = "int"
[[article.column]]
name = "qty"
type = "int"
[[article.join]]
column = "ord"
parent = "orders"
parent_column = "id"
[[subscription]]
site = 1
host = "north"
[[subscription]]
site = 2
host = "south"
"#;

// The sum of both values wins.
const STOCK: &str = r#"name = "first"
[[article]]
name = "stock"
tracking = "column"
resolver = "additive"
resolver_column = "n"
[[article.column]]
name = "n"
type = "int"
[[subscription]]
site = 1
host = "h1"
[[subscription]]
site = 2
host = "h2"
"#;

/// A name, a publication, a script, and its answers.
pub(crate) const MORE: &[(&str, &str, &str, &str)] = &[
    (
        "reply to a site that began anew",
        ITEM,
        r#"insert 0 item qty=1
sync 1
update 1 item 0.1 qty=2
send 1 download
deliver 7
reinit 1
deliver 8
insert 1 item qty=3
sync 1
show 1 item
conflicts 1
deliver 7
"#,
        r#"row 00000000-0000-8000-8000-000000000001
done 0 1 1
ok
message 7
message 8
discarded 1
ignored 4 0
refused 15 joining
done 0 1 1
00000000-0000-8000-8000-000000000001 1
rows 1
1 item 00000000-0000-8000-8000-000000000001 0 1 discarded 0 live 2
conflicts 1
refused 3 stale 4 5
"#,
    ),
    (
        "expiry and purge",
        ITEM,
        r#"sync 1
insert 0 item qty=1
wait 1209600
sync 1
wait 1209601
sync 1
wait 86399
purge
wait 1
purge
reinit 1
sync 1
"#,
        r#"done 0 0 0
row 00000000-0000-8000-8000-000000000001
now 1209600
done 0 1 1
now 2419201
stopped 0 0 refused 2 expired 1209600 2419201
now 2505600
purged 0 0 0
now 2505601
purged 0 0 1
discarded 0
done 0 1 1
"#,
    ),
    (
        "change of a purged row",
        ITEM_AT_TWO,
        r#"insert 0 item qty=1
sync 1
sync 2
update 1 item 0.1 qty=5
delete 0 item 0.1
send 1 download
deliver 13
deliver 14
wait 1000000
send 1 download
deliver 15
deliver 16
wait 296001
purge
sync 1
count 1
conflicts 0
"#,
        r#"row 00000000-0000-8000-8000-000000000001
done 0 1 1
done 0 1 1
ok
ok
message 13
message 14
applied
now 1000000
message 15
message 16
applied
now 1296001
purged 1 2 2
done 1 1 3
item 0
1 item 00000000-0000-8000-8000-000000000001 3 1 purged 1296001 live 5
conflicts 1
"#,
    ),
    (
        "update meets a delete",
        ITEM_AT_TWO,
        r#"insert 0 item qty=1
sync 1
sync 2
update 1 item 0.1 qty=10
delete 2 item 0.1
sync 2
sync 1
show 1 item
conflicts 0
"#,
        r#"row 00000000-0000-8000-8000-000000000001
done 0 1 1
done 0 1 1
ok
ok
done 1 1 2
done 1 1 3
rows 0
1 item 00000000-0000-8000-8000-000000000001 3 1 publisher 0 live 10
conflicts 1
"#,
    ),
    (
        "update of a greater server meets a delete",
        FIRST_IS_GREATER,
        r#"insert 0 item qty=1
sync 1
sync 2
update 1 item 0.1 qty=10
delete 2 item 0.1
sync 2
sync 1
show 1 item
conflicts 0
sync 2
show 2 item
"#,
        r#"row 00000000-0000-8000-8000-000000000001
done 0 1 1
done 0 1 1
ok
ok
done 1 1 2
done 1 1 3
00000000-0000-8000-8000-000000000001 10
rows 1
1 item 00000000-0000-8000-8000-000000000001 4 0 subscriber 0 dead
conflicts 1
done 0 1 3
00000000-0000-8000-8000-000000000001 10
rows 1
"#,
    ),
    (
        "filter of Null",
        OF_NULL,
        r#"insert 0 customer region=null
insert 0 customer region="north"
partition 1
"#,
        r#"row 00000000-0000-8000-8000-000000000001
row 00000000-0000-8000-8000-000000000002
customer 00000000-0000-8000-8000-000000000001
rows 1
"#,
    ),
    (
        "filter denied of Null",
        DENIED,
        r#"insert 0 customer region=null
insert 0 customer region="north"
partition 1
"#,
        r#"row 00000000-0000-8000-8000-000000000001
row 00000000-0000-8000-8000-000000000002
rows 0
"#,
    ),
    (
        "rows move with their parent",
        LINES,
        r#"insert 0 customer id=1 region="north"
insert 0 orders id=10 cust=1
insert 0 line ord=10 qty=5
sync 1
sync 2
update 0 customer 0.1 region="south"
generations 0
sync 1
count 1
sync 2
count 2
"#,
        r#"row 00000000-0000-8000-8000-000000000001
row 00000000-0000-8000-8000-000000000002
row 00000000-0000-8000-8000-000000000003
done 0 1 1
done 0 1 1
ok
closed 1 open 6 kept 1
1 joined 1 received 0 number 0 watermark 1 synced 0
2 joined 1 received 0 number 0 watermark 1 synced 0
done 0 1 2
customer 0
orders 0
line 0
done 0 1 2
customer 1
orders 1
line 1
"#,
    ),
    (
        "unsent change of a row that left",
        LINES,
        r#"insert 0 customer id=1 region="north"
insert 0 orders id=10 cust=1
insert 0 line ord=10 qty=5
sync 1
sync 2
update 0 customer 0.1 region="south"
update 1 line 0.3 qty=8
send 1 download
deliver 13
deliver 14
count 1
sync 1
count 1
sync 2
show 2 line
"#,
        r#"row 00000000-0000-8000-8000-000000000001
row 00000000-0000-8000-8000-000000000002
row 00000000-0000-8000-8000-000000000003
done 0 1 1
done 0 1 1
ok
ok
message 13
message 14
applied
customer 0
orders 0
line 1
done 1 1 3
customer 0
orders 0
line 0
done 0 1 3
00000000-0000-8000-8000-000000000003 10 8
rows 1
"#,
    ),
    (
        "additive resolver",
        STOCK,
        r#"insert 0 stock n=1
sync 1
sync 2
update 1 stock 0.1 n=5
update 2 stock 0.1 n=7
sync 1
sync 2
show 2 stock
conflicts 0
"#,
        r#"row 00000000-0000-8000-8000-000000000001
done 0 1 1
done 0 1 1
ok
ok
done 1 1 2
done 1 1 3
00000000-0000-8000-8000-000000000001 12
rows 1
1 stock 00000000-0000-8000-8000-000000000001 2 0 custom 0 live 5
2 stock 00000000-0000-8000-8000-000000000001 2 2 custom 0 live 7
conflicts 2
"#,
    ),
];
