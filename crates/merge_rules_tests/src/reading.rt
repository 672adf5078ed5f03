use crate::same::same;
use merge_model::{Event, Line, NamedValues};
use merge_reading::read_line;
use merge_types::{RowId, SiteId, Value};
use std::alloc::Global;
use std::test::Fail;

// What a line says, as its debug text has it.
fn said(alloc: Global, line: &[u8]) -> Result<String, Fail> {
    let line = read_line(alloc, line)?;
    Ok(format!(in alloc; "{line:?}")?)
}

// The event of a line, if it is one.
fn event(alloc: Global, line: &[u8]) -> Result<Option<Event>, Fail> {
    match read_line(alloc, line)? {
        Line::Event(event) => Ok(Some(event)),
        Line::Quiet | Line::NoEvent(_) => Ok(None),
    }
}

#[test]
fn each_event_is_read(rt: HostRuntime) -> Result<(), Fail> {
    for (line, want) in [
        (b"wait 7".as_slice(), "Event(Wait(7))"),
        (b"close 1", "Event(Close(SiteId(1)))"),
        (b"sync 1", "Event(Sync(SiteId(1)))"),
        (b"send 1 join", "Event(SendJoin(SiteId(1)))"),
        (b"send 1 upload", "Event(SendUpload(SiteId(1)))"),
        (b"send 1 ranges", "Event(SendRanges(SiteId(1)))"),
        (b"send 1 download", "Event(SendDownload(SiteId(1)))"),
        (b"deliver 12", "Event(Deliver(12))"),
        (b"reinit 1", "Event(Reinit(SiteId(1)))"),
        (b"purge", "Event(Purge)"),
        (b"restart 0", "Event(Restart(SiteId(0)))"),
        (b"partition 1", "Event(Partition(SiteId(1)))"),
        (b"conflicts 0", "Event(Conflicts(SiteId(0)))"),
        (b"ranges 0", "Event(Ranges(SiteId(0)))"),
        (b"generations 0", "Event(Generations(SiteId(0)))"),
        (b"count 65535", "Event(Count(SiteId(65535)))"),
        (b"", "Quiet"),
        (b" \t ", "Quiet"),
        (b"  # wait 1", "Quiet"),
    ] {
        same(&rt, &said(rt.alloc(), line)?.as_str(), &want);
    }
    Ok(())
}

// Whether the settings are the column `qty` with this number and the column `note` with Null.
fn are_quantity_and_note(values: &NamedValues, quantity: i64) -> bool {
    match values.as_slice() {
        [first, second] => {
            first.column.as_str() == "qty"
                && matches!(first.value, Value::Int(number) if number == quantity)
                && second.column.as_str() == "note"
                && matches!(second.value, Value::Null)
        }
        _ => false,
    }
}

// Whether the event is an insert at site 1 of an item of which there lack three.
fn inserts_lack(event: &Option<Event>) -> bool {
    match event {
        Some(
            Event::Insert {
                site,
                article,
                values,
            },
        ) => {
            *site == SiteId(1) && article.as_str() == "item" && are_quantity_and_note(values, -3)
        }
        _ => false,
    }
}

// Whether the event is an update of this row.
fn updates(event: &Option<Event>, changed: RowId) -> bool {
    match event {
        Some(Event::Update { row, values, .. }) => {
            *row == changed && are_quantity_and_note(values, 4)
        }
        _ => false,
    }
}

// Whether the event is a delete of this row at the publisher.
fn deletes(event: &Option<Event>, gone: RowId) -> bool {
    match event {
        Some(Event::Delete { site, row, .. }) => *site == SiteId(0) && *row == gone,
        _ => false,
    }
}

#[test]
fn local_changes_are_read(rt: HostRuntime) -> Result<(), Fail> {
    let alloc = rt.alloc();
    let row = RowId(0x0000_0000_0001_8000_8000_0000_0000_0002);
    let insert = event(alloc, b"insert 1 item  qty=-3\tnote=null")?;
    assert!(rt; inserts_lack(&insert));
    let update = event(alloc, b"update 1 item 1.2 qty=4 note=null")?;
    assert!(rt; updates(&update, row));
    let delete = event(alloc, b"delete 0 item 00000000-0001-8000-8000-000000000002")?;
    assert!(rt; deletes(&delete, row));
    Ok(())
}

#[test]
fn the_first_wrong_word_is_told(rt: HostRuntime) -> Result<(), Fail> {
    for (line, want) in [
        (b"insrt 0 item".as_slice(), "NoEvent(1)"),
        (b"wait", "NoEvent(2)"),
        (b"wait 4294967296", "NoEvent(2)"),
        (b"wait 1 2", "NoEvent(3)"),
        (b"sync 65536", "NoEvent(2)"),
        (b"insert 0", "NoEvent(3)"),
        (b"insert 0 1tem", "NoEvent(3)"),
        (b"insert 0 item qty=1 qty", "NoEvent(5)"),
        (b"insert 0 item qty=01", "NoEvent(4)"),
        (b"update 0 item 0.1", "NoEvent(5)"),
        (b"update 0 item 0.0 qty=1", "NoEvent(4)"),
        (b"delete 0 item 0.1 qty=1", "NoEvent(5)"),
        (b"send 1 range", "NoEvent(3)"),
        (b"deliver 18446744073709551616", "NoEvent(2)"),
        (b"purge 0", "NoEvent(2)"),
        (b"\xff", "NoEvent(0)"),
    ] {
        same(&rt, &said(rt.alloc(), line)?.as_str(), &want);
    }
    Ok(())
}
