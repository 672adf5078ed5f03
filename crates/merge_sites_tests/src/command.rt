//! Of which site the event of a line is.
use crate::same::same;
use merge_command::is_taken;
use merge_model::Line;
use merge_reading::read_line;
use merge_types::SiteId;
use std::test::Fail;

// The sites of 0, 1 and 2 of which a line's event is one.
#[test]
fn each_event_is_of_its_site(rt: HostRuntime) -> Result<(), Fail> {
    for (line, wants) in [
        (b"insert 1 item qty=7".as_slice(), [false, true, false]),
        (b"update 0 item 0.1 qty=7", [true, false, false]),
        (b"delete 2 item 0.1", [false, false, true]),
        (b"close 1", [false, true, false]),
        (b"reinit 1", [false, true, false]),
        (b"reinit 0", [true, false, false]),
        (b"purge", [true, false, false]),
        (b"show 1 item", [false, true, false]),
        (b"conflicts 1", [false, true, false]),
        (b"ranges 2", [false, false, true]),
        (b"generations 0", [true, false, false]),
        (b"count 1", [false, true, false]),
        (b"wait 1", [false, false, false]),
        (b"sync 1", [false, false, false]),
        (b"send 1 join", [false, false, false]),
        (b"send 1 upload", [false, false, false]),
        (b"send 1 ranges", [false, false, false]),
        (b"send 1 download", [false, false, false]),
        (b"deliver 1", [false, false, false]),
        (b"restart 1", [false, false, false]),
        (b"partition 1", [false, false, false]),
    ] {
        if let Line::Event(event) = read_line(rt.alloc(), line)? {
            for here in 0..3u16 {
                same(&rt, &is_taken(SiteId(here), &event), &wants[here as usize]);
            }
        }
    }
    Ok(())
}
