//! The examples of the format, each message there and back, and bodies of strangers.
use crate::same::same;
use merge_batch::{Download, Join, Kind, Request};
use merge_json::{
    BodyFault, kind_of_path, path_of, read_reply, read_request, write_reply, write_request,
};
use merge_ports::MemorySource;
use merge_types::{Listing, Octets, SiteId};
use merge_wire::{Message, read_message};
use std::alloc::Global;
use std::test::Fail;

// What was read of a request, as it is written again.
fn request_again(alloc: Global, path: &str, body: &str) -> Result<Result<Octets, BodyFault>, Fail> {
    match read_request(alloc, path.as_bytes(), body.as_bytes()) {
        Ok(request) => Ok(Ok(write_request(alloc, &request)?)),
        Err(fault) => Ok(Err(fault)),
    }
}

fn reply_again(alloc: Global, kind: Kind, body: &str) -> Result<Result<Octets, BodyFault>, Fail> {
    match read_reply(alloc, kind, body.as_bytes()) {
        Ok(reply) => Ok(Ok(write_reply(alloc, &reply)?)),
        Err(fault) => Ok(Err(fault)),
    }
}

#[test]
fn the_first_messages_are_written(rt: HostRuntime) -> Result<(), Fail> {
    let join = Request::Join(Join {
        site: SiteId(1),
        seq: 1,
        generation: 0,
        number: 0,
    });
    let body = write_request(rt.alloc(), &join)?;
    same(
        &rt,
        &body.as_slice(),
        &br#"{"generation":0,"number":0,"seq":1,"site":1}"#.as_slice(),
    );
    same(&rt, &path_of(join.kind()), &"/merge/join");
    let download = Request::Download(Download {
        site: SiteId(1),
        seq: 2,
        from: 0,
    });
    let body = write_request(rt.alloc(), &download)?;
    same(
        &rt,
        &body.as_slice(),
        &br#"{"from":0,"seq":2,"site":1}"#.as_slice(),
    );
    same(
        &rt,
        &kind_of_path(b"/merge/download"),
        &Some(Kind::Download),
    );
    same(&rt, &kind_of_path(b"/merge"), &None);
    Ok(())
}

const ITEMS: &str =
    r#"{"from":0,"items":[{"article":0,"generation":1,"lineage":[[0,18446744073709551615],[1,1]],"live":[{"top":[1,1],"values":[null,-7,9223372036854775807,true,"a\"\\\n\u0001é"]},{"top":[0,2],"values":[{"day":"2024-02-29"},{"guid":"00000000-0000-8000-8000-00000000000a"},{"bytes":"00ff"},{"bytes":""}]}],"row":"00010000-0000-8000-8000-000000000001"},{"article":255,"dead":[1,2],"generation":1,"lineage":[],"row":"ffffffff-ffff-ffff-ffff-ffffffffffff"}],"seq":2,"site":65535,"through":2,"to":1}"#;

#[test]
fn requests_go_there_and_back(rt: HostRuntime) -> Result<(), Fail> {
    for (path, body) in [
        (
            "/merge/join",
            r#"{"generation":3,"number":18446744073709551615,"seq":1,"site":1}"#,
        ),
        ("/merge/upload", ITEMS),
        (
            "/merge/ranges",
            r#"{"seq":2,"site":1,"wants":[{"article":1,"due":true,"have":0},{"article":2,"due":false,"have":7}]}"#,
        ),
        ("/merge/download", r#"{"from":9,"seq":3,"site":1}"#),
    ] {
        let again = request_again(rt.alloc(), path, body)?;
        assert!(rt;
            again.is_ok_and(|text| text.as_slice() == body.as_bytes()),
            "{path}"
        );
    }
    Ok(())
}

#[test]
fn replies_go_there_and_back(rt: HostRuntime) -> Result<(), Fail> {
    for (kind, body) in [
        (Kind::Join, r#"{"seq":1}"#),
        (Kind::Upload, r#"{"received":3,"seq":2}"#),
        (
            Kind::Ranges,
            r#"{"ended":[{"article":1,"greatest":-1,"next":9223372036854775808}],"grants":[{"article":0,"begin":-9223372036854775808,"end":9,"number":1}],"seq":2}"#,
        ),
        (
            Kind::Download,
            r#"{"from":0,"items":[{"article":0,"lineage":[[0,1]],"live":[{"top":[0,1],"values":[]}],"row":"00000000-0000-8000-8000-000000000001"},{"article":1,"remove":1,"row":"00000000-0000-8000-8000-000000000002"},{"article":1,"remove":5,"row":"00000000-0000-8000-8000-000000000003"}],"last":4,"received":2,"seq":2,"to":3}"#,
        ),
        (Kind::Refused, r#"{"refused":4,"values":[1,2]}"#),
        (Kind::Refused, r#"{"refused":17,"values":[]}"#),
    ] {
        let again = reply_again(rt.alloc(), kind, body)?;
        assert!(rt;
            again.is_ok_and(|text| text.as_slice() == body.as_bytes()),
            "{body}"
        );
    }
    Ok(())
}

// Other texts of the same messages.
#[test]
fn other_texts_are_read(rt: HostRuntime) -> Result<(), Fail> {
    for body in [
        // spaces, another order, a key that is not known, the last of two equal keys, an escape in a key
        " {\"site\" : 1,\n\"seq\":1,\"generation\":0,\"number\":0}\t",
        r#"{"site":1,"seq":1,"generation":0,"number":0,"more":[{"site":[1e2]}]}"#,
        r#"{"site":"x","seq":1,"generation":0,"number":0,"site":1}"#,
        r#"{"si\u0074e":1,"seq":1,"generation":0,"number":0}"#,
    ] {
        let again = request_again(rt.alloc(), "/merge/join", body)?;
        let join = r#"{"generation":0,"number":0,"seq":1,"site":1}"#;
        assert!(rt;
            again.is_ok_and(|text| text.as_slice() == join.as_bytes()),
            "{body}"
        );
    }
    // an identifier in upper case, and a refusal with a key that is not known
    let body =
        r#"{"from":0,"items":[{"article":0,"dead":[1,1],"generation":1,"lineage":[],"remove":1,"row":"0000000A-0000-8000-8000-00000000000B"}],"seq":1,"site":1,"through":1,"to":1}"#;
    assert!(rt; request_again(rt.alloc(), "/merge/upload", body)?.is_ok());
    let body = r#"{"refused":12,"values":[200001],"words":"too many rows"}"#;
    assert!(rt; reply_again(rt.alloc(), Kind::Refused, body)?.is_ok());
    Ok(())
}

#[test]
fn joins_of_strangers_are_no_messages(rt: HostRuntime) -> Result<(), Fail> {
    for body in [
        "",
        "nothing",
        "[]",
        "{}",
        r#"{"generation":0,"number":0,"seq":1}"#,
        r#"{"generation":0,"number":0,"seq":1,"site":65536}"#,
        r#"{"generation":0,"number":0,"seq":1,"site":-1}"#,
        r#"{"generation":0,"number":0,"seq":1,"site":"1"}"#,
        r#"{"generation":0,"number":0,"seq":1e2,"site":1}"#,
        r#"{"generation":0,"number":0,"seq":1.0,"site":1}"#,
        r#"{"generation":-0,"number":0,"seq":1,"site":1}"#,
        r#"{"generation":18446744073709551616,"number":0,"seq":1,"site":1}"#,
        r#"{"generation":0,"number":0,"seq":1,"site":1,"more":1e400}"#,
        r#"{"generation":0,"number":0,"seq":1,"site":1,"site":null}"#,
        r#"{"generation":0,"number":0,"seq":1,"site":1} x"#,
        r#"{"generation":0,"number":0,"seq":1,"site":1,}"#,
        r#"{"generation":0,"number":0,"seq":1,"site":1,"more":"\ud800"}"#,
    ] {
        let again = request_again(rt.alloc(), "/merge/join", body)?;
        assert!(rt;
            again.is_err_and(|e| e == BodyFault::BadBody { place: 0 }),
            "{body}"
        );
    }
    let join = r#"{"generation":0,"number":0,"seq":1,"site":1}"#;
    let lost = request_again(rt.alloc(), "/merge/joins", join)?;
    assert!(rt; lost.is_err_and(|e| e == BodyFault::BadBody { place: 0 }));
    let not_text = read_request(rt.alloc(), b"/merge/join", b"{\"site\":\"\xff\"}");
    assert!(rt; not_text.is_err());
    Ok(())
}

// An upload whose second item has these members beside its place, and whose other keys are these.
fn upload(alloc: Global, item: &str, rest: &str) -> Result<String, Fail> {
    let mut text = String::from_str(
        alloc,
        r#"{"items":[{"article":0,"dead":[1,1],"generation":1,"lineage":[],"row":"00000000-0000-8000-8000-000000000001"},{"#,
    )?;
    text.push_str(item)?;
    text.push_str("}],")?;
    text.push_str(rest)?;
    text.push('}')?;
    Ok(text)
}

const REST: &str = r#""from":0,"seq":1,"site":1,"through":1,"to":1"#;

#[test]
fn bad_items_are_numbered(rt: HostRuntime) -> Result<(), Fail> {
    for item in [
        "",
        // both, and neither
        r#""article":0,"dead":[1,1],"generation":1,"lineage":[],"live":[],"row":"00000000-0000-8000-8000-000000000002""#,
        r#""article":0,"generation":1,"lineage":[],"row":"00000000-0000-8000-8000-000000000002""#,
        // sites that do not ascend, and no pair
        r#""article":0,"dead":[1,1],"generation":1,"lineage":[[1,1],[1,2]],"row":"00000000-0000-8000-8000-000000000002""#,
        r#""article":0,"dead":[1,1,1],"generation":1,"lineage":[],"row":"00000000-0000-8000-8000-000000000002""#,
        // an article beyond a byte, and identifiers of other forms
        r#""article":256,"dead":[1,1],"generation":1,"lineage":[],"row":"00000000-0000-8000-8000-000000000002""#,
        r#""article":0,"dead":[1,1],"generation":1,"lineage":[],"row":"00000000000080008000000000000002""#,
        // values of two types, of none, days that are no dates, half a byte
        r#""article":0,"generation":1,"lineage":[],"live":[{"top":[1,1],"values":[{"bytes":"","day":"2024-01-01"}]}],"row":"00000000-0000-8000-8000-000000000002""#,
        r#""article":0,"generation":1,"lineage":[],"live":[{"top":[1,1],"values":[{"date":"2024-01-01"}]}],"row":"00000000-0000-8000-8000-000000000002""#,
        r#""article":0,"generation":1,"lineage":[],"live":[{"top":[1,1],"values":[{"day":"2023-02-29"}]}],"row":"00000000-0000-8000-8000-000000000002""#,
        r#""article":0,"generation":1,"lineage":[],"live":[{"top":[1,1],"values":[{"bytes":"0"}]}],"row":"00000000-0000-8000-8000-000000000002""#,
        r#""article":0,"generation":1,"lineage":[],"live":[{"top":[1,1],"values":[9223372036854775808]}],"row":"00000000-0000-8000-8000-000000000002""#,
    ] {
        let body = upload(rt.alloc(), item, REST)?;
        let again = request_again(rt.alloc(), "/merge/upload", body.as_str())?;
        assert!(rt;
            again.is_err_and(|e| e == BodyFault::BadBody { place: 2 }),
            "{item}"
        );
    }
    // a bad rest comes before a bad item
    let body = upload(rt.alloc(), "", r#""from":0,"seq":1,"site":1,"through":1"#)?;
    let again = request_again(rt.alloc(), "/merge/upload", body.as_str())?;
    assert!(rt; again.is_err_and(|e| e == BodyFault::BadBody { place: 0 }));
    Ok(())
}

#[test]
fn replies_of_strangers_are_no_messages(rt: HostRuntime) -> Result<(), Fail> {
    for (kind, body, place) in [
        (Kind::Upload, r#"{"seq":1}"#, 0),
        (Kind::Ranges, r#"{"ended":[],"grants":[{}],"seq":1}"#, 0),
        (Kind::Refused, r#"{"refused":7,"values":[]}"#, 0),
        (Kind::Refused, r#"{"refused":4,"values":[1]}"#, 0),
        (
            Kind::Download,
            r#"{"from":0,"items":[{"article":1,"lineage":[],"live":[],"remove":1,"row":"00000000-0000-8000-8000-000000000002"}],"last":4,"received":2,"seq":2,"to":3}"#,
            1,
        ),
        (
            Kind::Download,
            r#"{"from":0,"items":[{"article":1,"remove":2,"row":"00000000-0000-8000-8000-000000000002"}],"last":4,"received":2,"seq":2,"to":3}"#,
            1,
        ),
    ] {
        let again = reply_again(rt.alloc(), kind, body)?;
        assert!(rt;
            again.is_err_and(|e| e == BodyFault::BadBody { place }),
            "{body}"
        );
    }
    Ok(())
}

// A piece so many times, between two others.
fn repeated(
    alloc: Global,
    begin: &str,
    piece: &str,
    times: u32,
    end: &str,
) -> Result<String, Fail> {
    let mut text = String::from_str(alloc, begin)?;
    for _ in 0..times {
        text.push_str(piece)?;
    }
    text.push_str(end)?;
    Ok(text)
}

// A request with this body as it is read off the wire, where the reads follow its bytes: one for each
// of its head, and one for each 4,096 of the body.
fn carried(alloc: Global, body: &str) -> Result<Message, Fail> {
    let length = body.len();
    let head = format!(in alloc; "POST /x HTTP/1.1\r\nContent-Length: {length}\r\n\r\n")?;
    let reads = (head.len() as u64).saturating_add(length as u64 / 4096);
    let mut bytes: Octets = Listing::new(head.as_bytes().to_vec(alloc)?);
    bytes.extend(body.as_bytes())?;
    let mut source = MemorySource::new(bytes, Listing::empty(alloc));
    let message = read_message(alloc, &mut source)?;
    if source.calls > reads.saturating_add(1) {
        return Err(Fail::from("more reads than bytes"));
    }
    Ok(message)
}

// Whether a body that the wire carried is read as the reply to a join.
fn is_carried_reply(alloc: Global, body: &str) -> Result<bool, Fail> {
    let message = carried(alloc, body)?;
    let again = read_reply(alloc, Kind::Join, message.body.as_slice());
    Ok(again.is_ok())
}

// Deep nesting, many keys, long numbers and strings of escapes: refused, or read in time that follows the length.
#[test]
fn heavy_bodies_are_answered(rt: HostRuntime) -> Result<(), Fail> {
    for (begin, piece, times, end, is_read) in [
        ("", "[", 100_000, "", false),
        (r#"{"seq":1,"more":"#, r#"{"a":"#, 100_000, "", false),
        (r#"{"more":["#, "[],", 50_000, r#"[]],"seq":1}"#, true),
        ("{", r#""seq":"1","#, 100_000, r#""seq":1}"#, true),
        (r#"{"seq":1"#, "0", 10_000, "}", false),
        (r#"{"seq":1."#, "0", 10_000, "}", false),
        (r#"{"more":0."#, "7", 10_000, r#","seq":1}"#, true),
        (r#"{"more":1e"#, "9", 10_000, r#","seq":1}"#, false),
        (
            r#"{"more":""#,
            r#"\"\\\/\b\f\n\r\t\u0001\u00e9\ud83d\ude00"#,
            10_000,
            r#"","seq":1}"#,
            true,
        ),
        (r#"{"more":""#, r"\ud83d", 10_000, r#"","seq":1}"#, false),
    ] {
        let body = repeated(rt.alloc(), begin, piece, times, end)?;
        let told = is_carried_reply(rt.alloc(), body.as_str())?;
        assert!(rt; told == is_read, "{begin}{piece}");
    }
    Ok(())
}

#[test]
fn many_keys_are_read(rt: HostRuntime) -> Result<(), Fail> {
    let mut body = String::from_str(rt.alloc(), "{")?;
    for number in 0..100_000 {
        let member = format!(in rt.alloc(); "\"{number}\":{number},")?;
        body.push_str(member.as_str())?;
    }
    body.push_str(r#""seq":1}"#)?;
    assert!(rt; is_carried_reply(rt.alloc(), body.as_str())?);
    Ok(())
}
