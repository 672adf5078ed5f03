//! Sessions with a publisher of which a link in memory gives the responses: how the program ends by them.
use crate::ending::{NONE, end, is_ended, outside};
use merge_keeper::MemoryKeeper;
use merge_link::Exchange;
use merge_outside::MemoryCommands;
use merge_types::Octets;
use std::alloc::Global;
use std::test::Fail;

// The reply to a join, the first message of a site.
const JOINED: &str = "HTTP/1.1 200 OK\r\nContent-Length: 9\r\n\r\n{\"seq\":1}";

// Replies to the second and the third message, downloads from a publisher that has no generation.
const NOTHING: &str =
    "HTTP/1.1 200 OK\r\nContent-Length: 58\r\n\r\n{\"from\":0,\"items\":[],\"last\":0,\"received\":0,\"seq\":2,\"to\":0}";

const NOTHING_YET: &str =
    "HTTP/1.1 200 OK\r\nContent-Length: 58\r\n\r\n{\"from\":0,\"items\":[],\"last\":0,\"received\":0,\"seq\":3,\"to\":0}";

// Replies to the same from one whose first generation has its first row.
const ONE_ROW: &str =
    "HTTP/1.1 200 OK\r\nContent-Length: 170\r\n\r\n{\"from\":0,\"items\":[{\"article\":0,\"lineage\":[[0,1]],\"live\":[{\"top\":[0,1],\"values\":[7]}],\"row\":\"00000000-0000-8000-8000-000000000001\"}],\"last\":1,\"received\":0,\"seq\":2,\"to\":1}";

const NO_MORE: &str =
    "HTTP/1.1 200 OK\r\nContent-Length: 58\r\n\r\n{\"from\":1,\"items\":[],\"last\":1,\"received\":0,\"seq\":3,\"to\":1}";

// Replies to the session behind it: to an upload, and to downloads of two generations that bring no row.
const UPLOADED: &str = "HTTP/1.1 200 OK\r\nContent-Length: 22\r\n\r\n{\"received\":1,\"seq\":4}";

const SECOND: &str =
    "HTTP/1.1 200 OK\r\nContent-Length: 58\r\n\r\n{\"from\":1,\"items\":[],\"last\":3,\"received\":1,\"seq\":5,\"to\":2}";

const THIRD: &str =
    "HTTP/1.1 200 OK\r\nContent-Length: 58\r\n\r\n{\"from\":2,\"items\":[],\"last\":3,\"received\":1,\"seq\":6,\"to\":3}";

const NO_FOURTH: &str =
    "HTTP/1.1 200 OK\r\nContent-Length: 58\r\n\r\n{\"from\":3,\"items\":[],\"last\":3,\"received\":1,\"seq\":7,\"to\":3}";

const EXPIRED: &str =
    "HTTP/1.1 409 Conflict\r\nContent-Length: 34\r\n\r\n{\"refused\":2,\"values\":[1,1209602]}";

const REFUSED: &str =
    "HTTP/1.1 409 Conflict\r\nContent-Length: 28\r\n\r\n{\"refused\":3,\"values\":[4,5]}";

const FAILED: &str = "HTTP/1.1 500 Internal Server Error\r\nContent-Length: 0\r\n\r\n";

const WANTING: &str = "HTTP/1.1 507 Insufficient Storage\r\nContent-Length: 0\r\n\r\n";

// The second message has number 2.
const OF_ANOTHER: &str =
    "HTTP/1.1 200 OK\r\nContent-Length: 58\r\n\r\n{\"from\":0,\"items\":[],\"last\":0,\"received\":0,\"seq\":9,\"to\":0}";

const NO_REPLY: &str = "HTTP/1.1 200 OK\r\nContent-Length: 2\r\n\r\n{}";

const NO_ITEM: &str =
    "HTTP/1.1 200 OK\r\nContent-Length: 60\r\n\r\n{\"from\":0,\"items\":[{}],\"last\":0,\"received\":0,\"seq\":2,\"to\":0}";

// A line of words with an input, what its link gives before it fails, and how the program ends.
type Step = (
    &'static str,
    &'static str,
    &'static [&'static str],
    (u8, &'static str, &'static str),
);

const SYNC: &str = "sync p1  1 127.0.0.1:7000";

// Steps that begin at empty stores, each of which begins where the last one ended.
const STEPS: &[&[Step]] = &[
    // the row that was downloaded is shown; then one is uploaded, and two generations are downloaded
    &[
        (
            SYNC,
            "",
            &[JOINED, ONE_ROW, NO_MORE],
            (0, "done 0 1 1\n", ""),
        ),
        (
            "show p1  1 item",
            "",
            &[],
            (0, "00000000-0000-8000-8000-000000000001 7\nrows 1\n", ""),
        ),
        (
            "change p1  1",
            "insert 1 item qty=3\n",
            &[],
            (0, "row 00000000-0001-8000-8000-000000000001\n", ""),
        ),
        (
            SYNC,
            "",
            &[UPLOADED, SECOND, THIRD, NO_FOURTH],
            (0, "done 1 2 3\n", ""),
        ),
    ],
    // the join of a session whose link failed stands
    &[
        (SYNC, "", &[JOINED], (7, "", "link fault\n")),
        (SYNC, "", &[NOTHING_YET], (0, "done 0 0 0\n", "")),
    ],
    &[(SYNC, "", &[JOINED, NOTHING], (0, "done 0 0 0\n", ""))],
    &[(SYNC, "", &[], (7, "", "link fault\n"))],
    &[(SYNC, "", &[JOINED, EXPIRED], (8, "", "expired 1 1209602\n"))],
    &[(SYNC, "", &["no message"], (9, "", "bad reply 0\n"))],
    &[(SYNC, "", &[NO_REPLY], (9, "", "bad reply 0\n"))],
    &[(SYNC, "", &[JOINED, OF_ANOTHER], (9, "", "bad reply 0\n"))],
    &[(SYNC, "", &[JOINED, NO_ITEM], (9, "", "bad reply 1\n"))],
    &[(SYNC, "", &[REFUSED], (12, "", "refused 3\n"))],
    &[(SYNC, "", &[FAILED], (12, "", "refused 7\n"))],
    &[(SYNC, "", &[WANTING], (12, "", "refused 0\n"))],
    // no subscription, a file that is no publication, no file, and a store that does not open
    &[("sync p1  0 a", "", &[], (12, "", "refused 1\n"))],
    &[("sync p1  2 a", "", &[], (12, "", "refused 1\n"))],
    &[(
        "sync p0  1 a",
        "",
        &[],
        (2, "", "publication refused: 2 missing name\n"),
    )],
    &[("sync p2  1 a", "", &[], (4, "", "read fault\n"))],
    &[("sync p1 s 1 a", "", &[], (6, "", "store fault\n"))],
];

// What the next link of the outside gives.
fn respond(
    alloc: Global,
    outside: &mut MemoryCommands<MemoryKeeper>,
    responses: &[&str],
) -> Result<(), Fail> {
    for response in responses {
        let bytes = Octets::new(response.as_bytes().to_vec(alloc)?);
        outside.responses.push(bytes)?;
    }
    Ok(())
}

// Whether the program ends so at each of the steps.
fn goes(alloc: Global, steps: &[Step]) -> Result<bool, Fail> {
    let mut next = outside(alloc, &[])?;
    let mut told = true;
    for step in steps {
        let (line, input, responses, (status, output, note)) = *step;
        respond(alloc, &mut next, responses)?;
        let (ended, host) = end(alloc, line, input.as_bytes(), &NONE, next)?;
        told = told && is_ended(ended, &host, status, output, note);
        next = host.outside;
    }
    Ok(told)
}

#[test]
fn sessions_end_by_what_the_link_gives(rt: HostRuntime) -> Result<(), Fail> {
    for steps in STEPS {
        assert!(rt; goes(rt.alloc(), steps)?, "{steps:?}");
    }
    Ok(())
}

// The first messages of a site, as they are sent.
const FIRST_JOIN: &str =
    "POST /merge/join HTTP/1.1\r\nHost: 127.0.0.1:7000\r\nContent-Type: application/json\r\nContent-Length: 44\r\nConnection: close\r\n\r\n{\"generation\":0,\"number\":0,\"seq\":1,\"site\":1}";

const FIRST_DOWNLOAD: &str =
    "POST /merge/download HTTP/1.1\r\nHost: 127.0.0.1:7000\r\nContent-Type: application/json\r\nContent-Length: 27\r\nConnection: close\r\n\r\n{\"from\":0,\"seq\":2,\"site\":1}";

// Whether just these requests were sent.
fn are_sent(exchanges: &[Exchange], requests: &[&str]) -> bool {
    let mut same = exchanges.len() == requests.len();
    for (exchange, request) in exchanges.iter().zip(requests) {
        same = same && exchange.request.as_slice() == request.as_bytes();
    }
    same
}

#[test]
fn a_first_session_sends_a_join_and_a_download(rt: HostRuntime) -> Result<(), Fail> {
    let mut next = outside(rt.alloc(), &[])?;
    respond(rt.alloc(), &mut next, &[JOINED, NOTHING])?;
    let (ended, host) = end(rt.alloc(), SYNC, b"", &NONE, next)?;
    assert!(rt; is_ended(ended, &host, 0, "done 0 0 0\n", ""));
    let told = host.outside.exchanges.as_slice();
    assert!(rt; are_sent(told, &[FIRST_JOIN, FIRST_DOWNLOAD]));
    Ok(())
}
