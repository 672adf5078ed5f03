//! Where requests go.
ghost use Rattle.std.specs.Prelude.{◌≡◌};
ghost use Rattle.merge_json.specs.Requests.{kind_at, path_of as path_by};

use merge_batch::Kind;

/// The path that requests of a kind go to, which is empty for a refusal.
pub fn path_of(kind: Kind) -> &'static str
    ensures { result.now ≡ path_by kind }
{
    match kind {
        Kind::Join => "/merge/join",
        Kind::Upload => "/merge/upload",
        Kind::Ranges => "/merge/ranges",
        Kind::Download => "/merge/download",
        Kind::Refused => "",
    }
}

/// The kind of the requests that go to a path, and none where none go.
#[tactic(auto, unfolding(crate::specs::Requests::kind_at))]
pub fn kind_of_path(path: &[u8]) -> Option<Kind>
    ensures { result ≡ kind_at path.now }
{
    if path == b"/merge/join".as_slice() {
        Some(Kind::Join)
    } else if path == b"/merge/upload".as_slice() {
        Some(Kind::Upload)
    } else if path == b"/merge/ranges".as_slice() {
        Some(Kind::Ranges)
    } else if path == b"/merge/download".as_slice() {
        Some(Kind::Download)
    } else {
        None
    }
}
