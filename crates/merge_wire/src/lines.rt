//! How many lines of a head have ended.
ghost use Rattle.std.specs.Prelude.{◌≡◌, ◌≤◌, length, take_while};
ghost use Rattle.httparse.specs.Pieces.{is_newline};
ghost use Rattle.merge_wire.specs.Heads.{behind_blank as text_behind, lines as line_count};

/// A head has at most so many lines before the one that ends it: the first, and one for each field.
pub const LINE_LIMIT: usize = 33;

/// How many lines have ended. Empty ones before the first do not count.
pub fn lines(bytes: &[u8]) -> usize
    ensures { result ≡ line_count bytes.now }
{
    behind_blank(bytes).iter().filter(|b| **b == b'\n').count()
}

// The bytes behind the empty lines at the front.
fn behind_blank(bytes: &[u8]) -> &[u8]
    ensures { result.now ≡ text_behind bytes.now }
{
    &bytes[blank_len(bytes)..]
}

fn blank_len(bytes: &[u8]) -> usize
    ensures count { result ≡ length (take_while is_newline bytes.now) }
    ensures within { result ≤ length bytes.now }
{
    bytes.iter().take_while(|b| is_newline(**b)).count()
}

fn is_newline(byte: u8) -> bool
    ensures { result ≡ is_newline byte }
{
    byte == b'\r' || byte == b'\n'
}
