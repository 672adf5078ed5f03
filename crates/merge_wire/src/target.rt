//! Bytes that may end in the target of a request.
ghost use Rattle.std.specs.Prelude.{◌≡◌, ◌≤◌, ◌↔◌, IsTrue, length, take_while};
ghost use Rattle.httparse.specs.Grammar.{AllPass, MayBecomeRequest, is_uri_byte};
ghost use Rattle.merge_wire.specs.Heads.{BeginsText, CanBecomeRequest, is_no_space};

use std::str;

/// Whether a head can come of bytes of which the parser wants more. It tests a target as UTF-8 at its end alone, so
/// they may end in one that can become no text.
pub fn can_become_request(bytes: &[u8]) -> bool
    requires { MayBecomeRequest bytes.now }
    ensures { IsTrue result ↔ CanBecomeRequest bytes.now }
{
    let at = word_len(bytes);
    if at == bytes.len() {
        return true;
    }
    let (_, behind) = bytes.split_at(at + 1);
    // else the target has ended
    if is_target(behind) {
        begins_text(behind)
    } else {
        true
    }
}

// How many bytes stand before the first space.
fn word_len(bytes: &[u8]) -> usize
    ensures count { result ≡ length (take_while is_no_space bytes.now) }
    ensures within { result ≤ length bytes.now }
{
    bytes.iter().take_while(|b| is_no_space(**b)).count()
}

fn is_no_space(byte: u8) -> bool
    ensures { result ≡ is_no_space byte }
{
    byte != b' '
}

fn is_target(bytes: &[u8]) -> bool
    ensures { IsTrue result ↔ AllPass is_uri_byte bytes.now }
{
    bytes.iter().all(|b| is_target_byte(*b))
}

fn is_target_byte(byte: u8) -> bool
    ensures { result ≡ is_uri_byte byte }
{
    (byte > b' ') & (byte != 0x7f)
}

// A character that is not at fault, and lacks bytes, can get them.
fn begins_text(bytes: &[u8]) -> bool
    ensures { IsTrue result ↔ BeginsText bytes.now }
{
    match str::from_utf8(bytes) {
        Ok(_) => true,
        Err(fault) => fault.error_len().is_none(),
    }
}
