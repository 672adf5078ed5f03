//! What single words say.
ghost use Rattle.std.specs.List.{after_first, before_first, position_or_len};
ghost use Rattle.std.specs.Prelude.{◌≡◌, ◌≤◌, IfOk, length, option_map};
ghost use Rattle.merge_model.specs.Script.Literals.{row_of_text, same, value_of_text};
ghost use Rattle.merge_model.specs.Script.Reading.{is_equals_sign, message_of, name_of, seconds_of, setting_of, site_of};
ghost use Rattle.merge_reading.specs.Telling.{as_event};

use merge_model::{Event, NamedValue};
use merge_script::{is_name, read_decimal};
use merge_types::{NoMemory, RowId, SiteId, Value, Words};
use std::alloc::Global;

/// What a site sends.
#[derive(Clone, Copy, Debug, PartialEq, Eq)]
pub enum Sending {
    Join,
    Upload,
    Ranges,
    Download,
}

impl Sending {
    /// The event that the site sends it.
    pub fn by(self, site: SiteId) -> Event
        ensures { result ≡ as_event self site }
    {
        match self {
            Sending::Join => Event::SendJoin(site),
            Sending::Upload => Event::SendUpload(site),
            Sending::Ranges => Event::SendRanges(site),
            Sending::Download => Event::SendDownload(site),
        }
    }
}

/// A number of seconds, in 32 bits.
pub fn seconds(word: &[u8]) -> Option<u32>
    ensures { result ≡ seconds_of word.now }
{
    match read_decimal(word) {
        Some(number) if number <= u32::MAX as u64 => Some(number as u32),
        _ => None,
    }
}

/// The number of a site.
pub fn site(word: &[u8]) -> Option<SiteId>
    ensures { result ≡ site_of word.now }
{
    match read_decimal(word) {
        Some(number) if number <= u16::MAX as u64 => Some(SiteId(number as u16)),
        _ => None,
    }
}

/// A name.
pub fn name(alloc: Global, word: &[u8]) -> Result<Option<Words>, NoMemory>
    ensures { IfOk result (λ name. name ≡ name_of word.now) }
{
    if !is_name(word) {
        return Ok(None);
    }
    match str::from_utf8(word) {
        Ok(text) => Ok(Some(Words::of(alloc, text)?)),
        Err(_) => Ok(None),
    }
}

/// The row that a word names.
pub fn row(word: &[u8]) -> Option<RowId>
    ensures { result ≡ row_of_text word.now }
{
    RowId::read(word)
}

/// Whether a word is this text.
pub fn is_same(word: &[u8], text: &[u8]) -> bool
    ensures { result ≡ same word.now text.now }
{
    word == text
}

/// What a site sends.
pub fn sent(word: &[u8]) -> Option<Sending>
    ensures { message_of word.now ≡ option_map as_event result }
{
    if is_same(word, b"join") {
        return Some(Sending::Join);
    }
    if is_same(word, b"upload") {
        return Some(Sending::Upload);
    }
    if is_same(word, b"ranges") {
        return Some(Sending::Ranges);
    }
    if is_same(word, b"download") {
        return Some(Sending::Download);
    }
    None
}

// The value of a literal.
fn value(alloc: Global, text: &[u8]) -> Result<Option<Value>, NoMemory>
    ensures { IfOk result (λ value. value ≡ value_of_text text.now) }
{
    Value::read(alloc, text)
}

// The place of the first `=`, or the word's length where it has none.
fn equals_sign(word: &[u8]) -> usize
    ensures place { result ≡ position_or_len is_equals_sign word.now }
    ensures within { result ≤ length word.now }
{
    for (at, byte) in word.iter().enumerate() {
        if *byte == b'=' {
            return at;
        }
    }
    word.len()
}

// What stands before the first `=`, and behind it.
fn parted(word: &[u8]) -> (&[u8], &[u8])
    ensures before { result.0.now ≡ before_first is_equals_sign word.now }
    ensures after { result.1.now ≡ after_first is_equals_sign word.now }
{
    let (before, rest) = word.split_at(equals_sign(word));
    match rest {
        [] => (before, rest),
        [_, after @ ..] => (before, after),
    }
}

/// COL=VALUE.
pub fn setting(alloc: Global, word: &[u8]) -> Result<Option<NamedValue>, NoMemory>
    ensures { IfOk result (λ setting. setting ≡ setting_of word.now) }
{
    let (column, literal) = parted(word);
    let Some(column) = name(alloc, column)? else {
        return Ok(None);
    };
    let Some(value) = value(alloc, literal)? else {
        return Ok(None);
    };
    Ok(Some(NamedValue { column, value }))
}
