//! Columns by their names.
ghost use Rattle.std.specs.Prelude.{◌≡◌, ◌≤◌, ◌<◌, length, IfSome};
ghost use Rattle.merge_filter.specs.Names.{is_named, column_of, is_unknown, unknown_name};

use crate::word::Word;
use merge_types::Column;

fn is_named(name: &[u8], column: &Column) -> bool
    ensures { result ≡ is_named name.now column.now }
{
    column.name.as_str().as_bytes() == name
}

/// The place of the column with a name, and the number of columns where none has it.
pub fn column_of(columns: &[Column], name: &[u8]) -> usize
    ensures value { result ≡ column_of columns.now name.now }
    ensures within { result ≤ length columns.now }
{
    columns
        .iter()
        .take_while(|column| !is_named(name, column))
        .count()
}

fn is_unknown(columns: &[Column], word: &Word) -> bool
    ensures { result ≡ is_unknown columns.now word.now }
{
    match word {
        Word::Name(name) => column_of(columns, name.as_slice()) >= columns.len(),
        _ => false,
    }
}

/// The first word that is a name of no column.
pub fn unknown_name(columns: &[Column], words: &[Word]) -> Option<usize>
    ensures value { result ≡ unknown_name columns.now words.now }
    ensures within { IfSome result (λ index. index < length words.now) }
{
    words.iter().position(|word| is_unknown(columns, word))
}
