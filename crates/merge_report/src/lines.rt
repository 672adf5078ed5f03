//! Words and numbers of a line, each form of a line in a function of its own.
ghost use Rattle.std.specs.Prelude.{◌≡◌, ◌++◌, ◌∷◌, [], OnOk, string_bytes};
ghost use Rattle.std.specs.Fmt.{decimal};
ghost use Rattle.merge_model.specs.Script.Text.{line};
ghost use Rattle.merge_report.specs.Words.{spaced_words};

use merge_types::NoMemory;

/// Adds a line of one word, or of words that never change.
pub fn add_word(text: &mut String, word: &str) -> Result<(), NoMemory>
    ensures { OnOk result (string_bytes text.new ≡ string_bytes text.old ++ line (word.now ∷ [])) }
{
    writeln!(text, "{word}")?;
    Ok(())
}

/// Adds a line of a word and a number.
pub fn add_number(text: &mut String, word: &str, number: u64) -> Result<(), NoMemory>
    ensures { OnOk result (string_bytes text.new ≡ string_bytes text.old ++ line (word.now ∷ decimal number ∷ [])) }
{
    writeln!(text, "{word} {number}")?;
    Ok(())
}

/// Adds a line of a word and two numbers.
pub fn add_numbers(text: &mut String, word: &str, first: u64, second: u64) -> Result<(), NoMemory>
    ensures { OnOk result (string_bytes text.new ≡ string_bytes text.old ++ line (word.now ∷ decimal first ∷ decimal second ∷ [])) }
{
    writeln!(text, "{word} {first} {second}")?;
    Ok(())
}

/// Adds a line of a word and three numbers.
pub fn add_three(
    text: &mut String,
    word: &str,
    first: u64,
    second: u64,
    third: u64,
) -> Result<(), NoMemory>
    ensures { OnOk result (string_bytes text.new ≡ string_bytes text.old ++ line (word.now ∷ decimal first ∷ decimal second ∷ decimal third ∷ [])) }
{
    writeln!(text, "{word} {first} {second} {third}")?;
    Ok(())
}

/// Adds a number with a blank before it.
pub fn add_field(text: &mut String, number: u64) -> Result<(), NoMemory>
    ensures { OnOk result (string_bytes text.new ≡ string_bytes text.old ++ spaced_words (decimal number ∷ [])) }
{
    write!(text, " {number}")?;
    Ok(())
}

/// Adds two numbers with a blank before each.
pub fn add_pair(text: &mut String, first: u64, second: u64) -> Result<(), NoMemory>
    ensures { OnOk result (string_bytes text.new ≡ string_bytes text.old ++ spaced_words (decimal first ∷ decimal second ∷ [])) }
{
    write!(text, " {first} {second}")?;
    Ok(())
}
