//! Plain decimals.
ghost use Rattle.std.specs.Prelude.{◌≡◌, ◌<◌, ◌^◌, ℕ, List};
ghost use Rattle.std.specs.Fmt.{decimal};
ghost use Rattle.merge_script.specs.Names.{decimal_of};

/// The number of a decimal with no sign and no leading zero, where it fits 64 bits.
pub fn read_decimal(word: &[u8]) -> Option<u64>
    ensures { result ≡ decimal_of word.now }
{
    merge_types::read_decimal(word)
}

/// A word is read as the number that prints as it, and each number of 64 bits is read where it stands.
pub fn decimals_are_read_as_printed()
    ensures read { (n : ℕ) → n < 2 ^ 64 → decimal_of (decimal n) ≡ Some n }
    ensures printed { (word : List ℕ) (n : ℕ) → decimal_of word ≡ Some n → word ≡ decimal n }
{}
