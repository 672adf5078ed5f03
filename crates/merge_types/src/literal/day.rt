//! Days as dates.
ghost use Rattle.std.specs.Prelude.{◌≡◌, ℕ, ℤ, ◌+◌, ◌*◌, ◌<◌, [], ◌∷◌, ◌++◌, IfOk, IfSome, IfNone, OnOk, string_bytes};
ghost use Rattle.merge_types.specs.Day.{IsDay, IsDateOf, IsDayText, year_of, month_of, date_of, two_digits, date_text, day_text};

use crate::{NoMemory, Words};
use jiff_core::civil::Date;
use std::alloc::{AllocError, Global};

/// The date of a day, as YYYY-MM-DD.
pub fn print(alloc: Global, day: i32) -> Result<Words, NoMemory>
    requires { IsDay day }
    ensures { IfOk result (λ words. words ≡ day_text day) }
{
    let (year, month, date) = civil_of(day);
    print_date(alloc, year, month, date)
}

// The year, the month and the day of the month.
fn civil_of(day: i32) -> (u16, u8, u8)
    requires { IsDay day }
    ensures date { (result.0 ≡ year_of day) × (result.1 ≡ month_of day) × (result.2 ≡ date_of day) }
    ensures within { (result.0 < 10000) × (result.1 < 100) × (result.2 < 100) }
{
    match Date::from_unix_epoch_day(day as i64) {
        Ok(date) => (date.year as u16, date.month, date.day),
        Err(_) => unreachable!(),
    }
}

fn print_date(alloc: Global, year: u16, month: u8, date: u8) -> Result<Words, NoMemory>
    requires year_in { year < 10000 }
    requires month_in { month < 100 }
    requires date_in { date < 100 }
    ensures { IfOk result (λ words. words ≡ date_text year month date) }
{
    let mut out = String::new(alloc);
    push_two(&mut out, (year / 100) as u8)?;
    push_two(&mut out, (year % 100) as u8)?;
    out.push('-')?;
    push_two(&mut out, month)?;
    out.push('-')?;
    push_two(&mut out, date)?;
    Ok(Words::new(out))
}

fn push_two(out: &mut String, number: u8) -> Result<(), AllocError>
    requires { number < 100 }
    ensures { OnOk result (string_bytes out.new ≡ string_bytes out.old ++ two_digits number) }
{
    out.push((b'0' + number / 10) as char)?;
    out.push((b'0' + number % 10) as char)
}

/// The day of a date that is written as YYYY-MM-DD.
pub fn read_day(text: &[u8]) -> Option<i32>
    ensures some { IfSome result (IsDayText text.now) }
    ensures none { IfNone result ((day : ℤ) → IsDayText text.now day → ⊥) }
{
    let [a, b, c, d, b'-', e, f, b'-', g, h] = text else {
        return None;
    };
    let century = two_of(*a, *b)?;
    let year = two_of(*c, *d)?;
    let month = two_of(*e, *f)?;
    let date = two_of(*g, *h)?;
    day_of(century, year, month, date)
}

// The number that two digits write.
fn two_of(tens: u8, units: u8) -> Option<u8>
    ensures some { IfSome result (λ number. (number < 100) × (two_digits number ≡ tens ∷ units ∷ [])) }
    ensures none { IfNone result ((number : ℕ) → number < 100 → two_digits number ≡ tens ∷ units ∷ [] → ⊥) }
{
    if !tens.is_ascii_digit() || !units.is_ascii_digit() {
        return None;
    }
    Some((tens - b'0') * 10 + (units - b'0'))
}

// The day of a date whose year comes as two pairs of digits.
fn day_of(century: u8, year: u8, month: u8, date: u8) -> Option<i32>
    requires century_in { century < 100 }
    requires year_in { year < 100 }
    requires month_in { month < 100 }
    requires date_in { date < 100 }
    ensures some { IfSome result (IsDateOf (century * 100 + year) month date) }
    ensures none { IfNone result ((day : ℤ) → IsDateOf (century * 100 + year) month date day → ⊥) }
{
    let year = century as u16 * 100 + year as u16;
    if year == 0 {
        return None;
    }
    match Date::new(year as i16, month as i8, date as i8) {
        Ok(date) => Some(date.to_unix_epoch_day()),
        Err(_) => None,
    }
}
