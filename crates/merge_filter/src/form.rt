//! Words as trees.
ghost use Rattle.std.specs.Prelude.{◌≡◌, ◌<◌, List, [], length, option_map, IfOk, IfErr, OnOk};
ghost use Rattle.merge_filter.specs.Syntax.{Syntax, syntax, And, Or};
ghost use Rattle.merge_filter.specs.Form.{Gives, bit_of, bit_at, operand_at, sign_at, atom_at, neg_at, conj_of, filter_of, behind_and, behind_or, behind_not, behind_open, behind_close, all_of};

use crate::names::column_of;
use crate::tree::{Node, Operand};
use crate::word::Word;
use merge_types::{Column, Value};
use std::alloc::{AllocError, AllocFailed, Global};

/// Why words are no filter.
#[derive(Clone, Copy, Debug, PartialEq, Eq)]
pub enum Stuck {
    /// No filter goes on with the first of the last so many words.
    BadForm(usize),
    /// The first of the last so many words opens one level too many.
    TooDeep(usize),
}

/// Why no tree was made of words.
#[derive(Debug, Drop)]
pub enum FormFault {
    NoMemory,
    Stuck(Stuck),
}

impl From<AllocError> for FormFault {
    ghost use Rattle.merge_filter.specs.declared.form.FormFault.TheVariants.{NoMemory};
    ghost use Rattle.std.specs.Prelude.{◌≡◌};

    ghost from_gives = { λ _ e. e ≡ NoMemory };

    fn from(_: AllocError) -> FormFault {
        FormFault::NoMemory
    }
}

impl<T: Drop> From<AllocFailed<T>> for FormFault {
    ghost use Rattle.merge_filter.specs.declared.form.FormFault.TheVariants.{NoMemory};
    ghost use Rattle.std.specs.Prelude.{◌≡◌};

    ghost from_gives = { λ _ e. e ≡ NoMemory };

    fn from(_: AllocFailed<T>) -> FormFault {
        FormFault::NoMemory
    }
}

fn bad_form(words: &[Word]) -> FormFault
    ensures { result ≡ FormFault.Stuck (Stuck.BadForm (length words.now)) }
{
    FormFault::Stuck(Stuck::BadForm(words.len()))
}

fn too_deep(words: &[Word]) -> FormFault
    ensures { result ≡ FormFault.Stuck (Stuck.TooDeep (length words.now)) }
{
    FormFault::Stuck(Stuck::TooDeep(words.len()))
}

fn bit_of(number: i64) -> Option<bool>
    ensures { result ≡ bit_of number }
{
    match number {
        0 => Some(false),
        1 => Some(true),
        _ => None,
    }
}

#[tactic(auto, unfolding(crate::specs::Form::bit_at))]
fn bit(words: &[Word]) -> Result<(Operand, &[Word]), FormFault>
    ensures { Gives (λ x. (x.0, x.1.now)) result (bit_at words.now) }
{
    match words {
        [Word::Int(number), rest @ ..] => match bit_of(*number) {
            Some(bit) => Ok((Operand::Literal(Value::Bit(bit)), rest)),
            None => Err(bad_form(words)),
        },
        _ => Err(bad_form(words)),
    }
}

#[tactic(auto, unfolding(crate::specs::Form::operand_at))]
fn operand<'a>(columns: &[Column], words: &'a [Word]) -> Result<(Operand, &'a [Word]), FormFault>
    ensures { Gives (λ x. (x.0, x.1.now)) result (operand_at columns.now words.now) }
{
    match words {
        [Word::Name(name), rest @ ..] => {
            Ok((Operand::Column(column_of(columns, name.as_slice())), rest))
        }
        [Word::HostName, Word::Open, Word::Close, rest @ ..] => Ok((Operand::Host, rest)),
        [Word::HostName, Word::Open, rest @ ..] => Err(bad_form(rest)),
        [Word::HostName, rest @ ..] => Err(bad_form(rest)),
        [Word::Int(number), rest @ ..] => Ok((Operand::Literal(Value::Int(*number)), rest)),
        [Word::Text(text, _, _), rest @ ..] => {
            Ok((Operand::Literal(Value::Text(text.clone()?)), rest))
        }
        [Word::Bytes(bytes), rest @ ..] => {
            Ok((Operand::Literal(Value::Bytes(bytes.clone()?)), rest))
        }
        [Word::Date, Word::Text(_, Some(day), _), rest @ ..] => {
            Ok((Operand::Literal(Value::Day(*day)), rest))
        }
        [Word::Date, rest @ ..] => Err(bad_form(rest)),
        [Word::Guid, Word::Text(_, _, Some(guid)), rest @ ..] => {
            Ok((Operand::Literal(Value::Guid(*guid)), rest))
        }
        [Word::Guid, rest @ ..] => Err(bad_form(rest)),
        [Word::Bit, rest @ ..] => bit(rest),
        _ => Err(bad_form(words)),
    }
}

#[tactic(auto, unfolding(crate::specs::Form::sign_at))]
fn compared<'a>(
    columns: &[Column],
    left: Operand,
    words: &'a [Word],
) -> Result<(Node, &'a [Word]), FormFault>
    ensures { Gives (λ x. (syntax x.0, x.1.now)) result (sign_at columns.now left words.now) }
{
    match words {
        [Word::Sign(sign, place), rest @ ..] => {
            let (right, rest) = operand(columns, rest)?;
            Ok((Node::Compare(left, *sign, *place, right), rest))
        }
        _ => Err(bad_form(words)),
    }
}

#[tactic(auto, unfolding(crate::specs::Form::atom_at))]
fn atom<'a>(columns: &[Column], words: &'a [Word]) -> Result<(Node, &'a [Word]), FormFault>
    ensures { Gives (λ x. (syntax x.0, x.1.now)) result (atom_at columns.now words.now) }
{
    match words {
        [Word::Name(name), Word::Is, Word::Null, rest @ ..] => {
            Ok((Node::IsNull(column_of(columns, name.as_slice())), rest))
        }
        [Word::Name(name), Word::Is, Word::Not, Word::Null, rest @ ..] => {
            Ok((Node::IsNotNull(column_of(columns, name.as_slice())), rest))
        }
        [Word::Name(_), Word::Is, Word::Not, rest @ ..] => Err(bad_form(rest)),
        [Word::Name(_), Word::Is, rest @ ..] => Err(bad_form(rest)),
        _ => {
            let (left, rest) = operand(columns, words)?;
            compared(columns, left, rest)
        }
    }
}

// Two parts and the AND between them.
fn and(alloc: Global, left: Node, right: Node) -> Result<Node, FormFault>
    ensures { Gives syntax result (Ok (And (syntax left) (syntax right))) }
{
    Ok(Node::And(Box::new(alloc, left)?, Box::new(alloc, right)?))
}

// Two parts and the OR between them.
fn or(alloc: Global, left: Node, right: Node) -> Result<Node, FormFault>
    ensures { Gives syntax result (Ok (Or (syntax left) (syntax right))) }
{
    Ok(Node::Or(Box::new(alloc, left)?, Box::new(alloc, right)?))
}

#[tactic(auto, unfolding(crate::specs::Form::behind_and))]
fn behind_and(words: &[Word]) -> Option<&[Word]>
    ensures { behind_and words.now ≡ option_map (λ x. x.now) result }
{
    match words {
        [Word::And, rest @ ..] => Some(rest),
        _ => None,
    }
}

#[tactic(auto, unfolding(crate::specs::Form::behind_or))]
fn behind_or(words: &[Word]) -> Option<&[Word]>
    ensures { behind_or words.now ≡ option_map (λ x. x.now) result }
{
    match words {
        [Word::Or, rest @ ..] => Some(rest),
        _ => None,
    }
}

#[tactic(auto, unfolding(crate::specs::Form::behind_not))]
fn behind_not(words: &[Word]) -> Option<&[Word]>
    ensures { behind_not words.now ≡ option_map (λ x. x.now) result }
{
    match words {
        [Word::Not, rest @ ..] => Some(rest),
        _ => None,
    }
}

#[tactic(auto, unfolding(crate::specs::Form::behind_open))]
fn behind_open(words: &[Word]) -> Option<&[Word]>
    ensures { behind_open words.now ≡ option_map (λ x. x.now) result }
{
    match words {
        [Word::Open, rest @ ..] => Some(rest),
        _ => None,
    }
}

#[tactic(auto, unfolding(crate::specs::Form::behind_close))]
fn behind_close(words: &[Word]) -> Result<&[Word], FormFault>
    ensures { Gives (λ x. x.now) result (behind_close words.now) }
{
    match words {
        [Word::Close, rest @ ..] => Ok(rest),
        _ => Err(bad_form(words)),
    }
}

#[cycle(parser)]
#[tactic(auto, unfolding(crate::specs::Form::neg_with))]
fn neg<'a>(
    alloc: Global,
    columns: &[Column],
    levels: u8,
    words: &'a [Word],
) -> Result<(Node, &'a [Word]), FormFault>
    ensures { Gives (λ x. (syntax x.0, x.1.now)) result (neg_at columns.now levels words.now) }
{
    if let Some(after) = behind_not(words) {
        if levels == 0 {
            return Err(too_deep(words));
        }
        let (inner, rest) = neg(alloc, columns, levels - 1, after)?;
        return Ok((Node::Not(Box::new(alloc, inner)?), rest));
    }
    if let Some(after) = behind_open(words) {
        if levels == 0 {
            return Err(too_deep(words));
        }
        let (inner, rest) = filter(alloc, columns, levels - 1, after)?;
        let rest = behind_close(rest)?;
        return Ok((inner, rest));
    }
    atom(columns, words)
}

#[cycle(parser)]
#[tactic(auto, unfolding(crate::specs::Form::conj_of))]
fn conj<'a>(
    alloc: Global,
    columns: &[Column],
    levels: u8,
    words: &'a [Word],
) -> Result<(Node, &'a [Word]), FormFault>
    ensures { Gives (λ x. (syntax x.0, x.1.now)) result (conj_of (neg_at columns.now levels) words.now) }
{
    let (mut left, mut rest) = neg(alloc, columns, levels, words)?;
    for _ in 0..u64::MAX {
        match behind_and(rest) {
            Some(after) => {
                let (right, behind) = neg(alloc, columns, levels, after)?;
                left = and(alloc, left, right)?;
                rest = behind;
            }
            None => return Ok((left, rest)),
        }
    }
    Ok((left, rest))
}

#[cycle(parser)]
#[tactic(auto, unfolding(crate::specs::Form::filter_of))]
fn filter<'a>(
    alloc: Global,
    columns: &[Column],
    levels: u8,
    words: &'a [Word],
) -> Result<(Node, &'a [Word]), FormFault>
    ensures { Gives (λ x. (syntax x.0, x.1.now)) result (filter_of (neg_at columns.now levels) words.now) }
{
    let (mut left, mut rest) = conj(alloc, columns, levels, words)?;
    for _ in 0..u64::MAX {
        match behind_or(rest) {
            Some(after) => {
                let (right, behind) = conj(alloc, columns, levels, after)?;
                left = or(alloc, left, right)?;
                rest = behind;
            }
            None => return Ok((left, rest)),
        }
    }
    Ok((left, rest))
}

// Whether no words are left.
fn ended(words: &[Word]) -> Result<(), FormFault>
    ensures ok { OnOk result (words.now ≡ []) }
    ensures err { IfErr result (λ e. (e ≡ FormFault.Stuck (Stuck.BadForm (length words.now))) × (0 < length words.now)) }
{
    match words {
        [] => Ok(()),
        _ => Err(bad_form(words)),
    }
}

/// The tree of the words, in which at most 32 levels are open.
#[tactic(auto, unfolding(crate::specs::Form::all_of))]
pub fn form(alloc: Global, columns: &[Column], words: &[Word]) -> Result<Node, FormFault>
    ensures { Gives syntax result (all_of columns.now 32 words.now) }
{
    let (node, rest) = filter(alloc, columns, 32, words)?;
    ended(rest)?;
    Ok(node)
}
