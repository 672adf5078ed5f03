//! Filter texts.
ghost use Rattle.std.specs.Prelude.{◌≡◌, ◌≤◌, ◌⊎◌, length, slice_index_or, Result, Err, IfOk};
ghost use Rattle.merge_filter.specs.Answers.{IsAnswer, IsReading, token_fault, form_fault, name_fault, place_left};
ghost use Rattle.merge_filter.specs.Eval.{width};
ghost use Rattle.merge_filter.specs.Syntax.{Syntax, syntax};

use crate::fault::FilterFault;
use crate::filters::Filter;
use crate::form::{FormFault, Stuck, form};
use crate::names::unknown_name;
use crate::tokens::{TokenFault, Tokens, tokens_of};
use crate::tree::Node;
use crate::types::unlike_sign;
use merge_types::Column;
use std::alloc::Global;

fn token_fault(fault: TokenFault) -> FilterFault
    ensures { result ≡ token_fault fault }
{
    match fault {
        TokenFault::NoMemory => FilterFault::NoMemory,
        TokenFault::BadToken(place) => FilterFault::BadToken { place },
    }
}

// Where the word begins with which so many words are left, or the end of the text.
fn place_left(text: &[u8], places: &[usize], left: usize) -> usize
    ensures { result ≡ place_left text.now places.now left }
{
    match places.get(places.len().saturating_sub(left)) {
        Some(place) => *place,
        None => text.len(),
    }
}

fn form_fault(text: &[u8], places: &[usize], fault: FormFault) -> FilterFault
    ensures { result ≡ form_fault text.now places.now fault }
{
    match fault {
        FormFault::NoMemory => FilterFault::NoMemory,
        FormFault::Stuck(Stuck::BadForm(left)) => FilterFault::BadForm {
            place: place_left(text, places, left),
        },
        FormFault::Stuck(Stuck::TooDeep(_)) => FilterFault::TooDeep,
    }
}

// The fault of names, or else of types.
fn name_fault(columns: &[Column], tokens: &Tokens, node: &Node) -> Option<FilterFault>
    ensures { result ≡ name_fault columns.now tokens.now.words.items tokens.now.places.items (syntax node.now) }
{
    if let Some(index) = unknown_name(columns, &tokens.words) {
        return Some(FilterFault::UnknownColumn {
            place: place_at(&tokens.places, index),
        });
    }
    match unlike_sign(columns, node) {
        Some(place) => Some(FilterFault::TypeMismatch { place }),
        None => None,
    }
}

fn place_at(places: &[usize], index: usize) -> usize
    ensures { result ≡ slice_index_or places.now index 0 }
{
    match places.get(index) {
        Some(place) => *place,
        None => 0,
    }
}

// The filter of the words of a text.
fn filter_of(
    alloc: Global,
    text: &[u8],
    columns: &[Column],
    tokens: &Tokens,
) -> Result<Filter, FilterFault>
    ensures answer { (result ≡ Err FilterFault.NoMemory) ⊎ IsReading text.now columns.now tokens.now.words.items tokens.now.places.items result }
    ensures fits { IfOk result (λ filter. width filter ≤ length columns.now) }
{
    match form(alloc, columns, &tokens.words) {
        Ok(node) => match name_fault(columns, tokens, &node) {
            Some(fault) => Err(fault),
            None => Ok(Filter::new(alloc, node)),
        },
        Err(fault) => Err(form_fault(text, &tokens.places, fault)),
    }
}

/// The filter that a text writes over these columns. All words are read first, then their form
/// and depth in reading order, then the names, then the types; the first fault is answered. The
/// language gives a text one answer, and this is it unless memory ran out.
pub fn parse(alloc: Global, text: &[u8], columns: &[Column]) -> Result<Filter, FilterFault>
    ensures answer { (result ≡ Err FilterFault.NoMemory) ⊎ IsAnswer columns.now text.now result }
    ensures only { (answer : Result Syntax FilterFault) → IsAnswer columns.now text.now answer → (result ≡ Err FilterFault.NoMemory) ⊎ (result ≡ answer) }
    // A row with a value for each column is one that the filter can be evaluated on.
    ensures fits { IfOk result (λ filter. width filter ≤ length columns.now) }
{
    match tokens_of(alloc, text) {
        Ok(tokens) => filter_of(alloc, text, columns, &tokens),
        Err(fault) => Err(token_fault(fault)),
    }
}
