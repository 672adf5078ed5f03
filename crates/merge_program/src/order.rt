//! What the words of `serve` say.
ghost use Rattle.std.specs.Prelude.{◌≡◌, ◌≢◌, ◌≤◌, IfOk, IfSome, None, OnErr};
ghost use Rattle.merge_program.specs.Orders.{order_by, order_of, requests_of, workers_of};

use crate::command::{is_address, is_dashed};
use merge_script::read_decimal;
use merge_types::{NoMemory, Words};

/// The most workers of a publisher.
pub const MOST_WORKERS: u64 = 16;

/// The most requests that a publisher serves in one run.
pub const MOST_REQUESTS: u64 = 1_000_000;

/// What a publisher is told to serve.
#[derive(Debug, Drop)]
pub struct Order {
    /// The path of the publication's file.
    pub publication: Words,
    /// The path of the publisher's store.
    pub store: Words,
    /// Where subscribers reach it, as `HOST:PORT`.
    pub address: Words,
    pub workers: u16,
    /// How many requests are served.
    pub requests: u64,
}

// A number of workers: a plain decimal from 1 to the most.
fn workers(word: &[u8]) -> Option<u16>
    ensures { result ≡ workers_of word.now }
{
    match read_decimal(word) {
        Some(number) if 1 <= number && number <= MOST_WORKERS => Some(number as u16),
        _ => None,
    }
}

// A number of requests: a plain decimal from 1 to the most.
fn requests(word: &[u8]) -> Option<u64>
    ensures { result ≡ requests_of word.now }
{
    match read_decimal(word) {
        Some(number) if 1 <= number && number <= MOST_REQUESTS => Some(number),
        _ => None,
    }
}

// The order that paths, an address and two numbers are.
fn order_by(
    publication: &Words,
    store: &Words,
    address: &Words,
    workers_word: &Words,
    requests_word: &Words,
) -> Result<Option<Order>, NoMemory>
    ensures ok { IfOk result (λ order. order ≡ order_by publication.now store.now address.now workers_word.now requests_word.now) }
    ensures err { OnErr result (order_by publication.now store.now address.now workers_word.now requests_word.now ≢ None) }
{
    if is_dashed(publication) || is_dashed(store) || is_dashed(address) || !is_address(address) {
        return Ok(None);
    }
    let Some(workers) = workers(workers_word.as_str().as_bytes()) else {
        return Ok(None);
    };
    let Some(requests) = requests(requests_word.as_str().as_bytes()) else {
        return Ok(None);
    };
    Ok(Some(Order {
        publication: publication.clone()?,
        store: store.clone()?,
        address: address.clone()?,
        workers,
        requests,
    }))
}

/// What the words say that tell a publisher to serve: `serve`, a publication's path, a store's path,
/// an address, a number of workers and one of requests. None where they say something else. Memory is
/// only wanting for words that say it.
pub fn order_of(words: &[Words]) -> Result<Option<Order>, NoMemory>
    ensures ok { IfOk result (λ order. order ≡ order_of words.now) }
    ensures err { OnErr result (order_of words.now ≢ None) }
{
    match words {
        [word, publication, store, address, workers, requests] if word.as_str() == "serve" => {
            order_by(publication, store, address, workers, requests)
        }
        _ => Ok(None),
    }
}
