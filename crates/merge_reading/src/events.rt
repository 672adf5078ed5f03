//! The events, each by the words of its line.
ghost use Rattle.std.specs.Prelude.{◌≡◌, ◌<◌, ◌+◌, ◌-◌, ◌^◌, drop, length, map, option_map};
ghost use Rattle.merge_script.specs.Names.{decimal_of};
ghost use Rattle.merge_model.specs.Script.Literals.{row_of_text};
ghost use Rattle.merge_model.specs.Script.Reading.{delete_in, deliver_in, ends_before, event_in, insert_in, made_out, message_of, name_of, read_at, reader_of, seconds_of, send_in, settings_from, settings_in, show_in, site_event_in, site_of, update_in, wait_in, word_at};
ghost use Rattle.merge_types.specs.declared.SiteId.{SiteId as OneSite};
ghost use Rattle.merge_model.specs.declared.Event.{Event as OneEvent};
ghost use Rattle.merge_reading.specs.Telling.{Tells, TellsSending, TellsOf};

use crate::stop::Stop;
use crate::word::{Sending, is_same, name, row, seconds, sent, setting, site};
use merge_model::{Event, NamedValues};
use merge_script::read_decimal;
use merge_types::{Listing, RowId, SiteId, Words};
use std::alloc::Global;

// The word with this number, counted from 1.
fn word<'a>(words: &[&'a [u8]], number: usize) -> Option<&'a [u8]>
    requires { 0 < number }
    ensures { option_map (λ w. w.now) result ≡ word_at number (map (λ w. w.now) words.now) }
{
    words.get(number - 1).copied()
}

// What a word says, which is wrong where it says nothing.
fn made_out<T: Drop>(number: usize, said: Option<T>) -> Result<T, Stop>
    ensures { Tells result (made_out number said) }
{
    match said {
        Some(said) => Ok(said),
        None => Err(Stop::Wrong(number as u64)),
    }
}

fn seconds_at(words: &[&[u8]], number: usize) -> Result<u32, Stop>
    requires { 0 < number }
    ensures { Tells result (read_at seconds_of number (map (λ w. w.now) words.now)) }
{
    match word(words, number) {
        Some(word) => made_out(number, seconds(word)),
        None => Err(Stop::Wrong(number as u64)),
    }
}

fn site_at(words: &[&[u8]], number: usize) -> Result<SiteId, Stop>
    requires { 0 < number }
    ensures { Tells result (read_at site_of number (map (λ w. w.now) words.now)) }
{
    match word(words, number) {
        Some(word) => made_out(number, site(word)),
        None => Err(Stop::Wrong(number as u64)),
    }
}

fn number_at(words: &[&[u8]], number: usize) -> Result<u64, Stop>
    requires { 0 < number }
    ensures { Tells result (read_at decimal_of number (map (λ w. w.now) words.now)) }
{
    match word(words, number) {
        Some(word) => made_out(number, read_decimal(word)),
        None => Err(Stop::Wrong(number as u64)),
    }
}

fn row_at(words: &[&[u8]], number: usize) -> Result<RowId, Stop>
    requires { 0 < number }
    ensures { Tells result (read_at row_of_text number (map (λ w. w.now) words.now)) }
{
    match word(words, number) {
        Some(word) => made_out(number, row(word)),
        None => Err(Stop::Wrong(number as u64)),
    }
}

fn name_at(alloc: Global, words: &[&[u8]], number: usize) -> Result<Words, Stop>
    requires { 0 < number }
    ensures { Tells result (read_at name_of number (map (λ w. w.now) words.now)) }
{
    match word(words, number) {
        Some(word) => made_out(number, name(alloc, word)?),
        None => Err(Stop::Wrong(number as u64)),
    }
}

// The message, as the event that a site sends it.
fn sending_at(words: &[&[u8]], number: usize) -> Result<Sending, Stop>
    requires { 0 < number }
    ensures { TellsSending result (read_at message_of number (map (λ w. w.now) words.now)) }
{
    match word(words, number) {
        Some(word) => made_out(number, sent(word)),
        None => Err(Stop::Wrong(number as u64)),
    }
}

// The event, where no word has this number.
fn ends_before(words: &[&[u8]], number: usize, event: Event) -> Result<Event, Stop>
    ensures { Tells result (ends_before number (map (λ w. w.now) words.now) event) }
{
    if words.len() < number {
        Ok(event)
    } else {
        Err(Stop::Wrong(number as u64))
    }
}

// The words from the one with this number on.
fn words_from<'a, 'b>(words: &'b [&'a [u8]], number: usize) -> &'b [&'a [u8]]
    requires { 0 < number }
    ensures { map (λ w. w.now) result.now ≡ drop (number - 1) (map (λ w. w.now) words.now) }
{
    if words.len() < number {
        return &[];
    }
    &words[number - 1..]
}

// The columns and values of words, of which the first has this number.
fn settings_in(alloc: Global, number: u64, words: &[&[u8]]) -> Result<NamedValues, Stop>
    requires { number + length words.now < 2 ^ 64 }
    ensures { Tells result (settings_in number (map (λ w. w.now) words.now)) }
{
    let mut settings = Listing::empty(alloc);
    let mut at = number;
    let mut rest = words;
    while let [word, more @ ..] = rest {
        match setting(alloc, word)? {
            Some(setting) => settings.push(setting)?,
            None => return Err(Stop::Wrong(at)),
        }
        at += 1;
        rest = more;
    }
    Ok(settings)
}

// The columns and values from the word with this number on.
fn settings_from(alloc: Global, words: &[&[u8]], number: usize) -> Result<NamedValues, Stop>
    requires from_one { 0 < number }
    requires fits { number < 64 }
    ensures { Tells result (settings_from number (map (λ w. w.now) words.now)) }
{
    settings_in(alloc, number as u64, words_from(words, number))
}

fn wait(words: &[&[u8]]) -> Result<Event, Stop>
    ensures { Tells result (wait_in (map (λ w. w.now) words.now)) }
{
    let seconds = seconds_at(words, 2)?;
    ends_before(words, 3, Event::Wait(seconds))
}

fn insert(alloc: Global, words: &[&[u8]]) -> Result<Event, Stop>
    ensures { Tells result (insert_in (map (λ w. w.now) words.now)) }
{
    let site = site_at(words, 2)?;
    let article = name_at(alloc, words, 3)?;
    let values = settings_from(alloc, words, 4)?;
    Ok(Event::Insert {
        site,
        article,
        values,
    })
}

fn update(alloc: Global, words: &[&[u8]]) -> Result<Event, Stop>
    ensures { Tells result (update_in (map (λ w. w.now) words.now)) }
{
    let site = site_at(words, 2)?;
    let article = name_at(alloc, words, 3)?;
    let row = row_at(words, 4)?;
    if words.len() < 5 {
        return Err(Stop::Wrong(5));
    }
    let values = settings_from(alloc, words, 5)?;
    Ok(Event::Update {
        site,
        article,
        row,
        values,
    })
}

fn delete(alloc: Global, words: &[&[u8]]) -> Result<Event, Stop>
    ensures { Tells result (delete_in (map (λ w. w.now) words.now)) }
{
    let site = site_at(words, 2)?;
    let article = name_at(alloc, words, 3)?;
    let row = row_at(words, 4)?;
    ends_before(words, 5, Event::Delete { site, article, row })
}

fn send(words: &[&[u8]]) -> Result<Event, Stop>
    ensures { Tells result (send_in (map (λ w. w.now) words.now)) }
{
    let site = site_at(words, 2)?;
    let message = sending_at(words, 3)?;
    ends_before(words, 4, message.by(site))
}

fn deliver(words: &[&[u8]]) -> Result<Event, Stop>
    ensures { Tells result (deliver_in (map (λ w. w.now) words.now)) }
{
    let message = number_at(words, 2)?;
    ends_before(words, 3, Event::Deliver(message))
}

fn show(alloc: Global, words: &[&[u8]]) -> Result<Event, Stop>
    ensures { Tells result (show_in (map (λ w. w.now) words.now)) }
{
    let site = site_at(words, 2)?;
    let article = name_at(alloc, words, 3)?;
    ends_before(words, 4, Event::Show { site, article })
}

// The site of an event of a site alone.
fn site_alone(words: &[&[u8]]) -> Result<SiteId, Stop>
    ensures { (event : OneSite → OneEvent) → TellsOf event result (site_event_in event (map (λ w. w.now) words.now)) }
{
    let site = site_at(words, 2)?;
    if words.len() < 3 {
        Ok(site)
    } else {
        Err(Stop::Wrong(3))
    }
}

// The event whose first word is this.
fn named(alloc: Global, first: &[u8], words: &[&[u8]]) -> Result<Event, Stop>
    ensures { Tells result (reader_of first.now (map (λ w. w.now) words.now)) }
{
    if is_same(first, b"wait") {
        return wait(words);
    }
    if is_same(first, b"insert") {
        return insert(alloc, words);
    }
    if is_same(first, b"update") {
        return update(alloc, words);
    }
    if is_same(first, b"delete") {
        return delete(alloc, words);
    }
    if is_same(first, b"close") {
        return Ok(Event::Close(site_alone(words)?));
    }
    if is_same(first, b"sync") {
        return Ok(Event::Sync(site_alone(words)?));
    }
    if is_same(first, b"send") {
        return send(words);
    }
    if is_same(first, b"deliver") {
        return deliver(words);
    }
    if is_same(first, b"reinit") {
        return Ok(Event::Reinit(site_alone(words)?));
    }
    if is_same(first, b"purge") {
        return ends_before(words, 2, Event::Purge);
    }
    if is_same(first, b"restart") {
        return Ok(Event::Restart(site_alone(words)?));
    }
    if is_same(first, b"show") {
        return show(alloc, words);
    }
    if is_same(first, b"partition") {
        return Ok(Event::Partition(site_alone(words)?));
    }
    if is_same(first, b"conflicts") {
        return Ok(Event::Conflicts(site_alone(words)?));
    }
    if is_same(first, b"ranges") {
        return Ok(Event::Ranges(site_alone(words)?));
    }
    if is_same(first, b"generations") {
        return Ok(Event::Generations(site_alone(words)?));
    }
    if is_same(first, b"count") {
        return Ok(Event::Count(site_alone(words)?));
    }
    Err(Stop::Wrong(1))
}

/// The event that words are, or the number of the first wrong one.
pub fn event(alloc: Global, words: &[&[u8]]) -> Result<Event, Stop>
    ensures { Tells result (event_in (map (λ w. w.now) words.now)) }
{
    match words {
        [] => Err(Stop::Wrong(1)),
        [first, ..] => named(alloc, first, words),
    }
}
