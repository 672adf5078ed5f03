//! Which rows a step moves into partitions and out of them.
ghost use Rattle.std.specs.Prelude.{◌≡◌, ◌≤◌, ◌<◌, ◌++◌, ◌↔◌, Contains, length, OnOk, IfOk};
ghost use Rattle.std.specs.List.Sorted.{IsStrictlySortedBy};
ghost use Rattle.merge_part.specs.declared.change.Move.{Move as OneMove};
ghost use Rattle.merge_part.specs.Draft.{marks_of};
ghost use Rattle.merge_part.specs.Moves.{move_cmp, move_if, moves_from, all_moves};

use crate::change::Move;
use crate::draft::{Held, marks_held};
use crate::sites::Sites;
use merge_gens::MoveKind;
use merge_schema::Subscription;
use merge_table::Table;
use merge_types::{NoMemory, RowKey, SiteId};
use std::alloc::Global;

// Adds the row's move at one site, if it moves there.
fn push_move(
    key: RowKey,
    site: SiteId,
    before: bool,
    after: bool,
    moves: &mut Vec<Move>,
) -> Result<(), NoMemory>
    ensures { OnOk result (moves.new.items ≡ moves.old.items ++ move_if key site before after) }
{
    let kind = match (before, after) {
        (false, true) => MoveKind::Entered,
        (true, false) => MoveKind::Left,
        _ => return Ok(()),
    };
    moves.push(Move {
        article: key.article,
        row: key.row,
        site,
        kind,
    })?;
    Ok(())
}

// Adds the moves of a row that was in the one partitions and is in the others.
fn push_moves(
    key: RowKey,
    subscriptions: &[Subscription],
    before: Sites,
    after: Sites,
    moves: &mut Vec<Move>,
) -> Result<(), NoMemory>
    requires { length subscriptions.now < 64 }
    ensures { OnOk result (moves.new.items ≡ moves.old.items ++ moves_from key 0 subscriptions.now before after) }
{
    for (place, subscription) in subscriptions.iter().enumerate() {
        push_move(
            key,
            subscription.site,
            before.contains(place),
            after.contains(place),
            moves,
        )?;
    }
    Ok(())
}

// The moves of all rows whose marks are drafted.
fn drafted_moves(
    alloc: Global,
    subscriptions: &[Subscription],
    held: &Held,
    drafted: &Table<RowKey, Sites>,
) -> Result<Vec<Move>, NoMemory>
    requires { length subscriptions.now < 64 }
    ensures { IfOk result (λ moves. moves.items ≡ all_moves subscriptions.now (marks_of held.now.marks.rows) drafted.now.rows) }
{
    let mut moves = Vec::new(alloc);
    for (key, after) in drafted.iter() {
        let before = marks_held(&held.marks, key);
        push_moves(*key, subscriptions, before, *after, &mut moves)?;
    }
    Ok(moves)
}

// Sorts the moves, and leaves each once.
fn sort_distinct(moves: &mut Vec<Move>)
    ensures ascending { IsStrictlySortedBy move_cmp moves.new.items }
    ensures same { (one : OneMove) → Contains moves.new.items one ↔ Contains moves.old.items one }
{
    moves.sort_unstable();
    moves.dedup();
}

/// The moves of all rows whose marks are drafted, by article, row and site, each once.
pub fn moves_of(
    alloc: Global,
    subscriptions: &[Subscription],
    held: &Held,
    drafted: &Table<RowKey, Sites>,
) -> Result<Vec<Move>, NoMemory>
    requires { length subscriptions.now < 64 }
    ensures ascending { IfOk result (λ moves. IsStrictlySortedBy move_cmp moves.items) }
    ensures each { IfOk result (λ moves. (one : OneMove) → Contains moves.items one ↔ Contains (all_moves subscriptions.now (marks_of held.now.marks.rows) drafted.now.rows) one) }
{
    let mut moves = drafted_moves(alloc, subscriptions, held, drafted)?;
    sort_distinct(&mut moves);
    Ok(moves)
}
