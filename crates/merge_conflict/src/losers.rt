//! The rows that a decided conflict adds to the conflict table.
ghost use Rattle.std.specs.Prelude.{◌≡◌, ◌+◌, ◌<◌, ◌^◌, IfOk, [], ◌∷◌};
ghost use Rattle.merge_conflict.specs.Losers.{update_kind, losing_kind, losing_rows, our_row, their_row};

use crate::{ConflictKind, ConflictRow, ConflictRows, Verdict};
use merge_types::{Moment, NoMemory, RowId, SiteId, Tracking};
use merge_units::{Decision, Version};
use std::alloc::Global;

const PUBLISHER: SiteId = SiteId(0);

/// A conflict of a row: what its losing versions keep of it.
#[derive(Clone, Copy, Debug)]
pub struct Conflict {
    /// The number of the first row that it adds.
    pub number: u64,
    pub article: u8,
    pub row: RowId,
    pub tracking: Tracking,
    /// The site whose version comes in.
    pub site: SiteId,
    pub moment: Moment,
}

/// The rows for the versions that lose by this decision, which is one that counts as it stands.
pub fn losing_rows(
    alloc: Global,
    conflict: &Conflict,
    publisher: &Version,
    incoming: &Version,
    decision: &Decision,
) -> Result<ConflictRows, NoMemory>
    requires { conflict.now.number + 1 < 2 ^ 64 }
    ensures { IfOk result (λ rows. rows ≡ losing_rows conflict.now publisher.now incoming.now decision.now) }
{
    let number = conflict.number;
    let mut rows = ConflictRows::empty(alloc);
    match decision {
        Decision::KeepPublisher => {
            let theirs = their_row(number, conflict, publisher, incoming, Verdict::Publisher)?;
            rows.push(theirs)?;
            Ok(rows)
        }
        Decision::TakeSubscriber => {
            let ours = our_row(number, conflict, publisher, incoming, Verdict::Subscriber)?;
            rows.push(ours)?;
            Ok(rows)
        }
        Decision::Custom(_) => {
            let ours = our_row(number, conflict, publisher, incoming, Verdict::Custom)?;
            let theirs = their_row(number + 1, conflict, publisher, incoming, Verdict::Custom)?;
            rows.push(ours)?;
            rows.push(theirs)?;
            Ok(rows)
        }
    }
}

fn our_row(
    number: u64,
    conflict: &Conflict,
    publisher: &Version,
    incoming: &Version,
    verdict: Verdict,
) -> Result<ConflictRow, NoMemory>
    ensures { IfOk result (λ row. row ≡ our_row number conflict.now publisher.now incoming.now verdict) }
{
    Ok(ConflictRow {
        number,
        article: conflict.article,
        row: conflict.row,
        kind: losing_kind(conflict.tracking, publisher, incoming),
        losing: publisher.clone()?,
        from: PUBLISHER,
        verdict,
        moment: conflict.moment,
    })
}

fn their_row(
    number: u64,
    conflict: &Conflict,
    publisher: &Version,
    incoming: &Version,
    verdict: Verdict,
) -> Result<ConflictRow, NoMemory>
    ensures { IfOk result (λ row. row ≡ their_row number conflict.now publisher.now incoming.now verdict) }
{
    Ok(ConflictRow {
        number,
        article: conflict.article,
        row: conflict.row,
        kind: losing_kind(conflict.tracking, incoming, publisher),
        losing: incoming.clone()?,
        from: conflict.site,
        verdict,
        moment: conflict.moment,
    })
}

// Why a version loses to another.
fn losing_kind(tracking: Tracking, losing: &Version, other: &Version) -> ConflictKind
    ensures { result ≡ losing_kind tracking losing.now other.now }
{
    match (losing.is_live(), other.is_live()) {
        (true, true) => update_kind(tracking),
        (true, false) => ConflictKind::DeleteWins,
        (false, _) => ConflictKind::UpdateWins,
    }
}

fn update_kind(tracking: Tracking) -> ConflictKind
    ensures { result ≡ update_kind tracking }
{
    match tracking {
        Tracking::Row => ConflictKind::RowUpdate,
        Tracking::ByColumn => ConflictKind::ColumnUpdate,
    }
}
