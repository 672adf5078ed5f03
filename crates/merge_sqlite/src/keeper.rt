//! A keeper over a SQLite file: one table, three statements that are prepared once, and one
//! transaction for each commit.
ghost use Rattle.std.specs.Prelude.{◌≡◌, codes, false, [], IfErr, IfOk, IsErrOf, IsTrue, None, OnErr, OnOk};
ghost use Rattle.sqlite.specs.Files.{file_state};
ghost use Rattle.sqlite.specs.Held.{state};
ghost use Rattle.sqlite.specs.State.{CommitsShowing, HasCleanDisk, KeepsCommit, Survives};
ghost use Rattle.merge_ports.specs.Faults.{one_more};
ghost use Rattle.merge_ports.specs.Keeping.{HasKeepCause};
ghost use Rattle.merge_ports.specs.declared.keeper.KeepFault.TheVariants.{Failed as failed};
ghost use Rattle.merge_sqlite.specs.Causes.{fault_of, count_after};
ghost use Rattle.merge_sqlite.specs.Keeping.{HasCommitted, HasLoaded};
ghost use Rattle.merge_sqlite.specs.Preparing.{AreStatements};
ghost use Rattle.merge_sqlite.specs.Reading.{FailsToLoad, IsEntry, IsNoEntry, Loads, with_row};
ghost use Rattle.merge_sqlite.specs.Writing.{Commits, FailsToWrite, MayLeave, RunsEdit, Writes};
ghost use Rattle.merge_sqlite.specs.declared.keeper.Stop.TheVariants.{Refused as refused};

use merge_ports::{Entries, EntryEdit, EntryKey, KeepFault, Keeper};
use merge_types::{Listing, NoMemory};
use sqlite::{Alter, Connection, Error, ErrorCode, FileStore, Row, Statement, Transaction, params};
use sqlite_std_file::File;
use std::alloc::Global;

// The only table of a store. A key is a table's number and bytes, which SQLite orders as memcmp does.
const MAKE: &str =
    "CREATE TABLE entry (tab INTEGER NOT NULL CHECK (tab BETWEEN 0 AND 255), k BLOB NOT NULL, v BLOB NOT NULL, PRIMARY KEY (tab, k)) STRICT";

const FOUND: &str = "SELECT sql FROM sqlite_schema WHERE sql IS NOT NULL";

const ALL: &str = "SELECT tab, k, v FROM entry ORDER BY tab, k";

const PUT: &str = "INSERT OR REPLACE INTO entry (tab, k, v) VALUES (?1, ?2, ?3)";

const TAKE: &str = "DELETE FROM entry WHERE tab = ?1 AND k = ?2";

/// Why a call stopped, before the count of faults is raised.
#[derive(Clone, Copy, Debug, PartialEq, Eq)]
pub enum Stop {
    NoMemory,
    /// SQLite refused for another cause.
    Refused,
}

/// A keeper over a SQLite file. It tells nothing of its map.
///
/// Its clauses speak of the database while the disk gives back what was written. That a commit which
/// was answered is synced to the log beside the file, and that each call fails once the disk has
/// failed, is SQLite's and in none of them.
#[derive(Drop)]
pub struct SqliteKeeper<S: Alter> {
    conn: Connection<S>,
    all: Statement,
    put: Statement,
    take: Statement,
    alloc: Global,
    count: u64,
}

impl From<Error> for Stop {
    ghost use Rattle.std.specs.Prelude.{◌≡◌};
    ghost use Rattle.merge_sqlite.specs.Causes.{stop_of};

    ghost from_gives = { λ error stop. stop ≡ stop_of error };

    fn from(error: Error) -> Stop {
        match error {
            Error::SqliteFailure(ErrorCode::OutOfMemory) => Stop::NoMemory,
            _ => Stop::Refused,
        }
    }
}

impl From<NoMemory> for Stop {
    ghost use Rattle.std.specs.Prelude.{◌≡◌};
    ghost use Rattle.merge_sqlite.specs.declared.keeper.Stop.TheVariants.{NoMemory as no_memory};

    ghost from_gives = { λ _ stop. stop ≡ no_memory };

    fn from(_: NoMemory) -> Stop {
        Stop::NoMemory
    }
}

impl SqliteKeeper<FileStore<File>> {
    /// The keeper of the store file at a path, which is made where there is no file. It has no faults.
    ///
    /// `Failed` comes for a file that is no database, for one that has other tables than a store has,
    /// for one that another keeper or process holds, and for a folder in which no file can be made.
    /// The file is left as it is; a log without a commit may be left beside it.
    pub fn open(rt: &HostRuntime, path: &str) -> Result<Self, KeepFault>
        ensures fresh { IfOk result (λ keeper. keeper.count ≡ 0) }
        ensures unlimited { IfOk result (λ keeper. keeper.conn.step_limit ≡ None) }
        ensures idle { IfOk result (λ keeper. keeper.conn.in_transaction ≡ false) }
        ensures statements { IfOk result (λ keeper. HasCleanDisk (file_state keeper.conn) → AreStatements ALL.now PUT.now TAKE.now keeper.all keeper.put keeper.take) }
        ensures memory { path.now ≡ codes ":memory:" → result ≡ Err KeepFault.Failed }
    {
        match opened(rt, path) {
            Ok(keeper) => Ok(keeper),
            Err(Stop::NoMemory) => Err(KeepFault::NoMemory),
            Err(Stop::Refused) => Err(KeepFault::Failed),
        }
    }
}

fn opened(rt: &HostRuntime, path: &str) -> Result<SqliteKeeper<FileStore<File>>, Stop>
    ensures fresh { IfOk result (λ keeper. keeper.count ≡ 0) }
    ensures unlimited { IfOk result (λ keeper. keeper.conn.step_limit ≡ None) }
    ensures idle { IfOk result (λ keeper. keeper.conn.in_transaction ≡ false) }
    ensures statements { IfOk result (λ keeper. HasCleanDisk (file_state keeper.conn) → AreStatements ALL.now PUT.now TAKE.now keeper.all keeper.put keeper.take) }
    ensures memory { path.now ≡ codes ":memory:" → result ≡ Err Stop.Refused }
{
    let mut conn = Connection::open(rt, path)?;
    make_table(&mut conn)?;
    // a batch may begin a transaction, and no clause of SQLite's tells that this one does not
    if !conn.is_autocommit() {
        return Err(Stop::Refused);
    }
    prepared(rt.alloc(), conn)
}

// A keeper with the three statements of a store.
fn prepared<S: Alter + Drop>(alloc: Global, conn: Connection<S>) -> Result<SqliteKeeper<S>, Stop>
    ensures fresh { IfOk result (λ keeper. keeper.count ≡ 0) }
    ensures limit { IfOk result (λ keeper. keeper.conn.step_limit ≡ conn.step_limit) }
    ensures idle { conn.in_transaction ≡ false → IfOk result (λ keeper. keeper.conn.in_transaction ≡ false) }
    ensures statements { IfOk result (λ keeper. HasCleanDisk (state S.Store keeper.conn) → AreStatements ALL.now PUT.now TAKE.now keeper.all keeper.put keeper.take) }
{
    let mut conn = conn;
    let all = conn.prepare(ALL)?;
    let put = conn.prepare(PUT)?;
    let take = conn.prepare(TAKE)?;
    Ok(SqliteKeeper {
        conn,
        all,
        put,
        take,
        alloc,
        count: 0,
    })
}

// Makes the table in an empty database. A database that has anything else is not a store's.
fn make_table<S: Alter>(conn: &mut Connection<S>) -> Result<(), Stop>
    ensures limit { conn.new.step_limit ≡ conn.old.step_limit }
{
    let found = conn.query_all(FOUND, &[])?;
    match found.as_slice() {
        [] => {
            conn.execute_batch(MAKE)?;
            Ok(())
        }
        [table] => {
            let text: String = table.get(0)?;
            if text.as_str() == MAKE {
                Ok(())
            } else {
                Err(Stop::Refused)
            }
        }
        _ => Err(Stop::Refused),
    }
}

fn add_entry(entries: &mut Entries, row: &Row) -> Result<(), Stop>
    ensures entry { OnOk result (IsEntry row.now) }
    ensures ok { OnOk result (entries.new ≡ with_row entries.old row.now) }
    ensures same { OnErr result (entries.new ≡ entries.old) }
    ensures refused { IsErrOf result refused → IsNoEntry row.now }
{
    let table: i64 = row.get(0)?;
    let key: Vec<u8> = row.get(1)?;
    let value: Vec<u8> = row.get(2)?;
    let Ok(table) = u8::try_from(table) else {
        return Err(Stop::Refused);
    };
    let key = EntryKey {
        table,
        key: Listing::new(key),
    };
    entries.insert(key, Listing::new(value))?;
    Ok(())
}

fn read_all<S: Alter>(
    alloc: Global,
    conn: &mut Connection<S>,
    all: &Statement,
) -> Result<Entries, Stop>
    ensures read { HasCleanDisk (state S.Store conn.new) → IfOk result (Loads all.now.text (state S.Store conn.old) (state S.Store conn.new)) }
    ensures err { HasCleanDisk (state S.Store conn.new) → IfErr result (λ stop. FailsToLoad all.now.text (state S.Store conn.old) (state S.Store conn.new) (fault_of stop)) }
    ensures idle { conn.old.in_transaction ≡ false → conn.new.in_transaction ≡ false }
    ensures crash { Survives (state S.Store conn.old) (state S.Store conn.new) (CommitsShowing all.now.text [] (state S.Store conn.old)) }
{
    let mut entries = Entries::empty(alloc);
    let rows = all.query_all(conn, &[])?;
    for row in &rows {
        add_entry(&mut entries, row)?;
    }
    Ok(entries)
}

// Writes one edit within a transaction: it is put where it has a value, and else taken.
fn write_edit<S: Alter>(
    transaction: &mut Transaction<'_, S>,
    put: &Statement,
    take: &Statement,
    edit: &EntryEdit,
) -> Result<(), Error>
    ensures same_reference { transaction.new.conn.ghost_name ≡ transaction.old.conn.ghost_name }
    ensures written { HasCleanDisk (state S.Store transaction.new.conn.now) → IsTrue transaction.old.conn.now.in_transaction → OnOk result (Writes S.Store put.now.text take.now.text edit.now transaction.old.conn.now transaction.new.conn.now) }
    ensures refused { HasCleanDisk (state S.Store transaction.new.conn.now) → IsTrue transaction.old.conn.now.in_transaction → IfErr result (λ e. RunsEdit S.Store put.now.text take.now.text edit.now transaction.old.conn.now transaction.new.conn.now (Err e)) }
    ensures kept { HasCleanDisk (state S.Store transaction.new.conn.now) → IsTrue transaction.old.conn.now.in_transaction → KeepsCommit (state S.Store transaction.old.conn.now) (state S.Store transaction.new.conn.now) }
    ensures survives { Survives (state S.Store transaction.old.conn.now) (state S.Store transaction.new.conn.now) (λ _. ⊥) }
{
    let table = i64::from(edit.table);
    let key = edit.key.as_slice();
    match &edit.value {
        Some(value) => {
            transaction.execute_prepared(put, params![table, key, value.as_slice()])?;
            Ok(())
        }
        None => {
            transaction.execute_prepared(take, params![table, key])?;
            Ok(())
        }
    }
}

// A transaction that is given up is rolled back.
fn write_all<S: Alter>(
    conn: &mut Connection<S>,
    put: &Statement,
    take: &Statement,
    edits: &[EntryEdit],
) -> Result<(), Error>
    requires { conn.old.in_transaction ≡ false }
    ensures done { HasCleanDisk (state S.Store conn.new) → OnOk result (Commits S.Store put.now.text take.now.text edits.now conn.old conn.new) }
    ensures err { HasCleanDisk (state S.Store conn.new) → IfErr result (FailsToWrite S.Store put.now.text take.now.text edits.now conn.old conn.new) }
    ensures undone { HasCleanDisk (state S.Store conn.new) → OnErr result (KeepsCommit (state S.Store conn.old) (state S.Store conn.new)) }
    ensures idle { conn.new.in_transaction ≡ false }
    ensures crash { Survives (state S.Store conn.old) (state S.Store conn.new) (MayLeave S.Store put.now.text take.now.text edits.now conn.old) }
{
    let mut transaction = conn.transaction();
    for edit in edits {
        write_edit(&mut transaction, put, take, edit)?;
    }
    transaction.commit()
}

// Why a call fails. All but want of memory is counted.
fn noted<T: Drop>(count: &mut u64, stop: Stop) -> Result<T, KeepFault>
    ensures fault { result ≡ Err (fault_of stop) }
    ensures count { count.new ≡ count_after stop count.old }
    ensures counted { IsErrOf result failed → count.new ≡ one_more count.old }
    ensures cause { HasKeepCause count.old count.new result }
{
    match stop {
        Stop::NoMemory => Err(KeepFault::NoMemory),
        Stop::Refused => {
            *count = count.saturating_add(1);
            Err(KeepFault::Failed)
        }
    }
}

impl<S: Alter + Drop> Keeper for SqliteKeeper<S> {
    ghost use Rattle.std.specs.Prelude.{None};

    ghost told = { λ k. None };

    ghost count = { λ k. k.count };

    fn load(&mut self) -> Result<Entries, KeepFault>
        ensures cause { HasKeepCause self.old.count self.new.count result }
        ensures counted { IsErrOf result failed → self.new.count ≡ one_more self.old.count }
        ensures loaded { HasLoaded S.Store self.old.all.text self.old.conn self.new.conn result }
        ensures kept { self.new ≡ record self.old { conn = self.new.conn; count = self.new.count } }
    {
        match read_all(self.alloc, &mut self.conn, &self.all) {
            Ok(entries) => Ok(entries),
            Err(stop) => noted(&mut self.count, stop),
        }
    }

    fn commit(&mut self, edits: &[EntryEdit]) -> Result<(), KeepFault>
        ensures cause { HasKeepCause self.old.count self.new.count result }
        ensures counted { IsErrOf result failed → self.new.count ≡ one_more self.old.count }
        ensures committed { HasCommitted S.Store self.old.put.text self.old.take.text edits.now self.old.conn self.new.conn result }
        ensures kept { self.new ≡ record self.old { conn = self.new.conn; count = self.new.count } }
    {
        if !self.conn.is_autocommit() {
            return noted(&mut self.count, Stop::Refused);
        }
        match write_all(&mut self.conn, &self.put, &self.take, edits) {
            Ok(()) => Ok(()),
            Err(error) => noted(&mut self.count, error.into()),
        }
    }

    fn faults(&self) -> u64 {
        self.count
    }
}
