//! What commits leave, which files are refused, and that the holder of one goes on.
mod commits;

use crate::same::{same, same_in};
use merge_ports::{EntryEdit, KeepFault, Keeper};
use merge_sqlite::SqliteKeeper;
use merge_types::{Listing, Octets};
use sqlite::Connection;
use std::alloc::{AllocError, Global};
use std::fs;
use std::test::Fail;

fn octets(alloc: Global, bytes: &[u8]) -> Result<Octets, AllocError> {
    Ok(Listing::new(bytes.to_vec(alloc)?))
}

// An edit of one entry: its table, its key, and its value or none.
type Told<'a> = (u8, &'a [u8], Option<&'a [u8]>);

fn edit_of(alloc: Global, told: &Told<'_>) -> Result<EntryEdit, AllocError> {
    let (table, key, value) = *told;
    let value = match value {
        Some(bytes) => Some(octets(alloc, bytes)?),
        None => None,
    };
    Ok(EntryEdit {
        table,
        key: octets(alloc, key)?,
        value,
    })
}

fn edits_of(alloc: Global, told: &[Told<'_>]) -> Result<Vec<EntryEdit>, AllocError> {
    let mut edits = Vec::new(alloc);
    for one in told {
        edits.push(edit_of(alloc, one)?)?;
    }
    Ok(edits)
}

// What an earlier run left is taken away.
fn clear(rt: &HostRuntime, names: &[&str]) {
    for name in names {
        let _ = fs::remove_file(rt, *name);
    }
}

type Entry<'a> = (u8, &'a [u8], &'a [u8]);

// Whether the keeper loads these entries and no others.
fn holds<K: Keeper>(keeper: &mut K, wanted: &[Entry<'_>]) -> Result<bool, KeepFault> {
    let entries = keeper.load()?;
    let mut same = entries.len() == wanted.len();
    for ((key, value), want) in entries.iter().zip(wanted) {
        let (table, bytes, kept) = *want;
        same = same && key.table == table;
        same = same && key.key.as_slice() == bytes && value.as_slice() == kept;
    }
    Ok(same)
}

// A database with a table of another kind.
fn make_others(rt: &HostRuntime, name: &str) -> Result<(), sqlite::Error> {
    let mut other = Connection::open(rt, name)?;
    other.execute_batch("CREATE TABLE note (id INTEGER PRIMARY KEY) STRICT")?;
    other.close()
}

#[test]
fn what_is_no_store_is_refused_and_stays(rt: HostRuntime) -> Result<(), Fail> {
    clear(&rt, &["text.db", "others.db", "others.db-wal"]);
    fs::write(
        &rt,
        "text.db",
        "no database at all, but a text of some length",
    )?;
    assert!(rt; make_others(&rt, "others.db").is_ok());
    for name in ["text.db", "others.db"] {
        let before = fs::read(&rt, name)?;
        let fault = SqliteKeeper::open(&rt, name).err();
        same_in(&rt, &fault, &Some(KeepFault::Failed), &name);
        assert!(rt;
            fs::read(&rt, name)?.as_slice() == before.as_slice(),
            "{name}"
        );
    }
    let fault = SqliteKeeper::open(&rt, "no-such-folder/store.db").err();
    same(&rt, &fault, &Some(KeepFault::Failed));
    Ok(())
}

#[test]
fn a_store_that_is_held_is_refused_and_its_holder_goes_on(rt: HostRuntime) -> Result<(), Fail> {
    clear(&rt, &["held.db", "held.db-wal"]);
    let edits = edits_of(rt.alloc(), &[(3, &[3], Some(&[33]))])?;
    let mut holder = SqliteKeeper::open(&rt, "held.db")?;
    let fault = SqliteKeeper::open(&rt, "held.db").err();
    same(&rt, &fault, &Some(KeepFault::Failed));
    holder.commit(&edits)?;
    assert!(rt; holds(&mut holder, &[(3, &[3], &[33])])?);
    same(&rt, &holder.faults(), &0);
    Ok(())
}
