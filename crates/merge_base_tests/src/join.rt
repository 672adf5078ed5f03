//! The happy path of each call.
use crate::same::same;
use merge_join::{JoinChange, JoinEntry, JoinIndex};
use merge_table::Edit;
use merge_types::{NoMemory, RowId, Value, Words};
use std::alloc::Global;
use std::test::Fail;

fn entry(join: usize, value: Value, child: u128) -> JoinEntry {
    JoinEntry {
        value,
        join,
        child: RowId(child),
    }
}

fn text(alloc: Global, text: &str) -> Result<Value, NoMemory> {
    Ok(Value::Text(Words::of(alloc, text)?))
}

// The children of a value by a small number of a join.
fn children(
    alloc: Global,
    index: &JoinIndex,
    join: u8,
    value: &Value,
) -> Result<Vec<RowId>, NoMemory> {
    let mut children = Vec::new(alloc);
    for (entry, _) in index.children_of(join as usize, value)? {
        children.push(entry.child)?;
    }
    Ok(children)
}

// Children stand by row, each once, under their join and value.
#[test]
fn children_stand_by_row(rt: HostRuntime) -> Result<(), Fail> {
    let alloc = rt.alloc();
    let mut index = JoinIndex::new(alloc);
    index.insert(entry(1, Value::Int(10), 7))?;
    index.insert(entry(1, Value::Int(10), 3))?;
    index.insert(entry(1, Value::Int(10), 3))?;
    index.insert(entry(2, Value::Int(10), 5))?;
    let found = children(alloc, &index, 1, &Value::Int(10))?;
    assert!(rt; found.as_slice() == [RowId(3), RowId(7)].as_slice());
    same(&rt, &index.len(), &3);
    assert!(rt; index.iter().next().is_some());
    Ok(())
}

// A child that is taken out is found no more.
#[test]
fn removed_children_are_gone(rt: HostRuntime) -> Result<(), Fail> {
    let alloc = rt.alloc();
    let mut index = JoinIndex::new(alloc);
    index.insert(entry(1, Value::Bit(true), 6))?;
    index.remove(&entry(1, Value::Bit(true), 6));
    index.remove(&entry(1, Value::Bit(true), 6));
    same(&rt, &index.len(), &0);
    Ok(())
}

// Texts are told apart, however long they are.
#[test]
fn texts_are_told_apart(rt: HostRuntime) -> Result<(), Fail> {
    let alloc = rt.alloc();
    let mut index = JoinIndex::new(alloc);
    index.insert(entry(0, text(alloc, "a text of more than sixteen bytes")?, 2))?;
    index.insert(entry(0, text(alloc, "a text of more than sixteen BYTES")?, 3))?;
    let value = text(alloc, "a text of more than sixteen BYTES")?;
    let found = children(alloc, &index, 0, &value)?;
    assert!(rt; found.as_slice() == [RowId(3)].as_slice());
    Ok(())
}

// Changes are made in two calls, and the first of these shows nothing.
#[test]
fn changes_are_prepared_and_settled(rt: HostRuntime) -> Result<(), Fail> {
    let mut index = JoinIndex::new(rt.alloc());
    index.insert(entry(1, Value::Int(10), 3))?;
    let mut changes: Vec<JoinChange> = Vec::new(rt.alloc());
    changes.push(Edit::Put(entry(1, Value::Int(10), 2), ()))?;
    changes.push(Edit::Take(entry(1, Value::Int(10), 3)))?;
    changes.push(Edit::Put(entry(1, Value::Int(11), 3), ()))?;
    index.prepare(changes.as_slice())?;
    same(&rt, &index.len(), &1);
    index.settle(changes);
    same(&rt, &index.len(), &2);
    index.sweep_if_due();
    same(&rt, &index.len(), &2);
    same(&rt, &index.is_empty(), &false);
    Ok(())
}
