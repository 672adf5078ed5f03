use crate::same::same;
use merge_table::{Edit, RowTest, Rows, Table};
use merge_types::{Octets, RowId, RowKey, Value};
use std::alloc::{AllocError, Global};
use std::test::Fail;

// A shelf, and a place on it.
type Place = (u8, u16);

fn stock(alloc: Global, rows: &[(Place, u32)]) -> Result<Table<Place, u32>, AllocError> {
    let mut table = Table::new(alloc);
    for (place, count) in rows {
        table.insert(*place, *count)?;
    }
    Ok(table)
}

fn listed(alloc: Global, rows: Rows<'_, Place, u32>) -> Result<Vec<(Place, u32)>, AllocError> {
    let mut list = Vec::new(alloc);
    for (place, count) in rows {
        list.push((*place, *count))?;
    }
    Ok(list)
}

#[test]
fn a_row_goes_into_room(rt: HostRuntime) -> Result<(), Fail> {
    let mut table: Table<Place, u32> = Table::new(rt.alloc());
    assert!(rt; !table.has_room(&(1, 7)));
    table.make_room((1, 7))?;
    table.make_room((1, 7))?;
    same(&rt, &(table.len(), table.spare()), &(0, 1));
    same(&rt, &table.put(&(1, 7), 30), &None);
    same(&rt, &table.put(&(1, 7), 31), &Some(30));
    same(&rt, &(table.len(), table.spare()), &(1, 0));
    Ok(())
}

#[test]
fn a_row_that_is_taken_leaves_room(rt: HostRuntime) -> Result<(), Fail> {
    let mut table = stock(rt.alloc(), &[((1, 7), 31)])?;
    same(&rt, &table.get(&(1, 7)).copied(), &Some(31));
    same(&rt, &table.take(&(1, 7)), &Some(31));
    same(&rt, &table.take(&(1, 7)), &None);
    same(&rt, &(table.len(), table.spare()), &(0, 1));
    Ok(())
}

#[test]
fn a_row_that_is_removed_leaves_none(rt: HostRuntime) -> Result<(), Fail> {
    let mut table = stock(rt.alloc(), &[((1, 7), 32)])?;
    same(&rt, &table.remove(&(1, 7)), &Some(32));
    assert!(rt; table.get(&(1, 7)).is_none());
    same(&rt, &(table.len(), table.spare()), &(0, 0));
    Ok(())
}

#[test]
fn walks_are_in_order_and_pass_room_by(rt: HostRuntime) -> Result<(), Fail> {
    let mut table = stock(rt.alloc(), &[((2, 1), 21), ((1, 9), 19), ((1, 4), 14)])?;
    table.make_room((1, 6))?;
    let all = listed(rt.alloc(), table.iter())?;
    same(
        &rt,
        &all.as_slice(),
        &[((1, 4), 14), ((1, 9), 19), ((2, 1), 21)].as_slice(),
    );
    let part = listed(rt.alloc(), table.range((1, 5)..(2, 1)))?;
    same(&rt, &part.as_slice(), &[((1, 9), 19)].as_slice());
    let last = table
        .iter()
        .next_back()
        .map(|(place, count)| (*place, *count));
    same(&rt, &last, &Some(((2, 1), 21)));
    Ok(())
}

#[test]
fn a_step_makes_its_changes_in_order(rt: HostRuntime) -> Result<(), Fail> {
    let mut table = stock(rt.alloc(), &[((1, 4), 14), ((1, 9), 19)])?;
    let step = vec![in rt.alloc();
        Edit::Put((3, 0), 30),
        Edit::Take((1, 4)),
        Edit::Put((1, 9), 20),
        Edit::Take((3, 0)),
    ]?;
    table.prepare(step.as_slice())?;
    same(&rt, &(table.len(), table.spare()), &(2, 1));
    table.apply(step);
    let rows = listed(rt.alloc(), table.iter())?;
    same(&rt, &rows.as_slice(), &[((1, 9), 20)].as_slice());
    same(&rt, &table.spare(), &2);
    table.sweep();
    same(&rt, &(table.len(), table.spare()), &(1, 0));
    Ok(())
}

// Whether a count is even.
struct Even;

impl RowTest<Place, u32> for Even {
    ghost use Rattle.std.specs.Prelude.{◌%◌, ◌==◌};

    ghost passes = { λ _ row. row.1 % 2 == 0 };

    fn passes(&self, _key: &Place, row: &u32) -> bool {
        *row % 2 == 0
    }
}

#[test]
fn rows_that_fail_a_test_are_taken(rt: HostRuntime) -> Result<(), Fail> {
    let mut table = stock(
        rt.alloc(),
        &[((1, 4), 14), ((1, 9), 19), ((2, 1), 21), ((3, 3), 33)],
    )?;
    assert!(rt; !table.is_empty());
    let takes = table.takes(rt.alloc(), &Even)?;
    same(&rt, &takes.len(), &3);
    table.apply_and_sweep(takes);
    let rows = listed(rt.alloc(), table.iter())?;
    same(&rt, &rows.as_slice(), &[((1, 4), 14)].as_slice());
    same(&rt, &table.spare(), &0);
    Ok(())
}

#[test]
fn a_copy_has_the_same_rows_and_room(rt: HostRuntime) -> Result<(), Fail> {
    let mut table: Table<RowKey, Value> = Table::new(rt.alloc());
    table.insert(
        RowKey {
            article: 1,
            row: RowId(5),
        },
        Value::Int(7),
    )?;
    table.make_room(RowKey {
        article: 2,
        row: RowId(1),
    })?;
    let copy = table.clone()?;
    same(&rt, &(copy.len(), copy.spare()), &(1, 1));
    let key = RowKey {
        article: 1,
        row: RowId(5),
    };
    assert!(rt; copy.get(&key) == Some(&Value::Int(7)));
    Ok(())
}

#[test]
fn values_and_lists_are_keys(rt: HostRuntime) -> Result<(), Fail> {
    let mut table: Table<Value, u32> = Table::new(rt.alloc());
    table.insert(Value::Int(7), 1)?;
    table.insert(Value::Bytes(Octets::new(vec![in rt.alloc(); 1, 2]?)), 2)?;
    table.insert(Value::Int(-7), 3)?;
    same(&rt, &table.get(&Value::Int(7)).copied(), &Some(1));
    same(&rt, &table.iter().next().map(|(_, count)| *count), &Some(3));
    let mut lists: Table<Octets, u32> = Table::new(rt.alloc());
    lists.insert(Octets::new(vec![in rt.alloc(); 1, 2]?), 5)?;
    let key = Octets::new(vec![in rt.alloc(); 1, 2]?);
    same(&rt, &lists.get(&key).copied(), &Some(5));
    Ok(())
}
