//! What a table does with a new entry, and with a number that can't be raised: over both kinds of
//! table.
ghost use Rattle.std.specs.Prelude.{◌≡◌, ◌<◌};
ghost use Rattle.aodv_model.specs.declared.entry.Flag.TheVariants.{Val};

use aodv_model::{Dests, Entry, Flag, Known};
use aodv_table::{PlainTable, RowTable, Table};
use mesh_base::{NoMemory, NodeSet};
use std::alloc::Global;
use std::test::Fail;

fn entry(dsn: u32, dsk: Known, flag: Flag, hops: u8, next: usize) -> Entry {
    Entry {
        dsn,
        dsk,
        flag,
        hops,
        next,
        pre: NodeSet::new(),
    }
}

// The entry, with neighbour p as a precursor.
fn used_by(e: Entry, p: usize) -> Entry
    requires { p < 256 }
{
    let mut pre = e.pre;
    pre.add(p);
    Entry { pre, ..e }
}

fn same(a: Option<Entry>, b: Option<Entry>) -> bool {
    match (&a, &b) {
        (Some(a), Some(b)) => a.same(b),
        (None, None) => true,
        _ => false,
    }
}

// The entries that occur more than once in the rows below.
fn used() -> Entry {
    used_by(entry(5, Known::Kno, Flag::Val, 3, 1), 4)
}

fn heard() -> Entry {
    entry(0, Known::Unk, Flag::Val, 1, 2)
}

fn near() -> Entry {
    used_by(entry(5, Known::Unk, Flag::Val, 1, 2), 4)
}

fn raised() -> Entry {
    entry(6, Known::Kno, Flag::Inv, 3, 1)
}

// The entry in a table, the one that comes, the one that is there afterwards, and whether the table
// has changed.
type Case = (Option<Entry>, Entry, Entry, bool);

// Whether the table says that it changed, the entry that is there afterwards, and whether the
// destination is valid.
fn updated<T: Table>(
    table: &mut T,
    before: Option<Entry>,
    comes: Entry,
) -> Result<(bool, Option<Entry>, bool), NoMemory>
    requires nodes { T.nodes table.old ≡ 10 }
    requires valid { comes.flag ≡ Val }
{
    table.make_room(3)?;
    table.put(3, before);
    let changed = table.update(3, comes);
    Ok((changed, table.get(3), table.valid().has(3)))
}

// Whether the table gives what the case says.
fn gives<T: Table>(table: &mut T, case: &Case) -> Result<bool, NoMemory>
    requires { T.nodes table.old ≡ 10 }
{
    let (before, comes, after, changes) = *case;
    if comes.flag != Flag::Val {
        return Ok(false);
    }
    let (changed, entry, valid) = updated(table, before, comes)?;
    Ok(changed == changes && same(entry, Some(after)) && valid == (after.flag == Flag::Val))
}

fn cases() -> [Case; 8] {
    [
        (None, heard(), heard(), true),
        (
            Some(used()),
            entry(6, Known::Kno, Flag::Val, 9, 2),
            used_by(entry(6, Known::Kno, Flag::Val, 9, 2), 4),
            true,
        ),
        (
            Some(used()),
            entry(5, Known::Kno, Flag::Val, 3, 2),
            used(),
            false,
        ),
        (
            Some(used()),
            entry(5, Known::Kno, Flag::Val, 2, 2),
            used_by(entry(5, Known::Kno, Flag::Val, 2, 2), 4),
            true,
        ),
        (
            Some(entry(5, Known::Kno, Flag::Inv, 3, 1)),
            entry(5, Known::Kno, Flag::Val, 7, 2),
            entry(5, Known::Kno, Flag::Val, 7, 2),
            true,
        ),
        (Some(used()), heard(), near(), true),
        (Some(near()), heard(), near(), false),
        (
            Some(raised()),
            used_by(entry(5, Known::Kno, Flag::Val, 1, 2), 7),
            used_by(raised(), 7),
            true,
        ),
    ]
}

// Whether a table with two entries by node 2, the later of them with the greatest number, has both
// among the destinations by node 2 and none by node 3, and names the later when the numbers are to
// be raised.
fn names_the_later<T: Table>(table: &mut T) -> Result<bool, NoMemory>
    requires { T.nodes table.old ≡ 10 }
{
    table.make_room(1)?;
    table.make_room(9)?;
    table.put(1, Some(entry(7, Known::Kno, Flag::Val, 2, 2)));
    table.put(9, Some(entry(4294967295, Known::Kno, Flag::Val, 2, 2)));
    let mut out = Dests::new();
    let raised = table.dests_via(2, &mut out);
    let by_two = table.through(2);
    Ok(by_two.has(1) && by_two.has(9) && table.through(3).is_empty() && matches!(raised, Err(9)))
}

// Whether a table whose only valid entry by node 2 is that of node 1, with the greatest number,
// names node 1.
fn names_the_only<T: Table>(table: &mut T) -> Result<bool, NoMemory>
    requires { T.nodes table.old ≡ 10 }
{
    table.make_room(1)?;
    table.put(1, Some(entry(4294967295, Known::Kno, Flag::Val, 2, 2)));
    Ok(matches!(table.dests_via(2, &mut Dests::new()), Err(1)))
}

fn both_give(alloc: Global, case: &Case) -> Result<bool, NoMemory> {
    Ok(
        gives(&mut PlainTable::new(alloc, 10), case)?
            && gives(&mut RowTable::new(alloc, 10)?, case)?,
    )
}

#[test]
fn an_entry_gives_way_to_a_better_one(rt: HostRuntime) -> Result<(), Fail> {
    for (k, case) in cases().iter().enumerate() {
        assert!(rt; both_give(rt.alloc(), case)?, "row {k}");
    }
    Ok(())
}

#[test]
fn a_number_that_cannot_be_raised_is_named(rt: HostRuntime) -> Result<(), Fail> {
    assert!(rt; names_the_later(&mut PlainTable::new(rt.alloc(), 10))?);
    assert!(rt; names_the_later(&mut RowTable::new(rt.alloc(), 10)?)?);
    assert!(rt; names_the_only(&mut PlainTable::new(rt.alloc(), 10))?);
    assert!(rt; names_the_only(&mut RowTable::new(rt.alloc(), 10)?)?);
    Ok(())
}
