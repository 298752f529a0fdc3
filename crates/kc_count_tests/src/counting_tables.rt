//! The laws of a finite map at each type, worked cases of a table, and growths of it that are refused.
ghost use Rattle.std.specs.Prelude.{◌<◌, ◌^◌};

use crate::count_assertions::{assert_items, assert_same};
use kc_table::{Counts, LimitedCounts, PlainCounts, QuotientTable, Steps, TableFault};
use std::alloc::{AllocError, Global};
use std::process::Abort;
use std::test::Fail;

// Asserts that the number has no more bits than the table's keys.
fn assert_key<C: Counts>(rt: &impl Abort, table: &C, key: u64)
    ensures { key < 2 ^ C.bits table.now }
{
    let bits = table.key_bits();
    assert!(rt; key >> bits == 0);
}

// Stores the key.
fn ready<C: Counts>(rt: &impl Abort, table: &mut C, key: u64) -> Result<(), TableFault> {
    assert_key(rt, table, key);
    table.ready(key)
}

// Stores the key, and then adds one to its count.
fn ready_and_add<C: Counts>(rt: &impl Abort, table: &mut C, key: u64) -> Result<(), TableFault> {
    assert_key(rt, table, key);
    table.ready(key)?;
    assert!(rt; table.get(key) < 1 << 62);
    table.add(key);
    Ok(())
}

// Counts the key by one call: its new count.
fn count<C: Counts>(rt: &impl Abort, table: &mut C, key: u64) -> Result<u64, TableFault> {
    assert_key(rt, table, key);
    assert!(rt; table.get(key) < 1 << 62);
    table.count(key)
}

// Decreases the key's count, if it is at least 1, and returns the rest.
fn uncount<C: Counts>(rt: &impl Abort, table: &mut C, key: u64) -> u64 {
    assert_key(rt, table, key);
    if table.get(key) > 0 {
        table.uncount(key);
    }
    table.get(key)
}

fn count_of<C: Counts>(rt: &impl Abort, table: &C, key: u64) -> u64 {
    assert_key(rt, table, key);
    table.get(key)
}

// Asserts that these keys have these counts.
fn assert_counts<C: Counts>(rt: &impl Abort, table: &C, rows: &[(u64, u64)]) {
    for (key, count) in rows {
        assert_same(rt, *key, &count_of(rt, table, *key), count);
    }
}

// Asserts that the table has these rows, in ascending order, and no others.
fn assert_rows<C: Counts>(
    rt: &impl Abort,
    alloc: Global,
    table: &C,
    rows: &[(u64, u64)],
) -> Result<(), AllocError> {
    let mut found = table.rows(alloc)?;
    found.sort_unstable();
    assert_items(rt, "rows", found.as_slice(), rows);
    Ok(())
}

// What a finite map of keys of 3 bits does, from an empty one on. It may go to another thread.
fn is_a_finite_map<C: Counts + Send>(
    rt: &impl Abort,
    alloc: Global,
    table: &mut C,
) -> Result<(), Fail> {
    ready(rt, table, 0)?;
    ready_and_add(rt, table, 7)?;
    assert_same(rt, 7, &count(rt, table, 7)?, &2);
    assert_same(rt, 3, &count(rt, table, 3)?, &1);
    assert_same(rt, 3, &uncount(rt, table, 3), &0);
    assert_counts(rt, table, &[(0, 0), (3, 0), (5, 0), (7, 2)]);
    assert_same(rt, "the greatest count", &table.greatest(), &2);
    Ok(assert_rows(rt, alloc, table, &[(7, 2)])?)
}

// A key whose count was taken away is still stored, so the map for three keys refuses a fourth.
#[test]
fn each_type_is_a_finite_map(rt: HostRuntime) -> Result<(), Fail> {
    let alloc = rt.alloc();
    is_a_finite_map(&rt, alloc, &mut PlainCounts::new(alloc, 3))?;
    is_a_finite_map(&rt, alloc, &mut QuotientTable::new(alloc, 3, 3, 3)?)?;
    let mut limited = LimitedCounts::new(alloc, 3, 3, TableFault::Full);
    is_a_finite_map(&rt, alloc, &mut limited)?;
    assert_same(&rt, 4, &count(&rt, &mut limited, 4), &Err(TableFault::Full));
    Ok(())
}

// Asserts how many slots a table of keys of 16 bits has, and in which part a key is.
fn assert_slots<C: Counts>(rt: &impl Abort, table: &C, slots: u64, part: u32) {
    assert_same(rt, "slots", &table.slots(), &slots);
    assert_key(rt, table, 4103);
    assert_same(rt, "a part", &table.part_of(4103), &part);
}

// There are 4 slots to a part.
#[test]
fn a_table_has_slots_in_parts_and_no_other_map(rt: HostRuntime) -> Result<(), Fail> {
    let alloc = rt.alloc();
    assert_slots(&rt, &QuotientTable::new(alloc, 16, 12, 12)?, 4096, 1);
    let limited = LimitedCounts::new(alloc, 16, 2, TableFault::Full);
    assert_slots(&rt, &limited, 0, 0);
    assert_slots(&rt, &PlainCounts::new(alloc, 16), 0, 0);
    Ok(())
}

// A key of 16 bits whose low 8 bits are 5.
fn key_of_one_home(number: u8) -> u64 {
    256 * u64::from(number) + 5
}

// Counts the first 63 keys of one home once each.
fn count_home(rt: &impl Abort, table: &mut QuotientTable) -> Result<(), TableFault> {
    for number in 0..63 {
        let told = count(rt, table, key_of_one_home(number))?;
        assert_same(rt, number, &told, &1);
    }
    Ok(())
}

// Asserts that the first `count` keys of one home were counted once each, and the next one not at all.
fn assert_home(rt: &impl Abort, table: &QuotientTable, count: u8) {
    for number in 0..count {
        let key = key_of_one_home(number);
        assert_same(rt, key, &count_of(rt, table, key), &1);
    }
    let next = key_of_one_home(count);
    assert_same(rt, next, &count_of(rt, table, next), &0);
}

fn find(rt: &impl Abort, table: &QuotientTable, key: u64) -> Option<u64> {
    assert_key(rt, table, key);
    table.find(key, &mut Steps::zero())
}

// Asserts that the first 63 keys of one home are at its places, in order.
fn assert_places(rt: &impl Abort, table: &QuotientTable) {
    let mut place = 5u64;
    let mut step = 0u64;
    for number in 0..63 {
        let found = find(rt, table, key_of_one_home(number));
        assert_same(rt, number, &found, &Some(place));
        step = step.wrapping_add(1);
        place = place.wrapping_add(step) % 256;
    }
}

#[test]
fn a_home_is_shared_by_63_keys(rt: HostRuntime) -> Result<(), Fail> {
    let mut table = QuotientTable::new(rt.alloc(), 16, 8, 8)?;
    count_home(&rt, &mut table)?;
    assert_places(&rt, &table);
    let last = key_of_one_home(63);
    let refused = ready(&rt, &mut table, last);
    assert_same(&rt, "refused", &refused, &Err(TableFault::Full));
    assert_same(&rt, "found", &find(&rt, &table, last), &None);
    assert_home(&rt, &table, 63);
    Ok(())
}

#[test]
fn a_64th_key_of_a_home_is_taken_by_a_larger_table(rt: HostRuntime) -> Result<(), Fail> {
    let mut table = QuotientTable::new(rt.alloc(), 16, 8, 9)?;
    count_home(&rt, &mut table)?;
    ready(&rt, &mut table, key_of_one_home(63))?;
    assert_same(&rt, "log", &table.log(), &9);
    assert_home(&rt, &table, 63);
    Ok(())
}

// Stores the next key of one home. If that is refused, asserts that the table is unchanged, and stores it once more.
fn ready_again(rt: &impl Abort, table: &mut QuotientTable, number: u8) -> Result<(), TableFault> {
    let before = table.log();
    let key = key_of_one_home(number);
    let Err(fault) = ready(rt, table, key) else {
        return Ok(());
    };
    assert_same(rt, number, &fault, &TableFault::Memory);
    assert_same(rt, number, &table.log(), &before);
    assert_home(rt, table, number);
    ready(rt, table, key)
}

// Counts the next key of one home. If that is refused, asserts that the table is unchanged, and counts it once more.
fn count_again(rt: &impl Abort, table: &mut QuotientTable, number: u8) -> Result<u64, TableFault> {
    let before = table.log();
    let key = key_of_one_home(number);
    let fault = match count(rt, table, key) {
        Ok(told) => return Ok(told),
        Err(fault) => fault,
    };
    assert_same(rt, number, &fault, &TableFault::Memory);
    assert_same(rt, number, &table.log(), &before);
    assert_home(rt, table, number);
    count(rt, table, key)
}

// Counts 64 keys of one home in turn, each stored before if asked.
fn fill_home(
    rt: &impl Abort,
    table: &mut QuotientTable,
    is_stored: bool,
) -> Result<(), TableFault> {
    for number in 0..64 {
        if is_stored {
            ready_again(rt, table, number)?;
        }
        assert_same(rt, number, &count_again(rt, table, number)?, &1);
    }
    Ok(())
}

// An empty table of 16 slots, for which memory is asked for once more if it is refused.
fn table_of_16_slots(alloc: Global) -> Result<QuotientTable, AllocError> {
    match QuotientTable::new(alloc, 16, 4, 16) {
        Ok(table) => Ok(table),
        Err(_) => QuotientTable::new(alloc, 16, 4, 16),
    }
}

// If a growth is refused the counts stay, and the next call finds memory again.
#[test]
fn a_refused_growth_leaves_the_table(rt: HostRuntime) -> Result<(), Fail> {
    for is_stored in [true, false] {
        let mut table = table_of_16_slots(rt.alloc())?;
        fill_home(&rt, &mut table, is_stored)?;
        assert_same(&rt, "log", &table.log(), &9);
    }
    Ok(())
}
