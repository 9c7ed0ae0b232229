//! Cells, that calls succeed where there is memory, and cells beside a plain list.
ghost use Rattle.std.specs.Prelude.{◌≡◌, ◌<◌, None, OnOk};

use ld_base::{NoMemory, Steps};
use ld_cells::{Cells, UndoLog};
use ld_value::Value;
use std::marker::Brand;
use std::process::Abort;
use std::sync::ledger::{Blank, Ledger};
use std::test::Fail;

/// The number in a cell, if it holds one.
fn number_in(cell: Option<&Value>) -> Option<i64> {
    match cell {
        Some(Value::Int(number)) => Some(*number),
        _ => None,
    }
}

/// Writes the number, or none, to the cell, and answers whether that changed it; or adds it as the
/// next cell.
fn put(cells: &mut Cells, slot: u32, number: Option<i64>) -> Result<bool, NoMemory>
    ensures kept { cells.new.kept ≡ cells.old.kept }
{
    let value = number.map(Value::Int);
    if slot < cells.len() {
        return Ok(cells.write(slot, value)?);
    }
    if cells.len() < 100 {
        let added = cells.add(value)?;
        return Ok(added == slot);
    }
    Ok(false)
}

/// A slot, what is written there, and what is to be answered.
type Put = (u32, Option<i64>, bool);

/// Writes one after another.
fn put_all(rt: &impl Abort, cells: &mut Cells, puts: &[Put]) -> Result<(), NoMemory>
    ensures kept { cells.new.kept ≡ cells.old.kept }
{
    for (slot, number, answer) in puts {
        let answered = put(cells, *slot, *number)?;
        assert!(rt; answered == *answer);
    }
    Ok(())
}

/// The cells hold these numbers, and are no more.
fn hold<L: Ledger>(rt: &impl Abort, cells: &Cells, wanted: &[Option<i64>], blank: Blank)
    requires name { blank.name ≡ L.name }
    requires parts { blank.parts ≡ L.parts }
    requires some { 0 < L.parts }
{
    let mut steps = Steps::<L>::new(blank);
    assert!(rt; cells.len() as usize == wanted.len());
    for slot in 0..cells.len() {
        let held = number_in(cells.read(slot, &mut steps));
        assert!(rt; wanted.get(slot as usize) == Some(&held));
    }
}

#[test]
fn a_write_is_taken_back(rt: HostRuntime) -> Result<(), Fail> {
    let mut cells = Cells::new(rt.alloc());
    cells.reserve(1, 4)?;
    put_all(
        &rt,
        &mut cells,
        &[(0, None, true), (0, Some(5), true), (0, Some(5), false)],
    )?;
    cells.mark();
    put_all(&rt, &mut cells, &[(0, Some(7), true)])?;
    cells.undo();
    hold::<Brand>(&rt, &cells, &[Some(5)], Blank::new(1));
    Ok(())
}

#[test]
fn writes_and_cells_are_taken_back(rt: HostRuntime) -> Result<(), Fail> {
    let mut cells = Cells::new(rt.alloc());
    put_all(
        &rt,
        &mut cells,
        &[(0, Some(1), true), (1, None, true), (2, Some(3), true)],
    )?;
    cells.mark();
    let puts = [
        (0, Some(2), true),
        (2, None, true),
        (3, Some(9), true),
        (3, Some(8), true),
        (0, Some(3), true),
        (1, Some(4), true),
        (2, Some(6), true),
    ];
    put_all(&rt, &mut cells, &puts)?;
    cells.undo();
    hold::<Brand>(&rt, &cells, &[Some(1), None, Some(3)], Blank::new(1));
    Ok(())
}

#[test]
fn one_undo_log_serves_two(rt: HostRuntime) -> Result<(), Fail> {
    let mut log = UndoLog::new(rt.alloc());
    let mut first = Cells::new(rt.alloc());
    let mut second = Cells::new(rt.alloc());
    put_all(&rt, &mut first, &[(0, Some(1), true)])?;
    put_all(&rt, &mut second, &[(0, Some(3), true)])?;
    take_back(&rt, &mut first, &mut log)?;
    take_back(&rt, &mut second, &mut log)?;
    hold::<Brand>(&rt, &first, &[Some(1)], Blank::new(1));
    hold::<Brand>(&rt, &second, &[Some(3)], Blank::new(1));
    Ok(())
}

/// Writes to the first cell, recorded in the room of the log, and takes it back.
fn take_back(rt: &impl Abort, cells: &mut Cells, log: &mut UndoLog) -> Result<(), NoMemory>
    requires { cells.old.kept ≡ None }
{
    cells.exchange(log);
    cells.mark();
    put_all(rt, cells, &[(0, Some(2), true)])?;
    cells.undo();
    cells.exchange(log);
    Ok(())
}

/// A plain generator of numbers: the upper bits of a product and a sum.
#[derive(Drop)]
struct Draw {
    state: u64,
}

impl Draw {
    /// The next number below the bound.
    fn below(&mut self, bound: u64) -> u64
        requires { 0 < bound }
        ensures { result < bound }
    {
        self.state = self
            .state
            .wrapping_mul(6_364_136_223_846_793_005)
            .wrapping_add(1_442_695_040_888_963_407);
        (self.state >> 33) % bound
    }

    /// None, or a small number.
    fn number(&mut self) -> Option<i64> {
        match self.below(4) {
            0 => None,
            number => Some(number as i64),
        }
    }
}

/// Some cells, and the plain list that they are to agree with.
#[derive(Drop)]
struct Both {
    cells: Cells,
    list: Vec<Option<i64>>,
}

/// Writes to a cell of the list, and answers whether that changed it; or adds it as the next one.
fn put_plain(
    list: &mut Vec<Option<i64>>,
    slot: u32,
    number: Option<i64>,
) -> Result<bool, NoMemory> {
    match list.get_mut(slot as usize) {
        Some(held) => {
            let changed = *held != number;
            *held = number;
            Ok(changed)
        }
        None => {
            list.push(number)?;
            Ok(true)
        }
    }
}

impl Both {
    /// Adds cells and writes to them, as often.
    fn change(&mut self, rt: &impl Abort, draw: &mut Draw, times: u64) -> Result<(), NoMemory>
        ensures kept { self.new.cells.kept ≡ self.old.cells.kept }
    {
        for _ in 0..times {
            let slot = draw.below(30).min(self.cells.len() as u64) as u32;
            let number = draw.number();
            let changed = put(&mut self.cells, slot, number)?;
            let wanted = put_plain(&mut self.list, slot, number)?;
            assert!(rt; changed == wanted);
        }
        Ok(())
    }

    /// Changes under a savepoint, which are rolled back or kept.
    fn round(&mut self, rt: &impl Abort, draw: &mut Draw) -> Result<(), NoMemory>
        requires { self.old.cells.kept ≡ None }
        ensures no_savepoint { OnOk result (self.new.cells.kept ≡ None) }
    {
        let kept = self.list.clone()?;
        self.cells.mark();
        let times = draw.below(20);
        self.change(rt, draw, times)?;
        if draw.below(2) == 0 {
            self.cells.undo();
            self.list = kept;
            return Ok(());
        }
        self.cells.keep();
        Ok(())
    }
}

#[test]
fn cells_agree_with_a_plain_list(rt: HostRuntime) -> Result<(), Fail> {
    let mut draw = Draw { state: 1 };
    let mut both = Both {
        cells: Cells::new(rt.alloc()),
        list: Vec::new(rt.alloc()),
    };
    for _ in 0..40 {
        both.change(&rt, &mut draw, 3)?;
        both.round(&rt, &mut draw)?;
        hold::<Brand>(&rt, &both.cells, &both.list, Blank::new(1));
    }
    Ok(())
}
