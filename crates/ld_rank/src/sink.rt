//! Who is told cells, one after another.
ghost use Rattle.std.specs.Prelude.{◌≡◌, ◌∷◌, [], Bool, Option, true};
ghost use Rattle.ld_model.specs.declared.cell.CellName.{CellName as Cell};
ghost use Rattle.ld_expr.specs.Looks.{done_looks, property_looks};
ghost use Rattle.ld_rules.specs.SiteLooks.{all_done_looks, cell_list};
ghost use Rattle.ld_rank.specs.Alone.{is_fed, seen_alone};
ghost use Rattle.ld_rank.specs.Telling.{Tells, told_after};

use ld_base::Id;
use ld_expr::{cell_of_mark, cell_of_property};
use ld_model::{CellName, Owner};
use ld_rules::PreparedUnit;

/// Who is told the cells at which a rule looks, or which it writes, one after another, until it
/// stops. It means what was told so far, what that is after one more cell, or that this cell stops
/// it, and whether it can also fail.
pub(crate) trait CellSink {
    /// Why it takes no more cells.
    type Stop: Drop;

    ghost Told: { Type 0 };

    ghost told: { Self → Told };

    ghost after: { Told → Cell → Option Told };

    ghost can_fail: { Bool };

    /// Takes a cell that a firing may write.
    fn put(&mut self, cell: CellName) -> Result<(), Self::Stop>
        requires { is_fed cell ≡ true }
        ensures { Tells can_fail (after (told self.old) cell) result (told self.new) };
}

/// Tells the cell, unless it is one that no firing writes or at which no rule looks.
pub(crate) fn put_cell<S: CellSink>(cell: CellName, cells: &mut S) -> Result<(), S::Stop>
    ensures { Tells S.can_fail (told_after S.after (S.told cells.old) (cell ∷ [])) result
        (S.told cells.new) }
{
    if !is_fed(cell) {
        return Ok(());
    }
    cells.put(cell)
}

/// Whether a firing may write the cell and a rule look at it.
fn is_fed(cell: CellName) -> bool
    ensures { result ≡ is_fed cell }
{
    match cell {
        CellName::Prop(_, _) | CellName::ActOpened(_) | CellName::Mark(_, _) => true,
        CellName::Vis(_, _)
        | CellName::Member(_, _)
        | CellName::Chosen(_, _)
        | CellName::Opened(_, _)
        | CellName::Started
        | CellName::Now
        | CellName::Roster => false,
    }
}

/// Tells the cell, if there is one.
pub(crate) fn put_if<S: CellSink>(cell: Option<CellName>, cells: &mut S) -> Result<(), S::Stop>
    ensures { Tells S.can_fail (told_after S.after (S.told cells.old) (cell_list cell)) result
        (S.told cells.new) }
{
    match cell {
        Some(cell) => put_cell(cell, cells),
        None => Ok(()),
    }
}

/// Tells the owner's value of the property that the identifier names.
pub(crate) fn put_property<S: CellSink>(
    unit: &PreparedUnit,
    owner: Owner,
    id: &Id,
    cells: &mut S,
) -> Result<(), S::Stop>
    ensures { Tells S.can_fail (told_after S.after (S.told cells.old)
        (property_looks unit.now (seen_alone unit.now) owner id.now)) result (S.told cells.new) }
{
    put_if(
        cell_of_property(unit.unit(), unit.names(), owner, id),
        cells,
    )
}

/// Tells the mark that says that what the identifier names is done.
pub(crate) fn put_mark<S: CellSink>(
    unit: &PreparedUnit,
    owner: Owner,
    id: &Id,
    cells: &mut S,
) -> Result<(), S::Stop>
    ensures { Tells S.can_fail (told_after S.after (S.told cells.old)
        (done_looks unit.now (seen_alone unit.now) owner id.now)) result (S.told cells.new) }
{
    put_if(cell_of_mark(unit.unit(), unit.names(), owner, id), cells)
}

/// Tells the marks that say that these are done.
pub(crate) fn put_marks<S: CellSink>(
    unit: &PreparedUnit,
    owner: Owner,
    ids: &[Id],
    cells: &mut S,
) -> Result<(), S::Stop>
    ensures { Tells S.can_fail (told_after S.after (S.told cells.old)
        (all_done_looks unit.now (seen_alone unit.now) owner ids.now)) result (S.told cells.new) }
{
    for id in ids {
        put_mark(unit, owner, id, cells)?;
    }
    Ok(())
}
