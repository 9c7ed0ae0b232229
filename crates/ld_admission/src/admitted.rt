//! Commands of a run, as the checks leave them.
use ld_base::{Id, PersonNo, RoleNo, ThingNo};
use ld_model::CellName;
use ld_value::Value;

/// What a command is once it is admitted: persons, roles and activities by their numbers,
/// properties by the cells in which they stand. A person who joins has a name alone.
/// (docs/MEANING.md, "A command")
#[derive(Drop)]
pub enum Admitted<'a> {
    Enrols(&'a Id),
    Assigns(PersonNo, RoleNo),
    Drops(PersonNo, RoleNo),
    Starts,
    Opens(PersonNo, ThingNo),
    Completes(PersonNo, ThingNo),
    Sets(CellName, Value),
    Clears(CellName),
    Gets(CellName),
    ShowsTree(PersonNo),
    ShowsOutbox(PersonNo),
    Reports,
    Ticks,
    ShowsNext,
}
