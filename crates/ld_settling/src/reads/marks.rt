//! Which marks are read.
ghost use Rattle.std.specs.Prelude.{◌≤◌, OnErr, OnOk};
ghost use Rattle.ld_expr.specs.Looks.{done_looks};
ghost use Rattle.ld_rules.specs.SiteLooks.{all_done_looks};
ghost use Rattle.ld_state.specs.RunState.{seen_in};
ghost use Rattle.ld_state.specs.StateView.{run_of};
ghost use Rattle.ld_settling.specs.Gathering.{FallsShort, Gathers};

use crate::reads::reader::Reader;
use ld_base::{Id, NoMemory};
use ld_expr::cell_of_mark;
use ld_graph::SlotList;
use ld_model::Owner;

/// Gathers what is read to know whether what the identifier names is done, for the owner.
pub(crate) fn read_mark(
    reader: &Reader<'_>,
    owner: Owner,
    id: &Id,
    list: &mut SlotList,
) -> Result<(), NoMemory>
    ensures gathers { OnOk result (Gathers reader.now.unit.now (run_of reader.now.state.now)
        (done_looks reader.now.unit.now
        (seen_in reader.now.unit.now (run_of reader.now.state.now)) owner id.now)
        list.old list.new) }
    ensures short { OnErr result (FallsShort reader.now.unit.now (run_of reader.now.state.now)
        (done_looks reader.now.unit.now
        (seen_in reader.now.unit.now (run_of reader.now.state.now)) owner id.now) list.old) }
    ensures room { list.old.room ≤ list.new.room }
{
    let cell = cell_of_mark(reader.unit.unit(), reader.unit.names(), owner, id);
    reader.put_if(cell, list)
}

/// Gathers what is read to know which of the things are done, for the owner.
pub(crate) fn read_marks(
    reader: &Reader<'_>,
    owner: Owner,
    ids: &[Id],
    list: &mut SlotList,
) -> Result<(), NoMemory>
    ensures gathers { OnOk result (Gathers reader.now.unit.now (run_of reader.now.state.now)
        (all_done_looks reader.now.unit.now
        (seen_in reader.now.unit.now (run_of reader.now.state.now)) owner ids.now)
        list.old list.new) }
    ensures short { OnErr result (FallsShort reader.now.unit.now (run_of reader.now.state.now)
        (all_done_looks reader.now.unit.now
        (seen_in reader.now.unit.now (run_of reader.now.state.now)) owner ids.now) list.old) }
    ensures room { list.old.room ≤ list.new.room }
{
    for id in ids {
        read_mark(reader, owner, id, list)?;
    }
    Ok(())
}
