//! Which cells a term reads.
ghost use Rattle.std.specs.Prelude.{◌≤◌, ◌∷◌, ◌++◌, [], OnErr, OnOk};
ghost use Rattle.ld_model.specs.Expressions.{terms_from};
ghost use Rattle.ld_expr.specs.Looks.{property_looks, term_looks, terms_looks};
ghost use Rattle.ld_expr.specs.Lookup.{list_from};
ghost use Rattle.ld_expr.specs.Seen.{opened_cell};
ghost use Rattle.ld_names.specs.Names.{thing_number};
ghost use Rattle.ld_state.specs.RunState.{seen_in};
ghost use Rattle.ld_state.specs.StateView.{run_of};
ghost use Rattle.ld_settling.specs.Gathering.{FallsShort, Gathers};

use crate::reads::reader::Reader;
use ld_base::{Id, NoMemory};
use ld_expr::{cell_of_property, thing_number};
use ld_graph::SlotList;
use ld_model::{CellName, Owner, Term, TermForm};

/// Gathers what is read for the value of the property that the identifier names, for the owner.
pub(crate) fn read_property(
    reader: &Reader<'_>,
    owner: Owner,
    id: &Id,
    list: &mut SlotList,
) -> Result<(), NoMemory>
    ensures gathers { OnOk result (Gathers reader.now.unit.now (run_of reader.now.state.now)
        (property_looks reader.now.unit.now
        (seen_in reader.now.unit.now (run_of reader.now.state.now)) owner id.now)
        list.old list.new) }
    ensures short { OnErr result (FallsShort reader.now.unit.now (run_of reader.now.state.now)
        (property_looks reader.now.unit.now
        (seen_in reader.now.unit.now (run_of reader.now.state.now)) owner id.now) list.old) }
    ensures room { list.old.room ≤ list.new.room }
{
    let cell = cell_of_property(reader.unit.unit(), reader.unit.names(), owner, id);
    reader.put_if(cell, list)
}

/// Gathers what is read for the value of the term, for the owner.
#[cycle(terms)]
pub(crate) fn read_term(
    reader: &Reader<'_>,
    owner: Owner,
    term: &Term,
    list: &mut SlotList,
) -> Result<(), NoMemory>
    ensures gathers { OnOk result (Gathers reader.now.unit.now (run_of reader.now.state.now)
        (term_looks reader.now.unit.now
        (seen_in reader.now.unit.now (run_of reader.now.state.now)) owner term.now)
        list.old list.new) }
    ensures short { OnErr result (FallsShort reader.now.unit.now (run_of reader.now.state.now)
        (term_looks reader.now.unit.now
        (seen_in reader.now.unit.now (run_of reader.now.state.now)) owner term.now) list.old) }
    ensures room { list.old.room ≤ list.new.room }
{
    match &*term.form {
        TermForm::Property(id) => read_property(reader, owner, id, list),
        TermForm::Text(_)
        | TermForm::Integer(_)
        | TermForm::Boolean(_)
        | TermForm::Datetime(_)
        | TermForm::Duration(_) => Ok(()),
        TermForm::Sum(terms) => read_terms(reader, owner, terms, list),
        TermForm::Multiply(terms) => read_terms(reader, owner, terms, list),
        TermForm::Subtract(a, b) => read_both(reader, owner, a, b, list),
        TermForm::Divide(a, b) => read_both(reader, owner, a, b, list),
        TermForm::CurrentDatetime => reader.put(CellName::Now, list),
        TermForm::DatetimeActivityStarted(id) => read_opening(reader, owner, id, list),
        TermForm::TimeUnitOfLearningStarted => reader.put(CellName::Started, list),
    }
}

/// Gathers what is read for the values of the terms.
#[cycle(terms)]
fn read_terms(
    reader: &Reader<'_>,
    owner: Owner,
    terms: &[Term],
    list: &mut SlotList,
) -> Result<(), NoMemory>
    ensures gathers { OnOk result (Gathers reader.now.unit.now (run_of reader.now.state.now)
        (terms_looks reader.now.unit.now
        (seen_in reader.now.unit.now (run_of reader.now.state.now)) owner (terms_from terms.now))
        list.old list.new) }
    ensures short { OnErr result (FallsShort reader.now.unit.now (run_of reader.now.state.now)
        (terms_looks reader.now.unit.now
        (seen_in reader.now.unit.now (run_of reader.now.state.now)) owner (terms_from terms.now))
        list.old) }
    ensures room { list.old.room ≤ list.new.room }
{
    for term in terms {
        read_term(reader, owner, term, list)?;
    }
    Ok(())
}

/// Gathers what is read for the values of both terms.
#[cycle(terms)]
pub(crate) fn read_both(
    reader: &Reader<'_>,
    owner: Owner,
    a: &Term,
    b: &Term,
    list: &mut SlotList,
) -> Result<(), NoMemory>
    ensures gathers { OnOk result (Gathers reader.now.unit.now (run_of reader.now.state.now)
        (term_looks reader.now.unit.now
        (seen_in reader.now.unit.now (run_of reader.now.state.now)) owner a.now
        ++ term_looks reader.now.unit.now
        (seen_in reader.now.unit.now (run_of reader.now.state.now)) owner b.now)
        list.old list.new) }
    ensures short { OnErr result (FallsShort reader.now.unit.now (run_of reader.now.state.now)
        (term_looks reader.now.unit.now
        (seen_in reader.now.unit.now (run_of reader.now.state.now)) owner a.now
        ++ term_looks reader.now.unit.now
        (seen_in reader.now.unit.now (run_of reader.now.state.now)) owner b.now)
        list.old) }
    ensures room { list.old.room ≤ list.new.room }
{
    read_term(reader, owner, a, list)?;
    read_term(reader, owner, b, list)
}

/// Gathers what is read for the moment at which the owner opened the thing.
fn read_opening(
    reader: &Reader<'_>,
    owner: Owner,
    id: &Id,
    list: &mut SlotList,
) -> Result<(), NoMemory>
    ensures gathers { OnOk result (Gathers reader.now.unit.now (run_of reader.now.state.now)
        (list_from (λ thing. opened_cell thing owner ∷ [])
        (thing_number reader.now.unit.now id.now))
        list.old list.new) }
    ensures short { OnErr result (FallsShort reader.now.unit.now (run_of reader.now.state.now)
        (list_from (λ thing. opened_cell thing owner ∷ [])
        (thing_number reader.now.unit.now id.now))
        list.old) }
    ensures room { list.old.room ≤ list.new.room }
{
    match thing_number(reader.unit.unit(), reader.unit.names(), id) {
        Some(thing) => reader.put(CellName::Opened(thing, owner), list),
        None => Ok(()),
    }
}
