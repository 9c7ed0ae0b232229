//! The replies to the commands of a run.
ghost use Rattle.std.specs.Prelude.{◌≡◌, ◌+◌, ◌≤◌, ◌++◌, codes, decimal, length, map, option_map, IfSome, IsOk, OnOk, false};
ghost use Rattle.ld_base.specs.Roomy.{KeepsRoom};
ghost use Rattle.ld_state.specs.RunState.{seen_in};
ghost use Rattle.ld_state.specs.StateView.{IsStateOf, run_of};
ghost use Rattle.ld_firing.specs.RunSystem.{IsSoundRun};
ghost use Rattle.ld_firing.specs.SettledView.{sums_in};
ghost use Rattle.ld_tree.specs.Lines.{line_text, spaced};
ghost use Rattle.ld_tree.specs.Tree.{tree_lines};
ghost use Rattle.ld_tree.specs.TreeLooks.{tree_looks};
ghost use Rattle.ld_admission.specs.AdmittedView.{HasPropertyCell, admitted_of};
ghost use Rattle.ld_value.specs.Calendar.{IsMoment};
ghost use Rattle.ld_replies.specs.Printing.{AreNoticesOf, IsPrintable, IsTellable, asks_alarm};
ghost use Rattle.ld_admission.specs.RefusalView.{refusal_of};
ghost use Rattle.ld_replies.specs.Replies.{alarm_told, counted_lines, next_line, printed_value, refusal_text, sums_text, told_line, verb_of};
ghost use Rattle.ld_replies.specs.Reports.{outbox_lines, report_lines};
ghost use Rattle.ld_replies.specs.ShownSteps.{report_steps, shown_steps};

use crate::outbox::put_outbox;
use crate::printed::Lines;
use crate::refusal_text::{push_details, push_number_and_word};
use crate::report::put_report;
use crate::value_text::push_value;
use itoa::Buffer;
use ld_admission::{Admitted, Refusal};
use ld_base::{NoMemory, PersonNo, Steps, Text};
use ld_cascade::Settled;
use ld_model::{CellName, View};
use ld_rules::PreparedUnit;
use ld_state::State;
use ld_tree::tree_text;
use ld_value::{Moment, print_moment};
use std::alloc::Global;
use std::sync::ledger::Ledger;

/// Appends what is told of a command that was done: `ok`, the verb, the turns and the sums of its
/// settlings, and what it asked for. Of `next`, `push_next` tells. (docs/COMMANDS.md, "Replies")
///
/// # Errors
/// `NoMemory` leaves what stood in `out`, and behind it maybe a part of what is told.
pub fn push_done<L: Ledger>(
    alloc: Global,
    unit: &PreparedUnit,
    state: &State,
    command: &Admitted<'_>,
    totals: Settled,
    out: &mut Text,
    steps: &mut Steps<L>,
) -> Result<(), NoMemory>
    requires own { IsStateOf unit.now state.now }
    requires sound { IsSoundRun unit.now (run_of state.now) }
    requires notices { AreNoticesOf unit.now state.now.outbox }
    requires told { IsTellable unit.now (run_of state.now) (admitted_of command.now) }
    requires state_alone { asks_alarm (admitted_of command.now) ≡ false }
    ensures text { OnOk result (out.new.bytes ≡ out.old.bytes
        ++ (told_line unit.now (run_of state.now) (admitted_of command.now) totals.turns (sums_in totals))) }
    ensures room { KeepsRoom out.old out.new }
    ensures cost { steps.new
        ≤ steps.old + shown_steps unit.now (run_of state.now) (admitted_of command.now) }
{
    out.push(beginning_of(command))?;
    push_sums(totals, out)?;
    match command {
        Admitted::Gets(cell) => push_cell(alloc, unit, state, *cell, out, steps),
        Admitted::ShowsTree(person) => push_tree(alloc, unit, state, *person, out, steps),
        Admitted::ShowsOutbox(person) => push_outbox(alloc, unit, state, *person, out),
        Admitted::Reports => push_report(alloc, unit, state, out, steps),
        _ => Ok(()),
    }
}

/// Appends what is told of a `next` that was done, with the alarm that it found.
///
/// # Errors
/// As `push_done`.
pub fn push_next(totals: Settled, next: Option<Moment>, out: &mut Text) -> Result<(), NoMemory>
    requires dated { IfSome next (λ moment. IsMoment moment.0) }
    ensures text { OnOk result (out.new.bytes ≡ out.old.bytes
        ++ next_line (option_map (λ moment. moment.0) next) totals.turns (sums_in totals)) }
    ensures room { KeepsRoom out.old out.new }
{
    out.push(beginning_of(&Admitted::ShowsNext))?;
    push_sums(totals, out)?;
    push_alarm(next, out)
}

/// Appends what is told of a command that was refused. It takes no memory where there is room for
/// 127 bytes and the identifier that is told, if there is one, has at most 64. (docs/COMMANDS.md,
/// "Refusals")
///
/// # Errors
/// As `push_done`.
pub fn push_refusal(refusal: Refusal<'_>, out: &mut Text) -> Result<(), NoMemory>
    requires printable { IsPrintable (refusal_of refusal) }
    ensures text { OnOk result (out.new.bytes
        ≡ out.old.bytes ++ refusal_text (refusal_of refusal.entry)) }
    ensures within { 127 ≤ out.old.spare → IsOk result }
    ensures left { OnOk result (out.old.spare ≤ out.new.spare + 127) }
    ensures room { KeepsRoom out.old out.new }
{
    push_number_and_word(refusal.number(), out)?;
    push_details(refusal, out)?;
    Ok(())
}

/// What a reply begins with: `ok`, and the verb of the command.
fn beginning_of(command: &Admitted<'_>) -> &'static str
    ensures { result.now ≡ codes "ok " ++ verb_of (admitted_of command.now) }
{
    match command {
        Admitted::Enrols(_) => "ok enrol",
        Admitted::Assigns(_, _) => "ok assign",
        Admitted::Drops(_, _) => "ok drop",
        Admitted::Starts => "ok start",
        Admitted::Opens(_, _) => "ok open",
        Admitted::Completes(_, _) => "ok complete",
        Admitted::Sets(_, _) => "ok set",
        Admitted::Clears(_) => "ok clear",
        Admitted::Gets(_) => "ok get",
        Admitted::ShowsTree(_) => "ok tree",
        Admitted::ShowsOutbox(_) => "ok outbox",
        Admitted::Reports => "ok report",
        Admitted::Ticks => "ok tick",
        Admitted::ShowsNext => "ok next",
    }
}

/// Appends the turns and the sums.
fn push_sums(totals: Settled, out: &mut Text) -> Result<(), NoMemory>
    ensures text { OnOk result (out.new.bytes
        ≡ out.old.bytes ++ sums_text totals.turns (sums_in totals)) }
    ensures room { KeepsRoom out.old out.new }
{
    // Most commands fire nothing, and then one piece tells all four.
    if totals.turns == 0 && totals.fired == 0 && totals.rejected == 0 && totals.sent == 0 {
        return out.push(" turns=0 fired=0 rejected=0 sent=0");
    }
    push_named(" turns=", u64::from(totals.turns), out)?;
    push_named(" fired=", totals.fired, out)?;
    push_named(" rejected=", totals.rejected, out)?;
    push_named(" sent=", totals.sent, out)
}

/// Appends the alarm.
fn push_alarm(next: Option<Moment>, out: &mut Text) -> Result<(), NoMemory>
    requires dated { IfSome next (λ moment. IsMoment moment.0) }
    ensures text { OnOk result (out.new.bytes
        ≡ out.old.bytes ++ alarm_told (option_map (λ moment. moment.0) next)) }
    ensures room { KeepsRoom out.old out.new }
{
    match next {
        Some(moment) => {
            out.push(" at=")?;
            out.push_ascii(&print_moment(moment))
        }
        None => out.push(" at=none"),
    }
}

/// Appends a name and a number behind it.
fn push_named(name: &str, number: u64, out: &mut Text) -> Result<(), NoMemory>
    ensures text { OnOk result (out.new.bytes ≡ out.old.bytes ++ (name.now ++ decimal number)) }
    ensures room { KeepsRoom out.old out.new }
{
    out.push(name)?;
    out.push(Buffer::new().format(number))
}

/// Appends the number of the lines, and their text.
fn push_counted(count: u32, lines: &str, out: &mut Text) -> Result<(), NoMemory>
    ensures text { OnOk result (out.new.bytes
        ≡ out.old.bytes ++ (codes " lines=" ++ (decimal count ++ lines.now))) }
    ensures room { KeepsRoom out.old out.new }
{
    push_named(" lines=", u64::from(count), out)?;
    out.push(lines)
}

/// Appends the value of the cell.
fn push_cell<L: Ledger>(
    alloc: Global,
    unit: &PreparedUnit,
    state: &State,
    cell: CellName,
    out: &mut Text,
    steps: &mut Steps<L>,
) -> Result<(), NoMemory>
    requires own { IsStateOf unit.now state.now }
    requires sound { IsSoundRun unit.now (run_of state.now) }
    requires cell { HasPropertyCell unit.now (run_of state.now) cell }
    ensures text { OnOk result (out.new.bytes ≡ out.old.bytes
        ++ (codes " value=" ++ printed_value ((run_of state.now).cells cell))) }
    ensures room { KeepsRoom out.old out.new }
    ensures cost { steps.new ≤ steps.old + 1 }
{
    out.push(" value=")?;
    push_value(alloc, state.get(cell, steps), out)?;
    Ok(())
}

/// Appends the person's tree.
fn push_tree<L: Ledger>(
    alloc: Global,
    unit: &PreparedUnit,
    state: &State,
    person: PersonNo,
    out: &mut Text,
    steps: &mut Steps<L>,
) -> Result<(), NoMemory>
    requires { IsStateOf unit.now state.now }
    ensures text { OnOk result (out.new.bytes ≡ out.old.bytes ++ counted_lines (map line_text
        (tree_lines unit.now (seen_in unit.now (run_of state.now)) person.0))) }
    ensures room { KeepsRoom out.old out.new }
    ensures cost { steps.new ≤ steps.old + length (tree_looks unit.now
        (seen_in unit.now (run_of state.now)) person.0) }
{
    let mut text = String::from_str(alloc, out.as_str())?;
    text.push_str(" lines=")?;
    let at = text.as_str().len();
    text.push_str(PLACE_OF_COUNT)?;
    let (mut text, count) = tree_text(alloc, unit.scope(state), person, text, steps)?;
    text.replace_range(at..at + PLACE_OF_COUNT.len(), Buffer::new().format(count))?;
    out.clear();
    out.append(text)?;
    Ok(())
}

/// What stands for the number of a tree's lines until they are printed. A long tree has mostly a
/// number of this many digits, and then none of its lines has to be moved for it.
const PLACE_OF_COUNT: &str = "0000";

/// Appends the notices to the person.
fn push_outbox(
    alloc: Global,
    unit: &PreparedUnit,
    state: &State,
    person: PersonNo,
    out: &mut Text,
) -> Result<(), NoMemory>
    requires { AreNoticesOf unit.now state.now.outbox }
    ensures text { OnOk result (out.new.bytes ≡ out.old.bytes
        ++ counted_lines (map spaced (outbox_lines unit.now (run_of state.now) person.0))) }
    ensures room { KeepsRoom out.old out.new }
{
    let mut lines = Lines::new(alloc);
    put_outbox(alloc, unit, state.outbox(), person, &mut lines)?;
    push_counted(lines.count(), lines.as_str(), out)?;
    Ok(())
}

/// Appends the report on the run.
fn push_report<L: Ledger>(
    alloc: Global,
    unit: &PreparedUnit,
    state: &State,
    out: &mut Text,
    steps: &mut Steps<L>,
) -> Result<(), NoMemory>
    requires own { IsStateOf unit.now state.now }
    requires sound { IsSoundRun unit.now (run_of state.now) }
    ensures text { OnOk result (out.new.bytes ≡ out.old.bytes
        ++ counted_lines (map spaced (report_lines unit.now (run_of state.now)))) }
    ensures room { KeepsRoom out.old out.new }
    ensures cost { steps.new ≤ steps.old + report_steps unit.now }
{
    let mut lines = Lines::new(alloc);
    put_report(alloc, unit, state, &mut lines, steps)?;
    push_counted(lines.count(), lines.as_str(), out)?;
    Ok(())
}
