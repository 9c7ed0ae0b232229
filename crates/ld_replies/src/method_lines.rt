//! The lines of a report that tell what is done of the method, and what is opened.
ghost use Rattle.std.specs.Prelude.{◌≡◌, ◌+◌, ◌≤◌, ◌∷◌, [], codes, fold, flat_map, is_some, length, OnOk, option_copied, option_map};
ghost use Rattle.std.specs.List.{sum_by};
ghost use Rattle.std.specs.Option.{ForSome};
ghost use Rattle.ld_model.specs.declared.cell.CellName.TheVariants.{Started};
ghost use Rattle.ld_model.specs.declared.cell.Owner.TheVariants.{Run};
ghost use Rattle.ld_expr.specs.Done.{is_done};
ghost use Rattle.ld_expr.specs.Seen.{moment_of_value};
ghost use Rattle.ld_rules.specs.SiteTests.{is_opened, opening_of};
ghost use Rattle.ld_value.specs.Calendar.{IsMoment};
ghost use Rattle.ld_value.specs.Datum.{datum_of};
ghost use Rattle.ld_replies.specs.Printed.{printed_after, worded};
ghost use Rattle.ld_replies.specs.Printing.{HasMoments};
ghost use Rattle.ld_replies.specs.Reports.{done_or_open, moment_word, progress_word, report_of_act, report_of_part, report_of_play};
ghost use Rattle.ld_replies.specs.ShownSteps.{act_steps, play_steps};

use crate::printed::Lines;
use ld_base::{Id, NoMemory, Steps};
use ld_expr::{Scope, thing_number};
use ld_model::{Act, CellName, Owner, Play, RolePart, View};
use ld_value::Value;
use std::sync::ledger::Ledger;

/// What a report of the method is made from. (docs/COMMANDS.md, "Replies")
#[derive(Drop)]
pub(crate) struct Reporter<'a, V: View> {
    pub(crate) scope: Scope<'a, V>,
    ghost dated: { HasMoments (V.seen scope.view.now).value },
}

impl<'a, V: View> Reporter<'a, V> {
    /// Puts when the run was started.
    pub(crate) fn put_start<L: Ledger>(
        &self,
        lines: &mut Lines,
        steps: &mut Steps<L>,
    ) -> Result<(), NoMemory>
        ensures lines { OnOk result (lines.new ≡ printed_after lines.old
            (codes "started" ∷ moment_word ((V.seen self.now.scope.view.now).value Started))) }
        ensures cost { steps.new ≤ steps.old + 1 }
    {
        lines.begin("started")?;
        add_moment_of(self.look(CellName::Started, steps), lines)?;
        Ok(())
    }

    /// Puts the plays, each with its acts and their role-parts.
    pub(crate) fn put_plays<L: Ledger>(
        &self,
        plays: &[Play],
        lines: &mut Lines,
        steps: &mut Steps<L>,
    ) -> Result<(), NoMemory>
        ensures lines { OnOk result (lines.new ≡ fold printed_after lines.old
            (flat_map (report_of_play self.now.scope.unit.now
            (V.seen self.now.scope.view.now)) plays.now)) }
        ensures cost { steps.new ≤ steps.old + sum_by play_steps plays.now }
    {
        for play in plays {
            self.put_play(play, lines, steps)?;
        }
        Ok(())
    }

    /// Puts whether the unit is done.
    pub(crate) fn put_unit<L: Ledger>(
        &self,
        lines: &mut Lines,
        steps: &mut Steps<L>,
    ) -> Result<(), NoMemory>
        ensures lines { OnOk result (lines.new ≡ printed_after lines.old
            (codes "unit" ∷ self.now.scope.unit.now.identifier ∷ done_or_open (is_done self.now.scope.unit.now
            (V.seen self.now.scope.view.now) Run
            self.now.scope.unit.now.identifier) ∷ [])) }
        ensures cost { steps.new ≤ steps.old + 1 }
    {
        let done = self.is_done(&self.scope.unit.identifier, steps);
        lines.begin("unit")?;
        lines.add(self.scope.unit.identifier.as_str())?;
        lines.add(done_or_open(done))?;
        Ok(())
    }

    /// Puts the play and its acts.
    fn put_play<L: Ledger>(
        &self,
        play: &Play,
        lines: &mut Lines,
        steps: &mut Steps<L>,
    ) -> Result<(), NoMemory>
        ensures lines { OnOk result (lines.new ≡ fold printed_after lines.old
            (report_of_play self.now.scope.unit.now
            (V.seen self.now.scope.view.now) play.now)) }
        ensures cost { steps.new ≤ steps.old + play_steps play.now }
    {
        let done = self.is_done(&play.identifier, steps);
        lines.begin("play")?;
        lines.add(play.identifier.as_str())?;
        lines.add(done_or_open(done))?;
        self.put_acts(play.acts.as_slice(), lines, steps)?;
        Ok(())
    }

    /// Puts the acts and their role-parts.
    fn put_acts<L: Ledger>(
        &self,
        acts: &[Act],
        lines: &mut Lines,
        steps: &mut Steps<L>,
    ) -> Result<(), NoMemory>
        ensures lines { OnOk result (lines.new ≡ fold printed_after lines.old
            (flat_map (report_of_act self.now.scope.unit.now
            (V.seen self.now.scope.view.now)) acts.now)) }
        ensures cost { steps.new ≤ steps.old + sum_by act_steps acts.now }
    {
        for act in acts {
            self.put_act(act, lines, steps)?;
        }
        Ok(())
    }

    /// Puts the act, with the moment of its opening if there was one, and its role-parts.
    fn put_act<L: Ledger>(
        &self,
        act: &Act,
        lines: &mut Lines,
        steps: &mut Steps<L>,
    ) -> Result<(), NoMemory>
        ensures lines { OnOk result (lines.new ≡ fold printed_after lines.old
            (report_of_act self.now.scope.unit.now
            (V.seen self.now.scope.view.now) act.now)) }
        ensures cost { steps.new ≤ steps.old + act_steps act.now }
    {
        let opening = self.opening(act, steps);
        let opened = opening.is_some();
        let done = self.is_done(&act.identifier, steps);
        lines.begin("act")?;
        lines.add(act.identifier.as_str())?;
        lines.add(progress_word(done, opened))?;
        add_moment_of(opening, lines)?;
        self.put_parts(act, opened, lines, steps)?;
        Ok(())
    }

    /// Puts the role-parts of the act, of which it is said whether it is opened.
    fn put_parts<L: Ledger>(
        &self,
        act: &Act,
        opened: bool,
        lines: &mut Lines,
        steps: &mut Steps<L>,
    ) -> Result<(), NoMemory>
        requires { opened ≡ is_opened self.now.scope.unit.now
            (V.seen self.now.scope.view.now) act.now }
        ensures lines { OnOk result (lines.new ≡ fold printed_after lines.old
            (flat_map (λ part. report_of_part self.now.scope.unit.now
            (V.seen self.now.scope.view.now) act.now part ∷ [])
            act.now.role_parts)) }
        ensures cost { steps.new ≤ steps.old + length act.now.role_parts }
    {
        for part in act.role_parts.as_slice() {
            self.put_part(part, opened, lines, steps)?;
        }
        Ok(())
    }

    /// Puts the role-part of an act, of which it is said whether it is opened.
    fn put_part<L: Ledger>(
        &self,
        part: &RolePart,
        opened: bool,
        lines: &mut Lines,
        steps: &mut Steps<L>,
    ) -> Result<(), NoMemory>
        ensures lines { OnOk result (lines.new ≡ printed_after lines.old
            (codes "part" ∷ part.now.identifier ∷ progress_word (is_done self.now.scope.unit.now
            (V.seen self.now.scope.view.now) Run
            part.now.identifier) opened ∷ [])) }
        ensures cost { steps.new ≤ steps.old + 1 }
    {
        let done = self.is_done(&part.identifier, steps);
        lines.begin("part")?;
        lines.add(part.identifier.as_str())?;
        lines.add(progress_word(done, opened))?;
        Ok(())
    }

    /// Whether what the identifier names is done for the run.
    fn is_done<L: Ledger>(&self, id: &Id, steps: &mut Steps<L>) -> bool
        ensures value { result ≡ is_done self.now.scope.unit.now
            (V.seen self.now.scope.view.now) Run id.now }
        ensures cost { steps.new ≤ steps.old + 1 }
    {
        self.scope.is_done(Owner::Run, id, steps)
    }

    /// The value that tells when the act was opened.
    fn opening<L: Ledger>(&self, act: &Act, steps: &mut Steps<L>) -> Option<&'a Value>
        ensures value { option_map datum_of (option_copied result) ≡ opening_of self.now.scope.unit.now
            (V.seen self.now.scope.view.now) act.now }
        ensures dated { ForSome (moment_of_value (option_map datum_of (option_copied result)))
            IsMoment }
        ensures cost { steps.new ≤ steps.old + 1 }
    {
        let thing = thing_number(self.scope.unit, self.scope.names, &act.identifier)?;
        self.look(CellName::ActOpened(thing), steps)
    }

    /// The value of the cell.
    fn look<L: Ledger>(&self, cell: CellName, steps: &mut Steps<L>) -> Option<&'a Value>
        ensures value { option_map datum_of (option_copied result)
            ≡ (V.seen self.now.scope.view.now).value cell }
        ensures dated { ForSome (moment_of_value (option_map datum_of (option_copied result)))
            IsMoment }
        ensures cost { steps.new ≡ steps.old + 1 }
    {
        self.scope.view.get(cell, steps)
    }
}

/// Adds the moment that the value is, if it is one.
fn add_moment_of(value: Option<&Value>, lines: &mut Lines) -> Result<(), NoMemory>
    requires { ForSome (moment_of_value (option_map datum_of (option_copied value))) IsMoment }
    ensures { OnOk result (lines.new ≡ fold worded lines.old
        (moment_word (option_map datum_of (option_copied value.entry)))) }
{
    match value {
        Some(Value::Moment(moment)) => lines.add_moment(*moment),
        _ => Ok(()),
    }
}

/// What is told of something that is done, or is not.
fn done_or_open(done: bool) -> &'static str
    ensures { result.now ≡ done_or_open done }
{
    if done {
        return "done";
    }
    "open"
}

/// The same of something in an act that is opened, or is not.
fn progress_word(done: bool, opened: bool) -> &'static str
    ensures { result.now ≡ progress_word done opened }
{
    if done {
        return "done";
    }
    if opened {
        return "open";
    }
    "waiting"
}
