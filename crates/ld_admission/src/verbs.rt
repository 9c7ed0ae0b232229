//! The checks of each command.
#![tactic(auto, unfolding(crate::specs::Checks::admitted), using(crate::proofs::CheckParts::admitted_drop, crate::proofs::NamedParts::cell_suits))]

ghost use Rattle.std.specs.Prelude.{◌≡◌, ◌+◌, ◌≤◌};
ghost use Rattle.ld_lines.specs.declared.command.RunCommand.TheVariants as asked;
ghost use Rattle.ld_admission.specs.AdmittedView.{Answers, AnswersInMemory};
ghost use Rattle.ld_state.specs.StateView.{run_of};

use crate::activity_checks::only_by_choice;
use crate::admitted::Admitted;
use crate::checker::Checker;
use crate::refusal::Refusal;
use ld_base::{Id, PlainText, Steps};
use ld_value::Moment;
use std::alloc::Global;
use std::sync::ledger::Ledger;

impl<'a, 's> Checker<'a, 's> {
    /// Checks that a person of this name may join the run.
    pub(crate) fn check_enrol<L: Ledger>(
        &self,
        moment: Moment,
        name: &'a Id,
        steps: &mut Steps<L>,
    ) -> Result<Admitted<'a>, Refusal<'a>>
        ensures answer { Answers self.now.unit.now (run_of self.now.state.now) moment.0
            (asked.Enrol name.now) result }
        ensures cost { steps.new ≡ steps.old + 1 }
    {
        self.in_time(moment, steps)?;
        self.may_enrol(name)?;
        Ok(Admitted::Enrols(name))
    }

    /// Checks that the person may be given the role.
    pub(crate) fn check_assign<L: Ledger>(
        &self,
        moment: Moment,
        name: &Id,
        role: &Id,
        steps: &mut Steps<L>,
    ) -> Result<Admitted<'a>, Refusal<'a>>
        ensures answer { Answers self.now.unit.now (run_of self.now.state.now) moment.0
            (asked.Assign name.now role.now) result }
        ensures cost { steps.new ≡ steps.old + 1 }
    {
        self.in_time(moment, steps)?;
        let person = self.the_person(name)?;
        let role = self.the_role(role)?;
        self.may_assign(person, role)?;
        Ok(Admitted::Assigns(person, role))
    }

    /// Checks that the person may drop the role.
    pub(crate) fn check_drop<L: Ledger>(
        &self,
        moment: Moment,
        name: &Id,
        role: &Id,
        steps: &mut Steps<L>,
    ) -> Result<Admitted<'a>, Refusal<'a>>
        ensures answer { Answers self.now.unit.now (run_of self.now.state.now) moment.0
            (asked.Drop name.now role.now) result }
        ensures cost { steps.new ≤ steps.old + 2 }
    {
        self.in_time(moment, steps)?;
        let person = self.the_person(name)?;
        let role = self.the_role(role)?;
        self.may_drop(person, role, steps)?;
        Ok(Admitted::Drops(person, role))
    }

    /// Checks that the run may start.
    pub(crate) fn check_start<L: Ledger>(
        &self,
        moment: Moment,
        steps: &mut Steps<L>,
    ) -> Result<Admitted<'a>, Refusal<'a>>
        ensures answer { Answers self.now.unit.now (run_of self.now.state.now) moment.0
            asked.Start result }
        ensures cost { steps.new ≤ steps.old + 2 }
    {
        self.in_time(moment, steps)?;
        self.not_running(steps)?;
        self.none_short()?;
        Ok(Admitted::Starts)
    }

    /// Checks that the person and the activity are there. Whether it is open is asked once the run
    /// has settled.
    pub(crate) fn check_open<L: Ledger>(
        &self,
        moment: Moment,
        name: &Id,
        activity: &Id,
        steps: &mut Steps<L>,
    ) -> Result<Admitted<'a>, Refusal<'a>>
        ensures answer { Answers self.now.unit.now (run_of self.now.state.now) moment.0
            (asked.Open name.now activity.now) result }
        ensures cost { steps.new ≤ steps.old + 2 }
    {
        let person = self.acting(moment, name, steps)?;
        let (number, _) = self.the_activity(activity)?;
        Ok(Admitted::Opens(person, number))
    }

    /// Checks that the person and the activity are there, and that it is completed by its person's
    /// choice.
    pub(crate) fn check_complete<L: Ledger>(
        &self,
        moment: Moment,
        name: &Id,
        activity: &Id,
        steps: &mut Steps<L>,
    ) -> Result<Admitted<'a>, Refusal<'a>>
        ensures answer { Answers self.now.unit.now (run_of self.now.state.now) moment.0
            (asked.Complete name.now activity.now) result }
        ensures cost { steps.new ≤ steps.old + 2 }
    {
        let person = self.acting(moment, name, steps)?;
        let (number, found) = self.the_activity(activity)?;
        only_by_choice(found)?;
        Ok(Admitted::Completes(person, number))
    }

    /// Checks that the person may give the property the value that the text has.
    pub(crate) fn check_set<L: Ledger>(
        &self,
        alloc: Global,
        moment: Moment,
        name: &Id,
        property: &Id,
        text: &PlainText,
        steps: &mut Steps<L>,
    ) -> Result<Admitted<'a>, Refusal<'a>>
        ensures answer { AnswersInMemory self.now.unit.now (run_of self.now.state.now) moment.0
            (asked.Set name.now property.now text.now) result }
        ensures cost { steps.new ≤ steps.old + 3 }
    {
        let person = self.acting(moment, name, steps)?;
        let (number, found) = self.the_property(property)?;
        let value = self.fitting_value(alloc, number, found, text)?;
        self.may_write(person, found, steps)?;
        Ok(Admitted::Sets(self.own_cell(person, number, found), value))
    }

    /// Checks that the person may take the property's value away.
    pub(crate) fn check_clear<L: Ledger>(
        &self,
        moment: Moment,
        name: &Id,
        property: &Id,
        steps: &mut Steps<L>,
    ) -> Result<Admitted<'a>, Refusal<'a>>
        ensures answer { Answers self.now.unit.now (run_of self.now.state.now) moment.0
            (asked.Clear name.now property.now) result }
        ensures cost { steps.new ≤ steps.old + 3 }
    {
        let person = self.acting(moment, name, steps)?;
        let (number, found) = self.the_property(property)?;
        self.may_write(person, found, steps)?;
        Ok(Admitted::Clears(self.own_cell(person, number, found)))
    }

    /// Checks that the person may be told the property's value.
    pub(crate) fn check_get<L: Ledger>(
        &self,
        moment: Moment,
        name: &Id,
        property: &Id,
        steps: &mut Steps<L>,
    ) -> Result<Admitted<'a>, Refusal<'a>>
        ensures answer { Answers self.now.unit.now (run_of self.now.state.now) moment.0
            (asked.Get name.now property.now) result }
        ensures cost { steps.new ≤ steps.old + 2 }
    {
        let person = self.acting(moment, name, steps)?;
        let (number, found) = self.the_property(property)?;
        Ok(Admitted::Gets(self.own_cell(person, number, found)))
    }

    /// Checks that the person may be shown the activity tree.
    pub(crate) fn check_tree<L: Ledger>(
        &self,
        moment: Moment,
        name: &Id,
        steps: &mut Steps<L>,
    ) -> Result<Admitted<'a>, Refusal<'a>>
        ensures answer { Answers self.now.unit.now (run_of self.now.state.now) moment.0
            (asked.Tree name.now) result }
        ensures cost { steps.new ≤ steps.old + 2 }
    {
        Ok(Admitted::ShowsTree(self.acting(moment, name, steps)?))
    }

    /// Checks that the person may be shown the notices.
    pub(crate) fn check_outbox<L: Ledger>(
        &self,
        moment: Moment,
        name: &Id,
        steps: &mut Steps<L>,
    ) -> Result<Admitted<'a>, Refusal<'a>>
        ensures answer { Answers self.now.unit.now (run_of self.now.state.now) moment.0
            (asked.Outbox name.now) result }
        ensures cost { steps.new ≤ steps.old + 2 }
    {
        Ok(Admitted::ShowsOutbox(self.acting(moment, name, steps)?))
    }

    /// Checks that the state of the run may be told.
    pub(crate) fn check_report<L: Ledger>(
        &self,
        moment: Moment,
        steps: &mut Steps<L>,
    ) -> Result<Admitted<'a>, Refusal<'a>>
        ensures answer { Answers self.now.unit.now (run_of self.now.state.now) moment.0
            asked.Report result }
        ensures cost { steps.new ≤ steps.old + 2 }
    {
        self.in_running(moment, steps)?;
        Ok(Admitted::Reports)
    }

    /// Checks that time may pass.
    pub(crate) fn check_tick<L: Ledger>(
        &self,
        moment: Moment,
        steps: &mut Steps<L>,
    ) -> Result<Admitted<'a>, Refusal<'a>>
        ensures answer { Answers self.now.unit.now (run_of self.now.state.now) moment.0
            asked.Tick result }
        ensures cost { steps.new ≤ steps.old + 2 }
    {
        self.in_running(moment, steps)?;
        Ok(Admitted::Ticks)
    }

    /// Checks that the next alarm of the run may be told.
    pub(crate) fn check_next<L: Ledger>(
        &self,
        moment: Moment,
        steps: &mut Steps<L>,
    ) -> Result<Admitted<'a>, Refusal<'a>>
        ensures answer { Answers self.now.unit.now (run_of self.now.state.now) moment.0
            asked.Next result }
        ensures cost { steps.new ≤ steps.old + 2 }
    {
        self.in_running(moment, steps)?;
        Ok(Admitted::ShowsNext)
    }
}
