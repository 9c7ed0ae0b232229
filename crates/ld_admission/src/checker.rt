//! The checks of moments and persons.
#![tactic(auto, using(crate::proofs::FaultChecks::exists_already, crate::proofs::FaultChecks::may_join, crate::proofs::FaultChecks::no_fault, crate::proofs::FaultChecks::seats_taken))]

ghost use Rattle.std.specs.Prelude.{◌≡◌, ◌+◌, ◌<◌, ◌≤◌, ℕ, length, None, Err, IfOk, IfErr, OnOk, false, true};
ghost use Rattle.ld_roles.specs.Refusals.{enrol_fault};
ghost use Rattle.ld_firing.specs.RunSystem.{IsSoundRun};
ghost use Rattle.ld_admission.specs.CheckStages.{Rest, acting, enrolling, in_running};
ghost use Rattle.ld_admission.specs.Checks.{in_time, is_started, last_moment, not_running, running, the_person};
ghost use Rattle.ld_admission.specs.RefusalView.{answer_of, refusal_of};
ghost use Rattle.ld_state.specs.StateView.{IsStateOf, run_of};

use crate::refusal::Refusal;
use ld_base::{Id, PersonNo, Steps};
use ld_model::{CellName, View};
use ld_roles::SEATS;
use ld_rules::PreparedUnit;
use ld_state::State;
use ld_value::{Moment, Value};
use std::sync::ledger::Ledger;

/// A run of a unit, of which a command is asked.
#[derive(Drop)]
pub(crate) struct Checker<'a, 's> {
    pub(crate) unit: &'a PreparedUnit,
    pub(crate) state: &'s State,
    ghost own: { IsStateOf unit.now state.now },
    ghost sound: { IsSoundRun unit.now (run_of state.now) },
}

impl<'a, 's> Checker<'a, 's> {
    /// The moment of the last command, which each run has.
    fn last_moment<L: Ledger>(&self, steps: &mut Steps<L>) -> Moment
        ensures value { result.0 ≡ last_moment (run_of self.now.state.now) }
        ensures cost { steps.new ≡ steps.old + 1 }
    {
        match self.state.get(CellName::Now, steps) {
            Some(Value::Moment(moment)) => *moment,
            _ => Moment(0),
        }
    }

    /// Whether the run has been started.
    pub(crate) fn is_started<L: Ledger>(&self, steps: &mut Steps<L>) -> bool
        ensures value { result ≡ is_started (run_of self.now.state.now) }
        ensures cost { steps.new ≡ steps.old + 1 }
    {
        self.state.get(CellName::Started, steps).is_some()
    }

    /// Passes unless the moment is before that of the last command.
    pub(crate) fn in_time<L: Ledger>(
        &self,
        moment: Moment,
        steps: &mut Steps<L>,
    ) -> Result<(), Refusal<'a>>
        ensures passed { answer_of (λ _. tt) result
            ≡ in_time (run_of self.now.state.now) moment.0 }
        ensures cost { steps.new ≡ steps.old + 1 }
    {
        let last = self.last_moment(steps);
        if moment.0 < last.0 {
            return Err(Refusal::MomentBack(last));
        }
        Ok(())
    }

    /// Passes where the run has been started.
    fn running<L: Ledger>(&self, steps: &mut Steps<L>) -> Result<(), Refusal<'a>>
        ensures passed { answer_of (λ _. tt) result ≡ running (run_of self.now.state.now) }
        ensures started { IfOk result (λ _. is_started (run_of self.now.state.now) ≡ true) }
        ensures cost { steps.new ≡ steps.old + 1 }
    {
        if !self.is_started(steps) {
            return Err(Refusal::NotStarted);
        }
        Ok(())
    }

    /// Passes where the run has not been started.
    pub(crate) fn not_running<L: Ledger>(&self, steps: &mut Steps<L>) -> Result<(), Refusal<'a>>
        ensures passed { answer_of (λ _. tt) result ≡ not_running (run_of self.now.state.now) }
        ensures closed { IfOk result (λ _. is_started (run_of self.now.state.now) ≡ false) }
        ensures cost { steps.new ≡ steps.old + 1 }
    {
        if self.is_started(steps) {
            return Err(Refusal::StartedAlready);
        }
        Ok(())
    }

    /// The person of this name.
    pub(crate) fn the_person(&self, name: &Id) -> Result<PersonNo, Refusal<'a>>
        ensures person { answer_of (λ person. person.0) result
            ≡ the_person (run_of self.now.state.now) name.now }
        ensures within { IfOk result (λ person. person.0 < length self.now.state.now.rows) }
    {
        match self.state.roster().person(name) {
            Some(person) => Ok(person),
            None => Err(Refusal::UnknownPerson),
        }
    }

    /// Passes where the moment is in time and the run has been started.
    pub(crate) fn in_running<L: Ledger>(
        &self,
        moment: Moment,
        steps: &mut Steps<L>,
    ) -> Result<(), Refusal<'a>>
        ensures passes { OnOk result ((next : Rest)
            → in_running (run_of self.now.state.now) moment.0 next ≡ next) }
        ensures refused { IfErr result (λ refusal. (next : Rest)
            → in_running (run_of self.now.state.now) moment.0 next
            ≡ Err (refusal_of refusal)) }
        ensures started { IfOk result (λ _. is_started (run_of self.now.state.now) ≡ true) }
        ensures cost { steps.new ≤ steps.old + 2 }
    {
        self.in_time(moment, steps)?;
        self.running(steps)
    }

    /// The person who acts: the moment is in time, the run has been started, and the person is
    /// there.
    pub(crate) fn acting<L: Ledger>(
        &self,
        moment: Moment,
        name: &Id,
        steps: &mut Steps<L>,
    ) -> Result<PersonNo, Refusal<'a>>
        ensures person { IfOk result (λ person. (next : ℕ → Rest)
            → acting (run_of self.now.state.now) moment.0 name.now next ≡ next person.0) }
        ensures refused { IfErr result (λ refusal. (next : ℕ → Rest)
            → acting (run_of self.now.state.now) moment.0 name.now next
            ≡ Err (refusal_of refusal)) }
        ensures within { IfOk result (λ person. person.0 < length self.now.state.now.rows) }
        ensures cost { steps.new ≤ steps.old + 2 }
    {
        self.in_running(moment, steps)?;
        self.the_person(name)
    }

    /// Passes where nothing stands against the enrolment of a person of this name.
    pub(crate) fn may_enrol(&self, name: &Id) -> Result<(), Refusal<'a>>
        ensures passes { OnOk result ((next : Rest)
            → enrolling (run_of self.now.state.now) name.now next ≡ next) }
        ensures refused { IfErr result (λ refusal. (next : Rest)
            → enrolling (run_of self.now.state.now) name.now next
            ≡ Err (refusal_of refusal)) }
        ensures possible { OnOk result
            (enrol_fault SEATS (run_of self.now.state.now).persons name.now ≡ None) }
    {
        let roster = self.state.roster();
        if let Some(_) = roster.person(name) {
            return Err(Refusal::PersonExists);
        }
        if SEATS <= roster.persons() as usize {
            return Err(Refusal::RunFull);
        }
        Ok(())
    }
}
