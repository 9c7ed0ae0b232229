//! The checks of a command.
ghost use Rattle.std.specs.Prelude.{◌≡◌, ◌+◌, ◌≤◌, IfErr, IfOk, Ok, false};
ghost use Rattle.ld_state.specs.StateView.{IsStateOf, run_of};
ghost use Rattle.ld_firing.specs.RunSystem.{IsSoundRun};
ghost use Rattle.ld_admission.specs.AdmittedView.{AnswersAsked, IsPossible, admitted_of, wants_memory};
ghost use Rattle.ld_admission.specs.CheckSteps.{check_steps};
ghost use Rattle.ld_admission.specs.Checks.{admitted};
ghost use Rattle.ld_admission.specs.RefusalView.{RefusesWith, answer_of};

use crate::admitted::Admitted;
use crate::checker::Checker;
use crate::refusal::Refusal;
use ld_base::Steps;
use ld_lines::RunCommand;
use ld_rules::PreparedUnit;
use ld_state::State;
use ld_value::Moment;
use std::alloc::Global;
use std::sync::ledger::Ledger;

/// The command once it is admitted, or the first of its checks that fails. What it names is looked
/// up here, once. Memory is wanted for the value of a text that is set, and for nothing else.
/// (docs/MEANING.md, "A command")
pub fn admit<'a, L: Ledger>(
    alloc: Global,
    unit: &'a PreparedUnit,
    state: &State,
    moment: Moment,
    command: &'a RunCommand,
    steps: &mut Steps<L>,
) -> Result<Admitted<'a>, Refusal<'a>>
    requires own { IsStateOf unit.now state.now }
    requires sound { IsSoundRun unit.now (run_of state.now) }
    ensures admitted { IfOk result (λ done.
        admitted unit.now (run_of state.now) moment.0 command.now ≡ Ok (admitted_of done)) }
    ensures possible { IfOk result (λ done.
        IsPossible unit.now (run_of state.now) (admitted_of done)) }
    ensures refused { IfErr result
        (RefusesWith (admitted unit.now (run_of state.now) moment.0 command.now)) }
    ensures exact { wants_memory command.now ≡ false
        → answer_of admitted_of result ≡ admitted unit.now (run_of state.now) moment.0 command.now }
    ensures cost { steps.new ≤ steps.old + check_steps command.now }
{
    let checker = Checker { unit, state };
    checker.check(alloc, moment, command, steps)
}

impl<'a, 's> Checker<'a, 's> {
    /// Makes the checks of the command.
    fn check<L: Ledger>(
        &self,
        alloc: Global,
        moment: Moment,
        command: &'a RunCommand,
        steps: &mut Steps<L>,
    ) -> Result<Admitted<'a>, Refusal<'a>>
        ensures answer { AnswersAsked self.now.unit.now (run_of self.now.state.now) moment.0
            command.now result }
        ensures cost { steps.new ≤ steps.old + check_steps command.now }
    {
        match command {
            RunCommand::Enrol { person } => self.check_enrol(moment, person, steps),
            RunCommand::Assign { person, role } => self.check_assign(moment, person, role, steps),
            RunCommand::Drop { person, role } => self.check_drop(moment, person, role, steps),
            RunCommand::Start => self.check_start(moment, steps),
            RunCommand::Open { person, activity } => {
                self.check_open(moment, person, activity, steps)
            }
            RunCommand::Complete { person, activity } => {
                self.check_complete(moment, person, activity, steps)
            }
            RunCommand::Set {
                person,
                property,
                value,
            } => self.check_set(alloc, moment, person, property, value, steps),
            RunCommand::Clear { person, property } => {
                self.check_clear(moment, person, property, steps)
            }
            RunCommand::Get { person, property } => self.check_get(moment, person, property, steps),
            RunCommand::Tree { person } => self.check_tree(moment, person, steps),
            RunCommand::Outbox { person } => self.check_outbox(moment, person, steps),
            RunCommand::Report => self.check_report(moment, steps),
            RunCommand::Tick => self.check_tick(moment, steps),
            RunCommand::Next => self.check_next(moment, steps),
        }
    }
}
