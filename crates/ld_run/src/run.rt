//! A run of a unit.
ghost use Rattle.std.specs.Prelude.{◌≡◌, ◌+◌, ◌≤◌, Err, IfOk, None, false};
ghost use Rattle.ld_base.specs.Roomy.{room_of};
ghost use Rattle.ld_globals.specs.Store.{KeepsWrites};
ghost use Rattle.ld_roles.specs.declared.limit.TheConstants.{SEATS};
ghost use Rattle.ld_state.specs.RunState.{made_at};
ghost use Rattle.ld_state.specs.StateView.{IsStateOf, run_of};
ghost use Rattle.ld_value.specs.Calendar.{IsMoment};
ghost use Rattle.ld_sharing.specs.Current.{IsCurrentAsOf};
ghost use Rattle.ld_sharing.specs.StoreView.{Serves, shared_count, values_of};
ghost use Rattle.ld_admission.specs.AdmittedView.{wants_memory};
ghost use Rattle.ld_admission.specs.Checks.{admitted};
ghost use Rattle.ld_admission.specs.Refusals.{Refusal};
ghost use Rattle.ld_run.specs.CommandWork.{command_steps};
ghost use Rattle.ld_run.specs.Reply.{StampAfter, reply_to_refusal};
ghost use Rattle.ld_run.specs.Linked.{HasLinks as AreLinked};
ghost use Rattle.ld_run.specs.Reached.{IsReached};
ghost use Rattle.ld_run.specs.Running.{IsInOrder};
ghost use Rattle.ld_run.specs.RunView.{AnswersCommand};

use crate::command_room::{CommandRoom, Scratch};
use crate::reply::Reply;
use crate::stages::step;
use ld_base::{NoMemory, Steps, Text};
use ld_cells::UndoLog;
use ld_globals::Globals;
use ld_lines::RunCommand;
use ld_replies::tell_refusal;
use ld_rules::PreparedUnit;
use ld_settling::RunLinks;
use ld_sharing::stored_values;
use ld_state::State;
use ld_value::Moment;
use std::alloc::Global;
use std::marker::Model;
use std::rc::Rc;
use std::sync::ledger::Ledger;

/// A run of a unit. Contracts see it as the unit, the state of the run, the links of its sites, and
/// the stamp of the store up to which it has taken in the store's values. (docs/MEANING.md, "A
/// command")
pub struct Run {
    unit: Rc<PreparedUnit>,
    state: State,
    /// Those of its sites, once it is started.
    links: RunLinks,
    /// The store's stamp after the last command that was done, or when the run was made: up to it
    /// the run has taken in what the store holds.
    stamp: u64,
}

// By hand, so that a function which lets one go calls this and is not proved over each field again.
impl Drop for Run {
    fn drop(self) {
        let Self {
            unit: _,
            state: _,
            links: _,
            stamp: _,
        } = self;
    }
}

impl Model for Run {
    ghost use Rattle.std.specs.Coded.{codes};
    ghost use Rattle.ld_model.specs.ExpressionCodes.{coded_term, coded_test};
    ghost use Rattle.ld_run.specs.RunView.{RunView};

    ghost Value = { RunView };

    ghost coded = { Prim.hlevel (codes, coded_term, coded_test) };

    ghost use Rattle.std.specs.Prelude.{◌≡◌, None};
    ghost use Rattle.ld_state.specs.StateView.{IsStateOf, run_of as state_of};
    ghost use Rattle.ld_run.specs.Reached.{IsReached as HasCome};
    ghost use Rattle.ld_run.specs.Running.{IsRunning};

    ghost view = { λ s. record {
      unit = s.unit.value;
      state = s.state;
      links = s.links;
      stamp = s.stamp;
    } };

    ghost invariant = { λ s. IsStateOf s.unit.value s.state
        × IsRunning s.unit.value (state_of s.state) s.links × (s.state.kept ≡ None)
        × HasCome s.unit.value (state_of s.state) };
}

impl Run {
    /// A run of the unit that is made at this moment. Its global properties have the store's
    /// values. The only error is out of memory.
    pub fn new<L: Ledger>(
        alloc: Global,
        unit: Rc<PreparedUnit>,
        globals: &Globals,
        moment: Moment,
        steps: &mut Steps<L>,
    ) -> Result<Run, NoMemory>
        requires serves { Serves globals.now unit.value }
        requires moment { IsMoment moment.0 }
        ensures unit { IfOk result (λ run. run.unit ≡ unit.value) }
        ensures state { IfOk result (λ run. run_of run.state
            ≡ made_at SEATS unit.value (values_of globals.now) moment.0) }
        ensures reached { IfOk result (λ run. IsReached run.unit (run_of run.state)) }
        ensures linked { IfOk result (λ run. AreLinked run.unit (run_of run.state) run.links) }
        ensures current { IfOk result (λ run.
            IsCurrentAsOf run.unit (run_of run.state) run.stamp globals.now) }
        ensures stamp { IfOk result (λ run. run.stamp ≡ globals.now.stamp) }
        ensures cost { steps.new ≤ steps.old + shared_count unit.value false }
    {
        let links = RunLinks::new(alloc);
        let state = begin(alloc, &unit, globals, moment, steps)?;
        let stamp = globals.stamp();
        Ok(Run {
            unit,
            state,
            links,
            stamp,
        })
    }

    /// Does the command at the moment, or refuses it: the reply says which, and `out` is emptied and
    /// then holds the reply block. The run takes in the store's values of its global properties that
    /// were written since its stamp, and the store takes its values back. Only a command that is done
    /// moves the stamp. Lists that it makes on its way stand in the room that is lent.
    ///
    /// Where memory runs out the reply says so, and the command counts as not given. What a check
    /// refuses is answered by that refusal, with or without memory; the value of a `set` alone may
    /// want some before.
    ///
    /// The steps are within `command_steps`, whatever it answers. A `start` judges every site of the
    /// run; any other command those that read what changed, and those of a person who joins.
    pub fn apply<L: Ledger>(
        &mut self,
        alloc: Global,
        globals: &mut Globals,
        lent: &mut CommandRoom,
        moment: Moment,
        command: &RunCommand,
        out: &mut Text,
        steps: &mut Steps<L>,
    ) -> Reply
        requires serves { Serves globals.old self.old.unit }
        requires current { IsCurrentAsOf self.old.unit (run_of self.old.state) self.old.stamp
            globals.old }
        requires moment { IsMoment moment.0 }
        requires room { 128 ≤ room_of out.old }
        ensures unit { self.new.unit ≡ self.old.unit }
        ensures answers { AnswersCommand self.old.unit (run_of self.old.state)
            (values_of globals.old) moment.0 command.now result out.new.bytes
            (run_of self.new.state) (values_of globals.new) }
        ensures checked { (refusal : Refusal)
            → admitted self.old.unit (run_of self.old.state) moment.0 command.now ≡ Err refusal
            → wants_memory command.now ≡ false → result ≡ reply_to_refusal refusal }
        ensures declared { globals.new.declared ≡ globals.old.declared }
        ensures kept { KeepsWrites globals.old globals.new }
        ensures current { IsCurrentAsOf self.new.unit (run_of self.new.state) self.new.stamp
            globals.new }
        ensures reached { IsReached self.new.unit (run_of self.new.state) }
        ensures linked { AreLinked self.new.unit (run_of self.new.state) self.new.links }
        ensures room { 128 ≤ room_of out.new }
        ensures own { self.new.state.spare ≡ self.old.state.spare }
        ensures stamp { StampAfter result self.old.stamp globals.new.stamp self.new.stamp }
        ensures cost { steps.new
            ≤ steps.old + command_steps self.old globals.old moment.0 command.now }
    {
        self.exchange(&mut lent.undo_log);
        let scratch = &mut lent.scratch;
        let reply = self.answer(alloc, globals, scratch, moment, command, out, steps);
        self.exchange(&mut lent.undo_log);
        reply
    }

    /// Exchanges the room in which the state records writes with that of the log.
    fn exchange(&mut self, undo_log: &mut UndoLog)
        ensures unit { self.new.unit ≡ self.old.unit }
        ensures state { self.new.state ≡ record self.old.state { spare = undo_log.old } }
        ensures log { undo_log.new ≡ self.old.state.spare }
        ensures links { self.new.links ≡ self.old.links }
        ensures stamp { self.new.stamp ≡ self.old.stamp }
    {
        self.state.exchange(undo_log);
    }

    /// Does the command at the moment, or refuses it.
    fn answer<L: Ledger>(
        &mut self,
        alloc: Global,
        globals: &mut Globals,
        scratch: &mut Scratch,
        moment: Moment,
        command: &RunCommand,
        out: &mut Text,
        steps: &mut Steps<L>,
    ) -> Reply
        requires serves { Serves globals.old self.old.unit }
        requires current { IsCurrentAsOf self.old.unit (run_of self.old.state) self.old.stamp
            globals.old }
        requires moment { IsMoment moment.0 }
        requires room { 128 ≤ room_of out.old }
        ensures unit { self.new.unit ≡ self.old.unit }
        ensures answers { AnswersCommand self.old.unit (run_of self.old.state)
            (values_of globals.old) moment.0 command.now result out.new.bytes
            (run_of self.new.state) (values_of globals.new) }
        ensures checked { (refusal : Refusal)
            → admitted self.old.unit (run_of self.old.state) moment.0 command.now ≡ Err refusal
            → wants_memory command.now ≡ false → result ≡ reply_to_refusal refusal }
        ensures declared { globals.new.declared ≡ globals.old.declared }
        ensures kept { KeepsWrites globals.old globals.new }
        ensures current { IsCurrentAsOf self.new.unit (run_of self.new.state) self.new.stamp
            globals.new }
        ensures reached { IsReached self.new.unit (run_of self.new.state) }
        ensures linked { AreLinked self.new.unit (run_of self.new.state) self.new.links }
        ensures room { 128 ≤ room_of out.new }
        ensures stamp { StampAfter result self.old.stamp globals.new.stamp self.new.stamp }
        ensures cost { steps.new
            ≤ steps.old + command_steps self.old globals.old moment.0 command.now }
    {
        let refusal = match step(
            alloc,
            &self.unit,
            &mut self.state,
            &mut self.links,
            globals,
            self.stamp,
            scratch,
            moment,
            command,
            out,
            steps,
        ) {
            Ok(totals) => {
                self.stamp = globals.stamp();
                return Reply::Done(totals);
            }
            Err(refusal) => refusal,
        };
        tell_refusal(refusal, out);
        Reply::refused(refusal)
    }
}

/// The state of a run of the unit that is made at this moment.
fn begin<L: Ledger>(
    alloc: Global,
    unit: &PreparedUnit,
    globals: &Globals,
    moment: Moment,
    steps: &mut Steps<L>,
) -> Result<State, NoMemory>
    requires serves { Serves globals.now unit.now }
    requires moment { IsMoment moment.0 }
    ensures own { IfOk result (IsStateOf unit.now) }
    ensures order { IfOk result (λ state. IsInOrder unit.now (run_of state)) }
    ensures no_savepoint { IfOk result (λ state. state.kept ≡ None) }
    ensures state { IfOk result (λ state. run_of state
        ≡ made_at SEATS unit.now (values_of globals.now) moment.0) }
    ensures cost { steps.new ≤ steps.old + shared_count unit.now false }
{
    // The unit is valid, as the call of `unit` says.
    let _unit = unit.unit();
    let stored = stored_values(alloc, unit, globals, None, steps)?;
    State::new(
        alloc,
        unit.slots().clone()?,
        unit.roles().clone()?,
        &unit.beginnings(),
        &stored,
        moment,
    )
}
