//! The world of published units, the store of global values, and the runs.
ghost use Rattle.std.specs.Prelude.{◌≡◌, ◌≤◌, ◌+◌, ◌++◌, [], ◌∷◌, None, Some, IfErr, IfOk, OnErr, OnOk};
ghost use Rattle.ld_base.specs.Roomy.{room_of, KeepsRoom};
ghost use Rattle.ld_globals.specs.Store.{KeepsWrites};
ghost use Rattle.ld_json.specs.Fault.{SaysFirst};
ghost use Rattle.ld_lines.specs.LineMoment.{moment_of_line};
ghost use Rattle.ld_lines.specs.declared.line.Line.TheVariants as line;
ghost use Rattle.ld_value.specs.Calendar.{IsMoment};
ghost use Rattle.ld_admission.specs.Refusals.{BadLine};
ghost use Rattle.ld_run.specs.Reply.{reply_to_refusal};
ghost use Rattle.ld_world.specs.Answers.{RepliesTo, line_of};
ghost use Rattle.ld_world.specs.LineWork.{StampsAfter, asking_steps, line_steps, making_steps};
ghost use Rattle.ld_world.specs.Published.{faults_beside};
ghost use Rattle.ld_world.specs.World.{first_world};
ghost use Rattle.ld_world.specs.WorldView.{world_of};

use crate::declaring::declare_uris;
use crate::global_lines::{get_global, set_global};
use crate::publishing::check_identifier;
use crate::refusing::refuse_line;
use crate::runs::{ask_run, make_run};
use indexmap::IndexMap;
use ld_admission::Refusal;
use ld_base::{Id, NoMemory, Steps, Text};
use ld_globals::Globals;
use ld_json::ReadFault;
use ld_lines::{CommandReader, LINE_LIMIT, Line, LineFault, RunCommand};
use ld_refs::Checked;
use ld_replies::{say_no_memory, tell_refusal};
use ld_rules::PreparedUnit;
use ld_run::{CommandRoom, Reply, Run};
use ld_value::Moment;
use std::alloc::Global;
use std::marker::Model;
use std::rc::Rc;
use std::sync::ledger::Ledger;

/// Published units, the store of the values of their global properties, and the runs that were made
/// of them by their names. (docs/MEANING.md, "Histories") What reads the lines, and the room for
/// the lists that a command makes on its way, are kept beside them, and are no part of what the
/// world means.
pub struct World {
    units: Vec<Rc<PreparedUnit>>,
    globals: Globals,
    runs: IndexMap<Id, Run>,
    commands: CommandReader,
    /// Lent to the run that does a command.
    command_room: CommandRoom,
}

// By hand, so that a function which lets one go calls this and is not proved over each field again.
impl Drop for World {
    fn drop(self) {
        let Self {
            units: _,
            globals: _,
            runs: _,
            commands: _,
            command_room: _,
        } = self;
    }
}

impl Model for World {
    ghost use Rattle.std.specs.Prelude.{map};
    ghost use Rattle.std.specs.Coded.{codes};
    ghost use Rattle.ld_model.specs.ExpressionCodes.{coded_term, coded_test};
    ghost use Rattle.ld_world.specs.WorldView.{WorldView};

    ghost Value = { WorldView };

    ghost coded = { Prim.hlevel (codes, coded_term, coded_test) };

    ghost view = { λ s. record {
      units = map (λ unit. unit.value) s.units.items;
      store = s.globals;
      runs = s.runs.entries;
    } };

    ghost use Rattle.ld_world.specs.WorldView.{AreCurrent, IsStoreOf, ServesAll, ServesRuns};

    ghost invariant = { λ s. IsStoreOf (map (λ unit. unit.value) s.units.items) s.globals
        × ServesAll s.globals (map (λ unit. unit.value) s.units.items)
        × ServesRuns s.globals s.runs.entries
        × AreCurrent s.globals s.runs.entries };
}

impl World {
    /// A world without units. It takes no memory.
    pub fn new(alloc: Global) -> World
        ensures { world_of result ≡ first_world [] }
    {
        World {
            units: Vec::new(alloc),
            globals: Globals::new(alloc),
            runs: IndexMap::new(alloc),
            commands: CommandReader::new(alloc),
            command_room: CommandRoom::new(alloc),
        }
    }

    /// Publishes the unit beside those that are published. It is refused where one of them has its
    /// identifier, or declares the uri of one of its properties with other contents. A refusal
    /// drops the unit and leaves the world as it was. (docs/FORMATS.md, "Order of faults")
    pub fn publish(&mut self, alloc: Global, unit: Checked) -> Result<(), ReadFault>
        requires first { world_of self.old ≡ first_world self.old.units }
        ensures ok { OnOk result (world_of self.new
            ≡ first_world (self.old.units ++ unit.unit ∷ [])) }
        ensures faultless { OnOk result (faults_beside self.old.units unit.unit ≡ []) }
        ensures refused { IfErr result (SaysFirst (faults_beside self.old.units unit.unit)) }
        ensures err { OnErr result (self.new ≡ self.old) }
    {
        check_identifier(alloc, &self.units, unit.unit())?;
        let prepared = PreparedUnit::new(alloc, unit)?;
        let shared = Rc::new(alloc, prepared)?;
        self.units.reserve(1)?;
        declare_uris(alloc, &shared, &mut self.globals)?;
        let Ok(_) = self.units.push(shared) else {
            unreachable!();
        };
        Ok(())
    }

    /// Answers a line: `out` is emptied and then holds the reply block. Where memory runs out the
    /// reply says so, and the line counts as not given. (docs/MEANING.md, "Histories")
    pub fn answer<L: Ledger>(
        &mut self,
        alloc: Global,
        line: &[u8],
        out: &mut Text,
        steps: &mut Steps<L>,
    ) -> Reply
        requires room { 128 ≤ room_of out.old }
        ensures answers { RepliesTo (world_of self.old) (line_of line.now) result
            out.new.bytes (world_of self.new) }
        ensures stamps { StampsAfter self.old.runs (line_of line.now) result
            self.new.store.stamp self.new.runs }
        ensures kept { KeepsWrites self.old.store self.new.store }
        ensures room { 128 ≤ room_of out.new }
        ensures cost { steps.new ≤ steps.old + line_steps self.old (line_of line.now) }
    {
        match self.try_answer(alloc, line, out, steps) {
            Ok(reply) => reply,
            Err(_) => {
                say_no_memory(out);
                Reply::NoMemory
            }
        }
    }

    /// Answers a line that is too long to be one. It takes no memory.
    pub fn answer_bad_line(&mut self, out: &mut Text) -> Reply
        requires room { 128 ≤ room_of out.old }
        ensures answers { RepliesTo (world_of self.old) None result
            out.new.bytes (world_of self.new) }
        ensures refused { result ≡ reply_to_refusal BadLine }
        ensures same { self.new ≡ self.old }
        ensures room { 128 ≤ room_of out.new }
    {
        tell_refusal(Refusal::BadLine, out);
        Reply::refused(Refusal::BadLine)
    }

    /// Answers a line. Where memory runs out the world stays as it was.
    fn try_answer<L: Ledger>(
        &mut self,
        alloc: Global,
        line: &[u8],
        out: &mut Text,
        steps: &mut Steps<L>,
    ) -> Result<Reply, NoMemory>
        requires room { 128 ≤ room_of out.old }
        ensures ok { IfOk result (λ reply. RepliesTo (world_of self.old) (line_of line.now) reply
            out.new.bytes (world_of self.new)) }
        ensures stamps { IfOk result (λ reply. StampsAfter self.old.runs (line_of line.now) reply
            self.new.store.stamp self.new.runs) }
        ensures kept { OnOk result (KeepsWrites self.old.store self.new.store) }
        ensures err { OnErr result (self.new ≡ self.old) }
        ensures room { 128 ≤ room_of out.new }
        ensures cost { steps.new ≤ steps.old + line_steps self.old (line_of line.now) }
    {
        if line.len() > LINE_LIMIT {
            return refuse_line(Refusal::BadLine, out);
        }
        match self.commands.read(alloc, line) {
            Ok(line) => self.do_line(alloc, line, out, steps),
            Err(LineFault::BadLine) => refuse_line(Refusal::BadLine, out),
            Err(LineFault::NoMemory) => Err(NoMemory),
        }
    }

    /// Does what the line asks for. Where memory runs out the world stays as it was.
    fn do_line<L: Ledger>(
        &mut self,
        alloc: Global,
        line: Line,
        out: &mut Text,
        steps: &mut Steps<L>,
    ) -> Result<Reply, NoMemory>
        requires moment { IsMoment (moment_of_line line).0 }
        requires room { 128 ≤ room_of out.old }
        ensures ok { IfOk result (λ reply. RepliesTo (world_of self.old) (Some line) reply
            out.new.bytes (world_of self.new)) }
        ensures stamps { IfOk result (λ reply. StampsAfter self.old.runs (Some line) reply
            self.new.store.stamp self.new.runs) }
        ensures kept { OnOk result (KeepsWrites self.old.store self.new.store) }
        ensures err { OnErr result (self.new ≡ self.old) }
        ensures room { 128 ≤ room_of out.new }
        ensures cost { steps.new ≤ steps.old + line_steps self.old (Some line) }
    {
        match line {
            Line::Create { moment, run, unit } => {
                self.create(alloc, moment, run, &unit, out, steps)
            }
            Line::OfRun {
                moment,
                run,
                command,
            } => self.ask(alloc, moment, &run, &command, out, steps),
            Line::GlobalSet {
                moment: _,
                uri,
                person,
                value,
            } => set_global(alloc, &mut self.globals, &uri, person.as_ref(), &value, out),
            Line::GlobalGet {
                moment: _,
                uri,
                person,
            } => get_global(alloc, &self.globals, &uri, person.as_ref(), out, steps),
        }
    }

    /// Makes a run of the unit of this identifier under the name, or says why not.
    fn create<L: Ledger>(
        &mut self,
        alloc: Global,
        moment: Moment,
        name: Id,
        unit: &Id,
        out: &mut Text,
        steps: &mut Steps<L>,
    ) -> Result<Reply, NoMemory>
        requires { IsMoment moment.0 }
        ensures ok { IfOk result (λ reply. RepliesTo (world_of self.old)
            (Some (line.Create moment name unit.now)) reply out.new.bytes (world_of self.new)) }
        ensures stamps { IfOk result (λ reply. StampsAfter self.old.runs
            (Some (line.Create moment name unit.now)) reply self.new.store.stamp self.new.runs) }
        ensures kept { OnOk result (KeepsWrites self.old.store self.new.store) }
        ensures err { OnErr result (self.new ≡ self.old) }
        ensures room { KeepsRoom out.old out.new }
        ensures cost { steps.new ≤ steps.old + making_steps self.old.units unit.now }
    {
        let (units, globals, runs) = (&self.units, &self.globals, &mut self.runs);
        make_run(alloc, units, globals, runs, moment, name, unit, out, steps)
    }

    /// Does what is asked of the run of this name, or says that there is none.
    fn ask<L: Ledger>(
        &mut self,
        alloc: Global,
        moment: Moment,
        name: &Id,
        command: &RunCommand,
        out: &mut Text,
        steps: &mut Steps<L>,
    ) -> Result<Reply, NoMemory>
        requires moment { IsMoment moment.0 }
        requires room { 128 ≤ room_of out.old }
        ensures ok { IfOk result (λ reply. RepliesTo (world_of self.old)
            (Some (line.OfRun moment name.now command.now)) reply out.new.bytes
            (world_of self.new)) }
        ensures stamps { IfOk result (λ reply. StampsAfter self.old.runs
            (Some (line.OfRun moment name.now command.now)) reply
            self.new.store.stamp self.new.runs) }
        ensures kept { OnOk result (KeepsWrites self.old.store self.new.store) }
        ensures err { OnErr result (self.new ≡ self.old) }
        ensures room { 128 ≤ room_of out.new }
        ensures cost { steps.new ≤ steps.old
            + asking_steps self.old.store self.old.runs moment name.now command.now }
    {
        let (globals, runs) = (&mut self.globals, &mut self.runs);
        let room = &mut self.command_room;
        ask_run(
            alloc, globals, runs, room, moment, name, command, out, steps,
        )
    }
}
