//! Notices that are sent.
ghost use Rattle.std.specs.Prelude.{◌≡◌, ℕ, List, ◌+◌, ◌*◌, ◌≤◌, [], length, map, IfOk, OnOk, option_map, unwrap_or, pos};
ghost use Rattle.std.specs.List.{list_any};
ghost use Rattle.ld_base.specs.Maybe.{◌>>=◌ as ◌then◌};
ghost use Rattle.ld_model.specs.declared.cell.CellName.TheVariants.{Now};
ghost use Rattle.ld_names.specs.Names.{thing_number};
ghost use Rattle.ld_expr.specs.Membership.{is_member_of};
ghost use Rattle.ld_expr.specs.Seen.{moment_of_value};
ghost use Rattle.ld_state.specs.Notices.{notice_of};
ghost use Rattle.ld_state.specs.RunState.{seen_in};
ghost use Rattle.ld_state.specs.StateView.{IsStateOf, run_of};
ghost use Rattle.ld_firing.specs.Actions.{do_notify, notice_now, recipients};
ghost use Rattle.ld_firing.specs.Progress.{Does, progress_of};

use crate::actor::Actor;
use ld_base::{Fired, Id, NoMemory, PersonList, PersonNo, PlainText, Steps, Text, ThingNo};
use ld_expr::{Scope, thing_number};
use ld_model::{CellName, Notice, View};
use ld_state::{OutNotice, State};
use ld_value::{Moment, Value};
use std::alloc::Global;
use std::sync::ledger::Ledger;

impl<'a> Actor<'a> {
    /// Sends the notice, and counts it.
    pub(crate) fn do_notify<L: Ledger>(
        &self,
        notice: &Notice,
        state: &mut State,
        fired: &mut Fired,
        steps: &mut Steps<L>,
    ) -> Result<(), NoMemory>
        requires own { IsStateOf self.now.unit.now state.old }
        ensures does { (told : List ℕ) → OnOk result (Does self.now.unit.now
            (progress_of state.old told fired.old)
            (progress_of state.new told fired.new)
            (λ doing. do_notify self.now.unit.now doing notice.now)) }
        ensures own { IsStateOf self.now.unit.now state.new }
        ensures rows { state.new.rows ≡ state.old.rows }
        ensures kept { state.new.kept ≡ state.old.kept }
        ensures cost { steps.new
            ≤ steps.old + (length state.old.rows * length notice.now.roles + 1) }
    {
        let Some(sent) = fired.sent.checked_add(1) else {
            return Err(NoMemory);
        };
        let notice = self.notice_now(notice, state, steps)?;
        state.send(notice)?;
        fired.sent = sent;
        Ok(())
    }

    /// The notice as it is sent now.
    fn notice_now<L: Ledger>(
        &self,
        notice: &Notice,
        state: &State,
        steps: &mut Steps<L>,
    ) -> Result<OutNotice, NoMemory>
        requires own { IsStateOf self.now.unit.now state.now }
        ensures notice { IfOk result (λ sent. notice_of sent
            ≡ notice_now self.now.unit.now (run_of state.now) notice.now) }
        ensures cost { steps.new
            ≤ steps.old + (length state.now.rows * length notice.now.roles + 1) }
    {
        let subject = subject_of(self.alloc, &notice.subject)?;
        let to = self.recipients(notice.roles.as_slice(), state, steps)?;
        Ok(OutNotice {
            moment: self.moment_now(state, steps),
            subject,
            activity: self.activity_of(&notice.activity),
            to,
        })
    }

    /// The moment of the run.
    fn moment_now<L: Ledger>(&self, state: &State, steps: &mut Steps<L>) -> Moment
        requires { IsStateOf self.now.unit.now state.now }
        ensures moment { result.0
            ≡ unwrap_or (moment_of_value ((run_of state.now).cells Now)) (pos 0) }
        ensures cost { steps.new ≡ steps.old + 1 }
    {
        match state.get(CellName::Now, steps) {
            Some(Value::Moment(moment)) => *moment,
            _ => Moment(0),
        }
    }

    /// The number of the activity that the identifier names, if there is one.
    fn activity_of(&self, id: &Option<Id>) -> Option<ThingNo>
        ensures { option_map (λ thing. thing.0) result
            ≡ (id.now then thing_number self.now.unit.now) }
    {
        thing_number(self.unit, self.names, id.as_ref()?)
    }

    /// The members of the roles, each once, in the order of enrolment.
    fn recipients<L: Ledger>(
        &self,
        roles: &[Id],
        state: &State,
        steps: &mut Steps<L>,
    ) -> Result<PersonList, NoMemory>
        requires own { IsStateOf self.now.unit.now state.now }
        ensures to { IfOk result (λ to. map (λ person. person.0) to
            ≡ recipients self.now.unit.now (seen_in self.now.unit.now (run_of state.now)) roles.now) }
        ensures cost { steps.new ≤ steps.old + length state.now.rows * length roles.now }
    {
        let mut to = PersonList::new(self.alloc);
        for number in 0..state.persons() {
            let person = PersonNo(number);
            if !self.is_in_one(roles, person, state, steps) {
                continue;
            }
            to.push(person)?;
        }
        Ok(to)
    }

    /// Whether the person is a member of one of the roles.
    fn is_in_one<L: Ledger>(
        &self,
        roles: &[Id],
        person: PersonNo,
        state: &State,
        steps: &mut Steps<L>,
    ) -> bool
        requires { IsStateOf self.now.unit.now state.now }
        ensures value { result ≡ list_any (λ role. is_member_of self.now.unit.now
            (seen_in self.now.unit.now (run_of state.now)) role person.0) roles.now }
        ensures cost { steps.new ≤ steps.old + length roles.now }
    {
        let scope = Scope {
            unit: self.unit,
            names: self.names,
            view: state,
        };
        for role in roles {
            if scope.is_member_of(person, role, steps) {
                return true;
            }
        }
        false
    }
}

/// The subject as a text of its own; an empty one where there is none.
fn subject_of(alloc: Global, subject: &Option<PlainText>) -> Result<Text, NoMemory>
    ensures { IfOk result (λ text. text.bytes ≡ unwrap_or subject.now []) }
{
    match subject {
        Some(subject) => Text::of(alloc, subject.as_str()),
        None => Ok(Text::new(alloc)),
    }
}
