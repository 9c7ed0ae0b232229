//! The checks of activities.
ghost use Rattle.std.specs.Prelude.{◌≡◌, true, IfOk, IfSome, option_map};
ghost use Rattle.ld_admission.specs.Checks.{only_by_choice, the_activity};
ghost use Rattle.ld_admission.specs.Found.{activity_found, numbered_activity};
ghost use Rattle.ld_admission.specs.RefusalView.{answer_of};
ghost use Rattle.ld_state.specs.RunCells.{is_activity};

use crate::checker::Checker;
use crate::refusal::Refusal;
use ld_base::{Id, ThingNo};
use ld_model::{Activity, Completion};
use ld_names::Named;
use ld_walk::Place;

impl<'a, 's> Checker<'a, 's> {
    /// The activity of this identifier, and its number among the things.
    pub(crate) fn the_activity(&self, id: &Id) -> Result<(ThingNo, &'a Activity), Refusal<'a>>
        ensures found { answer_of (λ found. numbered_activity found.0.0 found.1.now) result
            ≡ the_activity self.now.unit.now id.now }
        ensures possible { IfOk result (λ found. is_activity self.now.unit.now found.0.0 ≡ true) }
    {
        match self.find_activity(id) {
            Some(found) => Ok(found),
            None => Err(Refusal::UnknownActivity),
        }
    }

    /// The activity that the identifier names, and its number; None exactly where it names none.
    fn find_activity(&self, id: &Id) -> Option<(ThingNo, &'a Activity)>
        ensures found { option_map (λ found. numbered_activity found.0.0 found.1.now) result
            ≡ activity_found self.now.unit.now id.now }
        ensures possible { IfSome result
            (λ found. is_activity self.now.unit.now found.0.0 ≡ true) }
    {
        let names = self.unit.names();
        let Named::Thing(number) = names.number(id)? else {
            return None;
        };
        let Place::Activity(a) = names.place(number) else {
            return None;
        };
        let activity = self.unit.unit().activities.get(a as usize)?;
        Some((number, activity))
    }
}

/// Passes where it is up to the person to say that the activity is completed.
pub(crate) fn only_by_choice<'a>(activity: &Activity) -> Result<(), Refusal<'a>>
    ensures { answer_of (λ _. tt) result ≡ only_by_choice activity.now }
{
    match &activity.complete {
        Some(Completion::UserChoice) => Ok(()),
        _ => Err(Refusal::NotByChoice),
    }
}
