//! A person's tree, and what is open in it.

ghost use Rattle.std.specs.Prelude.{◌≡◌, ◌<◌};

use crate::opening::Opening;
use crate::units::{check, id, small};
use ld_base::{Id, PersonNo, Steps, Text};
use ld_names::Named;
use ld_rules::PreparedUnit;
use ld_tree::{is_open, tree_text};
use ld_value::Value;
use std::alloc::Global;
use std::marker::Brand;
use std::sync::ledger::{Blank, Ledger};
use std::test::Fail;

// Each line comes after the end of the line before it.
const OPEN: &str = "
unit small open
  play p open
    act a open
      part rp open
        activity do open";

const DONE: &str = "
unit small open
  play p open
    act a open
      part rp done
        activity do done";

#[test]
fn trees_are_shown(rt: HostRuntime) -> Result<(), Fail> {
    let unit = small(rt.alloc())?;
    let activity = id(rt.alloc(), "do")?;
    show::<Brand>(rt.alloc(), &unit, &activity, Blank::new(1))
}

/// Shows trees, with steps that are counted from 0.
fn show<L: Ledger>(
    alloc: Global,
    unit: &PreparedUnit,
    activity: &Id,
    blank: Blank,
) -> Result<(), Fail>
    requires name { blank.name ≡ L.name }
    requires parts { blank.parts ≡ L.parts }
    requires some { 0 < L.parts }
{
    let mut steps = Steps::<L>::new(blank);
    let open = shows(alloc, unit, activity, false, OPEN, &mut steps);
    check(open, "what is open")?;
    let done = shows(alloc, unit, activity, true, DONE, &mut steps);
    check(done, "what is done")
}

/// Whether the tree is this where all is done, or nothing is, and the activity is open in the other
/// case.
fn shows<L: Ledger>(
    alloc: Global,
    unit: &PreparedUnit,
    activity: &Id,
    done: bool,
    wanted: &str,
    steps: &mut Steps<L>,
) -> bool {
    let view = Opening {
        mark: Value::Bool(done),
        other: Value::Bool(true),
    };
    let none = String::new(alloc);
    let Ok((text, count)) = tree_text(alloc, unit.scope(&view), PersonNo(0), none, steps) else {
        return false;
    };
    let Some(Named::Thing(thing)) = unit.names().number(activity) else {
        return false;
    };
    let open = is_open(unit.scope(&view), PersonNo(0), thing, steps);
    count == 5 && text.as_str() == wanted && open != done
}
