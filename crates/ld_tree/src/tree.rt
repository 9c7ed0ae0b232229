//! The text of a person's tree, and which activities are open in it.
ghost use Rattle.std.specs.Prelude.{◌≡◌, ◌+◌, ◌≤◌, ◌++◌, ℕ, List, false, length, map, string_bytes, IfOk};
ghost use Rattle.ld_names.specs.Names.{HasPart, names_of};
ghost use Rattle.ld_tree.specs.Lines.{line_text, lines_text};
ghost use Rattle.ld_tree.specs.LineView.{is_of_activity, line_view};
ghost use Rattle.ld_tree.specs.Telling.{sought_after};
ghost use Rattle.ld_tree.specs.Tree.{is_open, tells_open, tree_lines};
ghost use Rattle.ld_tree.specs.TreeLooks.{tree_looks};

use crate::line::{LineSink, Shown, TreeLine};
use crate::printer::Printer;
use crate::viewer::Viewer;
use ld_base::{Id, NoMemory, PersonNo, Steps, ThingNo};
use ld_expr::Scope;
use ld_model::View;
use ld_names::Named;
use std::alloc::Global;
use std::sync::ledger::Ledger;

/// Appends the lines of the person's tree to the text, each begun by the line feed that ends the
/// line before it, and gives the text back with their number. Each look is one step. Since the text
/// is handed over, the tree is printed where it stays, and is copied nowhere. The only error is out
/// of memory, which lets go of the text. (docs/MEANING.md, "The tree")
pub fn tree_text<V: View, L: Ledger>(
    alloc: Global,
    scope: Scope<'_, V>,
    person: PersonNo,
    text: String,
    steps: &mut Steps<L>,
) -> Result<(String, u32), NoMemory>
    ensures text { IfOk result (λ told. string_bytes told.0 ≡ string_bytes text ++ lines_text
        (map line_text (tree_lines scope.entry.unit.now (V.seen scope.entry.view.now) person.0))) }
    ensures count { IfOk result (λ told. told.1
        ≡ length (tree_lines scope.entry.unit.now (V.seen scope.entry.view.now) person.0)) }
    ensures cost { steps.new ≤ steps.old + length (tree_looks scope.entry.unit.now
        (V.seen scope.entry.view.now) person.0) }
{
    let viewer = Viewer { scope, person };
    let mut printer = Printer {
        alloc,
        text,
        lines: 0,
    };
    viewer.put_tree(&mut printer, steps)?;
    let Printer { text, lines, .. } = printer;
    Ok((text, lines))
}

/// Whether the activity of this number is open for the person: whether a line of the person's tree
/// says so, by its identifier. It walks the unit as `tree_text` does until it comes to such a line,
/// but it prints nothing and takes no memory. (docs/MEANING.md, "The tree")
pub fn is_open<V: View, L: Ledger>(
    scope: Scope<'_, V>,
    person: PersonNo,
    activity: ThingNo,
    steps: &mut Steps<L>,
) -> bool
    requires there { HasPart (names_of scope.unit.now) (Named.Thing activity) }
    ensures value { result
        ≡ is_open scope.entry.unit.now (V.seen scope.entry.view.now) person.0 activity.0 }
    ensures cost { steps.new ≤ steps.old + length (tree_looks scope.entry.unit.now
        (V.seen scope.entry.view.now) person.0) }
{
    let activity = scope.names.id(Named::Thing(activity));
    let viewer = Viewer { scope, person };
    let mut finder = Finder { activity };
    match viewer.put_tree(&mut finder, steps) {
        Ok(()) => false,
        Err(Found) => true,
    }
}

/// Looks for the line that tells that an activity is open, and stops there. It prints nothing and
/// takes no memory.
#[derive(Drop)]
struct Finder<'a> {
    activity: &'a Id,
}

/// The line is found.
#[derive(Drop)]
struct Found;

impl LineSink for Finder<'_> {
    type Stop = Found;

    ghost Told = { List ℕ };

    ghost told = { λ f. f.activity.now };

    ghost after = { sought_after };

    ghost can_fail = { false };

    fn put(&mut self, line: &TreeLine<'_>) -> Result<(), Found> {
        if tells_open(self.activity, line) {
            return Err(Found);
        }
        Ok(())
    }
}

/// Whether the line tells that the activity of this identifier is open.
fn tells_open(activity: &Id, line: &TreeLine<'_>) -> bool
    ensures { result ≡ tells_open activity.now (line_view line.now) }
{
    let Some(note) = line.note else {
        return false;
    };
    is_of_activity(line.shown) && *line.identifier == *activity && note == "open"
}

/// Whether the line shows an activity.
fn is_of_activity(shown: Shown) -> bool
    ensures { result ≡ is_of_activity shown }
{
    match shown {
        Shown::Activity | Shown::Support => true,
        _ => false,
    }
}
