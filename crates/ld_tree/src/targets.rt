//! The lines of what is referred to: activities, structures and environments.
#![tactic(auto, using(crate::proofs::Told::stops, crate::proofs::Fuel::targets_more, crate::proofs::Places::items_at_place, crate::proofs::Statuses::flagged_more))]

ghost use Rattle.std.specs.Prelude.{◌≡◌, ◌&&◌, ◌+◌, ◌≤◌, ◌<◌, ◌^◌, flat_map, length};
ghost use Rattle.ld_tree.specs.Flags.{flag_after};
ghost use Rattle.ld_tree.specs.Telling.{Tells, told_after};
ghost use Rattle.ld_tree.specs.Tree.{flagged, is_passed, status_word, structure_lines, target_lines};
ghost use Rattle.ld_tree.specs.TreeLooks.{child_looks, passed_looks, structure_looks, target_looks};

use crate::activities::{is_closed, status_word};
use crate::line::{LineSink, Shown, line_of};
use crate::viewer::Viewer;
use ld_base::{Id, Steps};
use ld_model::{Structure, StructureKind, View};
use std::sync::ledger::Ledger;

impl<'a, V: View> Viewer<'a, V> {
    /// Puts what the identifier refers to, where it is visible: an activity, a structure, below at
    /// most this many structures, or an environment.
    #[cycle(targets)]
    pub(crate) fn put_target<S: LineSink, L: Ledger>(
        &self,
        left: u128,
        depth: u128,
        flag: bool,
        id: &'a Id,
        lines: &mut S,
        steps: &mut Steps<L>,
    ) -> Result<(), S::Stop>
        requires depth { depth + left < 2 ^ 116 }
        ensures tells { Tells S.can_fail (told_after S.after (S.told lines.old) (target_lines
            left self.now.scope.unit.now (V.seen self.now.scope.view.now) self.now.person.0 depth
            (flag, id.now))) result (S.told lines.new) }
        ensures cost { steps.new ≤ steps.old + length (target_looks left self.now.scope.unit.now
            (V.seen self.now.scope.view.now) self.now.person.0 id.now) }
    {
        if left == 0 {
            return Ok(());
        }
        let Some(place) = self.visible_place(id, steps) else {
            return Ok(());
        };
        if let Some(activity) = self.activity_at(place) {
            return self.put_activity(depth, flag, activity, lines, steps);
        }
        if let Some(structure) = self.structure_at(place) {
            return self.put_structure(left - 1, depth, flag, structure, lines, steps);
        }
        let all = self.scope.unit.environments.len() as u128;
        self.put_environment(all, depth, id, lines, steps)
    }

    /// Puts the structure, and what stands in it where it is not closed, above at most this many
    /// structures.
    #[cycle(targets)]
    fn put_structure<S: LineSink, L: Ledger>(
        &self,
        left: u128,
        depth: u128,
        flag: bool,
        structure: &'a Structure,
        lines: &mut S,
        steps: &mut Steps<L>,
    ) -> Result<(), S::Stop>
        requires depth { depth + 1 + left < 2 ^ 116 }
        ensures tells { Tells S.can_fail (told_after S.after (S.told lines.old) (structure_lines
            self.now.scope.unit.now (V.seen self.now.scope.view.now) self.now.person.0 depth flag
            (target_lines left self.now.scope.unit.now (V.seen self.now.scope.view.now)
            self.now.person.0 (depth + 1)) structure.now)) result (S.told lines.new) }
        ensures cost { steps.new ≤ steps.old + length (structure_looks self.now.scope.unit.now
            (V.seen self.now.scope.view.now) self.now.person.0 (target_looks left
            self.now.scope.unit.now (V.seen self.now.scope.view.now) self.now.person.0)
            structure.now) }
    {
        let done = self.is_done(&structure.identifier, steps);
        let status = Some(status_word(done, flag));
        lines.put(&line_of(
            depth,
            Shown::Structure,
            &structure.identifier,
            status,
            &structure.title,
        ))?;
        if is_closed(done, flag) {
            return Ok(());
        }
        let environments = structure.environments.as_slice();
        self.put_environments(depth + 1, environments, lines, steps)?;
        let children = structure.children.as_slice();
        self.put_children(
            left,
            depth + 1,
            structure.kind,
            flag,
            children,
            lines,
            steps,
        )
    }

    /// Puts the children of a structure of this kind, the first of them with this flag.
    #[cycle(targets)]
    fn put_children<S: LineSink, L: Ledger>(
        &self,
        left: u128,
        depth: u128,
        kind: StructureKind,
        flag: bool,
        children: &'a [Id],
        lines: &mut S,
        steps: &mut Steps<L>,
    ) -> Result<(), S::Stop>
        requires depth { depth + left < 2 ^ 116 }
        ensures tells { Tells S.can_fail (told_after S.after (S.told lines.old) (flat_map
            (target_lines left self.now.scope.unit.now (V.seen self.now.scope.view.now)
            self.now.person.0 depth) (flagged self.now.scope.unit.now
            (V.seen self.now.scope.view.now) self.now.person.0 kind flag children.now)))
            result (S.told lines.new) }
        ensures cost { steps.new ≤ steps.old + length (flat_map (child_looks self.now.scope.unit.now
            (V.seen self.now.scope.view.now) self.now.person.0 (target_looks left
            self.now.scope.unit.now (V.seen self.now.scope.view.now) self.now.person.0))
            children.now) }
    {
        let mut flag = flag;
        for child in children {
            self.put_target(left, depth, flag, child, lines, steps)?;
            flag = self.flag_after(kind, flag, child, steps);
        }
        Ok(())
    }

    /// The flag of the child behind this one, in a structure of this kind.
    fn flag_after<L: Ledger>(
        &self,
        kind: StructureKind,
        flag: bool,
        child: &Id,
        steps: &mut Steps<L>,
    ) -> bool
        ensures value { result ≡ flag_after self.now.scope.unit.now (V.seen self.now.scope.view.now)
            self.now.person.0 kind flag child.now }
        ensures cost { steps.new ≤ steps.old + length (passed_looks self.now.scope.unit.now
            (V.seen self.now.scope.view.now) self.now.person.0 child.now) }
    {
        match kind {
            StructureKind::Sequence => flag && self.is_passed(child, steps),
            StructureKind::Selection => flag,
        }
    }

    /// Whether the child lets the next one open: it is hidden, or done.
    fn is_passed<L: Ledger>(&self, child: &Id, steps: &mut Steps<L>) -> bool
        ensures value { result ≡ is_passed self.now.scope.unit.now (V.seen self.now.scope.view.now)
            self.now.person.0 child.now }
        ensures cost { steps.new ≤ steps.old + length (passed_looks self.now.scope.unit.now
            (V.seen self.now.scope.view.now) self.now.person.0 child.now) }
    {
        !self.is_visible(child, steps) || self.is_done(child, steps)
    }
}
