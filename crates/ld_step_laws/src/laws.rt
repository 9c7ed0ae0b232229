//! That what is shown of a run takes few steps.
//! The functions do nothing: each is there for what it ensures.
ghost use Rattle.std.specs.Prelude.{◌+◌, ◌*◌, ◌≤◌, ℕ, length};
ghost use Rattle.ld_model.specs.Seen.{Seen};
ghost use Rattle.ld_model.specs.declared.unit.Unit.{Unit};
ghost use Rattle.ld_refs.specs.Checks.{IsValid};
ghost use Rattle.ld_tree.specs.TreeLooks.{tree_looks};
ghost use Rattle.ld_replies.specs.ShownSteps.{report_steps};
ghost use Rattle.ld_step_laws.specs.Nodes.{nodes_of};

/// A person's tree looks at no more than six cells for each node to which a valid unit expands, and
/// at one more. (docs/FORMATS.md, "Sizes")
pub fn trees_look_at_few_cells()
    ensures { (unit : Unit) (seen : Seen) (p : ℕ) → IsValid unit
        → length (tree_looks unit seen p) ≤ 6 * nodes_of unit + 1 }
{}

/// A report reads no more than two cells for each node to which a valid unit expands, and two more.
pub fn reports_read_few_cells()
    ensures { (unit : Unit) → IsValid unit → report_steps unit ≤ 2 * nodes_of unit + 2 }
{}
