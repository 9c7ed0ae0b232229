//! Objects of one member.
ghost use Rattle.std.specs.Prelude.{◌≡◌, true, IfOk};
ghost use Rattle.serde_json.specs.Data.{boolean, string};
ghost use Rattle.serde_json.specs.View.{view};
ghost use Rattle.ld_canon.specs.Canonical.{canonical_text};
ghost use Rattle.ld_canon.specs.Terms.{sole_tree, two_trees};

use crate::texts::value_text;
use ld_base::{Id, NoMemory, PlainText};
use ld_prints::members::object_tree;
use ld_prints::prints::Prints;
use ld_prints::values::IdTree;
use ld_value::Kind;
use serde_json::{Map, Value, put};
use std::alloc::Global;

/// The object of this member.
pub(crate) fn sole(alloc: Global, name: &str, tree: Value) -> Result<Value, NoMemory>
    ensures { IfOk result (λ whole. view whole ≡ sole_tree name.now (view tree)) }
{
    let mut members = Map::new(alloc);
    put(&mut members, alloc, name, tree)?;
    Ok(object_tree(members))
}

/// The object whose member is an identifier.
pub(crate) fn sole_id(alloc: Global, name: &str, id: &Id) -> Result<Value, NoMemory>
    ensures { IfOk result (λ whole. view whole ≡ sole_tree name.now (string id.now)) }
{
    let tree = IdTree::tree(alloc, id)?;
    sole(alloc, name, tree)
}

/// The object whose member is true.
pub(crate) fn sole_true(alloc: Global, name: &str) -> Result<Value, NoMemory>
    ensures { IfOk result (λ whole. view whole ≡ sole_tree name.now (boolean true)) }
{
    sole(alloc, name, Value::from(true))
}

/// The object whose member is a value text.
pub(crate) fn sole_text(
    alloc: Global,
    name: &str,
    kind: Kind,
    text: &PlainText,
) -> Result<Value, NoMemory>
    ensures { IfOk result (λ whole.
        view whole ≡ sole_tree name.now (string (canonical_text kind text.now))) }
{
    let tree = value_text(alloc, kind, text.as_str())?;
    sole(alloc, name, tree)
}

/// The array of the two.
pub(crate) fn pair_tree(alloc: Global, first: Value, second: Value) -> Result<Value, NoMemory>
    ensures { IfOk result (λ whole. view whole ≡ two_trees (view first) (view second)) }
{
    let mut trees = Vec::new(alloc);
    trees.push(first)?;
    trees.push(second)?;
    Ok(Value::from(trees))
}
