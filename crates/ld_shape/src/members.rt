//! Members of an object, by the shape of what they hold.
#![tactic(auto, using(crate::proofs::Known::no_value, ld_json::proofs::First::says_more))]

ghost use Rattle.std.specs.Prelude.{◌≡◌, IfOk};
ghost use Rattle.ld_json.specs.Access.{IsObject};
ghost use Rattle.ld_shape.specs.Objects.{needed_in, optional_in, read_or, absent_in};
ghost use Rattle.ld_shape.specs.Reading.{GivesOrSays};

use crate::reads::Reads;
use ld_base::NoMemory;
use ld_json::{Code, Node, ReadFault};
use std::alloc::Global;

/// The member of this name, which has to be there.
pub fn needed_at<R: Reads>(
    alloc: Global,
    node: &Node<'_, '_>,
    name: &str,
) -> Result<R::Value, ReadFault>
    requires { IsObject node.now }
    ensures { GivesOrSays ((needed_in name.now R.shape).reading node.now) result }
{
    let member = node.member(alloc, name)?;
    R::read(alloc, &member)
}

/// The member of this name, if it is there.
pub fn optional_at<R: Reads>(
    alloc: Global,
    node: &Node<'_, '_>,
    name: &str,
) -> Result<Option<R::Value>, ReadFault>
    requires { IsObject node.now }
    ensures { GivesOrSays ((optional_in name.now R.shape).reading node.now) result }
{
    let Some(member) = node.optional(name) else {
        return Ok(None);
    };
    let value = R::read(alloc, &member)?;
    Ok(Some(value))
}

/// The member of this name, or the default where it is absent.
pub fn default_at<R: Reads>(
    alloc: Global,
    node: &Node<'_, '_>,
    name: &str,
    default: R::Value,
) -> Result<R::Value, ReadFault>
    requires { IsObject node.now }
    ensures { GivesOrSays (read_or name.now default R.shape node.now) result }
{
    match node.optional(name) {
        Some(member) => R::read(alloc, &member),
        None => Ok(default),
    }
}

/// That there is no member of this name, which this engine leaves out.
pub fn absent_at(alloc: Global, node: &Node<'_, '_>, name: &str) -> Result<(), ReadFault>
    requires { IsObject node.now }
    ensures { GivesOrSays ((absent_in name.now).reading node.now) result }
{
    match node.optional(name) {
        None => Ok(()),
        Some(member) => Err(member.fault(alloc, Code::NotInProfile)),
    }
}

/// What the member of this name is, or the default where it is absent; `Ok(None)` where it is
/// something else. It names no fault, and is for looking ahead, as where the kind of an object says
/// what else it may have.
pub fn known_or<R: Reads>(
    alloc: Global,
    node: &Node<'_, '_>,
    name: &str,
    default: R::Value,
) -> Result<Option<R::Value>, NoMemory>
    requires { IsObject node.now }
    ensures { IfOk result (λ known. known ≡ (read_or name.now default R.shape node.now).value) }
{
    let Some(member) = node.optional(name) else {
        return Ok(Some(default));
    };
    read_known::<R>(alloc, &member)
}

/// What the member of this name is; `Ok(None)` where it is absent or something else.
pub fn known_at<R: Reads>(
    alloc: Global,
    node: &Node<'_, '_>,
    name: &str,
) -> Result<Option<R::Value>, NoMemory>
    requires { IsObject node.now }
    ensures { IfOk result (λ known. known ≡ ((needed_in name.now R.shape).reading node.now).value) }
{
    let Some(member) = node.optional(name) else {
        return Ok(None);
    };
    read_known::<R>(alloc, &member)
}

/// What the node is; `Ok(None)` where it is something else. It names no fault.
fn read_known<R: Reads>(alloc: Global, node: &Node<'_, '_>) -> Result<Option<R::Value>, NoMemory>
    ensures { IfOk result (λ known. known ≡ (R.shape.reading node.now).value) }
{
    match R::read(alloc, node) {
        Ok(value) => Ok(Some(value)),
        Err(ReadFault::Refused(_)) => Ok(None),
        Err(ReadFault::NoMemory) => Err(NoMemory),
    }
}
