//! Lists of values of one shape.
#![tactic(auto, using(crate::proofs::Pairs::both_nodes, crate::proofs::Pairs::not_two, crate::proofs::Passing::one_more, ld_json::proofs::Elements::drop_at, ld_json::proofs::First::says_more))]

ghost use Rattle.std.specs.Prelude.{◌≡◌, [], nat_le, length, OnOk, IfOk, IfErr};
ghost use Rattle.ld_json.specs.Access.{IsObject, IsArray, item_nodes};
ghost use Rattle.ld_json.specs.Fault.{SaysFirst};
ghost use Rattle.ld_shape.specs.Forms.{is_between};
ghost use Rattle.ld_shape.specs.Lists.{each, HasNumber, number_faults, two_faults, list_of, list_between, pair_of};
ghost use Rattle.ld_shape.specs.Objects.{read_or};
ghost use Rattle.ld_shape.specs.Reading.{GivesOrSays};

use crate::members::default_at;
use crate::reads::Reads;
use ld_base::Items;
use ld_json::{Code, Node, ReadFault};
use std::alloc::Global;
use std::marker::PhantomData;

/// A list of `LEAST` or more values of one shape.
pub struct ListOf<R, const LEAST: usize>(PhantomData<R>);

impl<R: Reads, const LEAST: usize> Reads for ListOf<R, LEAST> {
    type Value = Items<R::Value>;

    ghost shape = { list_of LEAST R.shape };

    fn read(alloc: Global, node: &Node<'_, '_>) -> Result<Items<R::Value>, ReadFault> {
        let count = count_from(alloc, node, LEAST)?;
        read_each::<R>(alloc, node, count)
    }
}

/// A list of `LEAST` to `MOST` values of one shape.
pub struct ListBetween<R, const LEAST: usize, const MOST: usize>(PhantomData<R>);

impl<R: Reads, const LEAST: usize, const MOST: usize> Reads for ListBetween<R, LEAST, MOST> {
    type Value = Items<R::Value>;

    ghost shape = { list_between LEAST MOST R.shape };

    fn read(alloc: Global, node: &Node<'_, '_>) -> Result<Items<R::Value>, ReadFault> {
        let count = count_between(alloc, node, LEAST, MOST)?;
        read_each::<R>(alloc, node, count)
    }
}

/// The two values of an array of just two elements.
pub struct PairOf<R>(PhantomData<R>);

impl<R: Reads> Reads for PairOf<R> {
    type Value = (R::Value, R::Value);

    ghost shape = { pair_of R.shape };

    fn read(alloc: Global, node: &Node<'_, '_>) -> Result<(R::Value, R::Value), ReadFault> {
        count_two(alloc, node)?;
        let first = R::read(alloc, &node.item(0))?;
        let second = R::read(alloc, &node.item(1))?;
        Ok((first, second))
    }
}

/// That an array has just two elements. `wrong-shape` exactly where the node is no array or has
/// fewer or more.
pub fn count_two(alloc: Global, node: &Node<'_, '_>) -> Result<(), ReadFault>
    ensures array { OnOk result (IsArray node.now) }
    ensures two { OnOk result (length (item_nodes node.now) ≡ 2) }
    ensures first { IfErr result (SaysFirst (two_faults node.now)) }
{
    let count = node.count(alloc)?;
    if count != 2 {
        return Err(node.fault(alloc, Code::WrongShape));
    }
    Ok(())
}

/// The list at the member of this name; an absent one is empty.
pub fn list_at<R: Reads>(
    alloc: Global,
    node: &Node<'_, '_>,
    name: &str,
) -> Result<Items<R::Value>, ReadFault>
    requires { IsObject node.now }
    ensures { GivesOrSays (read_or name.now [] (list_of 0 R.shape) node.now) result }
{
    default_at::<ListOf<R, 0>>(alloc, node, name, Items::new(alloc))
}

/// The values of the elements of an array, which are this many.
fn read_each<R: Reads>(
    alloc: Global,
    node: &Node<'_, '_>,
    count: usize,
) -> Result<Items<R::Value>, ReadFault>
    requires array { IsArray node.now }
    requires whole { count ≡ length (item_nodes node.now) }
    ensures { GivesOrSays (each R.shape (item_nodes node.now)) result }
{
    let mut values = Vec::with_capacity(alloc, count)?;
    for index in 0..count {
        let value = R::read(alloc, &node.item(index))?;
        values.push(value)?;
    }
    Ok(Items::from_vec(values))
}

/// The number of elements of an array that has at least this many. `wrong-shape` exactly where the
/// node is no array or has fewer.
pub fn count_from(alloc: Global, node: &Node<'_, '_>, least: usize) -> Result<usize, ReadFault>
    ensures array { OnOk result (IsArray node.now) }
    ensures value { IfOk result (λ count. count ≡ length (item_nodes node.now)) }
    ensures faultless { OnOk result (HasNumber (nat_le least) node.now) }
    ensures first { IfErr result (SaysFirst (number_faults (nat_le least) node.now)) }
{
    let count = node.count(alloc)?;
    if count < least {
        return Err(node.fault(alloc, Code::WrongShape));
    }
    Ok(count)
}

/// The number of elements of an array that has at least and at most this many. `wrong-shape`
/// exactly where the node is no array or has fewer or more.
pub fn count_between(
    alloc: Global,
    node: &Node<'_, '_>,
    least: usize,
    most: usize,
) -> Result<usize, ReadFault>
    ensures array { OnOk result (IsArray node.now) }
    ensures value { IfOk result (λ count. count ≡ length (item_nodes node.now)) }
    ensures faultless { OnOk result (HasNumber (is_between least most) node.now) }
    ensures first { IfErr result (SaysFirst (number_faults (is_between least most) node.now)) }
{
    let count = count_from(alloc, node, least)?;
    if count > most {
        return Err(node.fault(alloc, Code::WrongShape));
    }
    Ok(count)
}
