//! Numbers and flags.
#![tactic(auto, unfolding(crate::specs::Forms::number_within, crate::specs::Forms::true_of), using(ld_json::proofs::First::says_more))]

ghost use Rattle.ld_shape.specs.Forms.{flag, true_flag, number};
ghost use Rattle.ld_shape.specs.Reading.{GivesOrSays};
ghost use Rattle.ld_shape.specs.Shapes.{left_out};

use crate::reads::Reads;
use ld_json::{Code, Node, ReadFault};
use std::alloc::Global;
use std::marker::PhantomData;

/// True or false.
pub struct Flag;

impl Reads for Flag {
    type Value = bool;

    ghost shape = { flag };

    fn read(alloc: Global, node: &Node<'_, '_>) -> Result<bool, ReadFault> {
        node.flag(alloc)
    }
}

/// A flag that has to be true.
pub struct True;

impl Reads for True {
    type Value = ();

    ghost shape = { true_flag };

    fn read(alloc: Global, node: &Node<'_, '_>) -> Result<(), ReadFault> {
        let flag = node.flag(alloc)?;
        if !flag {
            return Err(node.fault(alloc, Code::WrongShape));
        }
        Ok(())
    }
}

/// The whole number from `least` to `most` that the node is.
pub fn read_number(
    alloc: Global,
    node: &Node<'_, '_>,
    least: u32,
    most: u32,
) -> Result<u32, ReadFault>
    ensures { GivesOrSays ((number least most).reading node.now) result }
{
    let number = node.whole(alloc)?;
    if number < u64::from(least) {
        return Err(node.fault(alloc, Code::WrongShape));
    }
    if number > u64::from(most) {
        return Err(node.fault(alloc, Code::WrongShape));
    }
    Ok(number as u32)
}

/// A whole number from `LEAST` to `MOST`.
pub struct Number<const LEAST: u32, const MOST: u32>;

impl<const LEAST: u32, const MOST: u32> Reads for Number<LEAST, MOST> {
    type Value = u32;

    ghost shape = { number LEAST MOST };

    fn read(alloc: Global, node: &Node<'_, '_>) -> Result<u32, ReadFault> {
        read_number(alloc, node, LEAST, MOST)
    }
}

/// A value that this engine leaves out, whatever the node holds.
pub struct LeftOut<T>(PhantomData<T>);

impl<T: Drop> Reads for LeftOut<T> {
    type Value = T;

    ghost shape = { left_out };

    fn read(alloc: Global, node: &Node<'_, '_>) -> Result<T, ReadFault> {
        Err(node.fault(alloc, Code::NotInProfile))
    }
}
