//! The numbers by which a run speaks of the parts of its unit, each counted from 0.
ghost use Rattle.std.specs.Prelude.{◌≡◌, ◌<◌, ◌^◌, IfOk, OnOk};

use crate::items::Items;
use crate::memory::NoMemory;

/// A role, in document order.
#[derive(Clone, Copy, Debug, PartialEq, Eq, PartialOrd, Ord, Hash)]
pub struct RoleNo(pub u32);

/// A play, act, role-part, activity, structure, environment, learning object, service or item, all
/// in one numbering.
#[derive(Clone, Copy, Debug, PartialEq, Eq, PartialOrd, Ord, Hash)]
pub struct ThingNo(pub u32);

/// A property, in document order.
#[derive(Clone, Copy, Debug, PartialEq, Eq, PartialOrd, Ord, Hash)]
pub struct PropNo(pub u32);

/// A rule, in the order in which a sweep visits them.
#[derive(Clone, Copy, Debug, PartialEq, Eq, PartialOrd, Ord, Hash)]
pub struct RuleNo(pub u32);

/// A person, in the order of enrolment.
#[derive(Clone, Copy, Debug, PartialEq, Eq, PartialOrd, Ord, Hash)]
pub struct PersonNo(pub u32);

/// Persons, in an order that whoever fills the list says.
pub type PersonList = Items<PersonNo>;

/// The index as a number of 32 bits. No machine holds a list on which it fails.
pub fn number(index: usize) -> Result<u32, NoMemory>
    ensures number { IfOk result (λ n. n ≡ index) }
    ensures within { OnOk result (index < 2 ^ 32) }
{
    match u32::try_from(index) {
        Ok(number) => Ok(number),
        Err(_) => Err(NoMemory),
    }
}
