//! Persons, the roles that they hold, and the bounds on these.
#![tactic(auto)]

mod change;
mod exclusion;
pub mod fault;
pub mod limit;
mod members;
pub mod role_tree;
mod room;
pub mod roster;
mod seat;
mod seats;
mod shortage;

pub use fault::{AssignFault, DropFault, EnrolFault, Short};
pub use limit::SEATS;
pub use role_tree::RoleTree;
pub use roster::Roster;
