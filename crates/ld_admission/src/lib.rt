//! The checks of a command: what refuses it, or what it is once it is admitted.
#![tactic(auto)]

mod activity_checks;
pub mod admitted;
mod checker;
pub mod checks;
mod property_checks;
pub mod refusal;
mod role_checks;
mod verbs;

pub use admitted::Admitted;
pub use checks::admit;
pub use refusal::Refusal;
