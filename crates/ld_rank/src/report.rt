//! What is reported of the rules of a unit.
use ld_base::{Items, RuleNo};

/// A number for each rule, in their order.
pub type RankList = Items<u32>;

/// Rules each of which feeds the next, and the last the first.
pub type RuleLoop = Items<RuleNo>;

/// Either a ranking of the rules, or a loop where there is none.
#[derive(Drop)]
pub enum Report {
    /// Whatever a rule feeds has a greater number.
    Ranked(RankList),
    /// The first loop.
    Loop(RuleLoop),
}
