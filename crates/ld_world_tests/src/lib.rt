//! Tests of what no clause says of runs and of the world: that their calls succeed where there is
//! memory, and what comes out of them, told by hand.
#![tactic(auto)]

#[cfg(test)]
mod begun;
#[cfg(test)]
mod course;
#[cfg(test)]
mod histories;
#[cfg(test)]
mod opening;
#[cfg(test)]
mod refusals;
#[cfg(test)]
mod replies;
#[cfg(test)]
mod runs;
#[cfg(test)]
mod sharing;
#[cfg(test)]
mod sites;
#[cfg(test)]
mod telling;
#[cfg(test)]
mod trees;
#[cfg(test)]
mod units;
