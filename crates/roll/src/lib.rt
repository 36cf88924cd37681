// What a roll is, and the two rolls: the pair roll walks its pairs, the reach roll keeps a table.
#![tactic(auto)]

mod means;
mod numbers;
mod pair_roll;
mod reach_roll;
mod reached;
mod table;

pub use means::{Roll, RollMut};
pub use pair_roll::PairRoll;
pub use reach_roll::ReachRoll;
