// The reach roll: a pair roll, and beside it a table of who is within whom.
mod methods;

ghost use Rattle.roll.specs.PairRolls.{pairs_of};
ghost use Rattle.roll.specs.Tables.{Current};

use crate::pair_roll::PairRoll;

/// A roll that keeps a table of who is within whom.
#[derive(Drop)]
pub struct ReachRoll<'a> {
    pairs: PairRoll<'a>,
    // fixed memory: a row, and a place in it, for each number that a subject may have
    table: [[bool; 256]; 256],
    ghost current: { ∥ Current (pairs_of pairs) table ∥₁ },
}
