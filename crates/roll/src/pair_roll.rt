// The pair roll: the pairs themselves, rising, in the caller's list, walked for every question.
mod methods;

ghost use Rattle.std.specs.Prelude.{◌≤◌, length};
ghost use Rattle.rising.specs.Fronts.{stored, whole};
ghost use Rattle.roll.specs.Sound.{Kept};
ghost use Rattle.roll.specs.Sure.{kept_prop};

use rights::Pair;
use rising::Front;

/// A roll that walks its pairs for every question.
#[derive(Drop)]
pub struct PairRoll<'a> {
    front: Front<'a, Pair>,
    most: usize,
    ghost room: { most ≤ length (whole front) },
    ghost kept: { Kept (stored front) most } by { kept_prop (stored front) most },
}
