// Runs the same puts and takes on both rolls, and compares all that they tell.
#![tactic(auto)]

mod rolls;
mod stories;

use rights::Pair;
use roll::{PairRoll, ReachRoll};
use rolls::{Tally, Trial};
use std::io;

const NONE: Pair = Pair {
    member: 0,
    group: 0,
};

fn main(rt: HostRuntime) -> io::Result<()> {
    // arrays of fixed size here and below: the rolls are lent their lists
    let mut first = [NONE; 2048];
    let mut second = [NONE; 2048];
    let mut wide = Trial {
        a: PairRoll::new(&mut first, 2048),
        b: ReachRoll::new(&mut second, 2048),
        tally: Tally::default(),
    };
    wide.diamond();
    println!(rt; "diamond {:?}", wide.tally)?;
    wide.chain();
    println!(rt; "chain {:?}", wide.tally)?;
    wide.mixed();
    println!(rt; "mixed {:?}", wide.tally)?;
    let mut third = [NONE; 8];
    let mut fourth = [NONE; 8];
    let mut narrow = Trial {
        a: PairRoll::new(&mut third, 4),
        b: ReachRoll::new(&mut fourth, 4),
        tally: wide.tally,
    };
    narrow.ceiling();
    println!(rt; "ceiling {:?}", narrow.tally)?;
    let mut fifth = [NONE; 8];
    let mut sixth = [NONE; 8];
    let mut refused = Trial {
        a: PairRoll::new(&mut fifth, 9),
        b: ReachRoll::new(&mut sixth, 9),
        tally: narrow.tally,
    };
    refused.ceiling();
    println!(rt; "no ceiling {:?}", refused.tally)
}
