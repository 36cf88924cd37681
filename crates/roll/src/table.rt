// The table of who is within whom: nobody yet, a pair more, a pair less.
ghost use Rattle.std.specs.Prelude.{◌<◌, []};
ghost use Rattle.roll.specs.PairRolls.{pairs_of};
ghost use Rattle.roll.specs.Tables.{Current, RowOf, Merged, Joined, Renewed};

use crate::pair_roll::PairRoll;
use rights::Pair;
use std::array;

// The row of s, with s alone.
fn row_of(s: usize) -> [bool; 256]
    requires { s < 256 }
    ensures { RowOf s result }
{
    let mut row = [false; 256];
    row[s] = true;
    row
}

// Every number within itself alone.
pub(crate) fn alone() -> [[bool; 256]; 256]
    ensures { Current [] result }
{
    array::from_fn(
        |s|
            requires { s < 256 }
            ensures { RowOf s result }
        { row_of(s) },
    )
}

fn merged(row: &[bool; 256], above: &[bool; 256]) -> [bool; 256]
    ensures { Merged row.now above.now result }
{
    array::from_fn(|h| row[h] | above[h])
}

// Who is within the pair's member is now within all that its group is within.
pub(crate) fn join(table: &mut [[bool; 256]; 256], p: Pair)
    ensures { Joined p.member p.group table.old table.new }
{
    let above = table[usize::from(p.group)];
    // by place: after a loop over `iter_mut` a proof knows how many rows there are, and not what
    // they hold
    for s in 0..256 {
        if table[s][usize::from(p.member)] {
            table[s] = merged(&table[s], &above);
        }
    }
}

// Finds anew the rows of all that was within m.
pub(crate) fn renew(table: &mut [[bool; 256]; 256], pairs: &PairRoll<'_>, m: u8)
    ensures { Renewed (pairs_of pairs.now) m table.old table.new }
{
    // by place, for the reason in `join`
    for s in 0..=255 {
        if table[usize::from(s)][usize::from(m)] {
            table[usize::from(s)] = pairs.reached(s);
        }
    }
}
