// The running counts of cells.
ghost use Rattle.std.specs.Prelude.{◌≡◌, ◌≤◌, true, length, take};
ghost use Rattle.book.specs.Cells.{held, numbered, counted_on};
ghost use Rattle.rising.specs.Fronts.{stored, Refilled};

use crate::keyed::Cell;
use rising::Front;

// How many entries the cells hold: the last one tells.
pub(crate) fn held_by(cells: &[Cell]) -> usize
    requires counted { numbered 0 cells.now ≡ true }
    requires few { length (held cells.now) ≤ 4096 }
    ensures { result ≡ length (held cells.now) }
{
    cells.last().map_or(0, |last| last.earlier + last.size())
}

// Counts anew from cell i on.
pub(crate) fn recount(front: &mut Front<Cell>, i: usize)
    requires place { i ≤ length (stored front.old) }
    requires counted { numbered 0 (take i (stored front.old)) ≡ true }
    requires few { length (held (stored front.old)) ≤ 4096 }
    ensures { Refilled front.old (counted_on 0 (stored front.old)) front.new }
{
    let mut count = held_by(&front.as_slice()[..i]);
    // By place, since after `iter_mut` a proof knows how many cells there are, and none of them.
    for k in i..front.len() {
        let mut cell = front.as_slice()[k];
        cell.earlier = count;
        count += cell.size();
        front.replace(k, cell);
    }
}
