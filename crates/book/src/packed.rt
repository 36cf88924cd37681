// The cell book, in the caller's list: one cell for each subject, table and grantor that has an
// entry.
ghost use Rattle.std.specs.Prelude.{◌≡◌, ◌≤◌, true, length};
ghost use Rattle.rights.specs.Entries.{sound};
ghost use Rattle.book.specs.Cells.{held, climbs, numbered};
ghost use Rattle.rising.specs.Fronts.{stored, whole};

use crate::keyed::Cell;
use rising::Front;

mod calls;
mod counts;
mod entries;

/// A book of cells, one for each subject, table and grantor that has an entry.
// What is stored are the cells; there is room for the ceiling.
#[derive(Drop)]
pub struct Cells<'a> {
    front: Front<'a, Cell>,
    ceiling: usize,
    ghost counted: { length (held (stored front)) ≤ ceiling },
    ghost room: { ceiling ≤ length (whole front) },
    ghost limited: { ceiling ≤ 4096 },
    ghost rises: { sound (held (stored front)) ≡ true },
    ghost keys: { climbs (stored front) ≡ true },
    ghost sums: { numbered 0 (stored front) ≡ true },
}
