// The plain book: one record for each entry, in their order, in the caller's list.
ghost use Rattle.std.specs.Prelude.{◌≡◌, ◌≤◌, true, length};
ghost use Rattle.rights.specs.Entries.{sound};
ghost use Rattle.rising.specs.Fronts.{stored, whole};

use rights::Entry;
use rising::Front;

mod calls;

/// A book of records, one for each entry.
// One of two books. What is stored are the entries; there is room for the ceiling, which is the
// book's and not the front's: that of the cell book counts entries and not places.
#[derive(Drop)]
pub struct Plain<'a> {
    front: Front<'a, Entry>,
    ceiling: usize,
    ghost counted: { length (stored front) ≤ ceiling },
    ghost room: { ceiling ≤ length (whole front) },
    ghost limited: { ceiling ≤ 4096 },
    ghost rises: { sound (stored front) ≡ true },
}
