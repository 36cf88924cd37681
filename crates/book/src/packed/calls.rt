// The calls of the cell book.
ghost use Rattle.std.specs.Prelude.{◌≡◌, [], length};
ghost use Rattle.rights.specs.Checks.{First, fault_of};
ghost use Rattle.book.specs.Effects.{make_checks, Ceiling};
ghost use Rattle.book.specs.Packing.{packed, most_packed, list_packed, SameRest, cell_laws};

use crate::keyed::Cell;
use crate::meaning::{Book, LIMIT};
use crate::order::in_range;
use crate::packed::Cells;
use rights::{BookFault, Entry};
use rising::{Front, ceiling, check_room};

impl<'a> Cells<'a> {
    /// Refuses a list shorter than the ceiling wanted, and a ceiling of 0 or above 4,096.
    pub fn check(list: &[Cell], wanted: usize) -> Result<(), BookFault>
        ensures { First (make_checks (length list.now) wanted) (fault_of result) }
    {
        Ok(check_room(list.len(), wanted, LIMIT)?)
    }

    /// An empty book over the list, with the ceiling wanted, or 0 where the check refuses.
    pub fn new(list: &'a mut [Cell], wanted: usize) -> Cells<'a>
        ensures empty { packed result ≡ [] }
        ensures ceiling { Ceiling (length list.old) wanted (most_packed result) }
        ensures untouched { list_packed result ≡ list.old }
    {
        let ceiling = ceiling(list.len(), wanted, LIMIT);
        let front = Front::over(list);
        Cells { front, ceiling }
    }
}

impl Book for Cells<'_> {
    ghost entries = { packed };

    ghost most = { most_packed };

    ghost leaves_rest = { SameRest };

    ghost laws = { cell_laws };

    fn count(&self) -> usize {
        self.held_count()
    }

    fn ceiling(&self) -> usize {
        self.ceiling
    }

    fn holds(&self, e: Entry) -> bool {
        let cells = self.front.as_slice();
        self.cell_of(e).is_ok_and(|i| cells[i].holds(e.right))
    }

    fn at(&self, k: usize) -> Option<Entry> {
        self.entry(k)
    }

    fn put(&mut self, e: Entry) -> Result<(), BookFault> {
        in_range(&e)?;
        match self.cell_of(e) {
            Ok(i) => self.put_into(i, e),
            Err(i) => self.put_new(i, e),
        }
    }

    fn take(&mut self, e: Entry) -> Result<(), BookFault> {
        in_range(&e)?;
        let i = self.cell_of(e).ok().ok_or(BookFault::Absent)?;
        self.take_from(i, e)
    }
}
