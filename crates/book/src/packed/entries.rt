// How a cell book looks its entries up, and puts and takes them.
ghost use Rattle.std.specs.Prelude.{◌≡◌, Ok, Err, OnOk, OnErr, IsTrue, ◌↔◌, length};
ghost use Rattle.std.specs.List.{slice_get};
ghost use Rattle.rights.specs.Checks.{First, fault_of};
ghost use Rattle.rights.specs.Entries.{Proper};
ghost use Rattle.rights.specs.Lists.{In};
ghost use Rattle.book.specs.Cells.{CellFinding};
ghost use Rattle.book.specs.Effects.{with_entry, without_entry, put_checks, take_checks};
ghost use Rattle.book.specs.Packing.{cells, packed, most_packed, Becomes};

use crate::keyed::{Cell, Key};
use crate::packed::Cells;
use crate::packed::counts::{held_by, recount};
use rights::{BookFault, Entry};

impl Cells<'_> {
    // How many entries the cells hold.
    pub(crate) fn held_count(&self) -> usize
        ensures { result ≡ length (packed self.now) }
    {
        held_by(self.front.as_slice())
    }

    // The place of the cell that has the key of e, or else the place where one would belong.
    pub(crate) fn cell_of(&self, e: Entry) -> Result<usize, usize>
        ensures { CellFinding e (cells self.now) result }
    {
        let key = Key::from(e);
        self.front
            .as_slice()
            .binary_search_by_key(&key, |cell| cell.key())
    }

    // The entry at place k: the last cell that starts there or before has it, if any has.
    pub(crate) fn entry(&self, k: usize) -> Option<Entry>
        ensures { result ≡ slice_get (packed self.now) k }
    {
        // asked first: else a place past the entries costs a search of the cells and of a whole map
        if k >= self.held_count() {
            return None;
        }
        let cells = self.front.as_slice();
        let cell = cells[..cells.partition_point(|cell| cell.earlier <= k)].last()?;
        cell.entry_at(k - cell.earlier)
    }

    // Puts e into the cell at place i, which has its key. That e is in range and where its cell is
    // stay two facts here and below: one value of both would lend the book that is changed.
    pub(crate) fn put_into(&mut self, i: usize, e: Entry) -> Result<(), BookFault>
        requires cell { CellFinding e (cells self.old) (Ok i) }
        requires proper { Proper e }
        ensures refuses { First (put_checks (packed self.old) (most_packed self.old) e)
            (fault_of result) }
        ensures put { OnOk result (Becomes self.old (with_entry e (packed self.old)) self.new) }
        ensures unchanged { OnErr result (self.new ≡ self.old) }
    {
        let cell = self.front.as_slice()[i];
        if cell.holds(e.right) {
            return Err(BookFault::Taken);
        }
        if self.held_count() == self.ceiling {
            return Err(BookFault::Full);
        }
        self.front.replace(i, cell.turned(e.right));
        recount(&mut self.front, i);
        Ok(())
    }

    // Puts e into a new cell at place i, where its key belongs.
    pub(crate) fn put_new(&mut self, i: usize, e: Entry) -> Result<(), BookFault>
        requires cell { CellFinding e (cells self.old) (Err i) }
        requires proper { Proper e }
        ensures refuses { First (put_checks (packed self.old) (most_packed self.old) e)
            (fault_of result) }
        ensures put { OnOk result (Becomes self.old (with_entry e (packed self.old)) self.new) }
        ensures unchanged { OnErr result (self.new ≡ self.old) }
    {
        if self.held_count() == self.ceiling {
            return Err(BookFault::Full);
        }
        self.front
            .insert(i, Cell::empty(e).turned(e.right))
            .map_err(|_| BookFault::Full)?;
        recount(&mut self.front, i);
        Ok(())
    }

    // Takes e from the cell at place i, which has its key; an emptied cell goes. Not one function
    // with `put_into`: that one refuses where this one goes on, asks for the ceiling, and empties none.
    pub(crate) fn take_from(&mut self, i: usize, e: Entry) -> Result<(), BookFault>
        requires cell { CellFinding e (cells self.old) (Ok i) }
        requires proper { Proper e }
        ensures refuses { First (take_checks (packed self.old) e) (fault_of result) }
        ensures taken { OnOk result
            (Becomes self.old (without_entry e (packed self.old)) self.new) }
        ensures unchanged { OnErr result (self.new ≡ self.old) }
    {
        let cell = self.front.as_slice()[i];
        if !cell.holds(e.right) {
            return Err(BookFault::Absent);
        }
        if cell.size() == 1 {
            self.front.remove(i);
        } else {
            self.front.replace(i, cell.turned(e.right));
        }
        recount(&mut self.front, i);
        Ok(())
    }
}
