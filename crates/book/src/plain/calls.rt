// The calls of the plain book.
ghost use Rattle.std.specs.Prelude.{◌≡◌, [], length};
ghost use Rattle.rights.specs.Checks.{First, fault_of};
ghost use Rattle.book.specs.Effects.{make_checks, Ceiling};
ghost use Rattle.book.specs.Places.{Finding};
ghost use Rattle.book.specs.Standing.{standing, most_standing, list_standing, SameRest, plain_laws};

use crate::meaning::{Book, LIMIT};
use crate::order::in_range;
use crate::plain::Plain;
use rights::{BookFault, Entry};
use rising::{Front, ceiling, check_room};

impl<'a> Plain<'a> {
    /// Refuses a list shorter than the ceiling wanted, and a ceiling of 0 or above 4,096.
    pub fn check(list: &[Entry], wanted: usize) -> Result<(), BookFault>
        ensures { First (make_checks (length list.now) wanted) (fault_of result) }
    {
        Ok(check_room(list.len(), wanted, LIMIT)?)
    }

    /// An empty book over the list, with the ceiling wanted, or 0 where the check refuses.
    pub fn new(list: &'a mut [Entry], wanted: usize) -> Plain<'a>
        ensures empty { standing result ≡ [] }
        ensures ceiling { Ceiling (length list.old) wanted (most_standing result) }
        ensures untouched { list_standing result ≡ list.old }
    {
        // as in a cell book: what both share is `rising`'s, and each makes its own type of it
        let ceiling = ceiling(list.len(), wanted, LIMIT);
        let front = Front::over(list);
        Plain { front, ceiling }
    }

    // The place where e stands, or else the place where it belongs.
    fn place_of(&self, e: Entry) -> Result<usize, usize>
        ensures { Finding e (standing self.now) result }
    {
        self.front.as_slice().binary_search(&e)
    }
}

impl Book for Plain<'_> {
    ghost entries = { standing };

    ghost most = { most_standing };

    ghost leaves_rest = { SameRest };

    ghost laws = { plain_laws };

    fn count(&self) -> usize {
        self.front.len()
    }

    fn ceiling(&self) -> usize {
        self.ceiling
    }

    fn holds(&self, e: Entry) -> bool {
        self.place_of(e).is_ok()
    }

    fn at(&self, k: usize) -> Option<Entry> {
        self.front.get(k)
    }

    fn put(&mut self, e: Entry) -> Result<(), BookFault> {
        in_range(&e)?;
        let k = self.place_of(e).err().ok_or(BookFault::Taken)?;
        if self.front.len() == self.ceiling {
            return Err(BookFault::Full);
        }
        self.front.insert(k, e).map_err(|_| BookFault::Full)
    }

    fn take(&mut self, e: Entry) -> Result<(), BookFault> {
        in_range(&e)?;
        let k = self.place_of(e).ok().ok_or(BookFault::Absent)?;
        self.front.remove(k);
        Ok(())
    }
}
