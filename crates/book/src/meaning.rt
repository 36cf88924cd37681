// What a book means: a rising list of entries without repeats, and a ceiling that it keeps to.
ghost use Rattle.std.specs.Prelude.{◌≡◌, ℕ, List, length, OnOk, OnErr, IsTrue, ◌↔◌};
ghost use Rattle.std.specs.List.{slice_get};
ghost use Rattle.rights.specs.declared.entries.Entry.{Entry};
ghost use Rattle.rights.specs.Checks.{First, fault_of};
ghost use Rattle.rights.specs.Lists.{In};
ghost use Rattle.book.specs.Effects.{with_entry, without_entry, put_checks, take_checks, Kept};

use rights::{BookFault, Entry};

// the highest ceiling that a book may have
pub(crate) const LIMIT: usize = 4096;

/// A register of entries that keeps them in their order.
pub trait Book {
    // the entries that stand, in their order
    ghost entries: { Self → List Entry };

    // the most entries that may stand
    ghost most: { Self → ℕ };

    // what a change leaves of the caller's list past what is used; a book without one says nothing
    ghost leaves_rest: { Self → Self → Type 0 } = { λ _ _. Unit {0} };

    // What each book must keep.
    ghost laws: { (b : Self) → Kept (entries b) (most b) };

    /// How many entries stand.
    fn count(&self) -> usize
        ensures { result ≡ length (entries self.now) };

    /// The most entries that may stand.
    fn ceiling(&self) -> usize
        ensures { result ≡ most self.now };

    /// Whether the entry stands; one out of range never does.
    fn holds(&self, e: Entry) -> bool
        ensures { IsTrue result ↔ (In e (entries self.now)) };

    /// The entry at place k from 0, nothing when k is not below the count.
    fn at(&self, k: usize) -> Option<Entry>
        ensures { result ≡ slice_get (entries self.now) k };

    /// Puts an entry in its place.
    fn put(&mut self, e: Entry) -> Result<(), BookFault>
        ensures refuses { First (put_checks (entries self.old) (most self.old) e)
            (fault_of result) }
        ensures put { OnOk result (entries self.new ≡ with_entry e (entries self.old)) }
        ensures unchanged { OnErr result (entries self.new ≡ entries self.old) }
        ensures ceiling { most self.new ≡ most self.old }
        ensures rest { leaves_rest self.old self.new };

    /// Takes an entry out.
    fn take(&mut self, e: Entry) -> Result<(), BookFault>
        ensures refuses { First (take_checks (entries self.old) e) (fault_of result) }
        ensures taken { OnOk result (entries self.new ≡ without_entry e (entries self.old)) }
        ensures unchanged { OnErr result (entries self.new ≡ entries self.old) }
        ensures ceiling { most self.new ≡ most self.old }
        ensures rest { leaves_rest self.old self.new };
}
