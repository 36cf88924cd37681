// Code over any roll: a change, a question both ways round, and two rolls compared.
ghost use Rattle.std.specs.Prelude.{◌≡◌, ◌↔◌, ◌⊎◌, IsTrue};
ghost use Rattle.roll.specs.Refusals.{WithinRoll};

use rights::RollFault;
use roll::{Roll, RollMut};

/// A change of a roll. An enum and no closure: one goes to two rolls of different types.
#[derive(Clone, Copy)]
pub enum Change {
    Put(u16, u16),
    Take(u16, u16),
}

/// How many changes were tried, the sum of the refusals' numbers, how many questions were
/// compared, and how many answers differed.
#[derive(Clone, Copy, Debug, Default)]
pub struct Tally {
    pub changes: u32,
    pub refusals: u32,
    pub asked: u32,
    pub different: u32,
}

// Whether one of the two is within the other.
pub(crate) fn related<R: Roll>(roll: &R, s: u16, g: u16) -> bool
    ensures { IsTrue result ↔
        (WithinRoll (R.Roll.pairs roll.now) s g ⊎ WithinRoll (R.Roll.pairs roll.now) g s) }
{
    roll.within(s, g) || roll.within(g, s)
}

// A change that is refused changes nothing, and none changes the ceiling.
pub(crate) fn apply<R: RollMut>(roll: &mut R, c: Change) -> Result<(), RollFault>
    ensures ceiling { R.Roll.ceiling roll.new ≡ R.Roll.ceiling roll.old }
{
    match c {
        Change::Put(m, g) => roll.put(m, g),
        Change::Take(m, g) => roll.take(m, g),
    }
}

// Two rolls that take the same changes, and what has come of them.
#[derive(Drop)]
pub(crate) struct Trial<A, B> {
    pub(crate) a: A,
    pub(crate) b: B,
    pub(crate) tally: Tally,
}

impl<A: RollMut, B: RollMut> Trial<A, B> {
    // Compares what the two tell of s and g, both ways round.
    fn ask(&mut self, s: u16, g: u16) {
        self.tally.asked = self.tally.asked.wrapping_add(1);
        if self.a.within(s, g) != self.b.within(s, g)
            || self.a.stands(s, g) != self.b.stands(s, g)
            || related(&self.a, s, g) != related(&self.b, s, g)
        {
            self.tally.different = self.tally.different.wrapping_add(1);
        }
    }

    fn ask_row(&mut self, s: u16) {
        for g in 0..258 {
            self.ask(s, g);
        }
    }

    // All questions, with numbers out of range.
    pub(crate) fn ask_all(&mut self) {
        for s in 0..258 {
            self.ask_row(s);
        }
    }

    // The same change on both, and what they then tell of its subjects.
    pub(crate) fn both(&mut self, c: Change) {
        let first = apply(&mut self.a, c);
        let second = apply(&mut self.b, c);
        self.tally.changes = self.tally.changes.wrapping_add(1);
        if let Err(fault) = first {
            self.tally.refusals = self.tally.refusals.wrapping_add(u32::from(fault.number()));
        }
        if first != second
            || self.a.count() != self.b.count()
            || self.a.ceiling() != self.b.ceiling()
        {
            self.tally.different = self.tally.different.wrapping_add(1);
        }
        let (Change::Put(m, g) | Change::Take(m, g)) = c;
        self.ask_row(m);
        self.ask_row(g);
    }
}
