// What a pair roll does.
ghost use Rattle.std.specs.Prelude.{◌≡◌, [], length, IfOk, OnOk, OnErr, MatchResult};
ghost use Rattle.rights.specs.declared.faults.RollFault.{RollFault};
ghost use Rattle.rights.specs.Checks.{First, fault_of};
ghost use Rattle.rights.specs.Lists.{In};
ghost use Rattle.rights.specs.Pairs.{pair};
ghost use Rattle.roll.specs.PairRolls.{pairs_of, ceiling_of, list_of, SameRest};
ghost use Rattle.roll.specs.Pairs.{added};
ghost use Rattle.roll.specs.Places.{StandsAt, Gap};
ghost use Rattle.roll.specs.Refusals.{Addable, full_checks, make_checks, take_checks, Granted};
ghost use Rattle.roll.specs.Walks.{Reaches};

use crate::means::{Roll, RollMut};
use crate::numbers::both_subjects;
use crate::pair_roll::PairRoll;
use crate::reached::Rising;
use rights::{Pair, RollFault};
use rising::{Front, check_room};

// No roll holds more pairs.
const MOST: usize = 2048;

impl<'a> PairRoll<'a> {
    /// Whether a roll of that ceiling may be made over the list.
    pub fn check(list: &[Pair], ceiling: usize) -> Result<(), RollFault>
        ensures { First (make_checks (length list.now) ceiling) (fault_of result) }
    {
        check_room(list.len(), ceiling, MOST)?;
        Ok(())
    }

    /// An empty roll of that ceiling, or of ceiling 0 where the check refuses.
    pub fn new(list: &'a mut [Pair], ceiling: usize) -> PairRoll<'a>
        ensures empty { pairs_of result ≡ [] }
        ensures ceiling { Granted (length list.old) ceiling (ceiling_of result) }
        ensures untouched { list_of result ≡ list.old }
    {
        let most = rising::ceiling(list.len(), ceiling, MOST);
        PairRoll {
            front: Front::over(list),
            most,
        }
    }

    // The place where p stands, or else the place where it would stand.
    fn find(&self, p: Pair) -> Result<usize, usize>
        ensures { MatchResult result (StandsAt (pairs_of self.now) p) (Gap (pairs_of self.now) p) }
    {
        self.front.as_slice().binary_search(&p)
    }

    // The place where (m, g) stands.
    fn place(&self, m: u16, g: u16) -> Result<usize, RollFault>
        ensures refuses { First (take_checks (pairs_of self.now) m g) (fault_of result) }
        ensures stands { IfOk result (StandsAt (pairs_of self.now) (pair m g)) }
    {
        let p = both_subjects(m, g)?;
        self.find(p).map_err(|_| RollFault::Absent)
    }

    // The place where p would stand, unless it stands already.
    pub(crate) fn gap(&self, p: Pair) -> Result<usize, RollFault>
        ensures { MatchResult result (Gap (pairs_of self.now) p)
            (λ f. (f ≡ RollFault.Taken) × In p (pairs_of self.now)) }
    {
        self.find(p).err().ok_or(RollFault::Taken)
    }

    // All that s is within.
    pub(crate) fn reached(&self, s: u8) -> [bool; 256]
        ensures { Reaches (pairs_of self.now) s result }
    {
        let pairs = Rising {
            pairs: self.front.as_slice(),
        };
        pairs.walk(s)
    }

    // Adds a pair that may be added, at its place, unless the roll is full.
    pub(crate) fn add(&mut self, k: usize, p: Pair) -> Result<(), RollFault>
        requires may { Addable (pairs_of self.old) p }
        requires place { Gap (pairs_of self.old) p k }
        ensures refuses { First (full_checks (pairs_of self.old) (ceiling_of self.old))
            (fault_of result) }
        ensures put { OnOk result (pairs_of self.new ≡ added p (pairs_of self.old)) }
        ensures unchanged { OnErr result (pairs_of self.new ≡ pairs_of self.old) }
        ensures keeps { ceiling_of self.new ≡ ceiling_of self.old }
        ensures rest { SameRest self.old self.new }
    {
        if self.front.len() == self.most {
            return Err(RollFault::Full);
        }
        self.front.insert(k, p).map_err(|_| RollFault::Full)
    }
}

impl Roll for PairRoll<'_> {
    ghost pairs = { pairs_of };

    ghost ceiling = { ceiling_of };

    ghost laws = { λ x. x.kept };

    fn count(&self) -> usize {
        self.front.len()
    }

    fn ceiling(&self) -> usize {
        self.most
    }

    fn stands(&self, m: u16, g: u16) -> bool {
        self.place(m, g).is_ok()
    }

    fn within(&self, s: u16, g: u16) -> bool {
        // `is_ok_and` was tried: a proof does not see into a closure that captures a struct that
        // keeps a fact, as the roll and `Rising` do
        let Ok(p) = both_subjects(s, g) else {
            return false;
        };
        self.reached(p.member)[usize::from(p.group)]
    }
}

impl RollMut for PairRoll<'_> {
    ghost leaves_rest = { SameRest };

    fn put(&mut self, m: u16, g: u16) -> Result<(), RollFault> {
        let p = both_subjects(m, g)?;
        let k = self.gap(p)?;
        if self.reached(p.group)[usize::from(p.member)] {
            return Err(RollFault::Loop);
        }
        self.add(k, p)
    }

    fn take(&mut self, m: u16, g: u16) -> Result<(), RollFault> {
        let k = self.place(m, g)?;
        self.front.remove(k);
        Ok(())
    }
}
