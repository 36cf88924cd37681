// What a reach roll does.
ghost use Rattle.std.specs.Prelude.{◌≡◌, [], length};
ghost use Rattle.rights.specs.Checks.{First, fault_of};
ghost use Rattle.roll.specs.ReachRolls.{pairs_of, ceiling_of, list_of, SameRest};
ghost use Rattle.roll.specs.Refusals.{make_checks, Granted};

use crate::means::{Roll, RollMut};
use crate::numbers::both_subjects;
use crate::pair_roll::PairRoll;
use crate::reach_roll::ReachRoll;
use crate::table::{alone, join, renew};
use rights::{Pair, RollFault};

impl<'a> ReachRoll<'a> {
    /// Whether a roll of that ceiling may be made over the list.
    pub fn check(list: &[Pair], ceiling: usize) -> Result<(), RollFault>
        ensures { First (make_checks (length list.now) ceiling) (fault_of result) }
    {
        PairRoll::check(list, ceiling)
    }

    /// An empty roll of that ceiling, or of ceiling 0 where the check refuses.
    pub fn new(list: &'a mut [Pair], ceiling: usize) -> ReachRoll<'a>
        ensures empty { pairs_of result ≡ [] }
        ensures ceiling { Granted (length list.old) ceiling (ceiling_of result) }
        ensures untouched { list_of result ≡ list.old }
    {
        ReachRoll {
            pairs: PairRoll::new(list, ceiling),
            table: alone(),
        }
    }
}

impl Roll for ReachRoll<'_> {
    ghost pairs = { pairs_of };

    ghost ceiling = { ceiling_of };

    ghost laws = { λ x. x.pairs.kept };

    fn count(&self) -> usize {
        self.pairs.count()
    }

    fn ceiling(&self) -> usize {
        self.pairs.ceiling()
    }

    fn stands(&self, m: u16, g: u16) -> bool {
        self.pairs.stands(m, g)
    }

    fn within(&self, s: u16, g: u16) -> bool {
        let table = &self.table;
        both_subjects(s, g).is_ok_and(|p| table[usize::from(p.member)][usize::from(p.group)])
    }
}

impl RollMut for ReachRoll<'_> {
    ghost leaves_rest = { SameRest };

    fn put(&mut self, m: u16, g: u16) -> Result<(), RollFault> {
        let p = both_subjects(m, g)?;
        let k = self.pairs.gap(p)?;
        if self.table[usize::from(p.group)][usize::from(p.member)] {
            return Err(RollFault::Loop);
        }
        self.pairs.add(k, p)?;
        join(&mut self.table, p);
        Ok(())
    }

    fn take(&mut self, m: u16, g: u16) -> Result<(), RollFault> {
        let p = both_subjects(m, g)?;
        self.pairs.take(m, g)?;
        renew(&mut self.table, &self.pairs, p.member);
        Ok(())
    }
}
