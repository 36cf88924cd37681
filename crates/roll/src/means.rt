// What a roll means: a set of pairs without loops, and a ceiling that it keeps to.
ghost use Rattle.std.specs.Prelude.{◌≡◌, ◌↔◌, ℕ, List, length, OnOk, OnErr, IsTrue};
ghost use Rattle.rights.specs.declared.entries.Pair.{Pair};
ghost use Rattle.rights.specs.Checks.{First, fault_of};
ghost use Rattle.rights.specs.Lists.{In};
ghost use Rattle.rights.specs.Pairs.{pair};
ghost use Rattle.roll.specs.Pairs.{added, dropped};
ghost use Rattle.roll.specs.Refusals.{WithinRoll, put_checks, take_checks};
ghost use Rattle.roll.specs.Sound.{Kept};

use rights::RollFault;

/// The half that only tells. Every roll is such a rising list of pairs, whatever it keeps.
// Two numbers as they come: out of range is answered, by no or a refusal; below, they are a `Pair`.
pub trait Roll {
    ghost pairs: { Self → List Pair };

    ghost ceiling: { Self → ℕ };

    // What every roll keeps.
    ghost laws: { (x : Self) → Kept (pairs x) (ceiling x) };

    /// How many pairs stand.
    fn count(&self) -> usize
        ensures { result ≡ length (pairs self.now) };

    /// How many pairs may stand.
    fn ceiling(&self) -> usize
        ensures { result ≡ ceiling self.now };

    /// Whether (m, g) is one of its pairs; never for a number out of range.
    fn stands(&self, m: u16, g: u16) -> bool
        ensures { IsTrue result ↔ In (pair m g) (pairs self.now) };

    /// Whether s is within g; never for a number out of range.
    fn within(&self, s: u16, g: u16) -> bool
        ensures { IsTrue result ↔ WithinRoll (pairs self.now) s g };
}

/// The half that also changes.
pub trait RollMut: Roll {
    // What a change leaves of the caller's list past the pairs that stand.
    ghost leaves_rest: { Self → Self → Type 0 } = { λ _ _. Unit {0} };

    /// Adds (m, g) and nothing else, or refuses.
    fn put(&mut self, m: u16, g: u16) -> Result<(), RollFault>
        ensures refuses { First (put_checks (Self.pairs self.old) (Self.ceiling self.old) m g)
            (fault_of result) }
        ensures put { OnOk result (Self.pairs self.new ≡ added (pair m g) (Self.pairs self.old)) }
        ensures unchanged { OnErr result (Self.pairs self.new ≡ Self.pairs self.old) }
        ensures keeps { Self.ceiling self.new ≡ Self.ceiling self.old }
        ensures rest { leaves_rest self.old self.new };

    /// Takes (m, g) out and nothing else, or refuses.
    fn take(&mut self, m: u16, g: u16) -> Result<(), RollFault>
        ensures refuses { First (take_checks (Self.pairs self.old) m g) (fault_of result) }
        ensures taken { OnOk result
            (Self.pairs self.new ≡ dropped (pair m g) (Self.pairs self.old)) }
        ensures unchanged { OnErr result (Self.pairs self.new ≡ Self.pairs self.old) }
        ensures keeps { Self.ceiling self.new ≡ Self.ceiling self.old }
        ensures rest { leaves_rest self.old self.new };
}
