// The three states as moved types of plain numbers; the catalogue is lent at each call. What a
// state lacks cannot be called on it: no question before the opening, no grant after the closing.
ghost use Rattle.std.specs.Prelude.{◌≡◌, [], MatchResult};
ghost use Rattle.register.specs.Catalogue.{subjects_in, tables_in, Enrolled, Tabled};
ghost use Rattle.rights.specs.Checks.{First, fault_of};
ghost use Rattle.rights.specs.Read.{mark_of};
ghost use Rattle.rights.specs.Refusals.{user_checks, group_checks, open_checks, base_checks, view_checks};
ghost use Rattle.sitting.specs.Counts.{counted, Counted, refusal};
ghost use Rattle.sitting.specs.States.{setting_up_carried, open_carried, closed_carried};

use register::Catalogue;
use rights::{RegisterFault, Subject};

// How many commands a sitting has carried out; it stops at the largest number of its type.
#[derive(Clone, Copy)]
struct Tally {
    carried: u32,
}

/// A sitting being set up.
#[derive(Drop)]
pub struct SettingUp {
    tally: Tally,
}

/// A sitting that is open.
#[derive(Drop)]
pub struct Open {
    tally: Tally,
}

/// A sitting that is closed.
#[derive(Drop)]
pub struct Closed {
    tally: Tally,
}

impl Tally {
    // One command more.
    fn more(self) -> Tally
        ensures { result.carried ≡ counted self.carried }
    {
        Tally {
            carried: self.carried.saturating_add(1),
        }
    }

    // Counts a call if it was carried out, and gives back what came of it.
    fn note(&mut self, done: Result<(), RegisterFault>) -> Result<(), RegisterFault>
        ensures same { result ≡ done }
        ensures count { Counted done self.old.carried self.new.carried }
    {
        done?;
        *self = self.more();
        Ok(())
    }
}

impl SettingUp {
    /// A sitting that has carried out nothing yet.
    pub fn begin() -> SettingUp
        ensures { setting_up_carried result ≡ 0 }
    {
        SettingUp {
            tally: Tally { carried: 0 },
        }
    }

    /// Registers person `number`, with the creator's mark where `mark` is 1.
    pub fn user(
        &mut self,
        catalogue: &mut Catalogue,
        number: u16,
        mark: u16,
    ) -> Result<(), RegisterFault>
        ensures verdict { First
            (user_checks (subjects_in catalogue.old) number mark)
            (fault_of result) }
        ensures effect { MatchResult result
            (λ _. Enrolled number (Subject.Person (mark_of mark)) catalogue.old catalogue.new)
            (λ _. catalogue.new ≡ catalogue.old) }
        ensures count { Counted result (setting_up_carried self.old) (setting_up_carried self.new) }
    {
        self.tally.note(catalogue.user(number, mark))
    }

    /// Registers group `number`.
    pub fn group(&mut self, catalogue: &mut Catalogue, number: u16) -> Result<(), RegisterFault>
        ensures verdict { First
            (group_checks (subjects_in catalogue.old) number)
            (fault_of result) }
        ensures effect { MatchResult result
            (λ _. Enrolled number Subject.Group catalogue.old catalogue.new)
            (λ _. catalogue.new ≡ catalogue.old) }
        ensures count { Counted result (setting_up_carried self.old) (setting_up_carried self.new) }
    {
        self.tally.note(catalogue.group(number))
    }

    /// Opens the sitting, or gives it back with the refusal: without a person it cannot be opened.
    #[tactic(auto, unfolding(rights::specs::Refusals::open_checks, rights::specs::Checks::First))]
    pub fn open(self, catalogue: &Catalogue) -> Result<Open, (SettingUp, RegisterFault)>
        ensures verdict { First (open_checks (subjects_in catalogue.now)) (refusal result) }
        ensures count { MatchResult result
            (λ s. open_carried s ≡ counted (setting_up_carried self))
            (λ back. setting_up_carried back.0 ≡ setting_up_carried self) }
    {
        if !catalogue.has_person() {
            return Err((self, RegisterFault::Nobody));
        }
        let tally = self.tally.more();
        Ok(Open { tally })
    }
}

impl Open {
    /// Makes base table `table` with owner `issuer`.
    pub fn base(
        &mut self,
        catalogue: &mut Catalogue,
        issuer: u16,
        table: u16,
    ) -> Result<(), RegisterFault>
        ensures verdict { First
            (base_checks (subjects_in catalogue.old) (tables_in catalogue.old) issuer table)
            (fault_of result) }
        ensures effect { MatchResult result
            (λ _. Tabled table (record { owner = issuer; names = [] }) catalogue.old catalogue.new)
            (λ _. catalogue.new ≡ catalogue.old) }
        ensures count { Counted result (open_carried self.old) (open_carried self.new) }
    {
        self.tally.note(catalogue.base(issuer, table))
    }

    /// Makes view `table` with owner `issuer`, naming these tables.
    pub fn view(
        &mut self,
        catalogue: &mut Catalogue,
        issuer: u16,
        table: u16,
        names: &[u16],
    ) -> Result<(), RegisterFault>
        ensures verdict { First
            (view_checks (subjects_in catalogue.old) (tables_in catalogue.old)
            issuer table names.now)
            (fault_of result) }
        ensures effect { MatchResult result
            (λ _. Tabled table (record { owner = issuer; names = names.now })
            catalogue.old catalogue.new)
            (λ _. catalogue.new ≡ catalogue.old) }
        ensures count { Counted result (open_carried self.old) (open_carried self.new) }
    {
        self.tally.note(catalogue.view(issuer, table, names))
    }

    /// Closes the sitting.
    pub fn close(self) -> Closed
        ensures { closed_carried result ≡ counted (open_carried self) }
    {
        Closed {
            tally: self.tally.more(),
        }
    }
}

impl Closed {
    /// How many commands the sitting has carried out; it stops at the largest number of its type.
    pub fn carried(&self) -> u32
        ensures { result ≡ closed_carried self.now }
    {
        self.tally.carried
    }
}
