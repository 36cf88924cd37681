// Making an empty catalogue, and registering persons and groups.
ghost use Rattle.std.specs.Prelude.{◌≡◌, MatchResult};
ghost use Rattle.register.specs.Catalogue.{subjects_in, tables_in, Enrolled};
ghost use Rattle.rights.specs.Checks.{First, fault_of};
ghost use Rattle.rights.specs.Read.{mark_of};
ghost use Rattle.rights.specs.Refusals.{user_checks, group_checks};
ghost use Rattle.rights.specs.Subjects.{no_subjects};
ghost use Rattle.rights.specs.Tables.{no_tables};

use crate::catalogue::Catalogue;
use rights::{RegisterFault, Subject};

impl Catalogue {
    /// Nobody is registered, and no table stands.
    pub fn new() -> Catalogue
        ensures subjects { subjects_in result ≡ no_subjects }
        ensures tables { tables_in result ≡ no_tables }
    {
        // of fixed length, since the library keeps no heap
        Catalogue {
            subjects: [None; 256],
            tables: [None; 128],
        }
    }

    /// Registers person `number`, with the creator's mark where `mark` is 1.
    #[tactic(auto, unfolding(rights::specs::Refusals::user_checks, rights::specs::Refusals::group_checks, rights::specs::Checks::First))]
    pub fn user(&mut self, number: u16, mark: u16) -> Result<(), RegisterFault>
        ensures verdict { First (user_checks (subjects_in self.old) number mark) (fault_of result) }
        ensures effect { MatchResult result
            (λ _. Enrolled number (Subject.Person (mark_of mark)) self.old self.new)
            (λ _. self.new ≡ self.old) }
    {
        if mark > 1 {
            return Err(RegisterFault::BadNumber);
        }
        self.enrol(number, Subject::Person { creator: mark == 1 })
    }

    /// Registers group `number`.
    pub fn group(&mut self, number: u16) -> Result<(), RegisterFault>
        ensures verdict { First (group_checks (subjects_in self.old) number) (fault_of result) }
        ensures effect { MatchResult result
            (λ _. Enrolled number Subject.Group self.old self.new)
            (λ _. self.new ≡ self.old) }
    {
        self.enrol(number, Subject::Group)
    }

    // Puts a subject under a number, if it is a subject's number that nobody has.
    #[tactic(auto, unfolding(rights::specs::Refusals::group_checks, rights::specs::Checks::First))]
    fn enrol(&mut self, number: u16, subject: Subject) -> Result<(), RegisterFault>
        ensures verdict { First (group_checks (subjects_in self.old) number) (fault_of result) }
        ensures effect { MatchResult result
            (λ _. Enrolled number subject self.old self.new)
            (λ _. self.new ≡ self.old) }
    {
        if number == 0 || number > 255 {
            return Err(RegisterFault::BadNumber);
        }
        if self.subject(number).is_some() {
            return Err(RegisterFault::Taken);
        }
        self.subjects[usize::from(number)] = Some(subject);
        Ok(())
    }
}
