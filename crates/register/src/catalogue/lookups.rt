// What the catalogue tells of a number. A number out of range has nothing under it.
ghost use Rattle.std.specs.Prelude.{◌≡◌, ◌≤◌, ◌↔◌, ℕ, IfSome, IsTrue, None, slice_index_or};
ghost use Rattle.std.specs.Option.{option_map};
ghost use Rattle.register.specs.Catalogue.{subjects_in, tables_in, record_at};
ghost use Rattle.register.specs.Rows.{table_of, BlankPast};
ghost use Rattle.rights.specs.Subjects.{IsPerson, IsCreator};
ghost use Rattle.rights.specs.Tables.{Stands, Level};

use crate::catalogue::Catalogue;
use rights::{Subject, TableRecord};

impl Catalogue {
    /// What is registered under `number`.
    pub fn subject(&self, number: u16) -> Option<Subject>
        ensures { result ≡ subjects_in self.now number }
    {
        row(&self.subjects, number)
    }

    /// What stands under `number`.
    pub fn table(&self, number: u16) -> Option<TableRecord>
        ensures row { result ≡ record_at self.now number }
        ensures value { option_map table_of result ≡ tables_in self.now number }
        ensures level { IfSome result (λ x. Level (tables_in self.now) number x.level) }
        ensures few { IfSome result (λ x. x.count ≤ 8) }
        ensures blank { IfSome result (λ x. BlankPast x) }
    {
        row(&self.tables, number)
    }

    /// Whether `number` is a person.
    pub fn is_person(&self, number: u16) -> bool
        ensures { IsTrue result ↔ IsPerson (subjects_in self.now) number }
    {
        matches!(self.subject(number), Some(Subject::Person { .. }))
    }

    /// Whether `number` is a person with the creator's mark.
    pub fn is_creator(&self, number: u16) -> bool
        ensures { IsTrue result ↔ IsCreator (subjects_in self.now) number }
    {
        // not one function with `is_person`: what they have in common is the look-up
        matches!(
            self.subject(number),
            Some(Subject::Person { creator: true })
        )
    }

    /// Whether a table stands under `number`.
    pub fn stands(&self, number: u16) -> bool
        ensures { IsTrue result ↔ Stands (tables_in self.now) number }
    {
        self.table(number).is_some()
    }

    /// Whether anybody is registered as a person.
    pub fn has_person(&self) -> bool
        ensures { IsTrue result ↔ ((n : ℕ) × IsPerson (subjects_in self.now) n) }
    {
        self.subjects
            .iter()
            .any(|subject| matches!(subject, Some(Subject::Person { .. })))
    }
}

// Row n, which holds what is under that number; nothing past the last.
fn row<T: Copy>(rows: &[Option<T>], n: u16) -> Option<T>
    ensures { result ≡ slice_index_or rows.now n None }
{
    rows.get(usize::from(n)).copied().flatten()
}
