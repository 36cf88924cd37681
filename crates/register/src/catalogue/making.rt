// Making base tables and views. Issuer and table stay plain numbers, as a command carries them.
ghost use Rattle.std.specs.Prelude.{◌≡◌, ◌≤◌, ◌↔◌, true, [], length, IsTrue, IsSome, IfSome, IfOk, OnOk, MatchResult, slice_index_or};
ghost use Rattle.std.specs.List.{AllByRecursion};
ghost use Rattle.register.specs.Catalogue.{subjects_in, tables_in, record_at, making_checks, Allowed, Fitting, Tabled};
ghost use Rattle.register.specs.Rows.{table_of, names_of, level_at, level_over, rise, BlankPast};
ghost use Rattle.rights.specs.Checks.{First, fault_of};
ghost use Rattle.rights.specs.Numbers.{TableNumber};
ghost use Rattle.rights.specs.Refusals.{StrangeIssuer, NoMark, WellMade, base_checks, view_checks};
ghost use Rattle.rights.specs.Tables.{Stands};

use crate::catalogue::Catalogue;
use rights::{RegisterFault, TableRecord};
use std::array;

impl Catalogue {
    /// Makes base table `table` with owner `issuer`.
    #[tactic(auto, unfolding(rights::specs::Refusals::view_checks, rights::specs::Refusals::base_checks, rights::specs::Checks::First))]
    pub fn base(&mut self, issuer: u16, table: u16) -> Result<(), RegisterFault>
        ensures verdict { First
            (base_checks (subjects_in self.old) (tables_in self.old) issuer table)
            (fault_of result) }
        ensures effect { MatchResult result
            (λ _. Tabled table (record { owner = issuer; names = [] }) self.old self.new)
            (λ _. self.new ≡ self.old) }
    {
        let owner = self.may_make(issuer, table, &[])?;
        self.add(table, record_of(owner, 0, &[]));
        Ok(())
    }

    /// Makes view `table` with owner `issuer`, naming these tables.
    #[tactic(auto, unfolding(rights::specs::Refusals::view_checks, rights::specs::Refusals::WellMade, rights::specs::Checks::First))]
    pub fn view(&mut self, issuer: u16, table: u16, names: &[u16]) -> Result<(), RegisterFault>
        ensures verdict { First
            (view_checks (subjects_in self.old) (tables_in self.old) issuer table names.now)
            (fault_of result) }
        ensures effect { MatchResult result
            (λ _. Tabled table (record { owner = issuer; names = names.now }) self.old self.new)
            (λ _. self.new ≡ self.old) }
    {
        let owner = self.may_make(issuer, table, names)?;
        let level = self.view_level(names).ok_or(RegisterFault::MakeUp)?;
        self.add(table, record_of(owner, level, names));
        Ok(())
    }

    // The issuer as a new table's owner, or what base tables and views are refused alike.
    #[tactic(auto, unfolding(rights::specs::Refusals::view_checks, rights::specs::Checks::First))]
    fn may_make(&self, issuer: u16, table: u16, names: &[u16]) -> Result<u8, RegisterFault>
        ensures verdict { First
            (making_checks (subjects_in self.now) (tables_in self.now) issuer table names.now)
            (fault_of result) }
        ensures owner { IfOk result (λ x. x ≡ issuer) }
        ensures allowed { OnOk result (Allowed issuer table names.now self.now) }
    {
        let owner = u8::try_from(issuer).map_err(|_| RegisterFault::BadNumber)?;
        if table > 127 || !all_tables(names) {
            return Err(RegisterFault::BadNumber);
        }
        if self.is_strange(issuer) {
            return Err(RegisterFault::Stranger);
        }
        if !self.all_stand(names) {
            return Err(RegisterFault::NoTable);
        }
        if self.lacks_mark(issuer) {
            return Err(RegisterFault::NotTheirs);
        }
        if self.stands(table) {
            return Err(RegisterFault::Taken);
        }
        Ok(owner)
    }

    // An issuer other than the office who is no registered person.
    fn is_strange(&self, issuer: u16) -> bool
        ensures { IsTrue result ↔ StrangeIssuer (subjects_in self.now) issuer }
    {
        issuer != 0 && !self.is_person(issuer)
    }

    // An issuer who may make no table: the office, or whoever lacks the creator's mark.
    fn lacks_mark(&self, issuer: u16) -> bool
        ensures { IsTrue result ↔ NoMark (subjects_in self.now) issuer }
    {
        issuer == 0 || !self.is_creator(issuer)
    }

    fn all_stand(&self, names: &[u16]) -> bool
        ensures { IsTrue result ↔ AllByRecursion (Stands (tables_in self.now)) names.now }
    {
        names.iter().all(|d| self.stands(*d))
    }

    // The level of a view on these tables, which all stand; none where they make no view.
    #[tactic(auto, unfolding(rights::specs::Refusals::WellMade))]
    fn view_level(&self, names: &[u16]) -> Option<u8>
        requires { AllByRecursion (Stands (tables_in self.now)) names.now }
        ensures made { IsSome result ↔ WellMade (tables_in self.now) names.now }
        ensures value { IfSome result (λ x. x ≡ level_over self.now.tables names.now) }
    {
        if names.is_empty() || names.len() > 8 || !rises(names) {
            return None;
        }
        let level = self.level_over(names);
        (level <= 7).then_some(level)
    }

    // One more than the highest level of these tables, 0 where there are none.
    fn level_over(&self, names: &[u16]) -> u8
        ensures value { result ≡ level_over self.now.tables names.now }
        ensures low { result ≤ 8 }
    {
        names
            .iter()
            .map(|d| self.level_at(*d) + 1)
            .max()
            .unwrap_or(0)
    }

    // The level of a table, 0 where none stands.
    fn level_at(&self, number: u16) -> u8
        ensures value { result ≡ level_at (record_at self.now number) }
        ensures low { result ≤ 7 }
    {
        self.table(number).map_or(0, |table| table.level)
    }

    // Puts a table under a number where none stands.
    fn add(&mut self, t: u16, table: TableRecord)
        requires { Fitting t table self.old }
        ensures { Tabled t (table_of table) self.old self.new }
    {
        self.tables[usize::from(t)] = Some(table);
    }
}

// Not one function with `all_stand`: what they have in common is the library's `all`.
fn all_tables(names: &[u16]) -> bool
    ensures { IsTrue result ↔ AllByRecursion TableNumber names.now }
{
    names.iter().all(|d| *d <= 127)
}

fn rises(names: &[u16]) -> bool
    ensures { result ≡ rise names.now }
{
    names.is_sorted_by(|a, b| *a < *b)
}

// The record of a table that names these tables.
fn record_of(owner: u8, level: u8, names: &[u16]) -> TableRecord
    requires few { length names.now ≤ 8 }
    requires tables { AllByRecursion TableNumber names.now }
    ensures names { names_of result ≡ names.now }
    ensures count { result.count ≤ 8 }
    ensures blank { BlankPast result }
    ensures owner { result.owner ≡ owner }
    ensures level { result.level ≡ level }
{
    TableRecord {
        owner,
        level,
        count: names.len(),
        // a record is Copy, so its list is an array
        names: array::from_fn(|k| name_at(names, k)),
    }
}

// Name k, 0 past the last.
fn name_at(names: &[u16], k: usize) -> u8
    requires { AllByRecursion TableNumber names.now }
    ensures { result ≡ slice_index_or names.now k 0 }
{
    names.get(k).map_or(0, |d| *d as u8)
}
