// The register: the catalogue of subjects and tables.
#![tactic(auto)]

mod catalogue;

pub use catalogue::Catalogue;
