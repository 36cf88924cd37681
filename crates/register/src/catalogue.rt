// The catalogue: what is registered under each subject's number, and what stands under each
// table's.
ghost use Rattle.std.specs.Prelude.{◌≡◌, length};
ghost use Rattle.register.specs.Rows.{NoOffice, Owned, Few, BlankRest, Standing, RisingNames, Levelled, Low};

use rights::{Subject, TableRecord};

mod enrol;
mod lookups;
mod making;

/// The subjects and the tables of a register, each under its number.
#[derive(Drop)]
pub struct Catalogue {
    // tables of fixed length, since the library keeps no heap
    subjects: [Option<Subject>; 256],
    tables: [Option<TableRecord>; 128],
    ghost wide: { length subjects ≡ 256 },
    ghost long: { length tables ≡ 128 },
    ghost office: { NoOffice subjects },
    ghost owned: { Owned subjects tables },
    ghost few: { Few tables },
    ghost blank: { BlankRest tables },
    ghost standing: { Standing tables },
    ghost rising: { RisingNames tables },
    ghost levelled: { Levelled tables },
    ghost low: { Low tables },
}
