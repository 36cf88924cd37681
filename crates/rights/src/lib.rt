// The vocabulary of the register: rights, entries, pairs, records, refusals and commands.
#![tactic(auto)]

mod commands;
mod entries;
mod faults;
mod listing;
mod records;
mod theorems;
mod vocabulary;

pub use commands::{Answer, Command, Ground, Named, State};
pub use entries::{Entry, Pair};
pub use faults::{BookFault, RegisterFault, RollFault, RoomFault, SheetFault};
pub use listing::TooManyTables;
pub use records::{Subject, TableRecord};
pub use theorems::{access_laws, basic_laws, mandate_laws, worked_sheet_stands};
pub use vocabulary::{Kind, Privilege, Rank, Right, Sign, Strength};
