// What a book and a roll stand on: the front of a list that a caller lends, and the check of the
// list before.
#![tactic(auto)]

mod fronts;
mod rooms;

pub use fronts::Front;
pub use rooms::{ceiling, check_room};
