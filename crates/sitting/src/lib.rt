// A sitting: set up, open, closed. Each state is a type of its own with the calls that it takes.
#![tactic(auto)]

mod states;
mod words;

pub use states::{Closed, Open, SettingUp};
pub use words::Sitting;
