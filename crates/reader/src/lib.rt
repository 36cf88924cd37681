// Reads the bytes of a sheet into commands, and writes the text of answers.
#![tactic(auto)]

mod answers;
mod commands;
mod lines;
mod numbers;
mod shapes;
mod words;

pub use answers::{SHORTEST_BUFFER, write_answer};
pub use commands::LONGEST_LINE;
pub use lines::{LONGEST, fits};
pub use shapes::{Line, Part, Parts, Reader};
pub use words::Word;
