// What a book is, and the books.
#![tactic(auto)]

mod keyed;
mod meaning;
mod order;
mod packed;
mod plain;

pub use keyed::Cell;
pub use meaning::Book;
pub use packed::Cells;
pub use plain::Plain;
