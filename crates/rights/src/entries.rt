// What a book holds, entries, and what a roll holds, pairs.
use crate::vocabulary::Right;

/// A right on a table for a subject, granted by a person.
#[derive(Clone, Copy, PartialEq, Eq, PartialOrd, Ord, Debug)]
pub struct Entry {
    pub subject: u8,
    pub table: u8,
    pub grantor: u8,
    pub right: Right,
}

/// A person or group that is a direct member of a group.
#[derive(Clone, Copy, PartialEq, Eq, PartialOrd, Ord, Debug)]
pub struct Pair {
    pub member: u8,
    pub group: u8,
}
