// What the catalogue knows of a subject and of a table.

/// What is registered under a number: a person or a group.
#[derive(Clone, Copy, PartialEq, Eq)]
pub enum Subject {
    // a person, with the creator's mark or without
    Person { creator: bool },
    Group,
}

/// A table: its owner, its level, and the tables that it names, the first `count` of the list. A base
/// table names none. In a catalogue the list holds 0 past them.
// An array with a count: a record is copied out of the catalogue, which has no heap. Not one type with
// the list of a command: callers name the fields of both.
#[derive(Clone, Copy)]
pub struct TableRecord {
    pub owner: u8,
    pub level: u8,
    pub count: usize,
    pub names: [u8; 8],
}
