// The parts of a right, and the thirty-two rights that they make up.

/// What a right lets its holder do with a table.
#[derive(Clone, Copy, PartialEq, Eq, PartialOrd, Ord, Debug)]
pub enum Privilege {
    Select,
    Insert,
    Delete,
    Update,
}

/// Plus allows, minus denies.
#[derive(Clone, Copy, PartialEq, Eq, PartialOrd, Ord, Debug)]
pub enum Sign {
    Plus,
    Minus,
}

/// A weak access entry gives way to others, a strong one never does.
#[derive(Clone, Copy, PartialEq, Eq, PartialOrd, Ord, Debug)]
pub enum Strength {
    Weak,
    Strong,
}

/// What an administrative entry lets its holder grant: access alone, or administration too.
#[derive(Clone, Copy, PartialEq, Eq, PartialOrd, Ord, Debug)]
pub enum Kind {
    AdmAccess,
    Administer,
}

/// The highest strength or rank that an administrative entry lets its holder grant.
#[derive(Clone, Copy, PartialEq, Eq, PartialOrd, Ord, Debug)]
pub enum Rank {
    Weak,
    Strong,
}

/// What an entry gives: access to a table, or administration of access to it.
#[derive(Clone, Copy, PartialEq, Eq, PartialOrd, Ord, Debug)]
pub enum Right {
    Access(Privilege, Sign, Strength),
    Admin(Privilege, Kind, Rank),
}
