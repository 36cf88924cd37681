// The stored list of the thirty-two rights by bit number, and which entries a book may hold.
ghost use Rattle.std.specs.Prelude.{◌≡◌, MatchResult};
ghost use Rattle.rights.specs.declared.faults.BookFault.TheVariants.{BadNumber};
ghost use Rattle.rights.specs.Bits.{bit};
ghost use Rattle.rights.specs.Entries.{Proper};

use rights::{BookFault, Entry, Kind, Privilege, Rank, Right, Sign, Strength};

// Row k is the right with bit number k: the numbers are looked up in the list that the rules print.
pub(crate) const ROWS: [Right; 32] = [
    Right::Access(Privilege::Select, Sign::Plus, Strength::Weak),
    Right::Access(Privilege::Select, Sign::Plus, Strength::Strong),
    Right::Access(Privilege::Select, Sign::Minus, Strength::Weak),
    Right::Access(Privilege::Select, Sign::Minus, Strength::Strong),
    Right::Access(Privilege::Insert, Sign::Plus, Strength::Weak),
    Right::Access(Privilege::Insert, Sign::Plus, Strength::Strong),
    Right::Access(Privilege::Insert, Sign::Minus, Strength::Weak),
    Right::Access(Privilege::Insert, Sign::Minus, Strength::Strong),
    Right::Access(Privilege::Delete, Sign::Plus, Strength::Weak),
    Right::Access(Privilege::Delete, Sign::Plus, Strength::Strong),
    Right::Access(Privilege::Delete, Sign::Minus, Strength::Weak),
    Right::Access(Privilege::Delete, Sign::Minus, Strength::Strong),
    Right::Access(Privilege::Update, Sign::Plus, Strength::Weak),
    Right::Access(Privilege::Update, Sign::Plus, Strength::Strong),
    Right::Access(Privilege::Update, Sign::Minus, Strength::Weak),
    Right::Access(Privilege::Update, Sign::Minus, Strength::Strong),
    Right::Admin(Privilege::Select, Kind::AdmAccess, Rank::Weak),
    Right::Admin(Privilege::Select, Kind::AdmAccess, Rank::Strong),
    Right::Admin(Privilege::Select, Kind::Administer, Rank::Weak),
    Right::Admin(Privilege::Select, Kind::Administer, Rank::Strong),
    Right::Admin(Privilege::Insert, Kind::AdmAccess, Rank::Weak),
    Right::Admin(Privilege::Insert, Kind::AdmAccess, Rank::Strong),
    Right::Admin(Privilege::Insert, Kind::Administer, Rank::Weak),
    Right::Admin(Privilege::Insert, Kind::Administer, Rank::Strong),
    Right::Admin(Privilege::Delete, Kind::AdmAccess, Rank::Weak),
    Right::Admin(Privilege::Delete, Kind::AdmAccess, Rank::Strong),
    Right::Admin(Privilege::Delete, Kind::Administer, Rank::Weak),
    Right::Admin(Privilege::Delete, Kind::Administer, Rank::Strong),
    Right::Admin(Privilege::Update, Kind::AdmAccess, Rank::Weak),
    Right::Admin(Privilege::Update, Kind::AdmAccess, Rank::Strong),
    Right::Admin(Privilege::Update, Kind::Administer, Rank::Weak),
    Right::Admin(Privilege::Update, Kind::Administer, Rank::Strong),
];

// The number of the row that a right stands in.
pub(crate) fn bit_number(right: Right) -> usize
    ensures { result ≡ bit right }
{
    ROWS.partition_point(|row| *row < right)
}

// Refuses an entry that has a number out of its range.
pub(crate) fn in_range(e: &Entry) -> Result<(), BookFault>
    ensures { MatchResult result (λ _. Proper e.now)
        (λ fault. (fault ≡ BadNumber) × (Proper e.now → ⊥)) }
{
    if e.subject != 0 && e.table <= 127 && e.grantor != 0 {
        Ok(())
    } else {
        Err(BookFault::BadNumber)
    }
}
