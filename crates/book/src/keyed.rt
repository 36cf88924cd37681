// A cell: all entries of one subject, table and grantor, and what its map by bit number holds.
ghost use Rattle.std.specs.Prelude.{◌≡◌, ◌<◌, length};
ghost use Rattle.std.specs.List.{slice_get};
ghost use Rattle.rights.specs.Bits.{bit};
ghost use Rattle.book.specs.Cells.{has as set_in, key_cell, turned, unpacked};
ghost use Rattle.book.specs.Keys.{entry_key, cell_key};

use crate::order::{ROWS, bit_number};
use rights::{Entry, Right};

/// All entries of one subject, table and grantor.
// The fields of the key one by one: they are public, and callers make cells of them.
#[derive(Clone, Copy)]
pub struct Cell {
    pub subject: u8,
    pub table: u8,
    pub grantor: u8,
    /// a map by bit number
    pub rights: u32,
    /// how many entries stand in the cells before this one
    pub earlier: usize,
}

// What all entries of a cell share. Cells stand in the order of their keys.
#[derive(Clone, Copy, PartialEq, Eq, PartialOrd, Ord)]
pub(crate) struct Key {
    subject: u8,
    table: u8,
    grantor: u8,
}

// Written out: a key leaves the entry's right behind, which no derive does.
impl From<Entry> for Key {
    ghost from_gives = { λ e k. k ≡ entry_key e };

    fn from(e: Entry) -> Key {
        Key {
            subject: e.subject,
            table: e.table,
            grantor: e.grantor,
        }
    }
}

impl Cell {
    pub(crate) fn key(&self) -> Key
        ensures { result ≡ cell_key self.now }
    {
        Key {
            subject: self.subject,
            table: self.table,
            grantor: self.grantor,
        }
    }

    // The cell with the key of e that holds nothing.
    pub(crate) fn empty(e: Entry) -> Cell
        ensures { result ≡ key_cell e }
    {
        Cell {
            subject: e.subject,
            table: e.table,
            grantor: e.grantor,
            rights: 0,
            earlier: 0,
        }
    }

    // The cell with its entry of a right put in or taken out.
    pub(crate) fn turned(self, right: Right) -> Cell
        ensures { result ≡ turned self right }
    {
        Cell {
            rights: self.rights ^ 1 << bit_number(right),
            ..self
        }
    }

    // How many entries the cell holds.
    pub(crate) fn size(&self) -> usize
        ensures { result ≡ length (unpacked self.now) }
    {
        // a cast, since `usize` has no From<u32>, in Rust either
        self.rights.count_ones() as usize
    }

    // Whether bit k of the map is set.
    fn is_set(&self, k: usize) -> bool
        requires { k < 32 }
        ensures { result ≡ set_in self.now.rights k }
    {
        (self.rights >> k) % 2 == 1
    }

    // Whether the cell holds its entry of a right.
    pub(crate) fn holds(&self, right: Right) -> bool
        ensures { result ≡ set_in self.now.rights (bit right) }
    {
        self.is_set(bit_number(right))
    }

    // The entry at place n of those that the cell holds.
    pub(crate) fn entry_at(&self, n: usize) -> Option<Entry>
        ensures { result ≡ slice_get (unpacked self.now) n }
    {
        // by the rows' numbers, and with `get`: over the rows themselves a full cell took up to
        // 1.7 times as long, and `ROWS[k]` copies all rows first
        let k = (0..ROWS.len())
            .filter(
                |k|
                    requires { k.now < 32 }
                { self.is_set(*k) },
            )
            .nth(n)?;
        ROWS.get(k).map(|right| Entry {
            subject: self.subject,
            table: self.table,
            grantor: self.grantor,
            right: *right,
        })
    }
}
