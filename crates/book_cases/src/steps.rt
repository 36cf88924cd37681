// Steps drawn by a generator that gives the same numbers in every run.
ghost use Rattle.std.specs.Prelude.{◌<◌};

use book::Book;
use rights::{BookFault, Entry, Kind, Privilege, Rank, Right, Sign, Strength};

// How many steps came out alike on both books, and how each came out.
#[derive(Clone, Copy, Default)]
pub struct Tally {
    pub agreed: u32,
    pub done: u32,
    pub bad: u32,
    pub taken: u32,
    pub absent: u32,
    pub full: u32,
}

fn drawn(seed: u32) -> u32 {
    seed.wrapping_mul(1664525).wrapping_add(1013904223)
}

// The eight bits of n from a place on.
fn byte(n: u32, place: u32) -> u8
    requires { place < 32 }
{
    (n >> place).to_le_bytes()[0]
}

fn privilege_of(n: u32) -> Privilege {
    match n % 4 {
        0 => Privilege::Select,
        1 => Privilege::Insert,
        2 => Privilege::Delete,
        _ => Privilege::Update,
    }
}

fn right_of(n: u32) -> Right {
    let p = privilege_of(n >> 3);
    let strong = n >> 1 & 1 == 1;
    let second = n >> 2 & 1 == 1;
    if n & 1 == 1 {
        let sign = if second { Sign::Minus } else { Sign::Plus };
        let strength = if strong {
            Strength::Strong
        } else {
            Strength::Weak
        };
        Right::Access(p, sign, strength)
    } else {
        let kind = if second {
            Kind::Administer
        } else {
            Kind::AdmAccess
        };
        let rank = if strong { Rank::Strong } else { Rank::Weak };
        Right::Admin(p, kind, rank)
    }
}

// Subject 0 to 2, table 126 to 128, grantor 0 to 2: some are out of range.
fn entry_of(n: u32) -> Entry {
    Entry {
        subject: byte(n, 8) % 3,
        table: 126 + byte(n, 13) % 3,
        grantor: byte(n, 18) % 3,
        right: right_of(n >> 23),
    }
}

// Both books have the same entries at all places.
fn alike<A: Book, B: Book>(a: &A, b: &B) -> bool {
    a.count() == b.count()
        && (0..a.count()).all(|k| {
            a.at(k)
                .zip(b.at(k))
                .is_some_and(|(e, f)| e == f && a.holds(f) && b.holds(e))
        })
}

impl Tally {
    fn count(&mut self, answer: Result<(), BookFault>, agreed: bool) {
        let outcome = match answer {
            Ok(()) => &mut self.done,
            Err(BookFault::BadNumber) => &mut self.bad,
            Err(BookFault::Taken) => &mut self.taken,
            Err(BookFault::Absent) => &mut self.absent,
            Err(_) => &mut self.full,
        };
        *outcome = outcome.wrapping_add(1);
        if agreed {
            self.agreed = self.agreed.wrapping_add(1);
        }
    }

    // One step on both books: a put, a taking of what was drawn, or one of what stands.
    fn step<A: Book, B: Book>(&mut self, a: &mut A, b: &mut B, n: u32) {
        let e = entry_of(n);
        let (x, y) = match n >> 6 & 3 {
            0 => (a.take(e), b.take(e)),
            1 => {
                let f = a.at(usize::from(byte(n, 18) % 32)).unwrap_or(e);
                (a.take(f), b.take(f))
            }
            _ => (a.put(e), b.put(e)),
        };
        self.count(x, x == y && alike(a, b));
    }
}

pub(crate) fn run<A: Book, B: Book>(a: &mut A, b: &mut B, steps: usize) -> Tally {
    let mut tally = Tally::default();
    let mut seed = 2024;
    for _ in 0..steps {
        seed = drawn(seed);
        tally.step(a, b, seed);
    }
    tally
}
