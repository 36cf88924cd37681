// The stories: diamonds, a deep chain, near-loops, many mixed changes, and the ceiling.
use crate::rolls::{Change, Trial};
use roll::RollMut;

impl<A: RollMut, B: RollMut> Trial<A, B> {
    // Two ways to one group: one is taken away, then the other.
    pub(crate) fn diamond(&mut self) {
        let ways = [(1, 10), (1, 11), (10, 12), (11, 12)];
        for (m, g) in ways {
            self.both(Change::Put(m, g));
        }
        self.ask_all();
        self.both(Change::Take(10, 12));
        self.ask_all();
        self.both(Change::Take(11, 12));
        self.ask_all();
        self.both(Change::Take(1, 10));
        self.both(Change::Take(1, 11));
        self.both(Change::Take(1, 11));
    }

    // Every subject within the next, and the loops that are refused then.
    pub(crate) fn chain(&mut self) {
        for s in 1..255 {
            self.both(Change::Put(s, s + 1));
        }
        self.ask_all();
        let loops = [
            (255, 1),
            (255, 128),
            (128, 128),
            (2, 1),
            (0, 1),
            (256, 1),
            (1, 256),
            (65535, 1),
        ];
        for (m, g) in loops {
            self.both(Change::Put(m, g));
            self.both(Change::Take(m, g));
        }
        self.both(Change::Take(100, 101));
        self.ask_all();
        self.both(Change::Put(255, 1));
        self.both(Change::Put(100, 101));
        self.ask_all();
    }

    // Puts and takes of numbers that look random, with one out of range now and then.
    pub(crate) fn mixed(&mut self) {
        let mut seed: u32 = 1999;
        for k in 0..1200u32 {
            seed = seed.wrapping_mul(1664525).wrapping_add(1013904223);
            let m = 210 + u16::try_from((seed >> 8) % 47).unwrap();
            let g = 210 + u16::try_from((seed >> 17) % 47).unwrap();
            if k % 3 == 2 {
                self.both(Change::Take(m, g));
            } else {
                self.both(Change::Put(m, g));
            }
            if k % 400 == 399 {
                self.ask_all();
            }
        }
    }

    // The pair that reaches the ceiling passes, the next is refused until one is taken.
    pub(crate) fn ceiling(&mut self) {
        for s in 1..7 {
            self.both(Change::Put(s, s + 1));
        }
        self.both(Change::Put(7, 1));
        self.both(Change::Take(2, 3));
        self.both(Change::Put(7, 8));
        self.both(Change::Put(8, 9));
        self.ask_all();
    }
}
