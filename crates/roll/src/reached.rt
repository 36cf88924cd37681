// The walk: the subjects that it has reached, marked, and those of them still to be followed.
ghost use Rattle.std.specs.Prelude.{◌≡◌, ◌+◌, ◌≤◌, true, false, [], ◌∷◌, length, drop, replicate, slice_set, IfNone, IfSome};
ghost use Rattle.arrayvec.specs.ArrayVec.{array_vec_len};
ghost use Rattle.rights.specs.Lists.{In};
ghost use Rattle.rights.specs.Pairs.{pair, RisingPairs};
ghost use Rattle.roll.specs.Places.{Start};
ghost use Rattle.roll.specs.Sure.{rising_prop};
ghost use Rattle.roll.specs.Walks.{unmarked, Marks, Reaches};

use arrayvec::ArrayVec;
use rights::Pair;

// Fixed memory, a place for each number that a subject may have.
#[derive(Drop)]
struct Reached {
    marks: [bool; 256],
    found: ArrayVec<u8, 256>,
    next: usize,
    ghost long: { length marks ≡ 256 },
    ghost room: { array_vec_len found + unmarked marks ≡ 256 },
    ghost inside: { next ≤ array_vec_len found },
}

impl Reached {
    // s alone.
    fn alone(s: u8) -> Reached
        ensures marks { result.marks ≡ slice_set (replicate 256 false) s true }
        ensures todo { drop result.next result.found.items ≡ s ∷ [] }
    {
        let mut marks = [false; 256];
        marks[usize::from(s)] = true;
        let mut found = ArrayVec::new();
        found.push(s);
        Reached {
            marks,
            found,
            next: 0,
        }
    }

    // Marks h, and lists it unless it was marked.
    fn mark(&mut self, h: u8)
        ensures { Marks (λ x. x ≡ h) self.old.marks self.new.marks
            (drop self.old.next self.old.found.items) (drop self.new.next self.new.found.items) }
    {
        let at = usize::from(h);
        if !self.marks[at] {
            self.marks[at] = true;
            self.found.push(h);
        }
    }

    // The next subject to be followed, in the order in which they were found: with a stack, which
    // goes to and fro among the pairs, a walk took up to 1.8 times as long.
    fn next(&mut self) -> Option<u8>
        ensures marks { self.new.marks ≡ self.old.marks }
        ensures none { IfNone result (drop self.old.next self.old.found.items ≡ []) }
        ensures some { IfSome result (λ m. drop self.old.next self.old.found.items ≡
            m ∷ drop self.new.next self.new.found.items) }
    {
        let m = *self.found.get(self.next)?;
        self.next += 1;
        Some(m)
    }
}

// The pairs that a walk goes over: they rise.
#[derive(Clone, Copy)]
pub(crate) struct Rising<'a> {
    pub(crate) pairs: &'a [Pair],
    ghost rises: { RisingPairs pairs.now } by { rising_prop pairs.now },
}

impl Rising<'_> {
    // Where the pairs of m begin, or would begin.
    fn start(self, m: u8) -> usize
        ensures bound { result ≤ length self.entry.pairs.now }
        ensures start { Start self.entry.pairs.now m result }
    {
        let mut low = 0;
        let mut high = self.pairs.len();
        // by hand: with `partition_point` a walk took about 1.7 times as long
        while low < high {
            let mid = low + (high - low) / 2;
            if self.pairs[mid].member < m {
                low = mid + 1;
            } else {
                high = mid;
            }
        }
        low
    }

    // Marks the groups that m is a direct member of.
    fn spread(self, m: u8, seen: &mut Reached)
        ensures { Marks (λ h. In (pair m h) self.entry.pairs.now) seen.old.marks seen.new.marks
            (drop seen.old.next seen.old.found.items) (drop seen.new.next seen.new.found.items) }
    {
        let first = self.start(m);
        // `take_while` is no plainer: the same test in a closure, and the same loop
        for p in &self.pairs[first..] {
            if p.member != m {
                return;
            }
            seen.mark(p.group);
        }
    }

    // All that s is within.
    pub(crate) fn walk(self, s: u8) -> [bool; 256]
        ensures { Reaches self.entry.pairs.now s result }
    {
        let mut seen = Reached::alone(s);
        while let Some(m) = seen.next() {
            self.spread(m, &mut seen);
        }
        seen.marks
    }
}
