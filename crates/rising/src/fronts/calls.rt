// What the front of a list tells, and how it changes. Each call is total.
ghost use Rattle.std.specs.Prelude.{◌≡◌, ◌<◌, ◌≤◌, ◌↔◌, [], length, IsOk, IfNone, IfErr, OnSome, OnOk, OnErr, slice_set};
ghost use Rattle.std.specs.List.{slice_get, insert, remove};
ghost use Rattle.rising.specs.Fronts.{stored, whole, Refilled};

use super::Front;

impl<'a, T: Copy> Front<'a, T> {
    /// Of the list no place is used yet.
    pub fn over(list: &'a mut [T]) -> Front<'a, T>
        ensures empty { stored result ≡ [] }
        ensures untouched { whole result ≡ list.old }
    {
        Front { list, used: 0 }
    }

    /// What stands in the places used.
    pub fn as_slice(&self) -> &[T]
        ensures { result.now ≡ stored self.now }
    {
        &self.list[0..self.used]
    }

    /// How many places are used.
    pub fn len(&self) -> usize
        ensures { result ≡ length (stored self.now) }
    {
        self.as_slice().len()
    }

    /// What stands at place k, nothing past the places used.
    pub fn get(&self, k: usize) -> Option<T>
        ensures { result ≡ slice_get (stored self.now) k }
    {
        self.as_slice().get(k).copied()
    }

    /// Puts x in place k, and gives what stood there. Past the places used nothing changes.
    pub fn replace(&mut self, k: usize, x: T) -> Option<T>
        ensures gives { result ≡ slice_get (stored self.old) k }
        ensures some { OnSome result (Refilled self.old (slice_set (stored self.old) k x) self.new) }
        ensures none { IfNone result (self.new ≡ self.old) }
    {
        // a guard: of `self.get(k)?` the check learns no bound for the write that follows
        if k >= self.used {
            return None;
        }
        let before = self.list[k];
        self.list[k] = x;
        Some(before)
    }

    /// Puts x at place k, and moves what stands from there on up one place. Where the list is full,
    /// or k is past the places used, x comes back and nothing changes.
    pub fn insert(&mut self, k: usize, x: T) -> Result<(), T>
        ensures done { IsOk result
            ↔ ((k ≤ length (stored self.old)) × (length (stored self.old) < length (whole self.old))) }
        ensures ok { OnOk result (Refilled self.old (insert (stored self.old) k x) self.new) }
        ensures err { OnErr result (self.new ≡ self.old) }
        ensures back { IfErr result (λ y. y ≡ x) }
    {
        let used = self.used;
        if used == self.list.len() || k > used {
            return Err(x);
        }
        self.list.copy_within(k..used, k + 1);
        self.list[k] = x;
        self.used = used + 1;
        Ok(())
    }

    /// Takes out place k, and moves what stands past it down one place. Past the places used
    /// nothing changes.
    pub fn remove(&mut self, k: usize) -> Option<T>
        ensures gives { result ≡ slice_get (stored self.old) k }
        ensures some { OnSome result (Refilled self.old (remove (stored self.old) k) self.new) }
        ensures none { IfNone result (self.new ≡ self.old) }
    {
        let used = self.used;
        // a guard, as in `replace`
        if k >= used {
            return None;
        }
        let before = self.list[k];
        self.list.copy_within(k + 1..used, k);
        self.used = used - 1;
        Some(before)
    }
}
