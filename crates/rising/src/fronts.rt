// The front of a caller's list: its first places, as many as are used.
ghost use Rattle.std.specs.Prelude.{◌≤◌, length};

mod calls;

/// The first places of a list that a caller lends, as many as are used.
// A slice with a count: the memory is the caller's, and what stands past the count is kept for him.
#[derive(Drop)]
pub struct Front<'a, T> {
    list: &'a mut [T],
    used: usize,
    ghost inside: { used ≤ length list.now },
}
