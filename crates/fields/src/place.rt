// A number of a table that a writer is lent.
ghost use Rattle.std.specs.Prelude.{◌≡◌, ◌≤◌, length, MatchOption, Some, slice_get};

// The number at a place, where the table does not end before it.
pub fn place<T: Copy + Into<N>, N>(t: &[T], i: usize) -> Option<N>
    ensures { MatchOption result (length t.now ≤ i) (λ v. (x : T) × (slice_get t.now i ≡ Some x) × T.converts x v) }
{
    t.get(i).map(|x| (*x).into())
}
