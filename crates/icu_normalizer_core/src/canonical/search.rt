//! Search by halves.

ghost use Rattle.std.specs.Prelude.{ℕ, ◌-◌, ◌<◌, ◌≤◌, true, false};

/// The first index, of so many, at which the test no longer holds, where it holds up to some index and from
/// there on doesn't; the count where it holds at all. It takes about as many tests as the count has binary
/// digits.
pub(super) fn first_past<F: Fn(usize) -> bool>(count: usize, is_before: F) -> usize
    requires { (index : ℕ) → index < count → F.pre is_before index }
    ensures bound { result ≤ count }
    ensures before { 0 < result → F.post is_before (result - 1) true }
    ensures past { result < count → F.post is_before result false }
{
    let mut low = 0;
    let mut high = count;
    while low < high {
        let middle = low + (high - low) / 2;
        if is_before(middle) {
            low = middle + 1;
        } else {
            high = middle;
        }
    }
    low
}
