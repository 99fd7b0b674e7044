//! Runs of one length, one after another in a list.

ghost use Rattle.std.specs.Prelude.{◌≡◌, ◌≤◌, ◌+◌, drop, length, take};

/// A number of items from a place on.
pub(crate) fn part<T>(items: &[T], start: usize, width: usize) -> &[T]
    requires { start + width ≤ length items.now }
    ensures { result.now ≡ take width (drop start items.now) }
{
    &items[start..start + width]
}
