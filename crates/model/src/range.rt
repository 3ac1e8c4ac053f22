//! The one test of a range against a length.

ghost use Rattle.std.specs.Prelude.{◌≡◌, ◌+◌, nat_le};

/// Whether `count` elements from `at` on lie within `len`, also where `at + count` passes the largest number.
pub fn fits(len: usize, at: usize, count: usize) -> bool
    ensures { result ≡ nat_le (at + count) len }
{
    at <= len && count <= len - at
}
