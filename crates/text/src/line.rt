//! Where a line ends.

ghost use Rattle.std.specs.Prelude.{◌≡◌};
ghost use Rattle.text.specs.Lines.{without};

/// The bytes without a certain one at their end, where it stands there.
pub fn without_last<'a>(bytes: &'a [u8], last: u8) -> &'a [u8]
    ensures { result.now ≡ without bytes.now last }
{
    match bytes.split_last() {
        Some((end, front)) if *end == last => front,
        _ => bytes,
    }
}
