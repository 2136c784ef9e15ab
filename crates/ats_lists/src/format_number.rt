//! The number of a format in the bytes of files.

ghost use Rattle.std.specs.Prelude.{◌≡◌};
ghost use Rattle.ats_lists.specs.FormatNumber.{number_of_format};

use crate::format::Format;

impl Format {
    /// The number that files have for this format.
    pub fn number(self) -> u8
        ensures { result ≡ number_of_format self }
    {
        match self {
            Format::One => 1,
            Format::Two => 2,
        }
    }
}
