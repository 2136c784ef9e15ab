//! The line that is printed if something is refused.

ghost use Rattle.std.specs.Prelude.{◌≡◌};
ghost use Rattle.ats_console.specs.RejectionLines.{refused_line, line_of_rejection};

use crate::stop_lines::Line;
use ats_refusal::{Phrase, Rejection, rejection_words};

/// The line of what is refused, for the reason that a phrase gives.
pub(crate) fn refused_line(reason: Phrase) -> Line
    ensures { result ≡ refused_line reason }
{
    Line::said("refused: ", reason, "\n")
}

/// The line that is printed for a rejection.
pub fn rejection_line(rejection: Rejection) -> Line
    ensures { result ≡ line_of_rejection rejection }
{
    refused_line(rejection_words(rejection))
}
