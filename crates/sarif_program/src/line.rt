//! Composing the line of an error message.
ghost use Rattle.std.specs.Prelude.{◌≡◌, IfSome};
ghost use Rattle.sarif_program.specs.Line.{complaint_line};

use crate::complaint::Complaint;
use arrayvec::ArrayString;
use std::fmt::Write;

/// More bytes than any line has: two words, three numbers of ten digits and the longest cause.
pub(crate) const LINE: usize = 160;

/// Returns the line of an error message, or `None` if it is longer than that.
pub(crate) fn line_of(complaint: Complaint) -> Option<ArrayString<LINE>>
    ensures { IfSome result (λ line. line.bytes ≡ complaint_line complaint) }
{
    let mut line = ArrayString::new();
    match writeln!(line, "sarif_gate: {complaint}") {
        Ok(()) => Some(line),
        Err(_) => None,
    }
}
