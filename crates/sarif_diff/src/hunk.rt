//! The lines of a hunk, and its runs of changes.
ghost use Rattle.std.specs.Prelude.{◌≡◌, ◌≤◌, ◌+◌, ◌++◌, None, OnOk};
ghost use Rattle.sarif_diff.specs.Header.{last_line};
ghost use Rattle.sarif_diff.specs.Hunk as said;
ghost use Rattle.sarif_diff.specs.declared.hunk.Sign.TheVariants as sign;

use crate::header::Range;
use crate::section::Span;
use sarif_model::Sequence;
use std::alloc::AllocError;

/// A hunk that is being read, or the last one that was read.
#[derive(Clone, Copy)]
pub struct Hunk {
    /// The line of its header.
    pub header: usize,
    /// How many old lines follow.
    pub old: u64,
    /// The number of the next line of the new file.
    pub next: u64,
    /// The number of the line of the new file that follows the hunk.
    pub end: u64,
    /// The number of the next line of the new file when the run of changes began that is being read.
    pub run: Option<u64>,
    /// Whether a line of it begins with `-` or `+`.
    pub changes: bool,
}

/// What a line of a hunk is.
#[derive(Clone, Copy)]
pub enum Sign {
    /// A line of the old file.
    Old,
    /// A line of the new file.
    New,
    /// A line of both.
    Both,
    /// A remark of git's, for example that a file has no line feed at its end.
    Neither,
}

/// Returns what a line of a hunk is, if it can be in one.
pub(crate) fn sign_of(line: &[u8]) -> Option<Sign>
    ensures { result ≡ said.sign_of line.now }
{
    match line {
        [] => Some(Sign::Both),
        [first, rest @ ..] => {
            if *first == b'-' {
                Some(Sign::Old)
            } else if *first == b'+' {
                Some(Sign::New)
            } else if *first == b' ' {
                Some(Sign::Both)
            } else if *first == b'\\' {
                Some(Sign::Neither)
            } else if *first == b'\r' && rest.is_empty() {
                Some(Sign::Both)
            } else {
                None
            }
        }
    }
}

/// Returns the number of the first line of the new file that is in or after these lines.
fn next_of(new: Range) -> u64
    requires { new.first ≤ last_line }
    ensures is { result ≡ said.next_of new }
    ensures small { result ≤ last_line + 1 }
{
    if new.count == 0 {
        new.first + 1
    } else {
        new.first
    }
}

/// Returns the changed lines of a run, from the numbers of the next line at its start and at its end.
fn span_of(first: u64, next: u64) -> Span
    ensures { result ≡ said.span_of first next }
{
    if first < next {
        return Span {
            first,
            last: next - 1,
        };
    }
    Span {
        first: if 1 < first { first - 1 } else { first },
        last: first,
    }
}

impl Hunk {
    /// Returns a hunk before its first line.
    pub(crate) fn begin(header: usize, old: Range, new: Range) -> Hunk
        requires first { new.first ≤ last_line }
        requires count { new.count ≤ last_line }
        ensures { result ≡ said.begun header old new }
    {
        let next = next_of(new);
        Hunk {
            header,
            old: old.count,
            next,
            end: next + new.count,
            run: None,
            changes: false,
        }
    }

    /// Returns whether lines of it follow.
    pub(crate) fn is_open(self) -> bool
        ensures { result ≡ said.is_open self }
    {
        0 < self.old || self.next < self.end
    }

    /// Returns the run of changes that goes on.
    fn run_of(self) -> Option<u64>
        ensures { result ≡ said.run_of self }
    {
        Some(self.run.unwrap_or(self.next))
    }

    /// Returns the hunk after one more old line.
    fn with_old(self) -> Option<Hunk>
        ensures { result ≡ said.with_sign self sign.Old }
    {
        if self.old == 0 {
            return None;
        }
        let run = self.run_of();
        Some(Hunk {
            header: self.header,
            old: self.old - 1,
            next: self.next,
            end: self.end,
            run,
            changes: true,
        })
    }

    /// Returns the hunk after one more new line.
    fn with_new(self) -> Option<Hunk>
        ensures { result ≡ said.with_sign self sign.New }
    {
        if self.next >= self.end {
            return None;
        }
        let run = self.run_of();
        Some(Hunk {
            header: self.header,
            old: self.old,
            next: self.next + 1,
            end: self.end,
            run,
            changes: true,
        })
    }

    /// Returns the hunk after one more line of both.
    fn with_both(self) -> Option<Hunk>
        ensures { result ≡ said.with_sign self sign.Both }
    {
        if self.old == 0 || self.next >= self.end {
            return None;
        }
        Some(Hunk {
            header: self.header,
            old: self.old - 1,
            next: self.next + 1,
            end: self.end,
            run: None,
            changes: self.changes,
        })
    }

    /// Returns the hunk after one more line of this kind, or `None` if that is one too many.
    pub(crate) fn with_sign(self, sign: Sign) -> Option<Hunk>
        ensures { result ≡ said.with_sign self sign }
    {
        match sign {
            Sign::Old => self.with_old(),
            Sign::New => self.with_new(),
            Sign::Both => self.with_both(),
            Sign::Neither => Some(self),
        }
    }

    /// Returns the hunk with no run of changes that goes on.
    pub(crate) fn without_run(self) -> Hunk
        ensures { result ≡ record self { run = None } }
    {
        Hunk {
            header: self.header,
            old: self.old,
            next: self.next,
            end: self.end,
            run: None,
            changes: self.changes,
        }
    }

    /// Adds the changed lines of the run that ends here, if there is one.
    pub(crate) fn push_run(self, spans: &mut Sequence<Span>) -> Result<(), AllocError>
        ensures { OnOk result (spans.new ≡ spans.old ++ said.ended_run self) }
    {
        if let Some(first) = self.run {
            spans.push(span_of(first, self.next))?;
        }
        Ok(())
    }
}
