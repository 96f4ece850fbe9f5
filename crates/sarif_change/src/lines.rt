//! The changed lines of files.
ghost use Rattle.std.specs.Prelude.{◌≡◌, ◌≤◌, ◌||◌, true, false, leb, length, Option, IfOk};
ghost use Rattle.std.specs.List.{list_any};
ghost use Rattle.std.specs.List.Sorted.{IsNonDecreasingBy, IsPartitionPoint};
ghost use Rattle.sarif_diff.specs.declared.section.Span.{Span as OneSpan};
ghost use Rattle.sarif_change.specs.Meeting.{touches};
ghost use Rattle.sarif_change.specs.Internal.Files.{changed_at};
ghost use Rattle.sarif_change.specs.Internal.Raised.{raised};

use sarif_diff::Span;
use std::alloc::{AllocError, Global};
use std::marker::Model;

/// The changed lines of some files. Contracts see the spans, and whether any of the files is changed completely.
#[derive(Debug, Drop)]
pub struct ChangedLines {
    whole: bool,
    /// By their first lines; each is until the last line of it and of those before it.
    spans: Vec<Span>,
}

impl Model for ChangedLines {
    ghost use Rattle.std.specs.Prelude.{Bool, List};
    ghost use Rattle.std.specs.List.Sorted.{IsNonDecreasingBy};
    ghost use Rattle.sarif_diff.specs.declared.section.Span.{Span};

    ghost Value = { Bool × List Span };

    ghost view = { λ c. (c.whole, c.spans.items) };

    ghost invariant = { λ c. IsNonDecreasingBy (λ s. s.first) c.spans.items
        × IsNonDecreasingBy (λ s. s.last) c.spans.items };
}

/// Returns these spans, each until the last line of it and of those before it.
#[tactic(auto, using(crate::proofs::RaisedMore::raise_goes))]
fn raise(alloc: Global, spans: &[Span]) -> Result<Vec<Span>, AllocError>
    ensures { IfOk result (λ made. made.items ≡ raised 0 spans.now) }
{
    let mut made = Vec::with_capacity(alloc, spans.len())?;
    let mut most = 0;
    for span in spans {
        most = most.max(span.last);
        made.push(Span {
            first: span.first,
            last: most,
        })?;
    }
    Ok(made)
}

/// Returns how many of these spans begin up to this line.
fn count_to(spans: &[Span], last: u64) -> usize
    requires { IsNonDecreasingBy (λ s. s.first) spans.now }
    ensures within { result ≤ length spans.now }
    ensures is { IsPartitionPoint
        (λ s. leb s.first last ≡ true) (λ s. leb s.first last ≡ false) spans.now result }
{
    spans.partition_point(|span| span.first <= last)
}

/// Returns whether one of these spans has one of these lines.
#[tactic(auto, using(crate::proofs::RaisedMore::none_before))]
fn touch_any(spans: &[Span], lines: Span) -> bool
    requires first { IsNonDecreasingBy (λ s. s.first) spans.now }
    requires last { IsNonDecreasingBy (λ s. s.last) spans.now }
    ensures { result ≡ list_any (touches lines) spans.now }
{
    let count = count_to(spans, lines.last);
    if count == 0 {
        return false;
    }
    lines.first <= spans[count - 1].last
}

impl ChangedLines {
    /// Returns the changed lines of a file. Returns `AllocError` if memory runs out.
    pub(crate) fn of(
        alloc: Global,
        whole: bool,
        spans: Vec<Span>,
    ) -> Result<ChangedLines, AllocError>
        ensures { IfOk result (λ made. (lines : Option OneSpan)
            → changed_at lines made ≡ changed_at lines (whole, spans.items)) }
    {
        let mut spans = spans;
        spans.sort_by_key(|span| span.first)?;
        let spans = raise(alloc, &spans)?;
        Ok(ChangedLines { whole, spans })
    }

    /// Returns the changed lines of both. Returns `AllocError` if memory runs out.
    #[tactic(auto, using(crate::proofs::RaisedMore::both_at))]
    pub(crate) fn both(
        alloc: Global,
        first: &ChangedLines,
        second: &ChangedLines,
    ) -> Result<ChangedLines, AllocError>
        ensures { IfOk result (λ made. (lines : Option OneSpan)
            → changed_at lines made ≡ (changed_at lines first.now || changed_at lines second.now)) }
    {
        let mut spans = Vec::from_slice(alloc, &first.spans)?;
        spans.extend_from_slice(&second.spans)?;
        ChangedLines::of(alloc, first.whole || second.whole, spans)
    }

    /// Returns whether one of these lines changed; without lines, that the files changed.
    pub(crate) fn is_changed_at(&self, lines: Option<Span>) -> bool
        ensures { result ≡ changed_at lines self.now }
    {
        match lines {
            None => true,
            Some(lines) => self.whole || touch_any(&self.spans, lines),
        }
    }
}
