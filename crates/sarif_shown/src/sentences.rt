//! Sentences that several reports share.
ghost use Rattle.std.specs.Prelude.{◌≡◌, IfOk, string_bytes};
ghost use Rattle.sarif_shown.specs.Sentences as said;

use sarif_counts::Verdict;
use std::alloc::{AllocError, Global};

/// Returns a number and what it counts: `one` for 1, otherwise `more`. Returns `AllocError` if memory runs out.
pub fn count_text(alloc: Global, number: usize, one: &str, more: &str) -> Result<String, AllocError>
    ensures { IfOk result (λ s. string_bytes s ≡ said.counted number one.now more.now) }
{
    let noun = if number == 1 { one } else { more };
    format!(in alloc; "{number}{noun}")
}

/// Returns a number of hits. Returns `AllocError` if memory runs out.
pub fn hits_text(alloc: Global, hits: usize) -> Result<String, AllocError>
    ensures { IfOk result (λ s. string_bytes s ≡ said.hits_text hits) }
{
    count_text(alloc, hits, " hit", " hits")
}

/// Returns what follows the verdict: the hits and how many of them are allowed. Returns `AllocError` if memory runs
/// out.
pub fn gate_end(alloc: Global, hits: u32, max: u32) -> Result<String, AllocError>
    ensures { IfOk result (λ s. string_bytes s ≡ said.gate_end hits max) }
{
    let hits = hits_text(alloc, hits as usize)?;
    format!(in alloc; ", {hits}, {max} allowed")
}

/// Returns what follows the verdict of conditions: the hits, and how many of all conditions failed. Returns `AllocError` if
/// memory runs out.
pub fn conditions_end(
    alloc: Global,
    hits: u32,
    failed: usize,
    all: usize,
) -> Result<String, AllocError>
    ensures { IfOk result (λ s. string_bytes s ≡ said.conditions_end hits failed all) }
{
    let hits = hits_text(alloc, hits as usize)?;
    let all = count_text(alloc, all, " condition failed", " conditions failed")?;
    format!(in alloc; ", {hits}, {failed} of {all}")
}

/// Returns the verdict and what follows it. Returns `AllocError` if memory runs out.
pub fn gate_text(alloc: Global, verdict: Verdict, end: &str) -> Result<String, AllocError>
    ensures { IfOk result (λ s. string_bytes s ≡ said.gate_text verdict end.now) }
{
    let word = verdict.name();
    format!(in alloc; "Gate: {word}{end}")
}

/// How many results have no row, and what some of them are.
fn more_with(alloc: Global, number: usize, of_them: &str) -> Result<String, AllocError>
    ensures { IfOk result (λ s. string_bytes s ≡ said.more_with number of_them.now) }
{
    format!(in alloc; "{number} more results are in the merged log, {of_them}")
}

/// How many results have no row, where some of them are hits and some are not.
fn more_of_both(alloc: Global, number: usize, hits: usize) -> Result<String, AllocError>
    ensures { IfOk result (λ s. string_bytes s ≡ said.more_of_both number hits) }
{
    let of_them = count_text(alloc, hits, " of them a hit.", " of them hits.")?;
    let text = more_with(alloc, number, of_them.as_str())?;
    Ok(text)
}

/// Returns how many results have no row, and how many of them are hits. Returns `AllocError` if memory runs out.
pub fn more_text(alloc: Global, number: usize, hits: usize) -> Result<String, AllocError>
    ensures { IfOk result (λ s. string_bytes s ≡ said.more_text number hits) }
{
    if hits == number {
        return count_text(
            alloc,
            number,
            " more hit is in the merged log.",
            " more hits are in the merged log.",
        );
    }
    if hits == 0 {
        return count_text(
            alloc,
            number,
            " more result is in the merged log.",
            " more results are in the merged log.",
        );
    }
    more_of_both(alloc, number, hits)
}

/// Returns how many reported results are not shown. Returns `AllocError` if memory runs out.
pub fn unshown_text(alloc: Global, number: u32) -> Result<String, AllocError>
    ensures { IfOk result (λ s. string_bytes s ≡ said.unshown_text number) }
{
    count_text(
        alloc,
        number as usize,
        " other result isn't shown.",
        " other results aren't shown.",
    )
}

/// Returns how to accept one hit, with the part of a command between `before` and `after`.
fn alone_text(alloc: Global, before: &str, after: &str) -> Result<String, AllocError>
    ensures { IfOk result (λ s. string_bytes s ≡ said.alone_text before.now after.now) }
{
    format!(in alloc; "{before}--at PLACE{after} accepts one alone.")
}

/// Returns what to pass to later merges, and then `one`.
fn later_with(alloc: Global, before: &str, after: &str, one: &str) -> Result<String, AllocError>
    ensures { IfOk result (λ s. string_bytes s ≡ said.later_with before.now after.now one.now) }
{
    format!(in alloc; "{before}--suppress FILE{after} from then on; {one}")
}

/// Returns what to pass to later merges, and how to accept one hit, with each part of a command between `before` and
/// `after`.
fn later_text(alloc: Global, before: &str, after: &str) -> Result<String, AllocError>
    ensures { IfOk result (λ s. string_bytes s ≡ said.later_text before.now after.now) }
{
    let one = alone_text(alloc, before, after)?;
    later_with(alloc, before, after, &one)
}

/// Returns how to accept these hits, and then `later`.
fn accept_with(
    alloc: Global,
    before: &str,
    after: &str,
    them: &str,
    later: &str,
) -> Result<String, AllocError>
    ensures { IfOk result
        (λ s. string_bytes s ≡ said.accept_with before.now after.now them.now later.now) }
{
    format!(in alloc;
        "To accept {them}, run the same merge with {before}--accept --reason TEXT --suppress-out FILE{after}, review FILE, and pass {later}"
    )
}

/// Returns how to accept the hits, or one of them, with each part of a command between `before` and `after`. Returns
/// `AllocError` if memory runs out.
pub fn accept_text(
    alloc: Global,
    hits: u32,
    before: &str,
    after: &str,
) -> Result<String, AllocError>
    ensures { IfOk result (λ s. string_bytes s ≡ said.accept_text before.now after.now hits) }
{
    let them = if hits == 1 { "this hit" } else { "these hits" };
    let later = later_text(alloc, before, after)?;
    accept_with(alloc, before, after, them, &later)
}

/// Returns how many input runs have no results. Returns `AllocError` if memory runs out.
pub fn runs_text(alloc: Global, number: u32) -> Result<String, AllocError>
    ensures { IfOk result (λ s. string_bytes s ≡ said.runs_text number) }
{
    count_text(
        alloc,
        number as usize,
        " run without results: nothing is known of what it looked for.",
        " runs without results: nothing is known of what they looked for.",
    )
}

/// Returns how many entries of the suppression file match no current result. Returns `AllocError` if memory runs out.
pub fn entries_text(alloc: Global, number: u32) -> Result<String, AllocError>
    ensures { IfOk result (λ s. string_bytes s ≡ said.entries_text number) }
{
    count_text(
        alloc,
        number as usize,
        " suppression entry matches nothing.",
        " suppression entries match nothing.",
    )
}

/// Returns the sentence on results outside of the change that would be hits. Returns `AllocError` if memory runs out.
pub fn outside_text(alloc: Global, number: u32) -> Result<String, AllocError>
    ensures { IfOk result (λ s. string_bytes s ≡ said.outside_text number) }
{
    count_text(
        alloc,
        number as usize,
        " result outside the change would be a hit.",
        " results outside the change would be hits.",
    )
}

/// Returns how many filters of a policy match no current result. Returns `AllocError` if memory runs out.
pub fn filters_text(alloc: Global, number: u32) -> Result<String, AllocError>
    ensures { IfOk result (λ s. string_bytes s ≡ said.filters_text number) }
{
    count_text(
        alloc,
        number as usize,
        " filter of the policy matches nothing.",
        " filters of the policy match nothing.",
    )
}

/// Returns how many active current results no condition of a policy checks. Returns `AllocError` if memory runs out.
pub fn unchecked_text(alloc: Global, number: u32) -> Result<String, AllocError>
    ensures { IfOk result (λ s. string_bytes s ≡ said.unchecked_text number) }
{
    let results = count_text(
        alloc,
        number as usize,
        " active result.",
        " active results.",
    )?;
    format!(in alloc; "No condition checks {results}")
}
