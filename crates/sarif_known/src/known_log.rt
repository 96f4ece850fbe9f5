//! The known log as JSON.
ghost use Rattle.std.specs.Prelude.{◌≡◌, ◌≤◌, Some, ◌++◌, length, map, IfOk, IfErr, OnOk, string_bytes};
ghost use Rattle.json.specs.Layout.{pretty};
ghost use Rattle.json.specs.Lex.{tokens};
ghost use Rattle.json_parts.specs.Indexed.{json_of};
ghost use Rattle.json_parts.specs.Mark.{without_mark};
ghost use Rattle.sarif_model.specs.Limits.{most_bytes};
ghost use Rattle.sarif_known.specs.Chosen.{all_chosen, run_as};
ghost use Rattle.sarif_known.specs.KnownLog.{known_text as text_of, pretty_text, known_log, IsLost};
ghost use Rattle.sarif_known.specs.KnownRun.{known_run};
ghost use Rattle.sarif_runs.specs.declared.run_options.RecordOptions.{RecordOptions};
ghost use Rattle.sarif_known.specs.Laws.{CanBeRead};
ghost use Rattle.sarif_known.specs.Order.{known_runs};
ghost use Rattle.sarif_known.specs.Internal.Tokens.{data_tokens, each_tokens, log_closing, log_opening};

use crate::chosen::KnownRun;
use crate::known_run::{push_run, too_long};
use crate::lines::Lines;
use crate::members::push_text;
use crate::order::order_runs;
use json::Token;
use sarif_evidence::MatchingVersion;
use sarif_model::{MOST_BYTES, MergeFault};
use std::alloc::{AllocError, Global};
use std::hash::RandomState;

/// Adds runs, with the regions of their results if regions become known, until the text is too long.
fn push_runs(out: &mut Lines, runs: &[KnownRun<'_>], regions: bool) -> Result<(), MergeFault>
    ensures added { OnOk result (out.new ≡ out.old
        ++ each_tokens (map known_run (map (run_as regions) (all_chosen runs.now)))) }
    ensures lost { IfErr result (IsLost (pretty (out.old
        ++ each_tokens (map known_run (map (run_as regions) (all_chosen runs.now)))))) }
{
    for run in runs {
        if let Err(fault) = push_run(out, run, regions) {
            return Err(fault);
        }
    }
    Ok(())
}

/// Opens a log, up to its first run (SARIF 2.1.0, "sarifLog object").
fn open_log(out: &mut Lines) -> Result<(), AllocError>
    ensures { OnOk result (out.new ≡ out.old ++ log_opening) }
{
    out.token(Token::BeginObject)?;
    out.token(Token::Key("runs"))?;
    out.token(Token::BeginArray)?;
    Ok(())
}

/// Closes it after its last run.
fn close_log(out: &mut Lines) -> Result<(), AllocError>
    ensures { OnOk result (out.new ≡ out.old ++ log_closing) }
{
    out.token(Token::EndArray)?;
    push_text(out, "version", "2.1.0")?;
    out.token(Token::EndObject)?;
    Ok(())
}

/// The text of the log with these runs, with the regions of their results if regions become known, without the newline.
fn log_text(alloc: Global, runs: &[KnownRun<'_>], regions: bool) -> Result<String, MergeFault>
    ensures text { IfOk result (λ text. string_bytes text
        ≡ pretty_text (known_log (map (run_as regions) (all_chosen runs.now)))) }
    ensures tokens { IfOk result (λ text. tokens (string_bytes text)
        ≡ data_tokens (known_log (map (run_as regions) (all_chosen runs.now)))) }
    ensures lost { IfErr result
        (IsLost (pretty_text (known_log (map (run_as regions) (all_chosen runs.now))))) }
{
    let mut out = Lines::new(alloc);
    open_log(&mut out)?;
    if let Err(fault) = push_runs(&mut out, runs, regions) {
        return Err(fault);
    }
    close_log(&mut out)?;
    let text = out.into_text()?;
    Ok(text)
}

/// Returns the text of the known log with those of these runs that have results: the tools in the order of their
/// first runs among those of the baselines and then of the inputs; of a tool its input runs, and then its baseline
/// runs, or in version 3 the other way round. A result has its region and its snippet if `regions` says so. The table of
/// tools hashes with `seed`, on which no byte depends. Returns `TooLong` if the text has more than `MOST_BYTES` bytes, so
/// that it could not be read again, and OutOfMemory if memory runs out. If the records are those of results that were
/// read, the text is read as the known log.
pub fn known_text(
    alloc: Global,
    seed: RandomState,
    version: MatchingVersion,
    regions: bool,
    current: Vec<KnownRun<'_>>,
    baseline: Vec<KnownRun<'_>>,
) -> Result<String, MergeFault>
    ensures text { IfOk result (λ text. string_bytes text
        ≡ text_of (map (run_as regions) (known_runs version (all_chosen current.entry.items)
        (all_chosen baseline.entry.items)))) }
    ensures reads { IfOk result (λ text. (options : RecordOptions)
        → CanBeRead options (map (run_as regions) (known_runs version
        (all_chosen current.entry.items) (all_chosen baseline.entry.items)))
        → json_of (without_mark (string_bytes text)) ≡ Some (known_log
        (map (run_as regions) (known_runs version (all_chosen current.entry.items)
        (all_chosen baseline.entry.items))))) }
    ensures short { IfOk result (λ text. length (string_bytes text) ≤ most_bytes) }
    ensures lost { IfErr result (IsLost
        (text_of (map (run_as regions) (known_runs version (all_chosen current.entry.items)
        (all_chosen baseline.entry.items))))) }
{
    let runs = order_runs(alloc, seed, version, current, baseline)?;
    let mut text = log_text(alloc, &runs, regions)?;
    text.push_str("\n")?;
    if text.len() > MOST_BYTES {
        return Err(too_long());
    }
    Ok(text)
}
