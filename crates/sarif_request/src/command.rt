//! The command line as its parser sees it: the options' rows, the rows of the outputs, and the help.
ghost use Rattle.std.specs.Prelude.{◌≡◌, IfOk, false, map, string_bytes};
ghost use Rattle.clap.specs.Words.{app_of, rule_of};
ghost use Rattle.sarif_reports.specs.Report.{all_reports, report_name};
ghost use Rattle.sarif_request.specs.Command.{IsProgram, argument_of, option_rule, with_reports};
ghost use Rattle.sarif_request.specs.Command.{arguments, rule_by, rule_for, start, with_arguments};
ghost use Rattle.sarif_request.specs.Help.{HasRow, row_between};

use crate::option_rows::{Group, OptionKind, OptionRow, rows};
use clap::builder::ValueParser;
use clap::{Arg, ArgAction, Command};
use sarif_reports::Report;
use std::alloc::{AllocError, Global};

/// The version of the program.
pub const VERSION: &str = "1.0.0";

const ABOUT: &str = "\
Merge SARIF 2.1.0 logs, compare their results with baselines, and fail if there are too many hits.

A hit is an active result with a state of --states and a level at or above that of --fail-on.
By default the states are new and updated. A result is new if it matches no baseline result, updated
if it differs from the baseline result that it matches, and unchanged if it does not. A baseline
result that no current result matches is absent. A result is active unless it is suppressed. With
--diff, only results inside the change are hits. With --policy, the conditions of a file say which
results are hits and how many each of them allows.";

const AFTER: &str = "\
Without arguments, the program reads one log from standard input, and writes the merged log to
standard output and the summary to standard error.

No two logs, no two baselines and no two outputs may have the same name. At most one of the logs and
--diff is standard input. At most one output is standard output. If it is that of --out,
--suppress-out or --known, the summary goes to standard error. No output may have the name of the
suppression file, of the policy, of the diff, of a log or of a baseline. There are three exceptions:
--suppress-out may have the name of --suppress, --known that of the only --baseline, and --out that
of a --baseline.

Exit status:
  0  the gate passes
  1  the gate fails: there are more hits than --max or a condition of --policy allows
  2  rejected: invalid arguments, an error in an input, or no memory or thread is left
  3  a file could not be read or written

Examples:
  sarif_gate --fail-on warning --out merged.sarif --text - scan.sarif
  sarif_gate --baseline known.sarif --fail-on warning --out merged.sarif scan.sarif";

/// The last row of the help's options. The parser does not know it: files of arguments are put in their places before.
const FILE_ROW: &str = "  @FILE                   \
    Arguments from FILE, one per line. Empty lines and lines that begin with #
                          give none";

static LEVELS: [&str; 4] = ["error", "warning", "note", "none"];

/// Returns the command, which expects no program name before its arguments. Returns `AllocError`
/// if memory runs out.
pub fn command<'a>(alloc: Global) -> Result<Command<'a>, AllocError>
    ensures { IfOk result (λ c. IsProgram (app_of c)) }
{
    with_reports(alloc, of_rows(alloc, ValueParser::from(LEVELS.as_slice()))?)
}

/// Returns the parser's help with the row of a file of arguments after its options. Returns `AllocError` if memory runs
/// out.
pub fn with_file_row(alloc: Global, help: &str) -> Result<String, AllocError>
    ensures { IfOk result (λ s. HasRow FILE_ROW.now AFTER.now help.now (string_bytes s)) }
{
    with_row(alloc, help, FILE_ROW, AFTER)
}

/// Returns a help with this row before what comes after its options. If that is not in the help, it is unchanged.
fn with_row(alloc: Global, help: &str, row: &str, after: &str) -> Result<String, AllocError>
    ensures { IfOk result (λ s. HasRow row.now after.now help.now (string_bytes s)) }
{
    match help.split_once(after) {
        Some((options, rest)) => with_row_between(alloc, options, row, after, rest),
        None => String::from_str(alloc, help),
    }
}

/// Returns a help with these options, this row, and what comes after the options: `after` and the rest.
fn with_row_between(
    alloc: Global,
    options: &str,
    row: &str,
    after: &str,
    rest: &str,
) -> Result<String, AllocError>
    ensures { IfOk result
        (λ s. string_bytes s ≡ row_between options.now row.now after.now rest.now) }
{
    let options = options.trim_end();
    format!(in alloc; "{options}\n{row}\n\n{after}{rest}")
}

/// Returns the command with its options but those of the outputs besides the merged log.
fn of_rows<'a>(alloc: Global, levels: ValueParser<'a>) -> Result<Command<'a>, AllocError>
    ensures { IfOk result (λ c. app_of c ≡ with_arguments levels.entry start arguments) }
{
    let mut command = bare_command(alloc);
    for row in rows() {
        command = command.arg(arg_of(alloc, row, levels))?;
    }
    Ok(command)
}

/// Returns the command without options. The help shows the logs before the options of their group.
fn bare_command<'a>(alloc: Global) -> Command<'a>
    ensures { app_of result ≡ start }
{
    Command::new(alloc, "sarif_gate")
        .no_binary_name(true)
        .disable_help_flag(true)
        .disable_version_flag(true)
        .version(VERSION)
        .about(ABOUT)
        .after_help(AFTER)
        .next_display_order(1)
}

/// Adds an option for each output besides the merged log.
fn with_reports<'a>(alloc: Global, command: Command<'a>) -> Result<Command<'a>, AllocError>
    ensures { IfOk result (λ c. app_of c ≡ with_reports (app_of command.entry) all_reports) }
{
    let mut command = command;
    for report in Report::ALL {
        command = command.arg(report_option(alloc, *report))?;
    }
    Ok(command)
}

/// Returns the option for this output: `--NAME FILE`.
fn report_option<'a>(alloc: Global, report: Report) -> Arg<'a>
    ensures rule { rule_of result ≡ option_rule (report_name report) }
    ensures local { result.global ≡ false }
{
    let name: &'a str = report.name();
    let help: &'a str = report.help();
    Arg::new(alloc, name)
        .long(name)
        .value_name("FILE")
        .help(help)
        .help_heading(group_of(report).heading())
}

/// Returns where the help shows the option for this output.
fn group_of(report: Report) -> Group {
    match report {
        Report::Suppressions | Report::Known => Group::Upkeep,
        _ => Group::Outputs,
    }
}

/// Returns the option of a row.
fn arg_of<'a>(alloc: Global, row: &OptionRow, levels: ValueParser<'a>) -> Arg<'a>
    ensures rule { rule_of result ≡ rule_for levels.entry (argument_of row.now) }
    ensures local { result.global ≡ false }
{
    let arg = arg_by(alloc, row, levels)
        .help(row.help)
        .help_heading(row.group.heading());
    match row.default {
        Some(value) => arg.default_value(value),
        None => arg,
    }
}

/// Returns the option of a row without its help and its default.
fn arg_by<'a>(alloc: Global, row: &OptionRow, levels: ValueParser<'a>) -> Arg<'a>
    ensures rule { rule_of result ≡ rule_by levels.entry row.now.kind row.now.id.now }
    ensures local { result.global ≡ false }
{
    let arg = Arg::new(alloc, row.id);
    match row.kind {
        OptionKind::Logs => arg
            .value_name(row.value)
            .action(ArgAction::Append)
            .required(true)
            .display_order(0),
        OptionKind::Needed => arg.long(row.id).value_name(row.value).required(true),
        OptionKind::Once => arg.long(row.id).value_name(row.value),
        OptionKind::Many => arg
            .long(row.id)
            .value_name(row.value)
            .action(ArgAction::Append),
        OptionKind::Level => arg.long(row.id).value_name(row.value).value_parser(levels),
        OptionKind::Number(least, most) => arg
            .long(row.id)
            .value_name(row.value)
            .value_parser(ValueParser::signed(least, most)),
        OptionKind::Flag => arg.long(row.id).action(ArgAction::SetTrue),
        OptionKind::Help => arg.long(row.id).short('h').action(ArgAction::Help),
        OptionKind::Version => arg.long(row.id).short('V').action(ArgAction::Version),
    }
}
