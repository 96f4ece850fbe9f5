//! The options, a row for each but the reports.
ghost use Rattle.std.specs.Prelude.{◌≡◌, ◌↔◌, IsTrue, map};
ghost use Rattle.sarif_request.specs.Command.{argument_of, arguments};
ghost use Rattle.sarif_request.specs.Help.{IsDate, heading_of};

use sarif_model::{FIRST_DAY, LAST_DAY, MOST_WORKERS};

/// Where the help shows an option.
#[derive(Clone, Copy, Debug, PartialEq, Eq)]
pub enum Group {
    /// What is read.
    Inputs,
    /// What decides between pass and fail.
    Gate,
    /// What is written for people and services.
    Outputs,
    /// What is written for later merges.
    Upkeep,
    /// Everything else.
    Other,
}

impl Group {
    /// Returns the heading of the group in the help.
    pub fn heading(self) -> &'static str
        ensures { result.now ≡ heading_of self }
    {
        match self {
            Group::Inputs => "Inputs",
            Group::Gate => "Gate",
            Group::Outputs => "Outputs",
            Group::Upkeep => "Upkeep",
            Group::Other => "Other",
        }
    }
}

/// What an option takes, and how often.
#[derive(Clone, Copy, Debug, PartialEq, Eq)]
pub enum OptionKind {
    /// One or more values without an option before them.
    Logs,
    /// One value, which is required.
    Needed,
    /// At most one value.
    Once,
    /// Any number of values.
    Many,
    /// At most one name of a level.
    Level,
    /// At most one integer in a range: the least and the greatest.
    Number(i64, i64),
    /// No value.
    Flag,
    /// No value: prints the help.
    Help,
    /// No value: prints the version.
    Version,
}

/// An option.
#[derive(Clone, Copy, Debug)]
pub struct OptionRow {
    /// The name, without its two hyphens. The results of parsing have it too.
    pub id: &'static str,
    /// What the help calls the value.
    pub value: &'static str,
    /// The help text of the option, in lines of at most 75 columns, and of at most 65 in the group of inputs.
    pub help: &'static str,
    /// Where the help shows the option.
    pub group: Group,
    /// What the option takes, and how often.
    pub kind: OptionKind,
    /// The value if the option is not given.
    pub default: Option<&'static str>,
}

/// A date as YYYYMMDD. Only its range is checked here.
const DATE: OptionKind = OptionKind::Number(FIRST_DAY as i64, LAST_DAY as i64);

/// Returns whether an option of this kind takes a date.
pub fn is_date(kind: OptionKind) -> bool
    ensures { IsTrue result ↔ IsDate kind }
{
    kind == DATE
}

static ROWS: [OptionRow; 30] = [
    OptionRow {
        id: "log",
        value: "LOG",
        help: "SARIF logs to merge, in this order; - is standard input, at most\n\
            once",
        group: Group::Inputs,
        kind: OptionKind::Logs,
        default: None,
    },
    OptionRow {
        id: "baseline",
        value: "FILE",
        help: "SARIF log of known results, for example an earlier merged log;\n\
            all other results are new. May be repeated",
        group: Group::Inputs,
        kind: OptionKind::Many,
        default: None,
    },
    OptionRow {
        id: "suppress",
        value: "FILE",
        help: "JSON file of accepted findings (suppressions), each with a reason\n\
            and an optional expiry date",
        group: Group::Inputs,
        kind: OptionKind::Once,
        default: None,
    },
    OptionRow {
        id: "diff",
        value: "FILE",
        help: "Diff of the change, as git diff writes it: only results inside it\n\
            can be hits, and only they are reported; - is standard input",
        group: Group::Inputs,
        kind: OptionKind::Once,
        default: None,
    },
    OptionRow {
        id: "today",
        value: "YYYYMMDD",
        help: "Today's date, for example 20250131. Required if a suppression has\n\
            an expiry date; the program reads no clock",
        group: Group::Inputs,
        kind: DATE,
        default: None,
    },
    OptionRow {
        id: "require-success",
        value: "",
        help: "Reject a log if the analysis of a run failed: an invocation was\n\
            not successful, or the run's results are missing or null",
        group: Group::Inputs,
        kind: OptionKind::Flag,
        default: None,
    },
    OptionRow {
        id: "allow-external-properties",
        value: "",
        help: "Allow runs to name external property files, except for results,\n\
            artifacts, invocations, driver and extensions",
        group: Group::Inputs,
        kind: OptionKind::Flag,
        default: None,
    },
    OptionRow {
        id: "fail-on",
        value: "LEVEL",
        help: "Minimum level of a hit. Reports also show the results that are\n\
            below it",
        group: Group::Gate,
        kind: OptionKind::Level,
        default: Some("error"),
    },
    OptionRow {
        id: "states",
        value: "LIST",
        help: "States of hits and reported results, joined by commas. They are new,\n\
            updated, unchanged and absent",
        group: Group::Gate,
        kind: OptionKind::Once,
        default: Some("new,updated"),
    },
    OptionRow {
        id: "max",
        value: "NUMBER",
        help: "Allow up to NUMBER hits, from 0 to 4294967295",
        group: Group::Gate,
        kind: OptionKind::Number(0, u32::MAX as i64),
        default: Some("0"),
    },
    OptionRow {
        id: "diff-scope",
        value: "SCOPE",
        help: "What is inside the change of --diff: results on changed lines, or in\n\
            changed files [default: lines] [possible values: lines, files]",
        group: Group::Gate,
        kind: OptionKind::Once,
        default: None,
    },
    OptionRow {
        id: "policy",
        value: "FILE",
        help: "JSON file of conditions, each with its own level, states, limit and\n\
            filters; takes the place of --fail-on, --states and --max",
        group: Group::Gate,
        kind: OptionKind::Once,
        default: None,
    },
    OptionRow {
        id: "matching",
        value: "VERSION",
        help: "How results match the baseline: 2 is by fingerprints or place,\n\
            3 is by snippets and regions too",
        group: Group::Gate,
        kind: OptionKind::Number(2, 3),
        default: Some("2"),
    },
    OptionRow {
        id: "once",
        value: "",
        help: "Match and count equal results at one place only once, such as those of a\n\
            header that many files include. Each is written",
        group: Group::Gate,
        kind: OptionKind::Flag,
        default: None,
    },
    OptionRow {
        id: "ignore-fingerprint",
        value: "NAME",
        help: "Ignore fingerprints and partial fingerprints with this name, in\n\
            matching and in suppression entries. May be repeated",
        group: Group::Inputs,
        kind: OptionKind::Many,
        default: None,
    },
    OptionRow {
        id: "out",
        value: "FILE",
        help: "Write the merged log to FILE; - is standard output. A rejected merge leaves\n\
            FILE unchanged",
        group: Group::Outputs,
        kind: OptionKind::Needed,
        default: None,
    },
    OptionRow {
        id: "root",
        value: "PREFIX",
        help: "Prefix to strip from paths in reports, for example file:///builds/app/.\n\
            The first prefix that fits is stripped. May be repeated",
        group: Group::Outputs,
        kind: OptionKind::Many,
        default: None,
    },
    OptionRow {
        id: "show",
        value: "WHICH",
        help: "Which results reports show: hits (only the hits) or all. The merged log\n\
            and the gate do not depend on it",
        group: Group::Outputs,
        kind: OptionKind::Once,
        default: Some("all"),
    },
    OptionRow {
        id: "link",
        value: "TEMPLATE",
        help: "Link places in Markdown and on the page. TEMPLATE is an address with\n\
            {path} and {line}, for example https://host/repo/blob/SHA/{path}#L{line}",
        group: Group::Outputs,
        kind: OptionKind::Once,
        default: None,
    },
    OptionRow {
        id: "accept",
        value: "",
        help: "Add an entry to the new suppression file for each hit, so that the next\n\
            merge accepts it. Needs --suppress-out",
        group: Group::Upkeep,
        kind: OptionKind::Flag,
        default: None,
    },
    OptionRow {
        id: "prune",
        value: "",
        help: "Leave out of the new suppression file what expired, and what matches no\n\
            result of a tool that ran. Needs --suppress and --suppress-out",
        group: Group::Upkeep,
        kind: OptionKind::Flag,
        default: None,
    },
    OptionRow {
        id: "reason",
        value: "TEXT",
        help: "Justification of the entries that --accept adds",
        group: Group::Upkeep,
        kind: OptionKind::Once,
        default: None,
    },
    OptionRow {
        id: "until",
        value: "YYYYMMDD",
        help: "Expiry date of the entries that --accept adds, for example 20270101.\n\
            Needs --today, which must not be after it",
        group: Group::Upkeep,
        kind: DATE,
        default: None,
    },
    OptionRow {
        id: "at",
        value: "PLACE",
        help: "Accept only hits at this place: PATH, PATH:LINE or PATH:LINE:COLUMN as\n\
            --text prints it. May be repeated. Needs --accept",
        group: Group::Upkeep,
        kind: OptionKind::Many,
        default: None,
    },
    OptionRow {
        id: "rule",
        value: "ID",
        help: "Accept only hits of this rule. May be repeated. Needs --accept",
        group: Group::Upkeep,
        kind: OptionKind::Many,
        default: None,
    },
    OptionRow {
        id: "adopt",
        value: "",
        help: "Let new hits and new suppressed results into the known log too. Needs\n\
            --known",
        group: Group::Upkeep,
        kind: OptionKind::Flag,
        default: None,
    },
    OptionRow {
        id: "workers",
        value: "NUMBER",
        help: "Number of worker threads, 1 to 64, besides the main thread. The outputs do\n\
            not depend on it",
        group: Group::Other,
        kind: OptionKind::Number(1, MOST_WORKERS as i64),
        default: Some("4"),
    },
    OptionRow {
        id: "explain",
        value: "",
        help: "After an error, also print the file, the position in it, what was found\n\
            there, what was expected and what to do. After an accepted merge, print\n\
            how many runs have no results, and how many suppression entries match\n\
            nothing or have expired",
        group: Group::Other,
        kind: OptionKind::Flag,
        default: None,
    },
    OptionRow {
        id: "help",
        value: "",
        help: "Print help",
        group: Group::Other,
        kind: OptionKind::Help,
        default: None,
    },
    OptionRow {
        id: "version",
        value: "",
        help: "Print version",
        group: Group::Other,
        kind: OptionKind::Version,
        default: None,
    },
];

/// Returns the rows of all options but the reports, group by group.
pub fn rows() -> &'static [OptionRow]
    ensures { map argument_of result.now ≡ arguments }
{
    ROWS.as_slice()
}
