//! Reading the arguments of the command line.
ghost use Rattle.std.specs.Prelude.{◌≡◌, ◌↔◌, ◌++◌, IfOk, IsTrue, OnOk, [], Some, map, unwrap_or};
ghost use Rattle.std.specs.Prelude.{string_bytes, option_and_then, option_map, codes};
ghost use Rattle.clap.specs.Words.{kind_of, rows_of, found_of, first_of, one_of};
ghost use Rattle.sarif_model.specs.Level.{level_named};
ghost use Rattle.sarif_options.specs.Policy.{default_policy};
ghost use Rattle.sarif_request.specs.Words.{words_status, ReportsError, IsAsked, AsksFor, GivesRequest};
ghost use Rattle.sarif_request.specs.Words.{IsReadNumber, IsReadOr, IsUsageOrOutOfMemory, IsVersion};
ghost use Rattle.sarif_request.specs.Words.{fail_on_in, is_set, link_in, reports_in, scope_in, show_in, states_in};
ghost use Rattle.sarif_request.specs.Words.{values_of, AreGiven, IsRenewal, SetsOptions, is_given, known_in, wanted_if};
ghost use Rattle.sarif_links.specs.Template.{template_of};
ghost use Rattle.sarif_reports.specs.Report.{report_name};
ghost use Rattle.sarif_request.specs.Words.{choice_in, choosing_in};
ghost use Rattle.sarif_request.specs.Words as said;

use crate::clash::{Clash, clash_of};
use crate::command::{command, with_file_row};
use crate::expected::sentence_with_expected;
use crate::listing::states_of;
use crate::request::Request;
use crate::scoping::scope_named;
use crate::showing::show_named;
use crate::together::{GivenOptions, misfit_of};
use crate::wanted::RequestedOutput;
use clap::ArgMatches;
use clap::error::ErrorKind;
use clap::parser::ValueSource;
use sarif_change::Scope;
use sarif_choice::{Choice, Choosing};
use sarif_evidence::MatchingVersion;
use sarif_findings::Show;
use sarif_links::Template;
use sarif_model::{Level, MOST_WORKERS, Sequence, Text};
use sarif_options::{Checks, Knowing, Options, Policy, Renewal, States, Upkeep};
use sarif_reports::Report;
use sarif_streams::STANDARD;
use std::alloc::{AllocError, AllocFailed, Global};
use std::hash::RandomState;

/// Why the arguments make no request.
#[derive(Debug, Drop)]
pub enum WordsFault {
    /// The arguments are invalid: the text says why.
    Usage(Text),
    /// The arguments request the help or the version, which is the text.
    Help(Text),
    /// Memory ran out.
    OutOfMemory,
}

impl WordsFault {
    /// Returns the program's exit status: 0 for the help or the version, otherwise 2.
    pub fn status(&self) -> u8
        ensures { result ≡ words_status self.now }
    {
        match self {
            WordsFault::Usage(_) => 2,
            WordsFault::Help(_) => 0,
            WordsFault::OutOfMemory => 2,
        }
    }
}

impl From<AllocError> for WordsFault {
    ghost use Rattle.sarif_request.specs.declared.words.WordsFault.TheVariants.{OutOfMemory};

    ghost from_gives = { λ _ fault. fault ≡ OutOfMemory };

    fn from(_error: AllocError) -> WordsFault {
        WordsFault::OutOfMemory
    }
}

/// Returns the arguments that are read if there are none: one worker merges one log from standard input to standard
/// output. Returns `AllocError` if memory for them runs out.
pub fn plain_words(alloc: Global) -> Result<Vec<String>, AllocError>
    ensures { IfOk result (λ words. map string_bytes words.items ≡ said.plain_words) }
{
    let workers = String::from_str(alloc, "--workers")?;
    let one = String::from_str(alloc, "1")?;
    let out = String::from_str(alloc, "--out")?;
    let output = String::from_str(alloc, STANDARD)?;
    let log = String::from_str(alloc, STANDARD)?;
    let words = vec![in alloc; workers, one, out, output, log]?;
    Ok(words)
}

/// Returns the request of the arguments after the program's name. The tables of the merge hash with `seed`.
/// Returns `Usage` if the arguments are invalid, their list of states is none, what reports are to show has no name,
/// their template of links is none, options in them don't go together or names in them clash; `Help` if they request
/// the help or the version; `OutOfMemory` if memory runs out.
pub fn read_words(alloc: Global, seed: RandomState, words: &[String]) -> Result<Request, WordsFault>
    ensures { GivesRequest (map string_bytes words.now) result }
{
    let command = command(alloc)?;
    match command.try_get_matches_from(words) {
        Ok(matches) => {
            let Some(states) = listed_states(alloc, &matches)? else {
                return Err(usage_of(told_of(alloc, NO_STATES)));
            };
            let Some(show) = named_show(&matches) else {
                return Err(usage_of(told_of(alloc, NO_SHOW)));
            };
            let Some(scope) = named_scope(&matches) else {
                return Err(usage_of(told_of(alloc, NO_SCOPE)));
            };
            let linked = named_link(alloc, &matches)?;
            let Some(link) = linked else {
                return Err(usage_of(told_of(alloc, NO_TEMPLATE)));
            };
            if let Some(misfit) = misfit_of(&given_of(&matches, states)) {
                return Err(usage_of(told_of(alloc, misfit.sentence())));
            }
            let read = ReadValues {
                states,
                show,
                scope,
                link,
            };
            let request = request_of(alloc, seed, &matches, read)?;
            let found = clash_of(alloc, &request)?;
            if let Some(clash) = found {
                return Err(usage_of(told_clash(alloc, clash, &request, words)));
            }
            Ok(request)
        }
        Err(error) => Err(fault_of(alloc, &error)),
    }
}

/// What is wrong with a list of states.
const NO_STATES: &str = "invalid value for '--states <LIST>': expected new, updated, unchanged or \
    absent, each at most once, joined by commas";

/// What is wrong with a name of what reports show.
const NO_SHOW: &str = "invalid value for '--show <WHICH>': expected hits or all";

/// What is wrong with a name of what is inside a change.
const NO_SCOPE: &str = "invalid value for '--diff-scope <SCOPE>': expected lines or files";

/// What is wrong with a template of links.
const NO_TEMPLATE: &str = "invalid value for '--link <TEMPLATE>': expected https:// or http://, a \
    host, /, and characters of an address with {path} once, for example \
    https://host/repo/blob/SHA/{path}#L{line}";

/// Returns a message about the arguments as the parser reports a mistake.
fn usage_of(told: Result<Text, AllocError>) -> WordsFault
    ensures { IsUsageOrOutOfMemory result }
{
    match told {
        Ok(text) => WordsFault::Usage(text),
        Err(_) => WordsFault::OutOfMemory,
    }
}

/// Returns the message about a clash of names in these arguments.
fn told_clash(
    alloc: Global,
    clash: Clash,
    request: &Request,
    words: &[String],
) -> Result<Text, AllocError> {
    let mut sentence = clash.sentence(alloc, request)?;
    if clash.is_repeat() && logs_follow_baseline(words) {
        sentence.push_str("; --baseline takes one file, and the files after it are logs")?;
    }
    told_of(alloc, sentence.as_str())
}

/// Returns whether two or more logs directly follow the file of one `--baseline`.
fn logs_follow_baseline(words: &[String]) -> bool {
    for part in words.windows(4) {
        if let [option, _, first, second] = part {
            if option.as_str() == "--baseline" && is_log(first) && is_log(second) {
                return true;
            }
        }
    }
    for part in words.windows(3) {
        if let [option, first, second] = part {
            if option.as_str().starts_with("--baseline=") && is_log(first) && is_log(second) {
                return true;
            }
        }
    }
    false
}

/// Returns whether this argument is the name of a log, and not an option.
fn is_log(word: &String) -> bool {
    word.as_str() == STANDARD || !word.as_str().starts_with('-')
}

/// Returns the message with this sentence.
fn told_of(alloc: Global, sentence: &str) -> Result<Text, AllocError> {
    let text = format!(in alloc; "error: {sentence}\n\nFor more information, try '--help'.\n")?;
    Text::from_string(text)
}

/// The values of arguments that are read before the request is made.
#[derive(Drop)]
struct ReadValues {
    states: States,
    show: Show,
    scope: Scope,
    link: Option<Template>,
}

/// Returns the request. The ranges of the numbers were checked with the arguments.
fn request_of(
    alloc: Global,
    seed: RandomState,
    matches: &ArgMatches<'_>,
    read: ReadValues,
) -> Result<Request, AllocError>
    requires listed { states_in (rows_of (found_of matches.now)) ≡ Some read.states }
    requires named { show_in (rows_of (found_of matches.now)) ≡ Some read.show }
    requires scoped { scope_in (rows_of (found_of matches.now)) ≡ Some read.scope }
    requires linked { link_in (rows_of (found_of matches.now)) ≡ Some read.link }
    ensures { IfOk result (AsksFor (rows_of (found_of matches.now))) }
{
    let ReadValues {
        states,
        show,
        scope,
        link,
    } = read;
    let logs = names_of(alloc, matches, "log")?;
    let baselines = names_of(alloc, matches, "baseline")?;
    let suppress = name_of(alloc, matches, "suppress")?;
    let policy = name_of(alloc, matches, "policy")?;
    let diff = name_of(alloc, matches, "diff")?;
    let out = text_in(alloc, matches, "out")?;
    let reports = reports_of(alloc, matches)?;
    let roots = names_of(alloc, matches, "root")?;
    let upkeep = upkeep_of(alloc, matches)?;
    let choice = choice_of(alloc, matches)?;
    let options = options_of(alloc, seed, matches, states, scope)?;
    Ok(Request {
        logs,
        baselines,
        suppress,
        policy,
        diff,
        out,
        reports,
        roots,
        show,
        link,
        explain: is_set(matches, "explain"),
        screen: None,
        upkeep,
        choice,
        options,
    })
}

/// Returns how the logs are merged.
fn options_of(
    alloc: Global,
    seed: RandomState,
    matches: &ArgMatches<'_>,
    states: States,
    scope: Scope,
) -> Result<Options, AllocError>
    requires listed { states_in (rows_of (found_of matches.now)) ≡ Some states }
    requires scoped { scope_in (rows_of (found_of matches.now)) ≡ Some scope }
    ensures { IfOk result (SetsOptions (rows_of (found_of matches.now))) }
{
    let today = number_of(matches, "today");
    let checks = checks_of(alloc, matches, scope)?;
    Ok(Options {
        policy: policy_of(matches, states),
        checks,
        today,
        workers: number_of(matches, "workers")
            .unwrap_or(1)
            .clamp(1, MOST_WORKERS),
        seed,
    })
}

/// Returns what is made for later merges.
fn upkeep_of(alloc: Global, matches: &ArgMatches<'_>) -> Result<Upkeep, AllocError>
    ensures renewal { IfOk result
        (λ upkeep. IsRenewal (rows_of (found_of matches.now)) upkeep.renewal) }
    ensures unused { IfOk result
        (λ upkeep. upkeep.unused ≡ is_given (codes "unused") (rows_of (found_of matches.now))) }
    ensures known { IfOk result
        (λ upkeep. upkeep.known ≡ known_in (rows_of (found_of matches.now))) }
{
    let renewal = renewal_of(alloc, matches)?;
    Ok(Upkeep {
        renewal,
        unused: is_given(matches, "unused"),
        known: known_of(matches),
    })
}

/// Returns how the new suppression file is made, or `None` if it is not requested.
fn renewal_of(alloc: Global, matches: &ArgMatches<'_>) -> Result<Option<Renewal>, AllocError>
    ensures { IfOk result (IsRenewal (rows_of (found_of matches.now))) }
{
    if !is_given(matches, "suppress-out") {
        return Ok(None);
    }
    let reason = name_of(alloc, matches, "reason")?;
    Ok(Some(Renewal {
        accept: is_set(matches, "accept"),
        prune: is_set(matches, "prune"),
        reason,
        until: number_of(matches, "until"),
    }))
}

/// Returns what the known log has, or `None` if it is not requested.
fn known_of(matches: &ArgMatches<'_>) -> Option<Knowing>
    ensures { result ≡ known_in (rows_of (found_of matches.now)) }
{
    if !is_given(matches, "known") {
        None
    } else if is_set(matches, "adopt") {
        Some(Knowing::Adopted)
    } else {
        Some(Knowing::Matched)
    }
}

/// Returns which hits are accepted, or `None` if no place and no rule is given.
fn choice_of(alloc: Global, matches: &ArgMatches<'_>) -> Result<Option<Choosing>, AllocError>
    ensures { IfOk result (λ choice. choice ≡ choice_in (rows_of (found_of matches.now))) }
{
    if !is_given(matches, "at") && !is_given(matches, "rule") {
        return Ok(None);
    }
    let choosing = choosing_of(alloc, matches)?;
    Ok(Some(choosing))
}

/// Returns the places and the rules by which hits are chosen, and the prefixes that are stripped from their paths.
fn choosing_of(alloc: Global, matches: &ArgMatches<'_>) -> Result<Choosing, AllocError>
    ensures { IfOk result
        (λ choosing. choosing ≡ choosing_in (rows_of (found_of matches.now))) }
{
    let places = values_of(alloc, matches, "at")?;
    let rules = values_of(alloc, matches, "rule")?;
    let roots = values_of(alloc, matches, "root")?;
    Ok(Choosing {
        choice: Choice { places, rules },
        roots,
    })
}

/// Returns which options are given of those that need each other.
fn given_of(matches: &ArgMatches<'_>, states: States) -> GivenOptions
    requires { states_in (rows_of (found_of matches.now)) ≡ Some states }
    ensures { AreGiven (rows_of (found_of matches.now)) result }
{
    GivenOptions {
        suppress: is_given(matches, "suppress"),
        suppress_out: is_given(matches, "suppress-out"),
        accept: is_set(matches, "accept"),
        prune: is_set(matches, "prune"),
        reason: is_given(matches, "reason"),
        until: number_of(matches, "until"),
        at: is_given(matches, "at"),
        rule: is_given(matches, "rule"),
        today: number_of(matches, "today"),
        unused: is_given(matches, "unused"),
        known: is_given(matches, "known"),
        adopt: is_set(matches, "adopt"),
        diff: is_given(matches, "diff"),
        diff_scope: is_given(matches, "diff-scope"),
        absent: states.absent,
        policy: is_given(matches, "policy"),
        fail_on: is_passed(matches, "fail-on"),
        states: is_passed(matches, "states"),
        max: is_passed(matches, "max"),
    }
}

/// All values of an argument.
#[tactic(auto, using(crate::proofs::Rows::all_in_rows))]
fn names_of(alloc: Global, matches: &ArgMatches<'_>, id: &str) -> Result<Vec<Text>, AllocError>
    ensures { IfOk result (λ v. v.items ≡ values_of id.now (rows_of (found_of matches.now))) }
{
    match matches.get_strs(id) {
        Some(found) => copies_of(alloc, found),
        None => Ok(Vec::new(alloc)),
    }
}

fn copies_of(alloc: Global, found: &[&str]) -> Result<Vec<Text>, AllocError>
    ensures { IfOk result (λ v. v.items ≡ map (λ name. name.now) found.now) }
{
    let mut names = Vec::new(alloc);
    for name in found {
        names.push(Text::copy_of(alloc, name)?)?;
    }
    Ok(names)
}

/// The value of an argument that has at most one.
#[tactic(auto, using(crate::proofs::Rows::first_in_rows))]
fn name_of(alloc: Global, matches: &ArgMatches<'_>, id: &str) -> Result<Option<Text>, AllocError>
    ensures { IfOk result (λ name. name ≡ first_of id.now (rows_of (found_of matches.now))) }
{
    match matches.get_str(id) {
        Some(name) => {
            let name = Text::copy_of(alloc, name)?;
            Ok(Some(name))
        }
        None => Ok(None),
    }
}

/// Returns that value, or the empty string if there is none.
#[tactic(auto, using(crate::proofs::Rows::first_in_rows))]
fn text_in(alloc: Global, matches: &ArgMatches<'_>, id: &str) -> Result<Text, AllocError>
    ensures { IfOk result
        (λ text. text ≡ unwrap_or (first_of id.now (rows_of (found_of matches.now))) []) }
{
    Text::copy_of(alloc, matches.get_str(id).unwrap_or(""))
}

/// Returns the outputs that are requested besides the merged log, in the order in which they are written.
fn reports_of(
    alloc: Global,
    matches: &ArgMatches<'_>,
) -> Result<Vec<RequestedOutput<Text>>, AllocError>
    ensures { IfOk result
        (λ reports. reports.items ≡ reports_in (rows_of (found_of matches.now))) }
{
    let mut reports = Vec::new(alloc);
    for &report in Report::ALL {
        push_wanted(alloc, matches, report, &mut reports)?;
    }
    Ok(reports)
}

/// Adds this output to the others if it is requested.
fn push_wanted(
    alloc: Global,
    matches: &ArgMatches<'_>,
    report: Report,
    reports: &mut Vec<RequestedOutput<Text>>,
) -> Result<(), AllocError>
    ensures { OnOk result (reports.new.items ≡ reports.old.items
        ++ wanted_if report (first_of (report_name report) (rows_of (found_of matches.now)))) }
{
    if let Some(to) = name_of(alloc, matches, report.name())? {
        reports.push(RequestedOutput { report, to })?;
    }
    Ok(())
}

/// Returns whether an option with a value is given.
#[tactic(auto, using(crate::proofs::Rows::first_in_rows))]
fn is_given(matches: &ArgMatches<'_>, id: &str) -> bool
    ensures { result ≡ is_given id.now (rows_of (found_of matches.now)) }
{
    matches.get_str(id).is_some()
}

/// Returns whether an option that has a default is given.
#[tactic(auto, using(crate::proofs::Rows::source_in_rows))]
fn is_passed(matches: &ArgMatches<'_>, id: &str) -> bool
    ensures { result ≡ said.is_passed id.now (rows_of (found_of matches.now)) }
{
    matches!(matches.value_source(id), Some(ValueSource::CommandLine))
}

/// Returns whether an option without a value is given.
#[tactic(auto, using(crate::proofs::Rows::first_in_rows))]
fn is_set(matches: &ArgMatches<'_>, id: &str) -> bool
    ensures { result ≡ is_set id.now (rows_of (found_of matches.now)) }
{
    match matches.get_str(id) {
        Some(text) => text == "true",
        None => false,
    }
}

/// The number of an argument that has at most one.
fn number_of(matches: &ArgMatches<'_>, id: &str) -> Option<u32>
    ensures { IsReadNumber (one_of id.now (rows_of (found_of matches.now))) result }
{
    matches.get_one::<u32>(id)
}

/// What is required of runs, and what is compared of their results.
fn checks_of(alloc: Global, matches: &ArgMatches<'_>, scope: Scope) -> Result<Checks, AllocError>
    ensures require_success { IfOk result (λ checks. checks.require_success
        ≡ is_set (codes "require-success") (rows_of (found_of matches.now))) }
    ensures allow_external { IfOk result (λ checks. checks.allow_external
        ≡ is_set (codes "allow-external-properties") (rows_of (found_of matches.now))) }
    ensures matching { IfOk result (λ checks.
        IsVersion (one_of (codes "matching") (rows_of (found_of matches.now))) checks.matching) }
    ensures once { IfOk result (λ checks. checks.once
        ≡ is_set (codes "once") (rows_of (found_of matches.now))) }
    ensures ignored { IfOk result (λ checks. checks.ignored
        ≡ values_of (codes "ignore-fingerprint") (rows_of (found_of matches.now))) }
    ensures scope { IfOk result (λ checks. checks.scope ≡ scope) }
    ensures roots { IfOk result (λ checks. checks.roots
        ≡ values_of (codes "root") (rows_of (found_of matches.now))) }
{
    let ignored = values_of(alloc, matches, "ignore-fingerprint")?;
    let removed = values_of(alloc, matches, "root")?;
    Ok(Checks {
        require_success: is_set(matches, "require-success"),
        allow_external: is_set(matches, "allow-external-properties"),
        matching: matching_of(matches),
        once: is_set(matches, "once"),
        ignored,
        scope,
        roots: removed,
    })
}

/// Returns all values of an argument, as a sequence.
fn values_of(
    alloc: Global,
    matches: &ArgMatches<'_>,
    id: &str,
) -> Result<Sequence<Text>, AllocError>
    ensures { IfOk result (λ s. s ≡ said.values_of id.now (rows_of (found_of matches.now))) }
{
    let names = names_of(alloc, matches, id)?;
    sequence_of(alloc, names)
}

/// These names in order.
fn sequence_of(alloc: Global, names: Vec<Text>) -> Result<Sequence<Text>, AllocError>
    ensures { IfOk result (λ sequence. sequence ≡ names.items) }
{
    let mut sequence = Sequence::new(alloc);
    for name in names {
        sequence.push(name)?;
    }
    Ok(sequence)
}

/// By which version results are matched.
fn matching_of(matches: &ArgMatches<'_>) -> MatchingVersion
    ensures { IsVersion (one_of (codes "matching") (rows_of (found_of matches.now))) result }
{
    version_of(number_of(matches, "matching"))
}

/// The version of matching with this number.
fn version_of(number: Option<u32>) -> MatchingVersion
    ensures { result ≡ said.version_of number }
{
    match number {
        Some(3) => MatchingVersion::Three,
        _ => MatchingVersion::Two,
    }
}

/// When the gate fails.
fn policy_of(matches: &ArgMatches<'_>, states: States) -> Policy
    ensures fail_on { result.fail_on ≡ fail_on_in (rows_of (found_of matches.now)) }
    ensures states { result.states ≡ states }
    ensures max { IsReadOr default_policy.max
        (one_of (codes "max") (rows_of (found_of matches.now))) result.max }
{
    let policy = Policy::default();
    Policy {
        fail_on: fail_on_of(matches).unwrap_or(policy.fail_on),
        states,
        max: number_of(matches, "max").unwrap_or(policy.max),
    }
}

/// Returns the states of a hit, or `None` if the list of states is none.
#[tactic(auto, using(crate::proofs::Rows::first_in_rows))]
fn listed_states(alloc: Global, matches: &ArgMatches<'_>) -> Result<Option<States>, AllocError>
    ensures { IfOk result (λ states. states ≡ states_in (rows_of (found_of matches.now))) }
{
    match matches.get_str("states") {
        Some(list) => states_of(alloc, list),
        None => Ok(Some(Policy::default().states)),
    }
}

/// Returns which results reports show, or `None` if it has no such name.
#[tactic(auto, using(crate::proofs::Rows::first_in_rows))]
fn named_show(matches: &ArgMatches<'_>) -> Option<Show>
    ensures { result ≡ show_in (rows_of (found_of matches.now)) }
{
    match matches.get_str("show") {
        Some(name) => show_named(name),
        None => Some(Show::All),
    }
}

/// Returns what is inside a change, or `None` if it has no such name.
#[tactic(auto, using(crate::proofs::Rows::first_in_rows))]
fn named_scope(matches: &ArgMatches<'_>) -> Option<Scope>
    ensures { result ≡ scope_in (rows_of (found_of matches.now)) }
{
    match matches.get_str("diff-scope") {
        Some(name) => scope_named(name),
        None => Some(Scope::Lines),
    }
}

/// Returns how places are linked, or `None` if the template of links is none.
#[tactic(auto, using(crate::proofs::Rows::first_in_rows))]
fn named_link(
    alloc: Global,
    matches: &ArgMatches<'_>,
) -> Result<Option<Option<Template>>, AllocError>
    ensures { IfOk result (λ link. link ≡ link_in (rows_of (found_of matches.now))) }
{
    match matches.get_str("link") {
        Some(text) => link_by(alloc, text),
        None => Ok(Some(None)),
    }
}

/// Returns the links that this template makes, or `None` if it is none.
fn link_by(alloc: Global, text: &str) -> Result<Option<Option<Template>>, AllocError>
    ensures { IfOk result (λ link. link ≡ option_map Some (template_of text.now)) }
{
    match Template::parse(alloc, text)? {
        Some(template) => Ok(Some(Some(template))),
        None => Ok(None),
    }
}

/// Returns the minimum level of a hit.
#[tactic(auto, using(crate::proofs::Rows::first_in_rows))]
fn fail_on_of(matches: &ArgMatches<'_>) -> Option<Level>
    ensures { result ≡ option_and_then level_named
        (first_of (codes "fail-on") (rows_of (found_of matches.now))) }
{
    match matches.get_str("fail-on") {
        Some(name) => Level::from_name(name),
        None => None,
    }
}

/// Returns the result of the parser as an error with the parser's text.
fn fault_of(alloc: Global, error: &clap::Error) -> WordsFault
    ensures { ReportsError (kind_of error.now) result }
{
    if error.kind() == ErrorKind::OutOfMemory {
        return WordsFault::OutOfMemory;
    }
    match text_of(alloc, error) {
        Ok(text) if is_asked(error.kind()) => WordsFault::Help(text),
        Ok(text) => WordsFault::Usage(text),
        Err(_) => WordsFault::OutOfMemory,
    }
}

/// Returns whether that is not a mistake: the arguments request the help or the version.
fn is_asked(kind: ErrorKind) -> bool
    ensures { IsTrue result ↔ IsAsked kind }
{
    kind == ErrorKind::DisplayHelp || kind == ErrorKind::DisplayVersion
}

/// Returns the parser's text for its result. If a number or a date is invalid, it says what is expected; the help has
/// the row of a file of arguments too.
fn text_of(alloc: Global, error: &clap::Error) -> Result<Text, AllocError> {
    let text = error.to_string(alloc)?;
    if error.kind() == ErrorKind::DisplayHelp {
        return Text::from_string(with_file_row(alloc, text.as_str())?);
    }
    if error.kind() == ErrorKind::ValueValidation {
        if let Some(sentence) = sentence_with_expected(alloc, text.as_str())? {
            return told_of(alloc, sentence.as_str());
        }
    }
    Text::from_string(text)
}
