//! The finding of a result of a merged log that is reported.
ghost use Rattle.std.specs.Prelude.{◌≡◌, IfOk, string_bytes};
ghost use Rattle.sarif_findings.specs.Located.{finding_at, help_at, message_at};
ghost use Rattle.serde_json.specs.View.{view};
ghost use Rattle.sarif_findings.specs.Shown.{shown as text_shown};
ghost use Rattle.sarif_findings.specs.Reported as said;
ghost use Rattle.sarif_findings.specs.Internal.Subject.{IsDescribed};

use crate::finding::Finding;
use crate::lookup::{help_uri, rule_id};
use crate::message::push_message;
use crate::named_run::NamedRun;
use crate::reporting::Reporting;
use crate::rule_name::shown_rule_name;
use crate::shown_text::{ShownText, shown_copy};
use crate::snippets::code_of;
use crate::spot::{ShownPlace, spot_of};
use crate::subject::Subject;
use crate::told_result::ToldResult;
use sarif_counts::Impact;
use sarif_links::is_address;
use sarif_model::{Level, State, Text};
use sarif_options::Policy;
use serde_json::Value;
use std::alloc::{AllocError, Global};

/// The address of a page on a result's rule, where it can be a link.
fn help_in(alloc: Global, subject: &Subject<'_>) -> Result<Option<Text>, AllocError>
    requires { IsDescribed subject.now }
    ensures { IfOk result
        (λ o. o ≡ help_at (view subject.now.run.now) subject.now.told.now.rule) }
{
    let Some(uri) = help_uri(subject) else {
        return Ok(None);
    };
    if is_address(uri) {
        return Ok(Some(Text::copy_of(alloc, uri)?));
    }
    Ok(None)
}

/// A result's message as it is shown.
fn shown_message(alloc: Global, subject: &Subject<'_>) -> Result<String, AllocError>
    requires { IsDescribed subject.now }
    ensures { IfOk result (λ s. string_bytes s
        ≡ text_shown (message_at (view subject.now.run.now) subject.now.told.now)) }
{
    let mut so_far = ShownText::new(alloc)?;
    push_message(alloc, &mut so_far, subject)?;
    Ok(so_far.finish())
}

fn message_in(alloc: Global, subject: &Subject<'_>) -> Result<Text, AllocError>
    requires { IsDescribed subject.now }
    ensures { IfOk result (λ t. t ≡ said.or_no_message
        (text_shown (message_at (view subject.now.run.now) subject.now.told.now))) }
{
    let message = shown_message(alloc, subject)?;
    if message.is_empty() {
        return Text::copy_of(alloc, "(no message)");
    }
    Text::from_string(message)
}

/// What a result of this level does to the gate.
fn impact_at(policy: &Policy, level: Level) -> Impact
    ensures { result ≡ said.impact_at policy.now level }
{
    if level.is_at_least(policy.fail_on) {
        Impact::Hit
    } else {
        Impact::None
    }
}

/// Returns the finding of a result of a run that has this level and this baseline state. It doesn't read the run's
/// results. Returns `AllocError` if memory runs out.
#[tactic(auto, unfolding(crate::specs::Located::finding_at))]
pub fn finding_of(
    alloc: Global,
    reporting: &Reporting,
    run: &NamedRun<'_>,
    told: &ToldResult<'_>,
    level: Level,
    state: State,
) -> Result<Finding, AllocError>
    ensures { IfOk result (λ finding. finding ≡ finding_at reporting.now (view run.now)
        told.now level state) }
{
    let subject = run.subject(told);
    let tool = run.tool().clone()?;
    let rule = shown_copy(alloc, rule_id(&subject))?;
    let message = message_in(alloc, &subject)?;
    let help = help_in(alloc, &subject)?;
    let rule_name = shown_rule_name(alloc, &subject)?;
    let ShownPlace {
        path,
        exact,
        line,
        column,
    } = spot_of(alloc, reporting, run, &told.location)?;
    let code = code_of(alloc, &told.snippets, line)?;
    let impact = impact_at(&reporting.policy, level);
    Ok(Finding {
        tool,
        rule,
        level,
        state,
        message,
        path,
        exact,
        line,
        column,
        help,
        rule_name,
        code,
        impact,
    })
}
