//! The indexes of a result: of its rule, of the rule's component and of its invocation.
ghost use Rattle.std.specs.Prelude.{◌≡◌};
ghost use Rattle.serde_json.specs.View.{view as seen};
ghost use Rattle.sarif_members.specs.OwnMembers.{own_indexes};

use sarif_model::Fault;
use sarif_model::members::{index_at, index_within, member_at, member_within};
use serde_json::Value;

/// The indexes by which a result names parts of its run. One that is absent or -1 is `None`.
#[derive(Clone, Copy)]
pub(super) struct Indexes {
    /// `rule.index`, otherwise `ruleIndex`.
    pub rule_index: Option<u32>,
    /// `rule.toolComponent.index`: the extension.
    pub component: Option<u32>,
    /// `provenance.invocationIndex`.
    pub invocation: Option<u32>,
}

/// The indexes of a result, or `BadIndex` (SARIF 2.1.0, result object, "ruleIndex property",
/// "rule property", "provenance property").
#[tactic(auto, unfolding(crate::specs::OwnMembers::own_indexes))]
pub(super) fn read_indexes(result_value: &Value) -> Result<Indexes, Fault>
    ensures { result ≡ own_indexes (seen result_value.now) }
{
    let own = index_at(result_value, "ruleIndex", Fault::BadIndex)?;
    let rule = member_at(result_value, "rule");
    let rule_index = index_within(rule, "index", Fault::BadIndex)?;
    let component = member_within(rule, "toolComponent");
    let component = index_within(component, "index", Fault::BadIndex)?;
    let provenance = member_at(result_value, "provenance");
    let invocation = index_within(provenance, "invocationIndex", Fault::BadIndex)?;
    Ok(Indexes {
        rule_index: rule_index.or(own),
        component,
        invocation,
    })
}
