//! The indexes of a result of an indexed log: of its rule, of the rule's component and of its invocation.
ghost use Rattle.std.specs.Prelude.{◌≡◌};
ghost use Rattle.sarif_read.specs.Internal.Listed.{value_at};
ghost use Rattle.sarif_members.specs.OwnMembers.{own_indexes};

use super::super::indexes::Indexes;
use crate::node_members::{index_within, member_within};
use crate::result_node::ResultNode;
use sarif_model::Fault;

/// The indexes of a result, or `BadIndex` (SARIF 2.1.0, result object, "ruleIndex property",
/// "rule property", "provenance property").
#[tactic(auto, unfolding(crate::specs::OwnMembers::own_indexes))]
pub(super) fn read_indexes(found: &ResultNode<'_, '_, '_>) -> Result<Indexes, Fault>
    ensures { result ≡ own_indexes (value_at found.now) }
{
    let own = found.index_at("ruleIndex", Fault::BadIndex)?;
    let rule = found.member_at("rule");
    let rule_index = index_within(&rule, "index", Fault::BadIndex)?;
    let component = member_within(&rule, "toolComponent");
    let component = index_within(&component, "index", Fault::BadIndex)?;
    let provenance = found.member_at("provenance");
    let invocation = index_within(&provenance, "invocationIndex", Fault::BadIndex)?;
    Ok(Indexes {
        rule_index: rule_index.or(own),
        component,
        invocation,
    })
}
