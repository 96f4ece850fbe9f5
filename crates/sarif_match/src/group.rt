//! What the results of one group have in common.
ghost use Rattle.std.specs.Prelude.{◌≡◌};
ghost use Rattle.sarif_match.specs.Key.{group_of};
ghost use Rattle.sarif_match.specs.KeyParts.{borrowed_group};

use sarif_model::{Message, Place, Record, Text};

/// The parts that distinguish the groups of results: tool, rule, place and message.
#[derive(Clone, Copy, Debug, PartialEq, Eq, Hash)]
pub struct Group<'a> {
    pub tool: &'a Text,
    pub rule_id: &'a Text,
    pub place: &'a Place,
    pub message: &'a Message,
}

/// The group of a result.
pub(crate) fn group_of(finding: &Record) -> Group<'_>
    ensures { borrowed_group result ≡ group_of finding.now }
{
    Group {
        tool: &finding.tool,
        rule_id: &finding.rule_id,
        place: &finding.place,
        message: &finding.message,
    }
}
