//! All fields of a record, as a key of a table.
ghost use Rattle.std.specs.Prelude.{◌≡◌};
ghost use Rattle.sarif_copies.specs.Internal.Table.{fields_of, with_numbers};

use sarif_model::{Kind, Level, Message, Pairs, Place, Record, Region, Sequence, Status, Text};

/// All fields of a record, borrowed from it. Two are equal if each field is.
#[derive(Clone, Copy, PartialEq, Eq, Hash)]
pub(crate) struct WholeRecord<'a, 's> {
    tool: &'a Text,
    rule_id: &'a Text,
    kind: Kind,
    level: Level,
    message: &'a Message,
    place: &'a Place,
    guid: Option<u128>,
    full: &'a Pairs,
    partial: &'a Pairs,
    held: &'a Sequence<Status>,
    region: Option<Region>,
    snippet: &'a Option<Text>,
    admitted: &'s Sequence<u32>,
}

/// The fields of a record, but with the numbers `admitted`.
pub(crate) fn record_with<'a, 's>(
    found: &'a Record,
    admitted: &'s Sequence<u32>,
) -> WholeRecord<'a, 's>
    ensures { fields_of result ≡ with_numbers found.now admitted.now }
{
    WholeRecord {
        tool: &found.tool,
        rule_id: &found.rule_id,
        kind: found.kind,
        level: found.level,
        message: &found.message,
        place: &found.place,
        guid: found.guid,
        full: &found.full,
        partial: &found.partial,
        held: &found.held,
        region: found.region,
        snippet: &found.snippet,
        admitted,
    }
}

/// The fields of a record.
pub(crate) fn whole_record<'a>(found: &'a Record) -> WholeRecord<'a, 'a>
    ensures { fields_of result ≡ found.now }
{
    record_with(found, &found.admitted)
}
