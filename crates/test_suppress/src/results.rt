//! Results as matching and suppressing see them.
ghost use Rattle.std.specs.Prelude.{◌≡◌, [], option_map, None, IfOk};
ghost use Rattle.sarif_model.specs.declared.kinds.Kind.TheVariants.{Fail};
ghost use Rattle.sarif_model.specs.declared.kinds.Level.TheVariants.{Warning};

use sarif_model::{Kind, Level, Message, Place, Record, Sequence, Text, copy_if_there};
use std::alloc::{AllocError, Global};

/// Returns a result of the tool `lint` with this rule id, at this URI, without a message, a GUID, fingerprints and
/// suppressions. Returns `AllocError` if memory runs out.
pub fn result_at(alloc: Global, rule_id: &str, uri: Option<&str>) -> Result<Record, AllocError>
    ensures rule { IfOk result (λ made. made.rule_id ≡ rule_id.now) }
    ensures kind { IfOk result (λ made. made.kind ≡ Fail) }
    ensures level { IfOk result (λ made. made.level ≡ Warning) }
    ensures words { IfOk result (λ made. made.message.text ≡ None) }
    ensures id { IfOk result (λ made. made.message.id ≡ None) }
    ensures arguments { IfOk result (λ made. made.message.args ≡ []) }
    ensures place { IfOk result (λ made. made.place.uri ≡ option_map (λ s. s.now) uri.entry) }
    ensures base { IfOk result (λ made. made.place.base ≡ None) }
    ensures guid { IfOk result (λ made. made.guid ≡ None) }
    ensures full { IfOk result (λ made. made.full ≡ []) }
    ensures partial { IfOk result (λ made. made.partial ≡ []) }
    ensures held { IfOk result (λ made. made.held ≡ []) }
    ensures unadmitted { IfOk result (λ made. made.admitted ≡ []) }
{
    Ok(Record {
        tool: Text::copy_of(alloc, "lint")?,
        rule_id: Text::copy_of(alloc, rule_id)?,
        kind: Kind::Fail,
        level: Level::Warning,
        message: Message {
            text: None,
            id: None,
            args: Sequence::new(alloc),
        },
        place: Place {
            uri: copy_if_there(alloc, uri)?,
            base: None,
        },
        guid: None,
        full: Sequence::new(alloc),
        partial: Sequence::new(alloc),
        held: Sequence::new(alloc),
        region: None,
        snippet: None,
        admitted: Sequence::new(alloc),
    })
}
