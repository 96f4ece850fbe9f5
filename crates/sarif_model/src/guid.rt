//! Guids as numbers.
ghost use Rattle.std.specs.Prelude.{◌≡◌};
ghost use Rattle.sarif_model.specs.Guid.{guid_of_text};

use uuid::Uuid;

/// Returns the GUID that `text` represents in any of the forms of a GUID, as a number, or `None` if it represents
/// none (RFC 9562).
#[tactic(auto, unfolding(crate::specs::Guid::guid_of_text))]
pub fn read_guid(text: &str) -> Option<u128>
    ensures { result ≡ guid_of_text text.now }
{
    match Uuid::try_parse(text) {
        Ok(guid) => Some(guid.as_u128()),
        Err(_) => None,
    }
}
