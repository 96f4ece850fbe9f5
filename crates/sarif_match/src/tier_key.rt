//! What two results must have in common to be paired at a tier.
use crate::group::Group;
use sarif_model::{Message, Pairs, Place, Region, Text};

/// The key of a result at a tier, borrowed from the result. Keys of different tiers differ, and
/// keys of one tier are compared and hashed by their parts.
#[derive(Clone, Copy, Debug, PartialEq, Eq, Hash)]
pub enum Key<'a> {
    /// At `Tier::Guid`.
    Guid {
        tool: &'a Text,
        guid: u128,
    },
    /// At `Tier::Same`.
    Same {
        group: Group<'a>,
        full: &'a Pairs,
        partial: &'a Pairs,
        snippet: &'a Option<Text>,
        region: Region,
    },
    /// At `Tier::SameText`.
    SameText {
        group: Group<'a>,
        full: &'a Pairs,
        partial: &'a Pairs,
        snippet: &'a Text,
    },
    /// At `Tier::FingerprintHere` of this name.
    FingerprintHere {
        group: Group<'a>,
        member: &'a (Text, Text),
    },
    /// At `Tier::Fingerprint` of this name.
    Fingerprint {
        tool: &'a Text,
        name: &'a Text,
        value: &'a Text,
    },
    /// At `Tier::PartialHere`.
    PartialHere {
        tool: &'a Text,
        rule_id: &'a Text,
        place: &'a Place,
        partial: &'a Pairs,
    },
    /// At `Tier::PartialMoved`.
    PartialMoved {
        tool: &'a Text,
        rule_id: &'a Text,
        partial: &'a Pairs,
    },
    /// At `Tier::Place`.
    Place {
        tool: &'a Text,
        rule_id: &'a Text,
        place: &'a Place,
        message: &'a Message,
    },
    /// At `Tier::PlaceText`.
    PlaceText {
        group: Group<'a>,
        snippet: &'a Text,
    },
    /// At `Tier::PlaceLeft`.
    PlaceLeft {
        group: Group<'a>,
    },
}
