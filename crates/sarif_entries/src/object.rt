//! The object that is written for an entry, and which values it is.
ghost use Rattle.std.specs.Prelude.{◌≡◌, ◌↔◌, IsTrue, IfOk};
ghost use Rattle.serde_json.specs.View.{view};
ghost use Rattle.sarif_entries.specs.Object as said;

use crate::entry::Entry;
use crate::key::{is_object_with, key_of};
use serde_json::{Value, json};
use std::alloc::{AllocError, Global};

/// The object of an entry: its `kind`, which is `external`, its `status`, and its `justification`
/// where it has one.
pub fn object_of(alloc: Global, entry: &Entry) -> Result<Value, AllocError>
    ensures { IfOk result (λ v. view v ≡ said.object_of entry.now) }
{
    let status = entry.status.name();
    match &entry.justification {
        Some(text) => {
            json!(in alloc; {"justification": text.as_str(), "kind": "external", "status": status})
        }
        None => json!(in alloc; {"kind": "external", "status": status}),
    }
}

/// Whether the value is the entry's object.
#[tactic(auto, using(crate::proofs::ObjectTest::object_means))]
pub fn is_object_of(entry: &Entry, value: &Value) -> bool
    ensures means { IsTrue result ↔ (view value.now ≡ said.object_of entry.now) }
    ensures test { result ≡ said.is_object_of entry.now (view value.now) }
{
    is_object_with(&key_of(entry), value)
}
