//! A change, and a scope in which results are compared with it.
use sarif_change::Scope;
use sarif_scope::GatedChange;

/// A change that results are compared with in a scope. The scope may differ from the scope of the change.
#[derive(Clone, Copy)]
pub struct ScopedChange<'w> {
    /// The change.
    pub change: &'w GatedChange,
    /// What of a changed file is treated as changed.
    pub scope: Scope,
}
