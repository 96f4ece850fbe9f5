//! The suppression file, the policy and the change of a merge.
use sarif_policy::GatePolicy;
use sarif_scope::GatedChange;
use sarif_suppress::Suppressions;

/// The suppression file of a merge, and the bytes that it was read from, if there is one; and the policy of the gate and
/// the change that it checks, if there are such.
#[derive(Clone, Copy)]
pub struct FileRead<'f> {
    /// The file; without one it has no entries.
    pub file: &'f Suppressions,
    /// Its bytes.
    pub bytes: Option<&'f [u8]>,
    /// The policy.
    pub policy: Option<&'f GatePolicy>,
    /// The change.
    pub change: Option<&'f GatedChange>,
}
