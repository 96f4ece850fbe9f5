//! What a gate says about a change.
ghost use Rattle.std.specs.Prelude.{◌≡◌};
ghost use Rattle.sarif_scope.specs.Gate as said;

use sarif_change::Scope;

/// What a gate says about the change of a diff.
#[derive(Clone, Copy, Debug, PartialEq, Eq)]
pub struct ChangeFacts {
    /// How many files the diff changes.
    pub files: u64,
    /// How many lines its hunks add.
    pub lines: u64,
    /// How many results would be hits without the change, and aren't inside.
    pub outside: u32,
    /// How many results would be reported without the change, and aren't inside: these, and those below the level of
    /// hits. The gate doesn't name them.
    pub unreported: u32,
    /// What of a changed file is treated as changed.
    pub scope: Scope,
}

/// Returns the name of a scope, as the option `--diff-scope` has it.
pub fn scope_name(scope: Scope) -> &'static str
    ensures { result.now ≡ said.scope_name scope }
{
    match scope {
        Scope::Lines => "lines",
        Scope::Files => "files",
    }
}
