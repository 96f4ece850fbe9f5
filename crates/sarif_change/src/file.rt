//! A file of a change, and what several have in common.
ghost use Rattle.std.specs.Prelude.{◌≡◌, List, Option, true, false};
ghost use Rattle.std.specs.List.{list_any};
ghost use Rattle.sarif_diff.specs.declared.section.Span.{Span as OneSpan};
ghost use Rattle.sarif_change.specs.Internal.Files.{found_at};
ghost use Rattle.sarif_change.specs.Internal.Keys as keys;
ghost use Rattle.sarif_change.specs.Internal.Trees.{IsShared};
ghost use Rattle.sarif_change.specs.declared.file.ChangedFile.{ChangedFile as OneFile};

use crate::keys::opens;
use crate::lines::ChangedLines;
use crate::next::{NextBytes, next_at};

/// A file of a change.
#[derive(Drop)]
pub struct ChangedFile {
    /// The key of its parts.
    pub key: Vec<u8>,
    /// Its changed lines.
    pub changed: ChangedLines,
}

/// What several files have in common.
#[derive(Drop)]
pub struct SharedPart {
    /// What their keys begin with.
    pub beginning: Vec<u8>,
    /// What follows it.
    pub next: NextBytes,
    /// Their changed lines.
    pub changed: ChangedLines,
}

impl SharedPart {
    /// Returns whether none of the files may be the one with this key: their keys begin with something else, or go on with
    /// other bytes.
    #[tactic(auto, using(crate::proofs::NextMore::none_begins))]
    pub(crate) fn rules_out(&self, key: &[u8]) -> bool
        ensures { result ≡ true → keys.opens self.now.beginning.items key.now ≡ false
            → (files : List OneFile) → IsShared self.now files
            → (lines : Option OneSpan) → list_any (found_at key.now lines) files ≡ false }
    {
        if !opens(key, &self.beginning) {
            return true;
        }
        let next = next_at(key, self.beginning.len());
        0 < next && self.next.leaves_out(next)
    }
}
