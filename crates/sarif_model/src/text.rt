//! A string that contracts see as its bytes, and that is compared and hashed by them.
ghost use Rattle.std.specs.Prelude.{◌≡◌, ◌⊎◌, ℕ, List, Some, refl, bytes_eq, string_bytes};
ghost use Rattle.std.specs.Prelude.{IfOk, option_map};
ghost use Rattle.std.proofs.Common.{rules};
ghost use Rattle.std.specs.Arc.{arc_str_bytes};
ghost use Rattle.std.specs.Ordering.{nat_cmp};
ghost use Rattle.std.specs.Cmp.{partial_equiv_from_equiv};
ghost use Rattle.std.specs.Cmp.Lexicographic.{slice_cmp, nat_list_eq_equiv, nat_list_cmp_total};
ghost use Rattle.std.specs.Cmp.Lexicographic.{texts_ties, texts_po};
ghost use Rattle.std.specs.Cmp.Rules.{hashing};
ghost use Rattle.sarif_model.specs.Internal.Hashed.{digest_of, fed_of};

use sha2::{Digest, Sha256};
use std::alloc::{AllocError, Global};
use std::cmp::Ordering;
use std::convert::AsStr;
use std::fmt;
use std::hash::{Hash, Hasher};
use std::marker::Model;
use std::sync::ArcStr;

/// The length in bytes of the longest text whose bytes are hashed each time.
const LONGEST_HASHED: usize = 1024;

/// A string of a log, stored once for all its clones, in any threads. Contracts see its UTF-8 bytes.
#[derive(Drop)]
pub struct Text {
    content: ArcStr,
    /// The number by which a longer string is hashed, or 0 if it was not computed. Nobody can choose strings so
    /// that many of them share it.
    digest: u64,
}

impl Model for Text {
    ghost Value = { List ℕ };

    ghost view = { λ t. arc_str_bytes t.content };

    ghost invariant = { λ t. (t.digest ≡ 0) ⊎ (t.digest ≡ digest_of (arc_str_bytes t.content)) };
}

/// The first 64 bits of the SHA-256 digest of a string.
#[tactic(auto, unfolding(crate::specs::Internal::Hashed::digest_of))]
fn digest(text: &str) -> u64
    ensures { result ≡ digest_of text.now }
{
    let bits = Sha256::digest(text.as_bytes());
    u64::from_be_bytes([
        bits[0], bits[1], bits[2], bits[3], bits[4], bits[5], bits[6], bits[7],
    ])
}

impl Text {
    /// Returns a copy of `text`. Returns `AllocError` if memory for it runs out.
    pub fn copy_of(alloc: Global, text: &str) -> Result<Text, AllocError>
        ensures { IfOk result (λ t. t ≡ text.now) }
    {
        let digest = digest_if_long(text);
        let content = ArcStr::from_str(alloc, text)?;
        Ok(Text { content, digest })
    }

    /// Returns `text` as a `Text`. Its bytes are neither copied nor read. Returns `AllocError` if memory for it
    /// runs out.
    pub fn from_string(text: String) -> Result<Text, AllocError>
        ensures { IfOk result (λ t. t ≡ string_bytes text) }
    {
        let content = ArcStr::from_string(text)?;
        Ok(Text { content, digest: 0 })
    }

    /// The text as a slice.
    pub fn as_str(&self) -> &str
        ensures { result.now ≡ self.now }
    {
        self.content.as_str()
    }

    /// Its digest, as it is stored or otherwise computed.
    fn digest(&self) -> u64
        ensures { result ≡ digest_of self.now }
    {
        if self.digest == 0 {
            digest(self.as_str())
        } else {
            self.digest
        }
    }
}

/// The digest of a long text; 0 of others.
fn digest_if_long(text: &str) -> u64
    ensures { (result ≡ 0) ⊎ (result ≡ digest_of text.now) }
{
    if text.len() <= LONGEST_HASHED {
        0
    } else {
        digest(text)
    }
}

/// A copy of `text`, if there is one.
pub fn copy_if_there(alloc: Global, text: Option<&str>) -> Result<Option<Text>, AllocError>
    ensures { IfOk result (λ copy. copy ≡ option_map (λ s. s.now) text.entry) }
{
    match text {
        None => Ok(None),
        Some(text) => Ok(Some(Text::copy_of(alloc, text)?)),
    }
}

impl AsStr for Text {
    ghost text = { λ t. t };

    fn as_str(&self) -> &str {
        Text::as_str(self)
    }
}

impl Clone for Text {
    ghost is_clone = { λ text copy. copy ≡ text };

    /// Shares the text; no byte is copied.
    fn clone(&self) -> Result<Text, AllocError> {
        let content = self.content.clone()?;
        let digest = self.digest;
        Ok(Text { content, digest })
    }
}

impl fmt::Display for Text {
    ghost output = { λ t. Some t };

    fn fmt<W: fmt::Write>(&self, f: &mut fmt::Formatter<W>) -> fmt::Result {
        fmt::Display::fmt(&self.as_str(), f)
    }
}

impl fmt::Debug for Text {
    fn fmt<W: fmt::Write>(&self, f: &mut fmt::Formatter<W>) -> fmt::Result {
        fmt::Debug::fmt(&self.as_str(), f)
    }
}

impl PartialEq for Text {
    ghost eq = { λ a b. bytes_eq a b };

    ghost laws = { partial_equiv_from_equiv nat_list_eq_equiv };

    fn eq(&self, other: &Text) -> bool {
        self.as_str() == other.as_str()
    }
}

impl Eq for Text {
    ghost laws = { nat_list_eq_equiv };
}

impl PartialOrd for Text {
    ghost partial_cmp = { λ a b. Some (slice_cmp nat_cmp a b) };

    ghost laws = { texts_po };

    fn partial_cmp(&self, other: &Text) -> Option<Ordering> {
        Some(self.cmp(other))
    }
}

impl Ord for Text {
    ghost cmp = { λ a b. slice_cmp nat_cmp a b };

    ghost total = { nat_list_cmp_total };

    ghost matches_partial_cmp = { λ a b. refl };

    ghost matches_eq = { λ a b. texts_ties a b };

    fn cmp(&self, other: &Text) -> Ordering {
        self.as_str().cmp(other.as_str())
    }
}

impl Hash for Text {
    ghost hash_input = { λ t. fed_of t };

    ghost respects_eq = { Prim.search (hashing, rules) };

    #[tactic(auto, unfolding(crate::specs::Internal::Hashed::fed_of))]
    fn hash<H: Hasher>(&self, state: &mut H) {
        if self.as_str().len() <= LONGEST_HASHED {
            self.as_str().hash(state);
        } else {
            self.digest().hash(state);
        }
    }
}
