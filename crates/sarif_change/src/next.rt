//! What follows what several keys begin with.
ghost use Rattle.std.specs.Prelude.{◌≡◌, ℕ, List, true};
ghost use Rattle.sarif_change.specs.Internal.NextBytes as said;

/// What follows the same number of bytes of several keys: 0 if a key ends there, otherwise the byte plus 1.
#[derive(Clone, Copy)]
pub struct NextBytes {
    pub least: u16,
    pub most: u16,
}

/// Returns what follows the first bytes of a key.
#[tactic(auto, using(crate::proofs::NextMore::byte_there, crate::proofs::NextMore::at_end))]
pub(crate) fn next_at(key: &[u8], at: usize) -> u16
    ensures { result ≡ said.next_at at key.now }
{
    match key.get(at) {
        Some(byte) => u16::from(*byte) + 1,
        None => 0,
    }
}

impl NextBytes {
    /// Returns what follows the first bytes of one key.
    #[tactic(auto, using(crate::proofs::NextMore::own_next))]
    pub(crate) fn of(key: &[u8], at: usize) -> NextBytes
        ensures { said.is_next result at key.now ≡ true }
    {
        let next = next_at(key, at);
        NextBytes {
            least: next,
            most: next,
        }
    }

    /// Returns what follows in the keys of both.
    #[tactic(auto, using(crate::proofs::NextMore::first_next, crate::proofs::NextMore::second_next))]
    pub(crate) fn both(self, other: NextBytes) -> NextBytes
        ensures first { (at : ℕ) (key : List ℕ) → said.is_next self at key ≡ true
            → said.is_next result at key ≡ true }
        ensures second { (at : ℕ) (key : List ℕ) → said.is_next other at key ≡ true
            → said.is_next result at key ≡ true }
    {
        NextBytes {
            least: self.least.min(other.least),
            most: self.most.max(other.most),
        }
    }

    /// Returns whether each key goes on, and none with this byte.
    pub(crate) fn leaves_out(self, byte: u16) -> bool
        ensures { result ≡ said.leaves_out self byte }
    {
        0 < self.least && (byte < self.least || self.most < byte)
    }
}
