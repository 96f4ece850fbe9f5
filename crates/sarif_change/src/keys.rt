//! Parts of paths as bytes: each part, and a slash.
ghost use Rattle.std.specs.Prelude.{◌≡◌, ◌≤◌, length, take, true};
ghost use Rattle.sarif_change.specs.Internal.Keys as said;

/// Returns whether the first key begins with the second.
#[tactic(auto, using(crate::proofs::KeysMore::opens_is))]
pub(crate) fn opens(key: &[u8], beginning: &[u8]) -> bool
    ensures { result ≡ said.opens key.now beginning.now }
{
    key.starts_with(beginning)
}

/// Returns whether two keys are the same up to the end of one of them.
pub(crate) fn alike(first: &[u8], second: &[u8]) -> bool
    ensures { result ≡ said.alike first.now second.now }
{
    opens(first, second) || opens(second, first)
}

/// Returns how many bytes two keys have in common at their beginning.
#[tactic(auto, using(std::proofs::lemmas::List::take_more_same))]
fn common_length(first: &[u8], second: &[u8]) -> usize
    ensures within { result ≤ length first.now }
    ensures both { take result first.now ≡ take result second.now }
{
    let most = first.len().min(second.len());
    for at in 0..most {
        if first[at] != second[at] {
            return at;
        }
    }
    most
}

/// Returns the bytes that two keys have in common at their beginning.
#[tactic(auto, using(crate::proofs::KeysMore::opens_take, crate::proofs::KeysMore::opens_equal))]
pub(crate) fn beginning_of<'k>(first: &'k [u8], second: &[u8]) -> &'k [u8]
    ensures first { said.opens first.now result.now ≡ true }
    ensures second { said.opens second.now result.now ≡ true }
{
    &first[..common_length(first, second)]
}
