//! How many results an entry of the suppression file matches at most.
ghost use Rattle.std.specs.Prelude.{◌≡◌, nat_eq};
ghost use Rattle.std.specs.List.{list_any};
ghost use Rattle.sarif_entries.specs.Matching as said;

use sarif_model::Record;

/// The limit of an entry: of the results for which its conditions are true, it matches only the first ones.
#[derive(Clone, Copy, Debug, PartialEq, Eq)]
pub struct Limit {
    /// `max`: how many results the entry matches, from 1.
    pub most: u32,
    /// The number of the entry in its file, from 0.
    pub number: u32,
}

/// Whether the number is one of these.
fn is_among(numbers: &[u32], number: u32) -> bool
    ensures { result ≡ list_any (λ n. nat_eq n number) numbers.now }
{
    numbers.iter().any(|own| *own == number)
}

/// Whether an entry with this limit admits the result; one without a limit admits each.
pub(crate) fn is_admitted(limit: Option<Limit>, record: &Record) -> bool
    ensures { result ≡ said.is_admitted limit record.now }
{
    match limit {
        None => true,
        Some(limit) => is_among(record.admitted.as_slice(), limit.number),
    }
}
