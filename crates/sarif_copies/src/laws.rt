//! Laws of copies. Each law is the contract of a function that does nothing.
ghost use Rattle.std.specs.Prelude.{◌≡◌, ◌≤◌, ◌⊎◌, ◌↔◌, ℕ, List, Some, true, IsTrue, slice_get};
ghost use Rattle.sarif_model.specs.declared.record.Record.{Record};
ghost use Rattle.sarif_copies.specs.Copies.{are_alike, findings_of, record_eq};

/// Two records are equal field by field if and only if they are equal.
pub fn records_are_equal_where_their_fields_are()
    ensures { (a b : Record) → IsTrue (record_eq a b) ↔ (a ≡ b) }
{}

/// Two results have the same finding if and only if they are one result or are alike: both have a URI and a region, and
/// they are equal in each field.
pub fn results_have_one_finding_where_they_are_alike()
    ensures { (rs : List Record) (i k m n : ℕ) (a b : Record)
        → slice_get rs i ≡ Some a → slice_get rs k ≡ Some b
        → slice_get (findings_of rs) i ≡ Some m → slice_get (findings_of rs) k ≡ Some n
        → (m ≡ n) ↔ ((i ≡ k) ⊎ (are_alike a b ≡ true)) }
{}

/// The finding of a result isn't after it, and is its own finding.
pub fn findings_are_their_own()
    ensures { (rs : List Record) (i m : ℕ) (a : Record) → slice_get rs i ≡ Some a
        → slice_get (findings_of rs) i ≡ Some m
        → (m ≤ i) × (slice_get (findings_of rs) m ≡ Some m) }
{}
