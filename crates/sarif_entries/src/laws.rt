//! Laws of the object of an entry and of its limit, each the contract of a function that does nothing.
ghost use Rattle.std.specs.Prelude.{◌≡◌, ◌↔◌, ◌≤◌, ℕ, IsTrue, List, Ok, Option, Some, false, slice_get};
ghost use Rattle.serde_json.specs.Data.{Data};
ghost use Rattle.serde_json.specs.Written.{has_float};
ghost use Rattle.sarif_entries.specs.declared.entry.Entry.{Entry};
ghost use Rattle.sarif_entries.specs.declared.limit.Limit.{Limit};
ghost use Rattle.sarif_entries.specs.File.{File, file_of};
ghost use Rattle.sarif_entries.specs.Object.{is_object_of, object_of};

/// The object of an entry holds no number with a fraction.
#[tactic(auto, using(crate::proofs::ObjectTest::object_float))]
pub fn object_holds_no_fraction()
    ensures { (e : Entry) → has_float (object_of e) ≡ false }
{}

/// The test that finds an entry's object among suppressions is true for that object and for no other value.
#[tactic(auto, using(crate::proofs::ObjectTest::object_means))]
pub fn just_its_object_is_an_entrys()
    ensures { (e : Entry) (d : Data) → IsTrue (is_object_of e d) ↔ (d ≡ object_of e) }
{}

/// The limit of an entry of a file that was read has the number of the entry in the file, and is at least one result.
pub fn limits_have_the_numbers_of_their_entries()
    ensures { (bytes : List ℕ) (today : Option ℕ) (file : File) (n : ℕ) (e : Entry) (limit : Limit)
        → file_of bytes today ≡ Ok file → slice_get file.entries n ≡ Some e
        → e.limit ≡ Some limit → (limit.number ≡ n) × (1 ≤ limit.most) }
{}
