//! Strings as tables.
ghost use Rattle.std.specs.Prelude.{◌≡◌, ◌++◌, ◌∷◌, [], ℕ, List, not, IfOk, OnOk, bytes_eq};
ghost use Rattle.std.specs.List.{list_any, position};
ghost use Rattle.indexmap.specs.IndexSet.{contains};
ghost use Rattle.sarif_choice.specs.Internal.Tables.{HasTexts};

use indexmap::IndexSet;
use sarif_model::Text;
use std::alloc::{AllocError, Global};
use std::hash::RandomState;

/// A table of strings.
pub(crate) type Table = IndexSet<Text, RandomState>;

/// Adds a string to the table.
fn add_text(table: &mut Table, text: &Text) -> Result<(), AllocError>
    ensures { OnOk result ((texts : List (List ℕ)) → HasTexts table.old texts
        → HasTexts table.new (texts ++ text.now ∷ [])) }
{
    table.insert(text.clone()?)?;
    Ok(())
}

/// The table of these strings.
pub(crate) fn table_of(
    alloc: Global,
    seed: RandomState,
    texts: &[Text],
) -> Result<Table, AllocError>
    ensures { IfOk result (λ table. HasTexts table texts.now) }
{
    let mut table: Table = IndexSet::with_hasher(alloc, seed);
    for text in texts {
        add_text(&mut table, text)?;
    }
    Ok(table)
}

/// Whether the table has one of these strings.
pub(crate) fn has_one(table: &Table, texts: &[Text]) -> bool
    ensures { result ≡ list_any (λ text. contains bytes_eq table.now text) texts.now }
{
    texts.iter().any(|text| table.contains(text))
}

/// The number of the first of these strings that the table doesn't have.
pub(crate) fn first_missing(table: &Table, texts: &[Text]) -> Option<usize>
    ensures { result ≡ position (λ text. not (contains bytes_eq table.now text)) texts.now }
{
    texts.iter().position(|text| !table.contains(text))
}
