//! The deal and its word.
ghost use Rattle.std.specs.Prelude.{◌≡◌, ◌<◌};

use crate::deal::rule::{Dealing, HandView, Terms};
use atomic_table::Table;
use std::alloc::Global;

/// The word that counts claims, with what each hand knows.
pub(crate) type Claims = Table<(), HandView, Terms, Dealing, Global>;

/// Runs from 0 on, which hands draw.
#[derive(Drop)]
pub struct Deal {
    pub(crate) claims: Claims,
    pub(crate) runs: u32,
    pub(crate) ghost runs_are: { claims.shared.key.runs ≡ runs },
    pub(crate) ghost word: { 0 < claims.shared.table_id.words },
    pub(crate) ghost dealt: { 0 < claims.shared.key.hands },
}
