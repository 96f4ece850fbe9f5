//! A choice among hits.
use sarif_model::{Sequence, Text};

/// The places and the rules by which hits are chosen: a hit is chosen if one of the places fits it, and one of the rules.
/// An empty list leaves none out.
#[derive(Debug, Drop)]
pub struct Choice {
    /// Places as the text report prints them, with or without their column or their line; `-` is the place of a hit
    /// without a path.
    pub places: Sequence<Text>,
    /// The ids of rules as reports show them; the empty string is that of a hit without a rule.
    pub rules: Sequence<Text>,
}

/// A choice among the hits of a merge, by their places as its reports show them.
#[derive(Debug, Drop)]
pub struct Choosing {
    /// The places and the rules.
    pub choice: Choice,
    /// The prefixes that reports strip from paths: a path that begins with one loses the first of these. An empty one
    /// is none.
    pub roots: Sequence<Text>,
}

/// A place or a rule that fits no chosen hit. Each kind is numbered from 0.
#[derive(Clone, Copy, Debug, PartialEq, Eq)]
pub enum Unfit {
    /// The place of that number.
    Place(usize),
    /// The rule of that number.
    Rule(usize),
}
