//! The request of one run of the program.

use crate::wanted::RequestedOutput;
use sarif_choice::Choosing;
use sarif_findings::Show;
use sarif_links::Template;
use sarif_model::Text;
use sarif_options::{Options, Upkeep};
use sarif_shown::Screen;

/// The request of one run. Sources have the names that were passed, in the order of the arguments.
#[derive(Debug, Drop)]
pub struct Request {
    /// The logs to merge; `-` is standard input.
    pub logs: Vec<Text>,
    /// The logs to compare them with.
    pub baselines: Vec<Text>,
    /// The suppression file.
    pub suppress: Option<Text>,
    /// The policy: the conditions of the gate, if the options don't say them.
    pub policy: Option<Text>,
    /// The diff of the change that the gate checks; `-` is standard input.
    pub diff: Option<Text>,
    /// Where the merged log goes; `-` is standard output.
    pub out: Text,
    /// The other outputs that were requested, in the order of `Report::ALL`, with the names of their files; `-` is
    /// standard output.
    pub reports: Vec<RequestedOutput<Text>>,
    /// The prefixes of paths in reports, in the order of the arguments: a path that begins with one loses the first of
    /// these. An empty one is none.
    pub roots: Vec<Text>,
    /// Which of the reported results reports show.
    pub show: Show,
    /// How places in reports are linked, if they are.
    pub link: Option<Template>,
    /// Whether errors are explained, and notes follow a merge.
    pub explain: bool,
    /// How standard output shows the hits, if it does.
    pub screen: Option<Screen>,
    /// What is made for later merges.
    pub upkeep: Upkeep,
    /// Which hits are accepted, if not all are. It has a copy of the prefixes in `roots`.
    pub choice: Option<Choosing>,
    /// How they are merged.
    pub options: Options,
}
