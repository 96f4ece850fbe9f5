//! The request for a merge.
use sarif_choice::Choosing;
use sarif_findings::Reporting;
use sarif_options::{Options, Upkeep};

/// The options of a merge, what reports of it need, and what is made for later merges.
#[derive(Clone, Copy)]
pub struct Asked<'o> {
    /// How it is done, and what the gate fails on.
    pub options: &'o Options,
    /// What reports depend on, if findings are requested. For the program its policy is the gate's; another caller
    /// may pass a different one.
    pub reporting: Option<&'o Reporting>,
    /// What is made for later merges, if anything is.
    pub upkeep: Option<&'o Upkeep>,
    /// Which hits are accepted, if not all are.
    pub choice: Option<&'o Choosing>,
}
