//! What reports say about a result: its rule, message and place, made safe to show. `whole.rt` has the call that the
//! merge doesn't make.
#![tactic(auto)]

mod arguments;
mod artifacts;
mod brackets;
mod code;
mod code_excerpt;
mod code_indented;
mod code_lines;
mod empties;
mod finding;
mod first_char;
mod laws;
mod links;
mod lookup;
mod message;
mod named_run;
mod path;
mod placeholders;
mod reported_results;
mod reporting;
mod rule_name;
mod rules;
mod shown_text;
mod snippets;
mod spot;
mod subject;
mod told_result;
mod unlinked;
mod whole;

pub use code::Code;
pub use finding::Finding;
pub use laws::codes_have_few_short_lines;
pub use lookup::{driver_of, elements_in};
pub use named_run::NamedRun;
pub use reported_results::finding_of;
pub use reporting::{Reporting, Show};
pub use shown_text::{MOST_CHARACTERS, show_text};
pub use snippets::Snippets;
pub use told_result::ToldResult;
pub use whole::findings_in_log;
