//! The reports for job summaries and for services: Markdown, GitLab, JUnit XML; and the table of all outputs.
#![tactic(auto)]

mod gitlab_array;
mod identities;
mod junit_case;
mod junit_document;
mod junit_names;
mod junit_parts;
mod junit_suites;
mod later_outputs;
mod laws;
mod markdown_table;
mod objects;
mod policy_laws;
mod quality;
mod quoted;
mod ranked;
mod ranking;
mod report;

pub use gitlab_array::gitlab_report;
pub use junit_document::junit_report;
pub use laws::{
    gitlab_reports_read_back, hashed_texts_differ, junit_cases_are_results,
    junit_characters_are_allowed, junit_names_differ, markdown_reports_fit_into_comments,
    markdown_rows_have_their_cells, markdown_tables_count_all_results, markdown_texts_hold_no_mark,
};
pub use markdown_table::markdown_report;
pub use policy_laws::{junit_cases_follow_conditions, markdown_rows_of_a_policy_have_their_cells};
pub use report::{Report, report_text};
