//! What reports show: strings escaped for their format, places, sentences, the order of results, and the reports of
//! one line per result.
#![tactic(auto)]

mod azure_lines;
mod condition_row;
mod count_row;
mod escaping;
mod github_lines;
mod laws;
mod linked;
mod listing;
mod noted;
mod place;
mod policy_laws;
mod ruled;
mod sentences;
mod stopping;
mod terminal_lines;
mod text_lines;
mod told;
mod unshown;

pub use azure_lines::azure_report;
pub use condition_row::condition_cells;
pub use count_row::{CountRow, row_numbers};
pub use escaping::Escaping;
pub use github_lines::github_report;
pub use laws::{
    azure_lines_are_commands, azure_properties_hold_no_end, github_lines_begin_with_commands,
    hits_of_the_options_are_listed_by_level, listed_results_are_sorted,
    messages_without_targets_stay, paths_begin_with_names, reported_hits_are_counted,
    rules_link_to_addresses, shown_results_are_counted, shown_signs_stand_apart,
    shown_texts_are_seen, terminals_show_the_hits, text_reports_have_a_line_a_result,
};
pub use linked::place_link;
pub use listing::{list_findings, push_hits, push_others};
pub use noted::Noted;
pub use place::{push_numbered, push_path, push_place};
pub use policy_laws::conditions_decide_what_is_shown;
pub use ruled::{gate_ending, gate_hits, gate_stopping, gate_verdict, noted_in, unshown_results};
pub use sentences::{
    accept_text, conditions_end, count_text, entries_text, filters_text, gate_end, gate_text,
    hits_text, more_text, outside_text, runs_text, unchecked_text, unshown_text,
};
pub use stopping::Stopping;
pub use terminal_lines::{Screen, terminal_report};
pub use text_lines::{push_result_line, text_report};
pub use told::ReportInput;
pub use unshown::unshown_number;
