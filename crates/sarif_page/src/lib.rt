//! The report for people: a page in HTML that needs no other file and runs no script.
#![tactic(auto)]

mod breaks;
mod by_file;
mod groups;
mod html_code;
mod html_conditions;
mod html_counts;
mod html_filters;
mod html_fixed;
mod html_groups;
mod html_index;
mod html_lists;
mod html_page;
mod html_rows;
mod html_style;
mod html_tables;
mod html_words;
mod laws;
mod rules;

pub use html_page::html_report;
pub use laws::{
    page_groups_have_each_row, page_paths_have_only_breaks, page_rows_are_by_file,
    page_rows_count_all_results, page_rows_have_their_attributes, page_rows_have_their_tags,
    page_texts_hold_no_markup,
};
