//! The merge of SARIF 2.1.0 logs, from bytes or from readers into a writer.
#![tactic(auto)]

mod laws;
mod merge;
mod merge_sources;
mod steps;

pub use laws::{
    each_result_is_written_as_its_own, merged_runs_hold_no_fraction,
    without_a_diff_all_results_count,
};
pub use merge::merge_bytes;
pub use merge_sources::{merge_readers, merge_to};
pub use sarif_counts::{Counts, KnownLog, Life, NewFile, Verdict, hits, summary, verdict};
pub use sarif_gather::{Gate, NoGate};
pub use sarif_log::{Facts, Merged};
pub use sarif_model::{At, Cause, MergeFault, Refusal, Source};
pub use sarif_options::{Knowing, Options, Policy, Renewal, States, Upkeep};
pub use sarif_prepare::Asked;
pub use sarif_streams::{
    Counted, Failed, Readers, ReadersFault, SourceBytes, SourceFault, read_source,
    sources_are_read_in_one_way, write_out,
};
