//! The entries of the suppression file of `sarif_gate`: reading them, whether an entry matches a result, under which
//! of its conditions it is filed, and the suppression that it adds.
#![tactic(auto)]

mod condition;
mod copying;
mod entry;
mod fault;
mod filing;
pub mod key;
mod laws;
mod limit;
pub mod message_keys;
mod object;
mod read_condition;
mod read_entry;
mod read_file;
mod snippets;
mod version;

pub use condition::{Condition, ConditionKind, own_of, text_in};
pub use copying::copy_of_conditions;
pub use entry::Entry;
pub use fault::FileFault;
pub use filing::{PairCondition, TextCondition};
pub use laws::{
    just_its_object_is_an_entrys, limits_have_the_numbers_of_their_entries,
    object_holds_no_fraction,
};
pub use limit::Limit;
pub use object::{is_object_of, object_of};
pub use read_condition::conditions_of;
pub use read_entry::is_day;
pub use read_file::entries_of_file;
pub use snippets::is_fifth;
pub use version::Version;
