//! Reading the filters of a condition: entries that have only conditions.
ghost use Rattle.std.specs.Prelude.{◌≡◌, ◌≤◌, [], ℕ, map, option_map, length, Ok, Err, IfOk, IfSome};
ghost use Rattle.serde_json.specs.View.{view};
ghost use Rattle.sarif_model.specs.Internal.Refusal.{IfFault};
ghost use Rattle.sarif_policy.specs.Condition.{filter_with};
ghost use Rattle.sarif_policy.specs.Limits.{most_filters};
ghost use Rattle.sarif_policy.specs.Fault as fault;
ghost use Rattle.sarif_model.specs.Members.{result_map};
ghost use Rattle.sarif_policy.specs.Reading as said;

use crate::fault::{FilterList, PolicyCause, PolicyFault, PolicyPlace};
use crate::limits::MOST_FILTERS;
use crate::members::{Part, array_at};
use sarif_entries::{Condition, Entry, FileFault, conditions_of};
use sarif_model::{Fault, Refusal, Sequence, Status};
use serde_json::Value;
use std::alloc::Global;

/// Where a filter is.
#[derive(Clone, Copy)]
struct FilterPlace {
    /// The number of its condition.
    condition: u32,
    /// Its list.
    list: FilterList,
    /// Its number there.
    number: u32,
}

impl FilterPlace {
    /// Returns an error of this filter.
    fn fault(self, cause: PolicyCause) -> PolicyFault
        ensures { result ≡ fault.in_filter self.condition self.list self.number cause }
    {
        PolicyFault {
            at: PolicyPlace::Filter(self.condition, self.list, self.number),
            cause,
        }
    }
}

/// Returns the entry that has only these conditions.
fn filter_with(conditions: Sequence<Condition>) -> Entry
    ensures { result ≡ filter_with conditions }
{
    Entry {
        conditions,
        expires: None,
        status: Status::Accepted,
        justification: None,
        limit: None,
    }
}

/// Returns the conditions that a filter names, read as those of an entry.
fn filter_conditions(
    alloc: Global,
    filter: &Value,
    wrong: PolicyFault,
) -> Result<Sequence<Condition>, Refusal<PolicyFault>>
    ensures ok { IfOk result (λ cs. said.filter_conditions wrong (view filter.now) ≡ Ok cs) }
    ensures err { IfFault result
        (λ found. said.filter_conditions wrong (view filter.now) ≡ Err found) }
{
    match conditions_of(alloc, filter, FileFault::from(Fault::BadEntry)) {
        Ok(conditions) => Ok(conditions),
        Err(Refusal::Fault(_)) => Err(Refusal::Fault(wrong)),
        Err(Refusal::OutOfMemory) => Err(Refusal::OutOfMemory),
    }
}

/// Returns the filter that a value represents.
#[tactic(auto, unfolding(crate::specs::Reading::filter_of))]
fn filter_of(
    alloc: Global,
    place: FilterPlace,
    filter: &Value,
) -> Result<Entry, Refusal<PolicyFault>>
    ensures ok { IfOk result (λ e.
        said.filter_of place.condition place.list place.number (view filter.now) ≡ Ok e) }
    ensures err { IfFault result (λ found.
        said.filter_of place.condition place.list place.number (view filter.now) ≡ Err found) }
{
    let wrong = place.fault(PolicyCause::BadFilter);
    if !Part::Filter.is_object(filter) {
        return Err(Refusal::Fault(wrong));
    }
    let conditions = filter_conditions(alloc, filter, wrong)?;
    if conditions.as_slice().is_empty() {
        return Err(Refusal::Fault(place.fault(PolicyCause::EmptyFilter)));
    }
    Ok(filter_with(conditions))
}

/// Returns the filters of a list of a condition, or the first error among them.
#[tactic(auto, using(crate::proofs::FromFilters::goes_on, crate::proofs::FromFilters::stops, crate::proofs::FromFilters::at_end))]
fn filters_from(
    alloc: Global,
    condition: u32,
    list: FilterList,
    values: &[Value],
) -> Result<Sequence<Entry>, Refusal<PolicyFault>>
    requires { length values.now ≤ most_filters }
    ensures ok { IfOk result (λ es.
        said.filters_from condition list 0 [] (map view values.now) ≡ Ok es) }
    ensures err { IfFault result (λ found.
        said.filters_from condition list 0 [] (map view values.now) ≡ Err found) }
{
    let mut filters = Sequence::new(alloc);
    for (number, value) in values.iter().enumerate() {
        let place = FilterPlace {
            condition,
            list,
            number: number as u32,
        };
        filters.push(filter_of(alloc, place, value)?)?;
    }
    Ok(filters)
}

/// Returns the elements of the list of filters of that name, if it is there: 1 to `MOST_FILTERS`.
pub(crate) fn filters_at<'a>(
    value: &'a Value,
    name: &str,
    wrong: PolicyFault,
) -> Result<Option<&'a [Value]>, PolicyFault>
    ensures is { result_map (option_map (λ vs. map view vs.now)) result
        ≡ said.filters_at wrong name.now (view value.now) }
    ensures few { IfOk result (λ found. IfSome found (λ vs. length vs.now ≤ most_filters)) }
{
    match array_at(value, name, wrong)? {
        None => Ok(None),
        Some(values) => {
            if !values.is_empty() && values.len() <= MOST_FILTERS {
                Ok(Some(values))
            } else {
                Err(wrong)
            }
        }
    }
}

/// Returns the filters of `only`, if it is there.
pub(crate) fn only_of(
    alloc: Global,
    condition: u32,
    values: Option<&[Value]>,
) -> Result<Option<Sequence<Entry>>, Refusal<PolicyFault>>
    requires { IfSome values (λ vs. length vs.now ≤ most_filters) }
    ensures ok { IfOk result (λ only.
        said.only_of condition (option_map (λ vs. map view vs.now) values.entry) ≡ Ok only) }
    ensures err { IfFault result (λ found.
        said.only_of condition (option_map (λ vs. map view vs.now) values.entry) ≡ Err found) }
{
    match values {
        None => Ok(None),
        Some(values) => Ok(Some(filters_from(alloc, condition, FilterList::Only, values)?)),
    }
}

/// Returns the filters of `except`; none if it is missing.
pub(crate) fn except_of(
    alloc: Global,
    condition: u32,
    values: Option<&[Value]>,
) -> Result<Sequence<Entry>, Refusal<PolicyFault>>
    requires { IfSome values (λ vs. length vs.now ≤ most_filters) }
    ensures ok { IfOk result (λ except.
        said.except_of condition (option_map (λ vs. map view vs.now) values.entry) ≡ Ok except) }
    ensures err { IfFault result (λ found.
        said.except_of condition (option_map (λ vs. map view vs.now) values.entry) ≡ Err found) }
{
    match values {
        None => Ok(Sequence::new(alloc)),
        Some(values) => filters_from(alloc, condition, FilterList::Except, values),
    }
}
