//! Reading an entry of the suppression file. Each check succeeds or returns its error.
ghost use Rattle.std.specs.Prelude.{◌≡◌, map, option_map, Ok, Err, IfOk};
ghost use Rattle.serde_json.specs.View.{view, members_view};
ghost use Rattle.sarif_model.specs.Members as told;
ghost use Rattle.sarif_model.specs.Internal.Refusal.{IfFault};
ghost use Rattle.sarif_entries.specs.Entries as said;

use crate::entry::Entry;
use crate::fault::FileFault;
use crate::limit::Limit;
use crate::read_condition::{conditions_of, own_text_at};
use crate::version::Version;
use sarif_model::members::{member_at, text_at};
use sarif_model::{FIRST_DAY, Fault, LAST_DAY, Refusal, Status};
use serde_json::{Map, Value};
use std::alloc::Global;

/// Whether all members are ones that the version knows.
fn are_members_of(version: Version, members: &Map<String, Value>) -> bool
    ensures { result ≡ said.are_members_of version (members_view members.now.entries) }
{
    for (name, _) in members.iter() {
        if !version.has_member(name.as_str()) {
            return false;
        }
    }
    true
}

/// Accepts an object whose members are all known to the version; otherwise returns `wrong`.
fn check_members(version: Version, wrong: FileFault, entry: &Value) -> Result<(), FileFault>
    ensures { result ≡ said.check_members version wrong (view entry.now) }
{
    match entry.as_object() {
        Some(members) => {
            if are_members_of(version, members) {
                Ok(())
            } else {
                Err(wrong)
            }
        }
        None => Err(wrong),
    }
}

/// Returns whether the number is a date as YYYYMMDD that an entry can have as its expiry date: a year from 1000 to 9999,
/// a month from 1 to 12 and a day from 1 to 31. The lengths of months don't matter.
pub fn is_day(number: u64) -> bool
    ensures { result ≡ said.is_day number }
{
    let month = number / 100 % 100;
    let day = number % 100;
    FIRST_DAY as u64 <= number
        && number <= LAST_DAY as u64
        && 1 <= month
        && month <= 12
        && 1 <= day
        && day <= 31
}

/// The date `name` of an entry.
fn day_at(entry: &Value, name: &str, wrong: FileFault) -> Result<Option<u32>, FileFault>
    ensures { result ≡ said.day_at wrong name.now (view entry.now) }
{
    match member_at(entry, name) {
        None => Ok(None),
        Some(member) => match member.as_u64() {
            Some(number) => {
                if is_day(number) {
                    Ok(Some(number as u32))
                } else {
                    Err(wrong)
                }
            }
            None => Err(wrong),
        },
    }
}

/// The limit of entry `number`, by its member `name`.
fn limit_at(
    entry: &Value,
    name: &str,
    number: u32,
    wrong: FileFault,
) -> Result<Option<Limit>, FileFault>
    ensures { result ≡ said.limit_at wrong number name.now (view entry.now) }
{
    match member_at(entry, name) {
        None => Ok(None),
        Some(member) => match member.as_u64() {
            Some(most) => {
                if 1 <= most && most <= u32::MAX as u64 {
                    Ok(Some(Limit {
                        most: most as u32,
                        number,
                    }))
                } else {
                    Err(wrong)
                }
            }
            None => Err(wrong),
        },
    }
}

/// The status `name` of an entry; `accepted` if it is missing.
fn status_at(entry: &Value, name: &str, wrong: FileFault) -> Result<Status, FileFault>
    ensures { result ≡ said.status_at wrong name.now (view entry.now) }
{
    match text_at(entry, name, wrong)? {
        None => Ok(Status::Accepted),
        Some(text) => Status::from_name(text).ok_or(wrong),
    }
}

/// Entry `number`, whose members are all known.
#[tactic(auto, unfolding(crate::specs::Entries::members_of))]
fn members_of(
    alloc: Global,
    number: u32,
    entry: &Value,
    wrong: FileFault,
) -> Result<Entry, Refusal<FileFault>>
    ensures ok { IfOk result (λ read. said.members_of wrong number (view entry.now) ≡ Ok read) }
    ensures err { IfFault result
        (λ fault. said.members_of wrong number (view entry.now) ≡ Err fault) }
{
    let conditions = conditions_of(alloc, entry, wrong)?;
    let expires = day_at(entry, "expires", wrong)?;
    let status = status_at(entry, "status", wrong)?;
    let justification = own_text_at(alloc, entry, "justification", wrong)?;
    let limit = limit_at(entry, "max", number, wrong)?;
    Ok(Entry {
        conditions,
        expires,
        status,
        justification,
        limit,
    })
}

/// Passes an entry that names a condition.
fn check_condition(number: u32, entry: &Entry) -> Result<(), FileFault>
    ensures { result ≡ said.check_condition number entry.now }
{
    if entry.conditions.as_slice().is_empty() {
        Err(FileFault::in_entry(number, Fault::EmptyMatch))
    } else {
        Ok(())
    }
}

/// Accepts an entry without an expiry date, and every entry if today's date is known.
fn check_today(number: u32, today: Option<u32>, entry: &Entry) -> Result<(), FileFault>
    ensures { result ≡ said.check_today number today entry.now }
{
    if entry.expires.is_some() && today.is_none() {
        Err(FileFault::in_entry(number, Fault::NeedsToday))
    } else {
        Ok(())
    }
}

/// Entry `number` of the file.
#[tactic(auto, unfolding(crate::specs::Entries::entry_of))]
pub(crate) fn read_entry(
    alloc: Global,
    version: Version,
    today: Option<u32>,
    number: u32,
    entry: &Value,
) -> Result<Entry, Refusal<FileFault>>
    ensures ok { IfOk result
        (λ read. said.entry_of version today number (view entry.now) ≡ Ok read) }
    ensures err { IfFault result
        (λ fault. said.entry_of version today number (view entry.now) ≡ Err fault) }
{
    check_members(version, FileFault::in_entry(number, Fault::BadEntry), entry)?;
    let entry = members_of(
        alloc,
        number,
        entry,
        FileFault::in_entry(number, Fault::BadEntry),
    )?;
    check_condition(number, &entry)?;
    check_today(number, today, &entry)?;
    Ok(entry)
}
