//! The copies that a gate names.
ghost use Rattle.std.specs.Prelude.{◌≡◌, codes, false, map, option_map, IfOk, OnOk};
ghost use Rattle.serde_json.specs.Data.{put};
ghost use Rattle.serde_json.specs.View.{view, members_view};
ghost use Rattle.serde_json.specs.Written.{has_float};
ghost use Rattle.sarif_log.specs.Copies.{naming, place_data, places_data, with_copies};

use serde_json::{Map, Value, json};
use std::alloc::{AllocError, Global};

/// Which result of a merged log a copy is.
#[derive(Clone, Copy, Debug, PartialEq, Eq)]
pub struct CopyPlace {
    /// The number of its run in the merged log.
    pub run: u64,
    /// Its number in this run.
    pub result: u64,
}

/// A copy as two numbers.
fn place_value(alloc: Global, place: CopyPlace) -> Result<Value, AllocError>
    ensures { IfOk result (λ v. view v ≡ place_data place) }
{
    let run = place.run;
    let number = place.result;
    json!(in alloc; [run, number])
}

/// Copies, each as two numbers.
#[tactic(auto, using(crate::proofs::CopyNumbers::array_is))]
fn places_value(alloc: Global, places: &[CopyPlace]) -> Result<Value, AllocError>
    ensures { IfOk result (λ v. view v ≡ places_data places.now) }
{
    let mut values = Vec::with_capacity(alloc, places.len())?;
    for place in places {
        values.push(place_value(alloc, *place)?)?;
    }
    Ok(Value::Array(values))
}

/// Sets the member `copies`.
fn put_copies(
    alloc: Global,
    members: &mut Map<String, Value>,
    copies: Value,
) -> Result<(), AllocError>
    ensures { OnOk result (members_view members.new.entries
        ≡ put (codes "copies") (view copies) (members_view members.old.entries)) }
{
    let key = String::from_str(alloc, "copies")?;
    let old = members.insert(key, copies)?;
    drop(old);
    Ok(())
}

/// A gate object that names these copies too. Returns `AllocError` if memory runs out.
#[tactic(auto, using(crate::proofs::CopyNumbers::copies_whole))]
pub fn name_copies(alloc: Global, gate: Value, places: &[CopyPlace]) -> Result<Value, AllocError>
    ensures value { IfOk result (λ v. view v ≡ with_copies places.now (view gate)) }
    ensures whole { IfOk result
        (λ v. has_float (view gate) ≡ false → has_float (view v) ≡ false) }
{
    let copies = places_value(alloc, places)?;
    match gate {
        Value::Object(mut members) => {
            put_copies(alloc, &mut members, copies)?;
            Ok(Value::Object(members))
        }
        _ => Ok(gate),
    }
}

/// The gate object, which names these copies if there is a list of them. Returns `AllocError` if memory runs out.
pub(crate) fn name_if(
    alloc: Global,
    gate: Value,
    places: &Option<Vec<CopyPlace>>,
) -> Result<Value, AllocError>
    requires whole { has_float (view gate) ≡ false }
    ensures value { IfOk result
        (λ v. view v ≡ naming (option_map (λ list. list.items) places.now) (view gate)) }
    ensures whole { IfOk result (λ v. has_float (view v) ≡ false) }
{
    match places {
        Some(list) => name_copies(alloc, gate, list),
        None => Ok(gate),
    }
}
