//! Laws of decimals and of filters, each the contract of a function that does nothing.
ghost use Rattle.std.specs.Prelude.{◌≡◌, ◌++◌, ℕ, Bool, List, Ok, Option, length};
ghost use Rattle.std.specs.Str.Parse.{digits_value};
ghost use Rattle.sarif_model.specs.declared.record.Record.{Record};
ghost use Rattle.sarif_entries.specs.Matching.{hold, matches};
ghost use Rattle.sarif_entries.specs.declared.condition.Condition.{Condition};
ghost use Rattle.sarif_policy.specs.Condition.{filter_with};
ghost use Rattle.sarif_policy.specs.Laws.{HaveNoMax};
ghost use Rattle.sarif_policy.specs.File.{policy_of};
ghost use Rattle.sarif_policy.specs.declared.condition.GateCondition.{GateCondition as AnyCondition};
ghost use Rattle.sarif_policy.specs.Decimal.{number_with, places};

/// A decimal has the digits of its string, as a number, and as many of them after the dot.
#[tactic(auto, using(crate::proofs::LawsMore::digits_stay, crate::proofs::LawsMore::places_stay))]
pub fn a_decimal_is_the_number_of_its_text()
    ensures digits { (whole fraction : List ℕ)
        → digits_value 10 (number_with whole fraction).digits
        ≡ digits_value 10 (whole ++ fraction) }
    ensures places { (whole fraction : List ℕ)
        → places (number_with whole fraction) ≡ length fraction }
{}

/// A filter matches a result exactly if the result meets its conditions, as an entry of a suppression file that has only
/// these does on any day.
#[tactic(auto, using(crate::proofs::LawsMore::filters_match))]
pub fn a_filter_matches_as_its_conditions_are_met()
    ensures { (cs : List Condition) (today : Option ℕ) (r : Record)
        → matches today (filter_with cs) r ≡ hold cs r }
{}

/// No filter of a policy that is read has a `max`: which results its conditions check doesn't depend on a suppression file.
#[tactic(auto, using(crate::proofs::FiltersRead::no_max_is_read))]
pub fn no_filter_has_a_max()
    ensures { (bytes : List ℕ) (diff : Bool) (cs : List AnyCondition)
        → policy_of bytes diff ≡ Ok cs → HaveNoMax cs }
{}
