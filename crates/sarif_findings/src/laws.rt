//! The law of the code of results. It is the contract of a function that does nothing. A log may be hostile, so the law
//! covers any strings.
ghost use Rattle.std.specs.Prelude.{ℕ, List, Option, IfSome};
ghost use Rattle.std.specs.List.{AllByRecursion};
ghost use Rattle.serde_json.specs.Data.{Data};
ghost use Rattle.sarif_findings.specs.declared.reporting.Reporting.{Reporting};
ghost use Rattle.sarif_findings.specs.Code.{code_by};
ghost use Rattle.sarif_findings.specs.CodeLaws.{HasCode, IsCode};
ghost use Rattle.sarif_findings.specs.Reported.{reported_of};

/// The code of a result has one to five lines of at most 121 characters each. No character of them is a control
/// character, a line separator, or a character that hides or controls others. Neither the first line nor the last is
/// empty, and one line begins without a space. The hit line is one of the lines, and its number is the line of the result.
#[tactic(auto, using(crate::proofs::CodeLawful::code_lawful, crate::proofs::CodesTold::codes_told))]
pub fn codes_have_few_short_lines()
    ensures snippets { (region context : Option (List ℕ)) (first n : Option ℕ)
        → IfSome (code_by region context first n) (IsCode n) }
    ensures findings { (reporting : Reporting) (log : Data)
        → AllByRecursion HasCode (reported_of reporting log) }
{}
