//! Laws of the reports of results that the conditions of a policy report. Each law is the contract of a function that does
//! nothing. A log may be hostile, so the laws cover any strings.
ghost use Rattle.std.specs.Prelude.{◌≡◌, ◌<◌, ◌≤◌, ◌+◌, ◌==◌, ◌^◌, ℕ, Bool, List, Option, true};
ghost use Rattle.std.specs.Prelude.{codes, flat_map, length, nat_lt};
ghost use Rattle.std.specs.List.{All, count_by};
ghost use Rattle.serde_json.specs.Data.{Data};
ghost use Rattle.sarif_conditions.specs.Facts.{facts_of as decided_facts, verdict_told};
ghost use Rattle.sarif_conditions.specs.Judged.{Judged};
ghost use Rattle.sarif_findings.specs.declared.finding.Finding.{Finding};
ghost use Rattle.sarif_findings.specs.declared.reporting.Reporting.{Reporting};
ghost use Rattle.sarif_findings.specs.declared.reporting.Show.{Show};
ghost use Rattle.sarif_policy.specs.declared.condition.GateCondition.{GateCondition};
ghost use Rattle.sarif_shown.specs.PolicyLaws.{AreRuled, is_fail};
ghost use Rattle.sarif_reports.specs.JunitLaws.{cases_of, occurrences};
ghost use Rattle.sarif_reports.specs.MarkdownLaws.{AreLinks, have_bars};
ghost use Rattle.sarif_reports.specs.MarkdownReport.{in_table, result_row, row_text};
ghost use Rattle.sarif_reports.specs.PolicyReports.{IsFindingOf, document_of_policy};

/// With a policy the report in JUnit XML has one test case per shown result, and one if nothing is shown. There are as many
/// failed and skipped ones as the conditions have hits. One fails exactly if the verdict of the conditions is fail.
pub fn junit_cases_follow_conditions()
    ensures cases { (reporting : Reporting) (log : Data) (findings : List Finding)
        → All (IsFindingOf reporting log) findings → length findings < 2 ^ 64
        → occurrences (codes "<testcase ") (document_of_policy findings)
        ≡ cases_of (length findings) }
    ensures hits { (show : Show) (cs : List GateCondition) (rs : List Judged)
        (reporting : Reporting) (log : Data) (findings : List Finding)
        → AreRuled show cs rs findings → All (IsFindingOf reporting log) findings
        → length findings < 2 ^ 64
        → occurrences (codes "<failure ") (document_of_policy findings)
        + occurrences (codes "<skipped ") (document_of_policy findings)
        ≡ (decided_facts cs rs).hits }
    ensures verdict { (show : Show) (cs : List GateCondition) (rs : List Judged)
        (reporting : Reporting) (log : Data) (findings : List Finding)
        → AreRuled show cs rs findings → All (IsFindingOf reporting log) findings
        → length findings < 2 ^ 64
        → nat_lt 0 (occurrences (codes "<failure ") (document_of_policy findings))
        ≡ is_fail (verdict_told (decided_facts cs rs)) }
{}

/// With a policy, too, the table of results in Markdown has one line per row, each line has eight bars, and each row takes
/// at most 48,000 bytes.
pub fn markdown_rows_of_a_policy_have_their_cells()
    ensures bars { (link : Option (List ℕ)) (room : ℕ) (reporting : Reporting) (log : Data)
        (findings : List Finding) → AreLinks link → All (IsFindingOf reporting log) findings
        → have_bars 8 0 (flat_map (row_text link) (in_table link room findings)) ≡ true }
    ensures lines { (link : Option (List ℕ)) (room : ℕ) (reporting : Reporting) (log : Data)
        (findings : List Finding) → AreLinks link → All (IsFindingOf reporting log) findings
        → count_by (λ b. b == 10) (flat_map (row_text link) (in_table link room findings))
        ≡ length (in_table link room findings) }
    ensures few { (link : Option (List ℕ)) (coded : Bool) (reporting : Reporting) (log : Data)
        (findings : List Finding) → AreLinks link → All (IsFindingOf reporting log) findings
        → All (λ f. length (result_row link coded f) ≤ 48000) findings }
{}
