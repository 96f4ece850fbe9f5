//! Laws of reports. Each law is the contract of a function that does nothing. A log may be hostile, so the laws
//! cover any strings. Without a change they are on all results of the log that are shown, and with one on those inside
//! of it.
ghost use Rattle.std.specs.Prelude.{◌≡◌, ◌<◌, ◌≤◌, ◌+◌, ◌==◌, ◌^◌, ℕ, Bool, List, Option, true};
ghost use Rattle.std.specs.Prelude.{[], None, Some, bytes_eq};
ghost use Rattle.std.specs.Prelude.{codes, flat_map, length, nat_lt};
ghost use Rattle.std.specs.List.{All, IsDistinct, count_by};
ghost use Rattle.std.specs.Str.{IsUtf8};
ghost use Rattle.json.specs.Json.{document};
ghost use Rattle.serde_json.specs.Data.{Data, array};
ghost use Rattle.serde_json.specs.Written.{outline};
ghost use Rattle.sarif_model.specs.Run.{runs_of};
ghost use Rattle.sarif_conditions.specs.declared.facts.PolicyFacts.{PolicyFacts};
ghost use Rattle.sarif_counts.specs.Impacts.{is_hit};
ghost use Rattle.sarif_scope.specs.Counted.{hits_by, verdict_by};
ghost use Rattle.sarif_scope.specs.declared.gated.GatedChange.{GatedChange};
ghost use Rattle.sarif_findings.specs.declared.finding.Finding.{Finding};
ghost use Rattle.sarif_shown.specs.declared.escaping.Escaping.TheVariants.{Markdown};
ghost use Rattle.sarif_shown.specs.Escaped.{escaped};
ghost use Rattle.sarif_shown.specs.EscapedLaws.{has_no_mark};
ghost use Rattle.sarif_shown.specs.Facts.{Facts};
ghost use Rattle.sarif_reports.specs.GitlabReport.{gitlab_of, hashed_texts, items_after};
ghost use Rattle.sarif_findings.specs.declared.reporting.Reporting.{Reporting};
ghost use Rattle.sarif_reports.specs.JunitLaws.{IsXmlText, cases_of, document_of, names_after, occurrences};
ghost use Rattle.sarif_reports.specs.MarkdownLaws.{AreFewConditions, AreLinks, AreSmall, have_bars, most_of};
ghost use Rattle.sarif_reports.specs.MarkdownReport.{in_table, left_out, markdown_of, result_row};
ghost use Rattle.sarif_reports.specs.MarkdownReport.{Row, room_for, row_text};
ghost use Rattle.sarif_page.specs.HtmlAttributes.{attributes_in};
ghost use Rattle.sarif_reports.specs.MarkdownTags.{has_row_marks, row_attributes, row_tags, tags_of};
ghost use Rattle.sarif_shown.specs.PolicyLaws.{is_fail};
ghost use Rattle.sarif_shown.specs.ReportedInside.{reported_by};

/// Each mark of a string in Markdown is part of a `&#N;`: no string makes a cell, a link, emphasis or a tag.
pub fn markdown_texts_hold_no_mark()
    ensures { (text : List ℕ) → has_no_mark (escaped Markdown text) ≡ true }
{}

/// The strings for fingerprints differ from each other, even if results are alike. So the fingerprints of a report
/// differ, unless SHA-256 collides.
pub fn hashed_texts_differ()
    ensures { (findings : List Finding) → length findings < 2 ^ 64
        → IsDistinct bytes_eq (hashed_texts findings) }
{}

/// In Markdown the table of results has one line per row, and each line has eight bars: no log adds a line or a
/// cell.
pub fn markdown_rows_have_their_cells()
    ensures bars { (link : Option (List ℕ)) (room : ℕ) (change : Option GatedChange)
        (reporting : Reporting) (log : Data) → AreLinks link
        → have_bars 8 0
        (flat_map (row_text link) (in_table link room (reported_by change reporting log))) ≡ true }
    ensures lines { (link : Option (List ℕ)) (room : ℕ) (change : Option GatedChange)
        (reporting : Reporting) (log : Data) → AreLinks link
        → count_by (λ b. b == 10)
        (flat_map (row_text link) (in_table link room (reported_by change reporting log)))
        ≡ length (in_table link room (reported_by change reporting log)) }
{}

/// In Markdown a reader of one row or more finds only the tags and attributes that are stated for them, for any strings
/// of their results and any template of links: code, a line break before a line of code, and links to the address of a
/// place or to the page of a rule, with its name as the title. Outside of tags each mark is a bar or part of a `&#N;`.
pub fn markdown_rows_have_their_tags()
    ensures tags { (link : Option (List ℕ)) (rows : List Row) →
        tags_of (flat_map (row_text link) rows) ≡ flat_map (row_tags link) rows }
    ensures attributes { (link : Option (List ℕ)) (rows : List Row) →
        attributes_in (flat_map (row_text link) rows) ≡ flat_map (row_attributes link) rows }
    ensures marks { (link : Option (List ℕ)) (rows : List Row) →
        has_row_marks (flat_map (row_text link) rows) ≡ true }
{}

/// In Markdown each reported result has a row or is counted in the line on those that have none, and so has each hit.
/// Each row takes at most 48,000 bytes, and the rows together at most their room, which is 60,000 bytes without a policy.
/// So without a policy there is a row if anything is reported.
pub fn markdown_tables_count_all_results()
    ensures results { (link : Option (List ℕ)) (room : ℕ) (findings : List Finding) →
        length (in_table link room findings) + length (left_out link room findings)
        ≡ length findings }
    ensures hits { (link : Option (List ℕ)) (room : ℕ) (change : Option GatedChange)
        (reporting : Reporting) (log : Data) →
        count_by (λ row. is_hit row.1.impact)
        (in_table link room (reported_by change reporting log))
        + count_by (λ f. is_hit f.impact) (left_out link room (reported_by change reporting log))
        ≡ hits_by change reporting.policy (runs_of log) }
    ensures row { (link : Option (List ℕ)) (change : Option GatedChange) (reporting : Reporting)
        (log : Data) → AreLinks link
        → 0 < length (reported_by change reporting log)
        → 0 < length (in_table link (room_for None) (reported_by change reporting log)) }
    ensures few { (link : Option (List ℕ)) (coded : Bool) (change : Option GatedChange)
        (reporting : Reporting) (log : Data)
        → AreLinks link → All (λ f. length (result_row link coded f) ≤ 48000)
        (reported_by change reporting log) }
    ensures bytes { (link : Option (List ℕ)) (room : ℕ) (findings : List Finding) →
        length (flat_map (row_text link) (in_table link room findings)) ≤ room }
{}

/// A report in Markdown has at most 61,000 bytes, or 61,100 with a change, if its numbers have 32 bits: fewer than a
/// comment may have. With a policy it has at most 62,000, if its conditions are such as a policy file may have.
pub fn markdown_reports_fit_into_comments()
    ensures most { (facts : Facts) → AreSmall facts → length (markdown_of facts) ≤ most_of facts }
    ensures policy { (facts : Facts) (ruling : PolicyFacts) → AreSmall facts
        → facts.ruling ≡ Some ruling → AreFewConditions ruling
        → length (markdown_of facts) ≤ 62000 }
{}

/// Read as JSON, the report for GitLab is the array of its objects, for any strings: no log adds an object or a
/// member.
pub fn gitlab_reports_read_back()
    ensures { (change : Option GatedChange) (reporting : Reporting) (log : Data)
        → document (gitlab_of (reported_by change reporting log))
        ≡ Some (outline (array (items_after [] (reported_by change reporting log)))) }
{}

/// The report in JUnit XML has one test case per reported result, and one if nothing is reported. There are as many
/// failed and skipped ones as hits. One fails exactly if the verdict is fail. So no log adds or hides a test case.
pub fn junit_cases_are_results()
    ensures cases { (change : Option GatedChange) (reporting : Reporting) (log : Data)
        → length (reported_by change reporting log) < 2 ^ 64
        → occurrences (codes "<testcase ") (document_of change reporting log)
        ≡ cases_of (length (reported_by change reporting log)) }
    ensures hits { (change : Option GatedChange) (reporting : Reporting) (log : Data)
        → length (reported_by change reporting log) < 2 ^ 64
        → occurrences (codes "<failure ") (document_of change reporting log)
        + occurrences (codes "<skipped ") (document_of change reporting log)
        ≡ hits_by change reporting.policy (runs_of log) }
    ensures verdict { (change : Option GatedChange) (reporting : Reporting) (log : Data)
        → length (reported_by change reporting log) < 2 ^ 64
        → nat_lt 0 (occurrences (codes "<failure ") (document_of change reporting log))
        ≡ is_fail (verdict_by change reporting.policy (runs_of log)) }
{}

/// No two test cases of a suite have the same name, for any results.
pub fn junit_names_differ()
    ensures { (findings : List Finding) → length findings < 2 ^ 64
        → IsDistinct bytes_eq (names_after [] findings) }
{}

/// Each character of the report in JUnit XML is one of those that XML 1.0 allows. A report that was written is UTF-8,
/// as each `String` is.
pub fn junit_characters_are_allowed()
    ensures { (change : Option GatedChange) (reporting : Reporting) (log : Data)
        → length (reported_by change reporting log) < 2 ^ 64
        → IsUtf8 (document_of change reporting log) → IsXmlText (document_of change reporting log) }
{}
