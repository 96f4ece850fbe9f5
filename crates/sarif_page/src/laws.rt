//! Laws of the page. Each law is the contract of a function that does nothing. A log may be hostile, so the laws
//! cover any strings.
ghost use Rattle.std.specs.Prelude.{◌≡◌, ◌≤◌, ℕ, List, Option, Bool, false, true};
ghost use Rattle.std.specs.Prelude.{not, ◌&&◌, []};
ghost use Rattle.std.specs.Prelude.{◌+◌, flat_map, length};
ghost use Rattle.std.specs.List.{count_by, list_all, sum_by};
ghost use Rattle.sarif_counts.specs.Impacts.{is_hit};
ghost use Rattle.sarif_findings.specs.declared.finding.Finding.{Finding};
ghost use Rattle.sarif_shown.specs.declared.escaping.Escaping.TheVariants.{Page};
ghost use Rattle.sarif_shown.specs.Escaped.{escaped};
ghost use Rattle.sarif_shown.specs.EscapedLaws.{is_element_text};
ghost use Rattle.sarif_shown.specs.Facts.{Facts};
ghost use Rattle.sarif_shown.specs.Listed.{hits_among, others_among};
ghost use Rattle.sarif_page.specs.HtmlAttributes.{attributes_in, row_attributes};
ghost use Rattle.sarif_page.specs.HtmlBreaks.{broken};
ghost use Rattle.sarif_page.specs.HtmlCode.{code_text};
ghost use Rattle.sarif_page.specs.HtmlReport.{html_of};
ghost use Rattle.sarif_page.specs.HtmlRow.{rows_html};
ghost use Rattle.sarif_page.specs.HtmlLaws.{are_together, has_breaks, is_code_text, quotes_in, row_quotes, row_tags, tags_in};
ghost use Rattle.sarif_page.specs.HtmlRows as page;
ghost use Rattle.sarif_page.specs.PageAttributes.{page_attributes};

/// A string in a page contains no `<`, `>`, `"` or `'`, and each `&` of it begins an entity: no string makes a tag
/// or an attribute. In code each `#` is written by its number, `&#35;`.
pub fn page_texts_hold_no_markup()
    ensures texts { (text : List ℕ) → is_element_text (escaped Page text) ≡ true }
    ensures code { (text : List ℕ) → is_code_text false (code_text text) ≡ true }
{}

/// A path or a rule in a page has no tag but `<wbr>`, contains no `>`, `"` or `'` outside of it, and each `&` begins an
/// entity. `broken` adds a `<wbr>` after each `-`, `.`, `_`, `/` and `:`, and between one of `a` to `z` and one of `A` to
/// `Z` directly after it, and nowhere else.
pub fn page_paths_have_only_breaks()
    ensures { (text : List ℕ) → has_breaks [] (broken text) ≡ true }
{}

/// A page has at most 10,000 rows: hits in the first list, other results in the second, and in each list the rows of
/// one file together. If no more results are reported, each of them has exactly one row.
#[tactic(auto, using(crate::proofs::RowsByFile::rows_most, crate::proofs::RowsByFile::rows_are_hits, crate::proofs::RowsByFile::rows_are_others, crate::proofs::RowsByFile::rows_together, crate::proofs::RowsByFile::rows_once))]
pub fn page_rows_are_by_file()
    ensures most { (findings : List Finding) →
        length (page.page_rows findings) ≤ page.most_rows }
    ensures hits { (findings : List Finding) →
        list_all (λ f. is_hit f.impact) (page.hit_rows findings) ≡ true }
    ensures others { (findings : List Finding) →
        list_all (λ f. not (is_hit f.impact)) (page.other_rows findings) ≡ true }
    ensures together { (findings : List Finding) →
        (are_together (page.hit_rows findings) && are_together (page.other_rows findings)) ≡ true }
    ensures once { (findings : List Finding) (test : Finding → Bool) →
        length findings ≤ page.most_rows
        → count_by test (page.page_rows findings) ≡ count_by test findings }
{}

/// Each result has a row of a page or is counted in the line on those that have none, and so is each hit.
pub fn page_rows_count_all_results()
    ensures hits { (findings : List Finding) →
        length (page.hit_rows findings)
        + page.without_row (length (hits_among findings)) (page.hit_rows findings)
        ≡ count_by (λ f. is_hit f.impact) findings }
    ensures others { (findings : List Finding) →
        length (page.other_rows findings)
        + page.without_row (length (others_among findings)) (page.other_rows findings)
        ≡ count_by (λ f. not (is_hit f.impact)) findings }
{}

/// The groups of a list have its rows, file by file, and each of them once.
pub fn page_groups_have_each_row()
    ensures rows { (rows : List Finding) →
        page.grouped_rows (page.groups_of rows) ≡ page.by_file rows }
    ensures once { (rows : List Finding) (test : Finding → Bool) →
        count_by test (page.grouped_rows (page.groups_of rows)) ≡ count_by test rows }
{}

/// Each row of a page has only its own tags and attributes, for any strings of its result and any template of links:
/// no log adds a tag, an attribute or a cell.
pub fn page_rows_have_their_tags()
    ensures tags { (link : Option (List ℕ)) (findings : List Finding) →
        tags_in (rows_html link findings) ≡ sum_by (row_tags link) findings }
    ensures quotes { (link : Option (List ℕ)) (findings : List Finding) →
        quotes_in (rows_html link findings) ≡ sum_by (row_quotes link) findings }
{}

/// A reader of the rows of a page finds only these attributes: the level, the state and the hit of each row, the class of
/// a place without a line, and those of links to a place or to the page of a rule. So no `id` is in a row, and each
/// `href` of it is the address of a place by the template, or that of a rule.
pub fn page_rows_have_their_attributes()
    ensures { (link : Option (List ℕ)) (findings : List Finding) →
        attributes_in (rows_html link findings) ≡ flat_map (row_attributes link) findings }
{}

/// A reader of the whole page finds only the attributes that are stated for it, in their order, for any strings of a log
/// and any template of links. So each `id` is `hits` or `others`, the name of a level or of a state, or `f` and the
/// number of a group. Each `href` is `#hits`, `#others`, `#f` and the number of a group, the address of a place by the
/// template, or that of a rule.
pub fn page_has_its_attributes()
    ensures { (facts : Facts) → attributes_in (html_of facts) ≡ page_attributes facts }
{}
