//! The text that is the same on each page: it contains nothing from a log.
ghost use Rattle.std.specs.Prelude.{◌≡◌};
ghost use Rattle.sarif_page.specs.HtmlFixed as fixed;

/// Up to the verdict in the title. The page runs no script and loads nothing.
#[tactic(auto, unfolding(crate::specs::HtmlFixed::page_begin))]
pub(crate) fn page_begin() -> &'static str
    ensures { result.now ≡ fixed.page_begin }
{
    "\
<!DOCTYPE html>
<html lang=\"en\">
<head>
<meta charset=\"utf-8\">
<meta http-equiv=\"Content-Security-Policy\" content=\"default-src 'none'; style-src 'unsafe-inline'; base-uri 'none'; form-action 'none'\">
<meta name=\"viewport\" content=\"width=device-width, initial-scale=1\">
<meta name=\"color-scheme\" content=\"light dark\">
<title>"
}

/// After the title.
#[tactic(auto, unfolding(crate::specs::HtmlFixed::title_end))]
pub(crate) fn title_end() -> &'static str
    ensures { result.now ≡ fixed.title_end }
{
    "\
</title>
"
}

/// After the style, up to the heading.
#[tactic(auto, unfolding(crate::specs::HtmlFixed::body_begin))]
pub(crate) fn body_begin() -> &'static str
    ensures { result.now ≡ fixed.body_begin }
{
    "\
</head>
<body>
<header>
<div>
"
}

/// The table of counts, up to the end of its caption.
#[tactic(auto, unfolding(crate::specs::HtmlFixed::counts_begin))]
pub(crate) fn counts_begin() -> &'static str
    ensures { result.now ≡ fixed.counts_begin }
{
    "\
</div>
<div>
<table class=\"counts\" rules=\"rows\" cellpadding=\"4\">
<caption>All results by state and level"
}

/// After its caption, up to its rows.
#[tactic(auto, unfolding(crate::specs::HtmlFixed::counts_head))]
pub(crate) fn counts_head() -> &'static str
    ensures { result.now ≡ fixed.counts_head }
{
    "\
</caption>
<thead><tr><th scope=\"col\" align=\"left\">state</th><th scope=\"col\">error</th><th scope=\"col\">warning</th><th scope=\"col\">note</th><th scope=\"col\">none</th><th scope=\"col\">suppressed</th></tr></thead>
<tbody align=\"right\">
"
}

/// The table of conditions, up to its rows.
#[tactic(auto, unfolding(crate::specs::HtmlFixed::conditions_begin))]
pub(crate) fn conditions_begin() -> &'static str
    ensures { result.now ≡ fixed.conditions_begin }
{
    "\
<table class=\"counts\" rules=\"rows\" cellpadding=\"4\">
<caption>Conditions of the policy</caption>
<thead><tr><th scope=\"col\" align=\"left\">condition</th><th scope=\"col\">verdict</th><th scope=\"col\">hits</th><th scope=\"col\">limit</th><th scope=\"col\">outside</th></tr></thead>
<tbody align=\"right\">
"
}

/// After the rows of the counts, and of the conditions.
#[tactic(auto, unfolding(crate::specs::HtmlFixed::counts_end))]
pub(crate) fn counts_end() -> &'static str
    ensures { result.now ≡ fixed.counts_end }
{
    "\
</tbody>
</table>
"
}

/// Between the sentences below the counts and the results.
#[tactic(auto, unfolding(crate::specs::HtmlFixed::header_end))]
pub(crate) fn header_end() -> &'static str
    ensures { result.now ≡ fixed.header_end }
{
    "\
</div>
</header>
<main>
"
}

/// Before the boxes. Only a style displays them, in a browser in which they work.
#[tactic(auto, unfolding(crate::specs::HtmlFixed::filters_begin))]
pub(crate) fn filters_begin() -> &'static str
    ensures { result.now ≡ fixed.filters_begin }
{
    "\
<div class=\"filters\" hidden>
"
}

/// After the boxes.
#[tactic(auto, unfolding(crate::specs::HtmlFixed::filters_end))]
pub(crate) fn filters_end() -> &'static str
    ensures { result.now ≡ fixed.filters_end }
{
    "\
<p>These filters hide some rows. The numbers count all.</p>
</div>
"
}

/// Below the heading of a list.
#[tactic(auto, unfolding(crate::specs::HtmlFixed::gone_line))]
pub(crate) fn gone_line() -> &'static str
    ensures { result.now ≡ fixed.gone_line }
{
    "\
<p class=\"gone\" hidden>The filters hide all of these.</p>
"
}

/// The index of rules, after the number of rules, up to its rows.
#[tactic(auto, unfolding(crate::specs::HtmlFixed::index_begin))]
pub(crate) fn index_begin() -> &'static str
    ensures { result.now ≡ fixed.index_begin }
{
    "\
</summary>
<table>
<caption>Results of each rule</caption>
<thead><tr><th scope=\"col\">Number</th><th scope=\"col\">Rule</th><th scope=\"col\">Name</th><th scope=\"col\">Tool</th><th scope=\"col\">First in</th></tr></thead>
<tbody>
"
}

/// After the rows of the index.
#[tactic(auto, unfolding(crate::specs::HtmlFixed::index_end))]
pub(crate) fn index_end() -> &'static str
    ensures { result.now ≡ fixed.index_end }
{
    "\
</tbody>
</table>
"
}

/// Instead of the lists of results.
#[tactic(auto, unfolding(crate::specs::HtmlFixed::nothing_reported))]
pub(crate) fn nothing_reported() -> &'static str
    ensures { result.now ≡ fixed.nothing_reported }
{
    "\
<p class=\"empty\">No results are reported.</p>
"
}

/// The end of the page.
#[tactic(auto, unfolding(crate::specs::HtmlFixed::page_end))]
pub(crate) fn page_end() -> &'static str
    ensures { result.now ≡ fixed.page_end }
{
    "\
</main>
</body>
</html>
"
}
