//! The style of the page: light and dark, on a phone and printed. It contains nothing from a log.
ghost use Rattle.std.specs.Prelude.{◌≡◌, ◌++◌, OnOk, string_bytes};
ghost use Rattle.sarif_page.specs.HtmlStyle as fixed;

use std::alloc::AllocError;

/// The page, its header and the table of counts.
#[tactic(auto, unfolding(crate::specs::HtmlStyle::style_top))]
fn style_top() -> &'static str
    ensures { result.now ≡ fixed.style_top }
{
    "\
<style>
:root{color-scheme:light dark;--page:#fff;--soft:#f6f8fa;--line:#d8dee4;--edge:#818b98;--text:#1f2328;--dim:#57606a;--mark:#fff3cd;--error:#b3261e;--warning:#7d4e00;--note:#0a58b0;--pass:#1a7f37}
@media (prefers-color-scheme:dark){:root{--page:#0d1117;--soft:#161b22;--line:#30363d;--edge:#7d8590;--text:#e6edf3;--dim:#9da7b1;--mark:#3b2e00;--error:#ff9a92;--warning:#e3b341;--note:#79c0ff;--pass:#56d364}}
*{box-sizing:border-box}
body{margin:0 auto;max-width:92rem;padding:1.5rem 2rem 3rem;background:var(--page);color:var(--text);font:1rem/1.5 system-ui,-apple-system,\"Segoe UI\",sans-serif}
header{display:grid;grid-template-columns:minmax(0,1fr) auto;gap:0 4rem;align-items:start}
h1{margin:0 0 .75rem;padding-left:1rem;border-left:.5rem solid;font-size:2rem;line-height:1.2;text-wrap:balance}
h1.fail{color:var(--error)}
h1.pass{color:var(--pass)}
h1 span{color:var(--text);font-weight:400}
header p{margin:0 0 .5rem;max-width:40rem}
header>div>p,header nav{padding-left:1.5rem}
nav a{display:inline-block;padding:.25rem 0;margin-right:1rem}
p.mind{margin:.75rem 0 0;padding:.375rem .75rem;border-left:.25rem solid var(--warning);background:var(--soft)}
header p.mind{max-width:34rem;padding-left:.75rem;font-size:.9375rem}
a{color:var(--note);text-underline-offset:.15em}
code{font:.875rem/1.5 ui-monospace,SFMono-Regular,Menlo,Consolas,monospace}
table{border-collapse:collapse;border-style:none}
th,td{border-style:none;border-bottom:1px solid var(--line);font-weight:400;font-variant-numeric:tabular-nums}
caption{text-align:left}
thead th,caption{color:var(--dim)}
.counts{width:100%;font-size:.875rem;line-height:1.4}
.counts caption{padding-bottom:.25rem}
.counts th,.counts td{padding:.1875rem .625rem;text-align:right}
.counts tr>:first-child{padding-left:0;text-align:left}
.counts .on{outline:1px solid var(--edge);outline-offset:-2px;background:var(--mark)}
"
}

/// The boxes, the index of rules and the groups.
#[tactic(auto, unfolding(crate::specs::HtmlStyle::style_groups))]
fn style_groups() -> &'static str
    ensures { result.now ≡ fixed.style_groups }
{
    "\
.filters,.gone{display:none}
.filters{flex-wrap:wrap;gap:.25rem 2rem;margin-top:1.5rem}
fieldset{display:flex;flex-wrap:wrap;gap:0 1.25rem;min-width:0;margin:0;padding:0;border:0}
legend{float:left;min-width:3rem;padding:.25rem 0;color:var(--dim)}
label{display:inline-flex;align-items:center;gap:.375rem;padding:.25rem 0}
input{width:1.125rem;height:1.125rem;margin:0;accent-color:var(--note)}
.filters p{display:none;margin:0;padding:.25rem 0;color:var(--dim)}
:focus-visible{outline:3px solid var(--note);outline-offset:2px}
section{margin-top:1rem}
h2{margin:0;padding-bottom:.25rem;font-size:1.375rem;line-height:1.3}
.gone{margin:0 0 .5rem;font-weight:700}
summary{cursor:pointer;padding:.3125rem 0}
.rules{margin-bottom:.25rem}
.rules summary{color:var(--dim)}
.rules table{margin:.25rem 0 .75rem;font-size:.9375rem}
.rules th,.rules td{max-width:min(20vw,18rem);padding:.25rem 1.5rem .25rem 0;text-align:left;vertical-align:baseline;overflow-wrap:break-word}
.rules td:first-child,.rules th:first-child{text-align:right}
details[data-has]>summary{border-top:1px solid var(--line)}
[open][id]>summary{position:sticky;top:0;background:var(--page)}
h3{display:inline-block;max-width:calc(100% - 2rem);max-height:2.25rem;margin:0 .5rem 0 0;overflow-y:auto;vertical-align:top;font:700 .875rem/1.3 ui-monospace,SFMono-Regular,Menlo,Consolas,monospace;overflow-wrap:anywhere}
summary span{color:var(--dim);font-size:.875rem}
h3+span{display:inline-block;line-height:1.3;vertical-align:top}
[open]>summary h3+span{color:var(--text)}
ul{margin:0;padding:0 0 .5rem;list-style:none;font-size:.9375rem;line-height:1.45}
.empty,.how{margin:1.5rem 0 0;color:var(--dim)}
"
}

/// The rows.
#[tactic(auto, unfolding(crate::specs::HtmlStyle::style_rows))]
fn style_rows() -> &'static str
    ensures { result.now ≡ fixed.style_rows }
{
    "\
li{display:grid;grid-template-columns:6.5rem 5rem minmax(0,1fr) 17rem;grid-template-rows:auto 1fr;gap:0 1rem;padding:.4375rem 0 .4375rem 1rem}
li+li{border-top:1px dotted var(--line)}
li>*{grid-row:1;min-width:0}
li>:first-child,li>a code{font-weight:700;font-size:.8125rem}
li i{position:absolute;width:1px;height:1px;overflow:hidden;clip-path:inset(50%);white-space:nowrap}
.all::after{content:\"whole file\";font-weight:400}
li>b{justify-self:start;align-self:start;padding:0 .4375rem;border:1px solid;border-radius:.25rem;font-size:.8125rem;line-height:1.45;white-space:nowrap}
[data-level=\"error\"]>b{background:var(--error);border-color:var(--error);color:var(--page)}
[data-level=\"warning\"]>b{color:var(--warning)}
[data-level=\"note\"]>b{border-color:var(--line);color:var(--note);font-weight:400}
[data-level=\"none\"]>b{border-color:transparent;padding-inline:0;color:var(--dim);font-weight:400;font-style:italic}
li>p{grid-column:3;max-height:11rem;margin:0;overflow-y:auto;overflow-wrap:anywhere}
pre{margin:.25rem 0 0;padding:.25rem .625rem;overflow-x:auto;border-left:.1875rem solid var(--line);background:var(--soft)}
pre code{font-size:.8125rem;line-height:1.4}
li>pre{grid-area:2/3}
mark{background:var(--mark);color:inherit;font-weight:700}
li>div{grid-area:1/4/span 2;max-height:14rem;overflow-y:auto;font-size:.875rem;overflow-wrap:anywhere}
li>div code{font-size:.8125rem}
li>div span{display:inline-block;color:var(--dim)}
"
}

/// What the boxes exclude: rows, and groups and lists whose rows are all excluded.
#[tactic(auto, unfolding(crate::specs::HtmlStyle::style_filters))]
fn style_filters() -> &'static str
    ensures { result.now ≡ fixed.style_filters }
{
    "\
@supports selector(:has(*)){
.filters{display:flex}
.filters:has(#error:not(:checked))~section [data-level=\"error\"],.filters:has(#warning:not(:checked))~section [data-level=\"warning\"],.filters:has(#note:not(:checked))~section [data-level=\"note\"],.filters:has(#none:not(:checked))~section [data-level=\"none\"],
.filters:has(#new:not(:checked))~section [data-state=\"new\"],.filters:has(#unchanged:not(:checked))~section [data-state=\"unchanged\"],.filters:has(#updated:not(:checked))~section [data-state=\"updated\"],.filters:has(#absent:not(:checked))~section [data-state=\"absent\"]{display:none}
.filters:has(input:not(:checked)) p{display:block}
.filters:has(input:not(:checked))~[data-has]>.gone{display:block}
.filters:has(input:not(:checked))~section details[data-has]{display:none}
.filters:not(:has(#error:not(:checked),#new:not(:checked)))~section details[data-has~=\"error-new\"]{display:block}
.filters:not(:has(#error:not(:checked),#new:not(:checked)))~[data-has~=\"error-new\"]>.gone{display:none}
.filters:not(:has(#error:not(:checked),#unchanged:not(:checked)))~section details[data-has~=\"error-unchanged\"]{display:block}
.filters:not(:has(#error:not(:checked),#unchanged:not(:checked)))~[data-has~=\"error-unchanged\"]>.gone{display:none}
.filters:not(:has(#error:not(:checked),#updated:not(:checked)))~section details[data-has~=\"error-updated\"]{display:block}
.filters:not(:has(#error:not(:checked),#updated:not(:checked)))~[data-has~=\"error-updated\"]>.gone{display:none}
.filters:not(:has(#error:not(:checked),#absent:not(:checked)))~section details[data-has~=\"error-absent\"]{display:block}
.filters:not(:has(#error:not(:checked),#absent:not(:checked)))~[data-has~=\"error-absent\"]>.gone{display:none}
.filters:not(:has(#warning:not(:checked),#new:not(:checked)))~section details[data-has~=\"warning-new\"]{display:block}
.filters:not(:has(#warning:not(:checked),#new:not(:checked)))~[data-has~=\"warning-new\"]>.gone{display:none}
.filters:not(:has(#warning:not(:checked),#unchanged:not(:checked)))~section details[data-has~=\"warning-unchanged\"]{display:block}
.filters:not(:has(#warning:not(:checked),#unchanged:not(:checked)))~[data-has~=\"warning-unchanged\"]>.gone{display:none}
.filters:not(:has(#warning:not(:checked),#updated:not(:checked)))~section details[data-has~=\"warning-updated\"]{display:block}
.filters:not(:has(#warning:not(:checked),#updated:not(:checked)))~[data-has~=\"warning-updated\"]>.gone{display:none}
.filters:not(:has(#warning:not(:checked),#absent:not(:checked)))~section details[data-has~=\"warning-absent\"]{display:block}
.filters:not(:has(#warning:not(:checked),#absent:not(:checked)))~[data-has~=\"warning-absent\"]>.gone{display:none}
.filters:not(:has(#note:not(:checked),#new:not(:checked)))~section details[data-has~=\"note-new\"]{display:block}
.filters:not(:has(#note:not(:checked),#new:not(:checked)))~[data-has~=\"note-new\"]>.gone{display:none}
.filters:not(:has(#note:not(:checked),#unchanged:not(:checked)))~section details[data-has~=\"note-unchanged\"]{display:block}
.filters:not(:has(#note:not(:checked),#unchanged:not(:checked)))~[data-has~=\"note-unchanged\"]>.gone{display:none}
.filters:not(:has(#note:not(:checked),#updated:not(:checked)))~section details[data-has~=\"note-updated\"]{display:block}
.filters:not(:has(#note:not(:checked),#updated:not(:checked)))~[data-has~=\"note-updated\"]>.gone{display:none}
.filters:not(:has(#note:not(:checked),#absent:not(:checked)))~section details[data-has~=\"note-absent\"]{display:block}
.filters:not(:has(#note:not(:checked),#absent:not(:checked)))~[data-has~=\"note-absent\"]>.gone{display:none}
.filters:not(:has(#none:not(:checked),#new:not(:checked)))~section details[data-has~=\"none-new\"]{display:block}
.filters:not(:has(#none:not(:checked),#new:not(:checked)))~[data-has~=\"none-new\"]>.gone{display:none}
.filters:not(:has(#none:not(:checked),#unchanged:not(:checked)))~section details[data-has~=\"none-unchanged\"]{display:block}
.filters:not(:has(#none:not(:checked),#unchanged:not(:checked)))~[data-has~=\"none-unchanged\"]>.gone{display:none}
.filters:not(:has(#none:not(:checked),#updated:not(:checked)))~section details[data-has~=\"none-updated\"]{display:block}
.filters:not(:has(#none:not(:checked),#updated:not(:checked)))~[data-has~=\"none-updated\"]>.gone{display:none}
.filters:not(:has(#none:not(:checked),#absent:not(:checked)))~section details[data-has~=\"none-absent\"]{display:block}
.filters:not(:has(#none:not(:checked),#absent:not(:checked)))~[data-has~=\"none-absent\"]>.gone{display:none}
}
"
}

/// On a phone, where a row is at most 400 pixels high.
#[tactic(auto, unfolding(crate::specs::HtmlStyle::style_narrow))]
fn style_narrow() -> &'static str
    ensures { result.now ≡ fixed.style_narrow }
{
    "\
@media (max-width:64rem){
body{padding:1rem 1rem 2rem}
header{display:block}
header>div+div{overflow-x:auto}
h1{margin-bottom:.5rem;padding-left:.75rem;font-size:1.375rem}
header>div>p,header nav{padding-left:0}
header>div>p{line-height:1.4}
.counts{margin-top:.25rem;font-size:.8125rem}
.counts th,.counts td{padding-inline:.25rem}
header p.mind{margin-top:.375rem;padding:.1875rem .5rem;font-size:.875rem;line-height:1.4}
.filters{margin-top:.5rem;font-size:.9375rem;gap:0 1.5rem}
fieldset{gap:0 .75rem}
legend{min-width:2.75rem}
label{gap:.25rem}
section{margin-top:.5rem}
h2{padding:0;font-size:1.25rem}
summary{padding:.375rem 0}
h3{font-size:.8125rem;max-height:2.125rem}
.rules{overflow-x:auto}
.rules th,.rules td{max-width:10rem;padding-right:.75rem}
li{grid-template-columns:auto auto minmax(0,1fr);grid-template-rows:none;gap:.125rem .75rem;padding-left:0;align-items:baseline}
li>*{grid-row:auto}
li>p,li>pre,li>div{grid-area:auto/1/auto/-1}
li>p{max-height:8rem;font-size:1rem}
li>div{max-height:3.75rem;padding-block:.25rem}
li>div a{padding-block:.25rem}
}
"
}

/// The printed page, on which each group is open.
#[tactic(auto, unfolding(crate::specs::HtmlStyle::style_print))]
fn style_print() -> &'static str
    ensures { result.now ≡ fixed.style_print }
{
    "\
@media print{
:root{color-scheme:light;--page:#fff;--soft:#fff;--line:#999;--edge:#000;--text:#000;--dim:#333;--mark:#fff;--error:#000;--warning:#000;--note:#000;--pass:#000}
body{max-width:none;padding:0;font-size:.8125rem}
.filters,nav,.gone{display:none!important}
details::details-content{content-visibility:visible;block-size:auto}
[open][id]>summary{position:static}
h3,li>p,li>div{max-height:none}
li{padding:.25rem 0}
ul,li>p{font-size:.75rem}
pre{overflow:visible;white-space:pre-wrap;overflow-wrap:anywhere}
li,tr,h2,summary{break-inside:avoid}
h2,summary{break-after:avoid}
[data-level=\"error\"]>b{background:none;color:#000;border-width:2px}
}
</style>
"
}

/// Adds the style.
#[tactic(auto, unfolding(crate::specs::HtmlStyle::style))]
pub(crate) fn push_style(text: &mut String) -> Result<(), AllocError>
    ensures { OnOk result (string_bytes text.new ≡ string_bytes text.old ++ fixed.style) }
{
    text.push_str(style_top())?;
    text.push_str(style_groups())?;
    text.push_str(style_rows())?;
    text.push_str(style_filters())?;
    text.push_str(style_narrow())?;
    text.push_str(style_print())?;
    Ok(())
}

/// The style of a second table in the header.
#[tactic(auto, unfolding(crate::specs::HtmlStyle::tables_style))]
pub(crate) fn tables_style() -> &'static str
    ensures { result.now ≡ fixed.tables_style }
{
    "\
<style>.counts~.counts{margin-top:1rem}</style>
"
}
