//! Reading which results reports show.
ghost use Rattle.std.specs.Prelude.{◌≡◌};
ghost use Rattle.sarif_request.specs.Showing.{show_named};

use sarif_findings::Show;

/// Returns which results reports show by this name, or `None` if there is no such name.
pub(crate) fn show_named(name: &str) -> Option<Show>
    ensures { result ≡ show_named name.now }
{
    if name == "hits" {
        Some(Show::Hits)
    } else if name == "all" {
        Some(Show::All)
    } else {
        None
    }
}
