//! A message without its links to places of the log, read character by character.
ghost use Rattle.std.specs.Prelude.{◌≡◌, ◌<◌, ◌≤◌, [], ◌∷◌, MatchOption, IfSome, length, map, chars};
ghost use Rattle.serde_json.specs.View.{view};
ghost use Rattle.sarif_findings.specs.Links.{unlinked};
ghost use Rattle.sarif_findings.specs.Placeholders.{filled_from};
ghost use Rattle.sarif_findings.specs.Internal.Unlinked.{left};

use crate::empties::after_empties;
use crate::links::{Part, part_after, stays_between};
use serde_json::Value;

/// The rest of a message that is read without its links. It stores none of it.
#[derive(Clone, Copy)]
pub(crate) struct Unlinked<'a> {
    args: &'a [Value],
    rest: &'a str,
    part: Part,
}

impl<'a> Unlinked<'a> {
    pub(crate) fn new(args: &'a [Value], text: &'a str) -> Unlinked<'a>
        ensures { left result ≡ unlinked (map view args.now) (chars text.now) }
    {
        Unlinked {
            args,
            rest: text,
            part: Part::Outside,
        }
    }

    /// Reads past placeholders that are replaced by nothing, outside of links and if no placeholder is read already.
    pub(crate) fn pass_empties(&mut self, args: &[Value], skip: u32)
        ensures same { filled_from (map view args.now) skip (left self.new)
            ≡ filled_from (map view args.now) skip (left self.old) }
        ensures shorter { length self.new.rest.now ≤ length self.old.rest.now }
    {
        if skip == 0 && matches!(self.part, Part::Outside) {
            self.rest = after_empties(args, self.rest);
        }
    }

    /// Reads on to the next character that stays, and returns it. After `None` nothing is known about the rest.
    pub(crate) fn next(&mut self) -> Option<char>
        ensures is { MatchOption result (left self.old ≡ [])
            (λ c. left self.old ≡ c ∷ left self.new) }
        ensures shorter { IfSome result (λ c. length self.new.rest.now < length self.old.rest.now) }
    {
        let mut part = self.part;
        let mut rest = self.rest.chars();
        while let Some(c) = rest.next() {
            let next = part_after(self.args, part, c, rest.as_str());
            if stays_between(part, next) {
                self.rest = rest.as_str();
                self.part = next;
                return Some(c);
            }
            part = next;
        }
        None
    }
}
