//! The first character of a string.
ghost use Rattle.std.specs.Prelude.{◌≡◌, chars};
ghost use Rattle.sarif_findings.specs.Placeholders.{first_is};

/// Returns whether the string starts with this character.
pub(crate) fn begins_with(rest: &str, c: char) -> bool
    ensures { result ≡ first_is c (chars rest.now) }
{
    match rest.chars().next() {
        Some(first) => first == c,
        None => false,
    }
}
