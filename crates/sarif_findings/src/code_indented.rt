//! A line of a snippet whose indentation was read.
ghost use Rattle.std.specs.Prelude.{◌≡◌};
ghost use Rattle.std.specs.List.{prefix_len};
ghost use Rattle.sarif_findings.specs.Code.{is_blank, is_space, spread_line};

/// A line of a snippet whose indentation was read.
#[derive(Clone, Copy)]
pub(crate) struct Indented<'a> {
    /// How many spaces it begins with as it is shown.
    pub(crate) indent: u128,
    /// What follows what is shown as these.
    pub(crate) rest: &'a str,
    /// Whether nothing follows.
    pub(crate) blank: bool,
    ghost blank_is: { blank ≡ is_blank (spread_line rest.now) },
    ghost begins: { prefix_len is_space (spread_line rest.now) ≡ 0 },
}
