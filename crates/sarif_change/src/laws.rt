//! Laws of what is outside of a change. Each law is the contract of a function that does nothing.
ghost use Rattle.std.specs.Prelude.{◌≡◌, ◌++◌, ℕ, List, true};
ghost use Rattle.sarif_diff.specs.declared.section.Section.{Section};
ghost use Rattle.sarif_change.specs.Joined.{sections_joined};
ghost use Rattle.sarif_change.specs.Outside.{is_outside};
ghost use Rattle.sarif_change.specs.declared.spots.Scope.{Scope};
ghost use Rattle.sarif_change.specs.declared.spots.Scope.TheVariants.{Lines, Files};
ghost use Rattle.sarif_change.specs.declared.spots.Spots.{Spots};

/// A result that is inside by the changed lines is inside by the changed files: what is outside of the files is outside of
/// the lines.
pub fn inside_by_lines_is_inside_by_files()
    ensures { (sections : List Section) (roots : List (List ℕ)) (spots : Spots)
        → is_outside sections roots Files spots ≡ true
        → is_outside sections roots Lines spots ≡ true }
{}

/// A result that is inside of a change stays inside if the diff has more sections: what is outside of all sections is
/// outside of the first ones.
pub fn what_is_inside_stays_inside()
    ensures { (before more : List Section) (roots : List (List ℕ)) (scope : Scope) (spots : Spots)
        → is_outside (sections_joined (before ++ more)) roots scope spots ≡ true
        → is_outside (sections_joined before) roots scope spots ≡ true }
{}
