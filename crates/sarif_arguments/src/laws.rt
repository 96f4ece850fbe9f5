//! A law of arguments, the contract of a function that does nothing.
ghost use Rattle.std.specs.Prelude.{◌≡◌, ℕ, List, Ok, false};
ghost use Rattle.std.specs.List.{list_any};
ghost use Rattle.sarif_arguments.specs.Replaced.{AreReplaced, Arguments, names_file};

use crate::reading::ArgumentFiles;

/// If no argument names a file, the arguments are left unchanged.
pub fn without_files_nothing_changes<F: ArgumentFiles>()
    ensures { (files : F) (words : List (List ℕ)) (all : Arguments)
        → list_any names_file words ≡ false → AreReplaced (F.gives files) words all
        → all ≡ Ok words }
{}
