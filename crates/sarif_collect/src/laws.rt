//! Laws of arrivals, each the contract of a function that does nothing.
ghost use Rattle.std.specs.Prelude.{ℕ, List};
ghost use Rattle.sarif_collect.specs.declared.piece.Piece.{Piece};
ghost use Rattle.sarif_collect.specs.declared.piece.Parcel.{Parcel};
ghost use Rattle.sarif_collect.specs.Honest.{AreHonest, AreTaken};
ghost use Rattle.sarif_collect.specs.Laws.{AreTakenWhereLawful, AreAssembled};

/// Arrivals are lawful if and only if a collector rejects none of them and has no open run at the end; then each
/// of its runs is what the arrivals assemble to.
pub fn lawful_arrivals_are_just_those_that_are_taken<T, C>()
    ensures taken { (runs : ℕ) (arrivals : List (Piece T C)) → AreTakenWhereLawful runs arrivals }
    ensures assembled { (runs : ℕ) (arrivals : List (Piece T C)) → AreAssembled runs arrivals }
{}

/// What the workers of a work send is lawful, in any order of arrival: no piece of an honest worker is rejected,
/// and the pieces assemble to the work's lists.
pub fn pieces_of_honest_workers_are_taken<T, C>()
    ensures { (count : ℕ → ℕ) (item : ℕ → ℕ → T) (end : ℕ → C) (runs : ℕ) (shares : List (List ℕ))
        (arrived : List (ℕ × Parcel T C)) → AreHonest count item end runs shares arrived
        → AreTaken count item end runs arrived }
{}
