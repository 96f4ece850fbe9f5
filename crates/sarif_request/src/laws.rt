//! Laws of requests, each the contract of a function that does nothing.
ghost use Rattle.std.specs.Prelude.{◌≡◌, ◌||◌, ℕ, Bool, true, List, Ok, IfSome, Some};
ghost use Rattle.sarif_options.specs.declared.upkeep.Renewal.{Renewal};
ghost use Rattle.sarif_request.specs.declared.request.Request.{Request};
ghost use Rattle.sarif_request.specs.Dates.{IsNotPast};
ghost use Rattle.sarif_request.specs.Terminal.{at_terminal, no_terminal};
ghost use Rattle.sarif_request.specs.Words.{GivesRequest, HaveNoGateOption};

/// If the arguments request a new suppression file with an expiry date for the entries that are added, it is a date, and
/// today's date is known and not after it.
pub fn expiry_dates_are_not_past()
    ensures { (words : List (List ℕ)) (request : Request) → GivesRequest words (Ok request)
        → IfSome request.upkeep.renewal
        (λ renewal. IsNotPast request.options.today renewal.until) }
{}

/// If the arguments request a new suppression file, it is changed: results are accepted, entries are dropped, or both.
/// Only entries that are added have a justification or an expiry date. If they choose among the hits, there is a new
/// suppression file for which hits are accepted.
pub fn requested_renewals_are_sound()
    ensures changes { (words : List (List ℕ)) (request : Request) → GivesRequest words (Ok request)
        → IfSome request.upkeep.renewal
        (λ renewal. (renewal.accept || renewal.prune) ≡ true) }
    ensures justified { (words : List (List ℕ)) (request : Request)
        → GivesRequest words (Ok request) → IfSome request.upkeep.renewal
        (λ renewal. IfSome renewal.reason (λ _. renewal.accept ≡ true)) }
    ensures expiring { (words : List (List ℕ)) (request : Request) → GivesRequest words (Ok request)
        → IfSome request.upkeep.renewal
        (λ renewal. IfSome renewal.until (λ _. renewal.accept ≡ true)) }
    ensures choosing { (words : List (List ℕ)) (request : Request) → GivesRequest words (Ok request)
        → IfSome request.choice (λ _. (how : Renewal)
        × (request.upkeep.renewal ≡ Some how) × (how.accept ≡ true)) }
{}

/// If there is a policy, the arguments have none of the options whose place it takes.
pub fn policies_replace_options()
    ensures { (words : List (List ℕ)) (request : Request) → GivesRequest words (Ok request)
        → IfSome request.policy (λ _. HaveNoGateOption words) }
{}

/// If no standard stream is a terminal, the request that is served is the one that the arguments give, regardless of
/// the colours that the environment requests.
pub fn requests_stay_off_a_terminal()
    ensures { (words : List (List ℕ)) (request : Request) (plain : Bool)
        → GivesRequest words (Ok request)
        → at_terminal (record no_terminal { plain = plain }) request ≡ request }
{}
