//! Laws of what a merge makes for later merges, each the contract of a function that does nothing.
ghost use Rattle.std.specs.Prelude.{◌≡◌, ◌+◌, ℕ, Bool, List, Option, Some, None, length, option_map};
ghost use Rattle.sarif_counts.specs.Hits.{count_if};
ghost use Rattle.sarif_options.specs.declared.upkeep.Knowing.{Knowing};
ghost use Rattle.sarif_options.specs.declared.upkeep.Renewal.{Renewal};
ghost use Rattle.sarif_accept.specs.Adding.{may_hit};
ghost use Rattle.sarif_accept.specs.Choosing.{accepted_by, added_by, alike_among, others_among};
ghost use Rattle.sarif_upkeep.specs.Hiding.{choosing_shown, of_all};
ghost use Rattle.sarif_upkeep.specs.Known.{known_faults, remembered};
ghost use Rattle.sarif_upkeep.specs.Life.{unused_in};
ghost use Rattle.sarif_upkeep.specs.Merge.{Merge};
ghost use Rattle.sarif_upkeep.specs.Renewed as said;

/// If the gate checks no change, accepting applies to all current results, and the hits that stay are those among them
/// and those among absent results.
pub fn accepting_is_of_all_without_a_change()
    ensures accepted { (m : Merge) → m.hidden ≡ None → said.accepted_in m
        ≡ accepted_by m.chosen (may_hit m.policy) m.file m.records m.states }
    ensures added { (m : Merge) (renewal : Renewal) → m.hidden ≡ None → said.added_in m renewal
        ≡ added_by (said.how_of m renewal) m.chosen (may_hit m.policy) m.file m.records m.states }
    ensures alike { (m : Merge) (renewal : Renewal) (marks : List Bool) → m.hidden ≡ None
        → said.alike_in m renewal marks ≡ length (alike_among (may_hit m.policy) m.file
        (said.entries_added m renewal) marks m.records m.states) }
    ensures alike_told { (m : Merge) (renewal : Renewal) → m.hidden ≡ None
        → said.alike_told m renewal
        ≡ option_map (λ marks. count_if renewal.accept (said.alike_in m renewal marks)) m.chosen }
    ensures stay { (m : Merge) (renewal : Renewal) → m.hidden ≡ None → m.absent ≡ None
        → said.stay_in m renewal
        ≡ said.current_stay m renewal m.chosen
        + said.absent_hits (may_hit m.policy) m.file m.known m.taken }
    ensures all { (m : Merge) (renewal : Renewal) → m.hidden ≡ None
        → said.current_stay m renewal None
        ≡ said.staying_among (may_hit m.policy) m.file m.records m.states }
    ensures marked { (m : Merge) (renewal : Renewal) (marks : List Bool) → m.hidden ≡ None
        → said.current_stay m renewal (Some marks) ≡ length (others_among (may_hit m.policy) m.file
        (said.entries_added m renewal) marks m.records m.states) }
{}

/// With a change, hits are accepted as if the gate checked all results and only the chosen hits that aren't hidden were
/// chosen: the same results get entries, and the new suppression file is the same. No absent result stays a hit.
pub fn accepting_with_a_change_is_choosing()
    ensures accepted { (m : Merge) (hidden : List Bool) → m.hidden ≡ Some hidden
        → length hidden ≡ length m.records → length m.states ≡ length m.records
        → said.accepted_in m ≡ said.accepted_in (choosing_shown hidden m) }
    ensures added { (m : Merge) (hidden : List Bool) (renewal : Renewal)
        → m.hidden ≡ Some hidden
        → length hidden ≡ length m.records → length m.states ≡ length m.records
        → said.added_in m renewal ≡ said.added_in (choosing_shown hidden m) renewal }
    ensures file { (m : Merge) (hidden : List Bool) (renewal : Renewal)
        → m.hidden ≡ Some hidden
        → length hidden ≡ length m.records → length m.states ≡ length m.records
        → said.rules_after m renewal ≡ said.rules_after (choosing_shown hidden m) renewal }
    ensures faults { (m : Merge) (hidden : List Bool) (renewal : Renewal)
        → m.hidden ≡ Some hidden
        → length hidden ≡ length m.records → length m.states ≡ length m.records
        → said.renewal_faults m renewal ≡ said.renewal_faults (choosing_shown hidden m) renewal }
    ensures absent { (m : Merge) (hidden : List Bool) → m.hidden ≡ Some hidden → m.absent ≡ None
        → said.absent_stay m ≡ 0 }
{}

/// Pruning, the list of unused entries and the known log don't depend on a change.
pub fn a_change_is_for_accepting_alone()
    ensures kept { (m : Merge) (renewal : Renewal)
        → said.kept_in m renewal ≡ said.kept_in (of_all m) renewal }
    ensures unused { (m : Merge) → unused_in m ≡ unused_in (of_all m) }
    ensures known { (m : Merge) (knowing : Knowing)
        → remembered m knowing ≡ remembered (of_all m) knowing }
    ensures faults { (m : Merge) (knowing : Knowing)
        → known_faults m knowing ≡ known_faults (of_all m) knowing }
{}
