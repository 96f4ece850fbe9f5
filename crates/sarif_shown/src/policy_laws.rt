//! Laws of what reports show with a policy. Each law is the contract of a function that does nothing.
ghost use Rattle.std.specs.Prelude.{◌≡◌, ◌+◌, List, length, nat_lt, take};
ghost use Rattle.std.specs.List.{count_by};
ghost use Rattle.sarif_conditions.specs.Facts.{facts_of as decided_facts, verdict_told};
ghost use Rattle.sarif_conditions.specs.Judged.{Judged};
ghost use Rattle.sarif_counts.specs.Impacts.{is_hit};
ghost use Rattle.sarif_findings.specs.declared.finding.Finding.{Finding};
ghost use Rattle.sarif_findings.specs.declared.reporting.Show.{Show};
ghost use Rattle.sarif_policy.specs.declared.condition.GateCondition.{GateCondition};
ghost use Rattle.sarif_shown.specs.Listed.{hits_among, listed};
ghost use Rattle.sarif_shown.specs.PolicyLaws.{AreRuled, is_fail};
ghost use Rattle.sarif_shown.specs.Ruled.{left_by};
ghost use Rattle.sarif_shown.specs.Stopping.{stops};
ghost use Rattle.sarif_shown.specs.declared.stopping.Stopping.TheVariants.{MarkedHit};

/// With a policy the hits among the shown results are as many as its conditions say, and the first of the listed results.
/// The shown results and those that are not shown are together as many as the conditions report. A shown result stops the
/// change exactly if the verdict is fail.
pub fn conditions_decide_what_is_shown()
    ensures hits { (show : Show) (cs : List GateCondition) (rs : List Judged)
        (findings : List Finding) → AreRuled show cs rs findings
        → count_by (λ f. is_hit f.impact) findings ≡ (decided_facts cs rs).hits }
    ensures first { (show : Show) (cs : List GateCondition) (rs : List Judged)
        (findings : List Finding) → AreRuled show cs rs findings
        → take (decided_facts cs rs).hits (listed findings) ≡ hits_among findings }
    ensures all { (show : Show) (cs : List GateCondition) (rs : List Judged)
        (findings : List Finding) → AreRuled show cs rs findings
        → length findings + left_by show (decided_facts cs rs) ≡ (decided_facts cs rs).reported }
    ensures verdict { (show : Show) (cs : List GateCondition) (rs : List Judged)
        (findings : List Finding) → AreRuled show cs rs findings
        → nat_lt 0 (count_by (λ f. stops MarkedHit f.impact) findings)
        ≡ is_fail (verdict_told (decided_facts cs rs)) }
{}
