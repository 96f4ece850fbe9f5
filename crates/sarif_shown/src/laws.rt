//! Laws of what reports show, and of the reports of one line per result. Each law is the contract of a function that
//! does nothing. A log may be hostile, so the laws cover any strings. Without a change they are on all results of the
//! log that are shown, and with one on those inside of it.
ghost use Rattle.std.specs.Prelude.{◌≡◌, ◌==◌, ◌++◌, ◌+◌, ◌-◌, ℕ, List, Option, AllPairs, IsPermutation, not, true, false};
ghost use Rattle.std.specs.Prelude.{codes, drop, flat_map, length, nat_eq, take};
ghost use Rattle.std.specs.List.{AllByRecursion, count_by, filter, list_all, starts_with};
ghost use Rattle.std.specs.List as list;
ghost use Rattle.serde_json.specs.Data.{Data};
ghost use Rattle.sarif_model.specs.declared.kinds.Level.{Level};
ghost use Rattle.sarif_model.specs.Run.{runs_of};
ghost use Rattle.sarif_counts.specs.CountOf.{count_of};
ghost use Rattle.sarif_counts.specs.Impacts.{is_hit};
ghost use Rattle.sarif_counts.specs.declared.gate_verdict.Impact.{Impact};
ghost use Rattle.sarif_findings.specs.declared.finding.Finding.{Finding};
ghost use Rattle.sarif_shown.specs.declared.escaping.Escaping.TheVariants.{IssueProperty};
ghost use Rattle.sarif_shown.specs.AzureLaws.{AreIssues, is_within_property, properties_of, properties_read};
ghost use Rattle.sarif_shown.specs.AzureReport.{azure_line, azure_of};
ghost use Rattle.sarif_shown.specs.Escaped.{escaped};
ghost use Rattle.sarif_shown.specs.GithubLaws.{are_commands};
ghost use Rattle.sarif_shown.specs.FindingLaws.{HasAddress, IsNamed, has_target};
ghost use Rattle.sarif_links.specs.Address.{has_two_signs, is_address, is_address_sign};
ghost use Rattle.sarif_shown.specs.GithubReport.{github_line, github_of};
ghost use Rattle.sarif_shown.specs.Listed.{by_level, hits_among, listed, others_among};
ghost use Rattle.sarif_shown.specs.ListedLaws.{MayPrecede, of_standing};
ghost use Rattle.sarif_findings.specs.Links.{unlinked};
ghost use Rattle.sarif_findings.specs.declared.reporting.Reporting.{Reporting};
ghost use Rattle.sarif_findings.specs.declared.reporting.Show.TheVariants.{Hits, All};
ghost use Rattle.sarif_findings.specs.Shown.{shown_chars};
ghost use Rattle.sarif_findings.specs.ShownLaws.{are_seen};
ghost use Rattle.sarif_shown.specs.declared.terminal_lines.Screen.TheVariants.{Plain, Coloured};
ghost use Rattle.sarif_shown.specs.TerminalLaws.{unstyled};
ghost use Rattle.sarif_shown.specs.TerminalReport.{most_shown, screen_line, terminal_of};
ghost use Rattle.sarif_shown.specs.TextLaws.{IsTextOfLines};
ghost use Rattle.sarif_shown.specs.TextReport.{text_line, text_lines_of};
ghost use Rattle.sarif_shown.specs.ReportedInside.{reported_by};
ghost use Rattle.sarif_shown.specs.Unshown.{unshown_number};
ghost use Rattle.sarif_scope.specs.Counted.{hits_by};
ghost use Rattle.sarif_scope.specs.Told.{facts_by};
ghost use Rattle.sarif_scope.specs.declared.gated.GatedChange.{GatedChange};

/// No character of a shown string is a control character, a line separator, or a character that hides or controls
/// others.
pub fn shown_texts_are_seen()
    ensures { (cs : List ℕ) → are_seen (shown_chars cs) ≡ true }
{}

/// A shown string never contains two adjacent `#`.
pub fn shown_signs_stand_apart()
    ensures { (cs : List ℕ) → has_two_signs false (shown_chars cs) ≡ false }
{}

/// The shown results of a merged log are the reported ones, or only the hits among them: then they are as many as the
/// gate counts. The shown results and those that are not shown are together as many as the reported results.
pub fn shown_results_are_counted()
    ensures shown { (change : Option GatedChange) (reporting : Reporting) (log : Data) →
        reported_by change (record reporting { show = Hits }) log
        ≡ filter (λ f. is_hit f.impact) (reported_by change (record reporting { show = All }) log) }
    ensures hits { (change : Option GatedChange) (reporting : Reporting) (log : Data) →
        length (reported_by change (record reporting { show = Hits }) log)
        ≡ hits_by change reporting.policy (runs_of log) }
    ensures all { (change : Option GatedChange) (reporting : Reporting) (log : Data) →
        length (reported_by change reporting log)
        + unshown_number (facts_by change reporting.policy (runs_of log)) reporting.show
        (count_of (runs_of log)) reporting.policy
        ≡ length (reported_by change (record reporting { show = All }) log) }
{}

/// The number of hits among the shown results of a merged log is the number that the gate counts.
pub fn reported_hits_are_counted()
    ensures { (change : Option GatedChange) (reporting : Reporting) (log : Data) →
        count_by (λ f. is_hit f.impact) (reported_by change reporting log)
        ≡ hits_by change reporting.policy (runs_of log) }
{}

/// A message in which `](` does not occur has no link to a place of its log: it is read as itself, for any arguments.
pub fn messages_without_targets_stay()
    ensures { (args : List Data) (cs : List ℕ) → has_target cs ≡ false → unlinked args cs ≡ cs }
{}

/// No path of a shown result begins with `./`.
pub fn paths_begin_with_names()
    ensures { (change : Option GatedChange) (reporting : Reporting) (log : Data) →
        list.All IsNamed (reported_by change reporting log) }
{}

/// A rule is a link only to an address: it has only the characters of an address, and begins with `http`. So no quote,
/// bracket, bar, backquote, dollar, backslash, space or character beyond ASCII is in it.
pub fn rules_link_to_addresses()
    ensures links { (change : Option GatedChange) (reporting : Reporting) (log : Data) →
        list.All HasAddress (reported_by change reporting log) }
    ensures signs { (text : List ℕ) → is_address text ≡ true
        → list_all is_address_sign text ≡ true }
    ensures scheme { (text : List ℕ) → is_address text ≡ true
        → starts_with nat_eq text (codes "http") ≡ true }
{}

/// Reports list each shown result once: first the hits that stop the change, then the other hits, then the other results,
/// and in each of these three none before a worse one. Those of one level stay in the order of the merged log. Without a
/// policy the first of them are the hits, as many as the gate counts.
pub fn listed_results_are_sorted()
    ensures once { (findings : List Finding) → IsPermutation findings (listed findings) }
    ensures sorted { (findings : List Finding) → AllPairs MayPrecede (listed findings) }
    ensures stable { (impact : Impact) (level : Level) (findings : List Finding) →
        of_standing impact level (listed findings) ≡ of_standing impact level findings }
    ensures hits { (change : Option GatedChange) (reporting : Reporting) (log : Data) →
        take (hits_by change reporting.policy (runs_of log))
        (listed (reported_by change reporting log))
        ≡ hits_among (reported_by change reporting log) }
    ensures others { (change : Option GatedChange) (reporting : Reporting) (log : Data) →
        drop (hits_by change reporting.policy (runs_of log))
        (listed (reported_by change reporting log))
        ≡ others_among (reported_by change reporting log) }
    ensures length { (findings : List Finding) → length (listed findings) ≡ length findings }
{}

/// Without a policy the hits are listed by level alone, since the impact of none says that it stops the change. The other
/// results are listed by level with a policy too.
pub fn hits_of_the_options_are_listed_by_level()
    ensures hits { (change : Option GatedChange) (reporting : Reporting) (log : Data) →
        hits_among (reported_by change reporting log)
        ≡ by_level (filter (λ f. is_hit f.impact) (reported_by change reporting log)) }
    ensures others { (findings : List Finding) → others_among findings
        ≡ by_level (filter (λ f. not (is_hit f.impact)) findings) }
{}

/// The text report of a log has exactly one line per shown result, no control character except their ends, no
/// line that begins with a colon, and no two adjacent `#`. Its first lines are those of the hits.
pub fn text_reports_have_a_line_a_result()
    ensures lines { (change : Option GatedChange) (reporting : Reporting) (log : Data) →
        IsTextOfLines (length (reported_by change reporting log))
        (text_lines_of (reported_by change reporting log)) }
    ensures hits { (change : Option GatedChange) (reporting : Reporting) (log : Data) →
        IsTextOfLines (hits_by change reporting.policy (runs_of log))
        (flat_map text_line (hits_among (reported_by change reporting log))) }
    ensures first { (change : Option GatedChange) (reporting : Reporting) (log : Data) →
        text_lines_of (reported_by change reporting log)
        ≡ flat_map text_line (hits_among (reported_by change reporting log))
        ++ flat_map text_line (others_among (reported_by change reporting log)) }
{}

/// A terminal shows each hit or counts it: the first hits have a line each. A line without colours is that of the text
/// report, and so is a line with colours after its control sequences are taken out. If they are taken out of all that a
/// coloured screen shows, what is left is what a plain one shows. So no log writes a control sequence.
pub fn terminals_show_the_hits()
    ensures plain { (f : Finding) → screen_line Plain f ≡ text_line f }
    ensures coloured { (change : Option GatedChange) (reporting : Reporting) (log : Data) →
        AllByRecursion (λ f. unstyled (screen_line Coloured f) ≡ text_line f)
        (reported_by change reporting log) }
    ensures whole { (change : Option GatedChange) (reporting : Reporting) (log : Data) →
        unstyled (terminal_of Coloured (reported_by change reporting log))
        ≡ terminal_of Plain (reported_by change reporting log) }
    ensures lines { (change : Option GatedChange) (reporting : Reporting) (log : Data) →
        IsTextOfLines (length (take most_shown (hits_among (reported_by change reporting log))))
        (flat_map text_line (take most_shown (hits_among (reported_by change reporting log)))) }
    ensures counted { (change : Option GatedChange) (reporting : Reporting) (log : Data) →
        length (take most_shown (hits_among (reported_by change reporting log)))
        + (length (hits_among (reported_by change reporting log)) - most_shown)
        ≡ hits_by change reporting.policy (runs_of log) }
{}

/// Each line of the report for GitHub Actions begins with one of its three commands, and there is one line per
/// shown result: no log adds a command. Its first lines are those of the hits.
#[tactic(auto, using(crate::proofs::GithubApart::commands_begin, crate::proofs::GithubApart::lines_end, crate::proofs::GithubApart::hit_lines, crate::proofs::GithubApart::hits_first))]
pub fn github_lines_begin_with_commands()
    ensures commands { (change : Option GatedChange) (reporting : Reporting) (log : Data) →
        are_commands true (github_of (reported_by change reporting log)) ≡ true }
    ensures lines { (change : Option GatedChange) (reporting : Reporting) (log : Data) →
        count_by (λ b. b == 10) (github_of (reported_by change reporting log))
        ≡ length (reported_by change reporting log) }
    ensures hits { (change : Option GatedChange) (reporting : Reporting) (log : Data) →
        count_by (λ b. b == 10)
        (flat_map github_line (hits_among (reported_by change reporting log)))
        ≡ hits_by change reporting.policy (runs_of log) }
    ensures first { (change : Option GatedChange) (reporting : Reporting) (log : Data) →
        github_of (reported_by change reporting log)
        ≡ flat_map github_line (hits_among (reported_by change reporting log))
        ++ flat_map github_line (others_among (reported_by change reporting log)) }
{}

/// The report for Azure Pipelines has one line per shown result. Each begins with the command
/// `##vso[task.logissue type=`, has no other two adjacent `#` and no control character. A reader finds as many
/// properties as its result has: no log adds a command or a property. Its first lines are those of the hits.
pub fn azure_lines_are_commands()
    ensures lines { (change : Option GatedChange) (reporting : Reporting) (log : Data) →
        AreIssues (length (reported_by change reporting log))
        (azure_of (reported_by change reporting log)) }
    ensures properties { (change : Option GatedChange) (reporting : Reporting) (log : Data) →
        AllByRecursion (λ f. properties_read (azure_line f) ≡ properties_of f)
        (listed (reported_by change reporting log)) }
    ensures hits { (change : Option GatedChange) (reporting : Reporting) (log : Data) →
        AreIssues (hits_by change reporting.policy (runs_of log))
        (flat_map azure_line (hits_among (reported_by change reporting log))) }
    ensures first { (change : Option GatedChange) (reporting : Reporting) (log : Data) →
        azure_of (reported_by change reporting log)
        ≡ flat_map azure_line (hits_among (reported_by change reporting log))
        ++ flat_map azure_line (others_among (reported_by change reporting log)) }
{}

/// A string in a property of a logging command contains no `;` and no `]`, so it ends neither the property nor the
/// command.
pub fn azure_properties_hold_no_end()
    ensures { (text : List ℕ) → list_all is_within_property (escaped IssueProperty text) ≡ true }
{}
