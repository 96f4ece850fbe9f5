//! Findings by file: those of each file together, files in the order of first appearance.
ghost use Rattle.std.specs.Prelude.{◌≡◌, ◌≤◌, ◌++◌, ◌∷◌, ℕ, List, [], Some, IfOk, OnOk, bytes_eq};
ghost use Rattle.std.specs.Prelude.{map, take, length, vec_len, if◌then◌else◌};
ghost use Rattle.std.specs.Option.{option_map, is_some};
ghost use Rattle.sarif_findings.specs.declared.finding.Finding.{Finding as Told};
ghost use Rattle.sarif_page.specs.Internal.ByFile as said;
ghost use Rattle.sarif_page.specs.HtmlRows.{by_file, file_of};

use indexmap::IndexMap;
use sarif_findings::Finding;
use std::alloc::{AllocError, Global};
use std::hash::RandomState;

/// Findings by file.
pub(crate) type Groups<'f> = IndexMap<&'f str, Vec<&'f Finding>, RandomState>;

/// Some files in the order of first appearance, and the findings of each of them in order.
#[derive(Drop)]
pub(crate) struct Grouped<'f> {
    pub(crate) files: Vec<&'f str>,
    pub(crate) groups: Groups<'f>,
}

/// The path of a finding, or the empty string if there is no path.
fn file_of(finding: &Finding) -> &str
    ensures { result.now ≡ file_of finding.now }
{
    match &finding.path {
        Some(path) => path.as_str(),
        None => "",
    }
}

/// Adds a finding to the group of its file. Returns whether there is this group.
fn add_to_group<'f>(
    groups: &mut Groups<'f>,
    file: &'f str,
    finding: &'f Finding,
) -> Result<bool, AllocError>
    ensures found { IfOk result (λ found. found ≡ is_some (said.group_at groups.old file.now)) }
    ensures groups { OnOk result ((other : List ℕ) → said.group_at groups.new other
        ≡ (if bytes_eq file.now other
        then option_map (λ group. group ++ finding.now ∷ []) (said.group_at groups.old other)
        else said.group_at groups.old other)) }
{
    let Some(group) = groups.get_mut(file) else {
        return Ok(false);
    };
    group.push(finding)?;
    Ok(true)
}

/// Adds a group with one finding, at a file that has no group.
fn add_group<'f>(
    alloc: Global,
    groups: &mut Groups<'f>,
    file: &'f str,
    finding: &'f Finding,
) -> Result<(), AllocError>
    ensures { OnOk result ((other : List ℕ) → said.group_at groups.new other
        ≡ (if bytes_eq file.now other
        then Some (finding.now ∷ [])
        else said.group_at groups.old other)) }
{
    let group = vec![in alloc; finding]?;
    groups.insert(file, group)?;
    Ok(())
}

impl<'f> Grouped<'f> {
    /// Adds the next finding, unless it is in a file more than `most`.
    fn add(&mut self, alloc: Global, finding: &'f Finding, most: usize) -> Result<(), AllocError>
        ensures { OnOk result ((before : List Told) → said.IsGrouped most before self.old
            → said.IsGrouped most (before ++ finding.now ∷ []) self.new) }
    {
        let file = file_of(finding);
        if add_to_group(&mut self.groups, file, finding)? {
            return Ok(());
        }
        if self.files.len() < most {
            self.files.push(file)?;
            add_group(alloc, &mut self.groups, file, finding)?;
        }
        Ok(())
    }

    /// Groups these findings by the first files, `most` of them or fewer.
    pub(crate) fn of(
        alloc: Global,
        seed: RandomState,
        findings: &[&'f Finding],
        most: usize,
    ) -> Result<Grouped<'f>, AllocError>
        ensures { IfOk result (said.IsGrouped most (said.findings_in findings.now)) }
    {
        let mut grouped = Grouped {
            files: Vec::new(alloc),
            groups: IndexMap::with_hasher(alloc, seed),
        };
        for finding in findings {
            grouped.add(alloc, finding, most)?;
        }
        Ok(grouped)
    }
}

/// Adds the first of these findings, up to `most` rows.
fn push_first<'f>(
    rows: &mut Vec<&'f Finding>,
    group: &[&'f Finding],
    most: usize,
) -> Result<(), AllocError>
    requires { vec_len rows.old ≤ most }
    ensures rows { OnOk result (said.findings_in rows.new.items
        ≡ take most (said.findings_in rows.old.items ++ said.findings_in group.now)) }
    ensures room { OnOk result (vec_len rows.new ≤ most) }
{
    for finding in group {
        if rows.len() == most {
            return Ok(());
        }
        rows.push(*finding)?;
    }
    Ok(())
}

/// Adds the findings of a file, up to `most` rows.
fn push_group<'f>(
    rows: &mut Vec<&'f Finding>,
    groups: &Groups<'f>,
    file: &str,
    most: usize,
) -> Result<(), AllocError>
    requires { vec_len rows.old ≤ most }
    ensures rows { OnOk result (said.findings_in rows.new.items
        ≡ take most (said.findings_in rows.old.items ++ said.rows_at groups.now file.now)) }
    ensures room { OnOk result (vec_len rows.new ≤ most) }
{
    let Some(group) = groups.get(file) else {
        return Ok(());
    };
    push_first(rows, group, most)?;
    Ok(())
}

/// The first findings of these groups, file by file, `most` of them or fewer.
fn rows_in<'f>(
    alloc: Global,
    grouped: &Grouped<'f>,
    most: usize,
) -> Result<Vec<&'f Finding>, AllocError>
    ensures { IfOk result
        (λ rows. said.findings_in rows.items ≡ take most (said.all_rows grouped.now)) }
{
    let mut rows = Vec::new(alloc);
    for file in &grouped.files {
        push_group(&mut rows, &grouped.groups, file, most)?;
    }
    Ok(rows)
}

/// Returns the first of these findings by file, at most `most` of them. Returns `AllocError` if memory for them runs
/// out.
pub(crate) fn by_file<'f>(
    alloc: Global,
    seed: RandomState,
    findings: &[&'f Finding],
    most: usize,
) -> Result<Vec<&'f Finding>, AllocError>
    ensures { IfOk result (λ rows. said.findings_in rows.items
        ≡ take most (by_file (said.findings_in findings.now))) }
{
    let grouped = Grouped::of(alloc, seed, findings, most)?;
    let rows = rows_in(alloc, &grouped, most)?;
    Ok(rows)
}
