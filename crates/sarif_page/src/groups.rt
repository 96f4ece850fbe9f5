//! The rows of each file in groups.
ghost use Rattle.std.specs.Prelude.{◌≡◌, ◌++◌, IfOk, OnOk, take, drop};
ghost use Rattle.sarif_page.specs.Internal.ByFile.{findings_in, rows_at};
ghost use Rattle.sarif_page.specs.Internal.Groups.{groups_by, groups_in};
ghost use Rattle.sarif_page.specs.HtmlRows as said;

use crate::by_file::Grouped;
use sarif_findings::Finding;
use std::alloc::{AllocError, Global};
use std::hash::RandomState;

/// The maximum number of rows of a group.
pub(crate) const MOST_GROUPED: usize = 50;

/// Some rows of a file.
#[derive(Clone, Copy)]
pub(crate) struct Group<'g, 'f> {
    /// The number of the first of them among the file's rows, from 1.
    pub(crate) first: usize,
    /// The number of the last of them among the file's rows.
    pub(crate) last: usize,
    /// The number of the file's rows.
    pub(crate) all: usize,
    /// The rows.
    pub(crate) rows: &'g [&'f Finding],
}

/// The first of these rows, as many as a group has.
fn first_rows<'g, 'f>(rows: &'g [&'f Finding]) -> &'g [&'f Finding]
    ensures { result.now ≡ take said.most_grouped rows.now }
{
    if rows.len() > MOST_GROUPED {
        &rows[..MOST_GROUPED]
    } else {
        rows
    }
}

/// The rows after the first ones.
fn later_rows<'g, 'f>(rows: &'g [&'f Finding]) -> &'g [&'f Finding]
    ensures { result.now ≡ drop said.most_grouped rows.now }
{
    if rows.len() > MOST_GROUPED {
        &rows[MOST_GROUPED..]
    } else {
        &rows[..0]
    }
}

/// Adds the groups of the rows of a file.
fn push_file_groups<'g, 'f>(
    groups: &mut Vec<Group<'g, 'f>>,
    rows: &'g [&'f Finding],
) -> Result<(), AllocError>
    ensures { OnOk result (groups_in groups.new.items
        ≡ groups_in groups.old.items ++ said.file_groups (findings_in rows.now)) }
{
    let all = rows.len();
    let mut before = 0;
    let mut rest = rows;
    while before < all {
        let first = first_rows(rest);
        let later = later_rows(rest);
        let count = first.len();
        groups.push(Group {
            first: before + 1,
            last: before + count,
            all,
            rows: first,
        })?;
        before += count;
        rest = later;
    }
    Ok(())
}

/// Adds the groups of a file.
fn push_groups_of<'g, 'f>(
    groups: &mut Vec<Group<'g, 'f>>,
    grouped: &'g Grouped<'f>,
    file: &str,
) -> Result<(), AllocError>
    ensures { OnOk result (groups_in groups.new.items ≡ groups_in groups.old.items
        ++ said.file_groups (rows_at grouped.now.groups file.now)) }
{
    let Some(rows) = grouped.groups.get(file) else {
        return Ok(());
    };
    push_file_groups(groups, rows)
}

/// The groups of all files.
pub(crate) fn groups_of<'g, 'f>(
    alloc: Global,
    grouped: &'g Grouped<'f>,
) -> Result<Vec<Group<'g, 'f>>, AllocError>
    ensures { IfOk result (λ groups. groups_in groups.items ≡ groups_by grouped.now) }
{
    let mut groups = Vec::new(alloc);
    for file in &grouped.files {
        push_groups_of(&mut groups, grouped, file)?;
    }
    Ok(groups)
}

/// These rows by file, so that their groups can be made.
pub(crate) fn rows_by_file<'f>(
    alloc: Global,
    seed: RandomState,
    rows: &[&'f Finding],
) -> Result<Grouped<'f>, AllocError>
    ensures { IfOk result
        (λ grouped. groups_by grouped ≡ said.groups_of (findings_in rows.now)) }
{
    let grouped = Grouped::of(alloc, seed, rows, rows.len())?;
    Ok(grouped)
}
