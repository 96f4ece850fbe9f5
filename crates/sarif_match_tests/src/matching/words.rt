//! Results in few words. A result is written as its parts with `+` between them, for example `a.c+f/v1:x+@3`. A list is
//! written as its results with `, ` between them, or as `none`. The parts:
//!
//! | part | what it means |
//! |---|---|
//! | `a.c` | its URI |
//! | `f/v1:x` | its fingerprint `f/v1` has the value `x` |
//! | `p=1` | its partial fingerprint `p` has the value `1` |
//! | `'x` | its snippet is `x` |
//! | `@3` | its first line is 3 |
//! | `#7`, `#G` | its GUID is 7, or one that isn't small |
//! | `!n` | its message is `n` instead of `m` |
//! | `%R2` | its rule is `R2` instead of `R1` |
//! | `$other` | its tool is `other` instead of `lint` |
//! | `?` | its kind is `review` instead of `fail` |
//! | `-` | nothing |
use sarif_model::{Kind, Level, Message, Place, Record, Region, Sequence, Text};
use std::alloc::{AllocError, Global};

/// The GUID `#G`.
const GUID: u128 = 0x0f14d0ab96054a62a9e45ed26688389b;

/// Returns the result without parts.
pub fn plain(alloc: Global) -> Result<Record, AllocError> {
    let text = Some(Text::copy_of(alloc, "m")?);
    Ok(Record {
        tool: Text::copy_of(alloc, "lint")?,
        rule_id: Text::copy_of(alloc, "R1")?,
        kind: Kind::Fail,
        level: Level::Warning,
        message: Message {
            text,
            id: None,
            args: Sequence::new(alloc),
        },
        place: Place {
            uri: None,
            base: None,
        },
        guid: None,
        full: Sequence::new(alloc),
        partial: Sequence::new(alloc),
        held: Sequence::new(alloc),
        region: None,
        snippet: None,
        admitted: Sequence::new(alloc),
    })
}

fn pair_of(alloc: Global, name: &str, value: &str) -> Result<(Text, Text), AllocError> {
    let name = Text::copy_of(alloc, name)?;
    Ok((name, Text::copy_of(alloc, value)?))
}

/// The region that begins in this line.
fn region_of(line: &str) -> Region {
    Region {
        start_line: line.parse::<u32>().unwrap_or(0),
        start_column: None,
        end_line: None,
        end_column: None,
    }
}

/// Adds a part that is a fingerprint, a URI or `-`.
fn add_name(alloc: Global, made: &mut Record, part: &str) -> Result<(), AllocError> {
    if let Some((name, value)) = part.split_once(':') {
        made.full.push(pair_of(alloc, name, value)?)?;
    } else if let Some((name, value)) = part.split_once('=') {
        made.partial.push(pair_of(alloc, name, value)?)?;
    } else if part != "-" {
        made.place.uri = Some(Text::copy_of(alloc, part)?);
    }
    Ok(())
}

/// Adds a part.
pub fn add(alloc: Global, made: &mut Record, part: &str) -> Result<(), AllocError> {
    let mut rest = part.chars();
    match rest.next() {
        Some('\'') => made.snippet = Some(Text::copy_of(alloc, rest.as_str())?),
        Some('@') => made.region = Some(region_of(rest.as_str())),
        Some('#') => made.guid = Some(rest.as_str().parse::<u128>().unwrap_or(GUID)),
        Some('!') => made.message.text = Some(Text::copy_of(alloc, rest.as_str())?),
        Some('%') => made.rule_id = Text::copy_of(alloc, rest.as_str())?,
        Some('$') => made.tool = Text::copy_of(alloc, rest.as_str())?,
        Some('?') => made.kind = Kind::Review,
        _ => add_name(alloc, made, part)?,
    }
    Ok(())
}

/// Returns the result with these parts.
pub fn result_of(alloc: Global, parts: &str) -> Result<Record, AllocError> {
    let mut made = plain(alloc)?;
    for part in parts.split('+') {
        add(alloc, &mut made, part)?;
    }
    Ok(made)
}

/// Returns the results of a list.
pub fn results_of(alloc: Global, list: &str) -> Result<Vec<Record>, AllocError> {
    let mut made = Vec::new(alloc);
    if list != "none" {
        for parts in list.split(", ") {
            made.push(result_of(alloc, parts)?)?;
        }
    }
    Ok(made)
}
