//! The findings of results, computed by hand.
use sarif_copies::{Apart, findings, set_apart};
use sarif_model::{
    Kind, Level, Message, Place, Record, Region, Sequence, Status, Text, copy_if_there,
};
use std::alloc::{AllocError, Global};
use std::hash::RandomState;
use std::test::Fail;

/// A result: its file, its line, its snippet and the value of its fingerprint.
#[derive(Clone, Copy)]
struct Sketch {
    uri: &'static str,
    line: Option<u32>,
    snippet: Option<&'static str>,
    full: Option<&'static str>,
}

/// A result in a header.
const H: Sketch = Sketch {
    uri: "h.c",
    line: Some(314),
    snippet: None,
    full: None,
};

/// A result in another file.
const B: Sketch = Sketch {
    uri: "b.c",
    line: Some(1),
    snippet: None,
    full: None,
};

fn region_at(line: Option<u32>) -> Option<Region> {
    match line {
        Some(line) => Some(Region {
            start_line: line,
            start_column: None,
            end_line: None,
            end_column: None,
        }),
        None => None,
    }
}

fn record(alloc: Global, sketch: &Sketch) -> Result<Record, AllocError> {
    let mut full = Sequence::new(alloc);
    if let Some(value) = sketch.full {
        full.push((Text::copy_of(alloc, "f/v1")?, Text::copy_of(alloc, value)?))?;
    }
    Ok(Record {
        tool: Text::copy_of(alloc, "lint")?,
        rule_id: Text::copy_of(alloc, "R1")?,
        kind: Kind::Fail,
        level: Level::Warning,
        message: Message {
            text: Some(Text::copy_of(alloc, "m")?),
            id: None,
            args: Sequence::new(alloc),
        },
        place: Place {
            uri: Some(Text::copy_of(alloc, sketch.uri)?),
            base: None,
        },
        guid: None,
        full,
        partial: Sequence::new(alloc),
        held: Sequence::new(alloc),
        region: region_at(sketch.line),
        snippet: copy_if_there(alloc, sketch.snippet)?,
        admitted: Sequence::new(alloc),
    })
}

/// The findings of few results.
fn found(alloc: Global, seed: RandomState, records: &[Record]) -> Result<Vec<u32>, Fail> {
    if records.len() > 1000 {
        return Err(Fail::new("too many results"));
    }
    Ok(findings(alloc, seed, records)?)
}

fn found_for(alloc: Global, seed: RandomState, sketches: &[Sketch]) -> Result<Vec<u32>, Fail> {
    let mut records = Vec::new(alloc);
    for sketch in sketches {
        records.push(record(alloc, sketch)?)?;
    }
    found(alloc, seed, records.as_slice())
}

#[test]
fn a_header_that_is_seen_again_has_one_finding(rt: HostRuntime) -> Result<(), Fail> {
    let seed = RandomState::new(&rt)?;
    for (sketches, wanted) in [
        (&[H, H, B][..], &[0, 0, 2][..]),
        (&[H, H, B, H][..], &[0, 0, 2, 0][..]),
        (&[H, H, H][..], &[0, 0, 0][..]),
        (&[B, H, B, H, B][..], &[0, 1, 0, 1, 0][..]),
        (&[][..], &[][..]),
    ] {
        let firsts = found_for(rt.alloc(), seed, sketches)?;
        assert_eq!(rt; firsts.as_slice(), wanted);
    }
    Ok(())
}

#[test]
fn results_that_differ_or_have_no_line_are_no_copies(rt: HostRuntime) -> Result<(), Fail> {
    let seed = RandomState::new(&rt)?;
    let sketches = [
        H,
        Sketch {
            snippet: Some("x"),
            ..H
        },
        Sketch {
            line: Some(315),
            ..H
        },
        Sketch {
            full: Some("x"),
            ..H
        },
        Sketch { line: None, ..H },
        Sketch { line: None, ..H },
    ];
    let firsts = found_for(rt.alloc(), seed, &sketches)?;
    assert_eq!(rt; firsts.as_slice(), [0, 1, 2, 3, 4, 5].as_slice());
    Ok(())
}

/// How many records `changed` knows.
const CHANGES: u32 = 17;

/// The record of the result in the header, with one field changed.
fn changed(alloc: Global, change: u32) -> Result<Record, AllocError> {
    let mut made = record(alloc, &H)?;
    let other = Text::copy_of(alloc, "other")?;
    match change {
        0 => made.tool = other,
        1 => made.rule_id = other,
        2 => made.kind = Kind::Review,
        3 => made.level = Level::Error,
        4 => made.message.id = Some(other),
        5 => made.message.args.push(other)?,
        6 => made.place.uri = Some(other),
        7 => made.place.base = Some(other),
        8 => made.guid = Some(0),
        9 => made.full.push((other.clone()?, other))?,
        10 => made.partial.push((other.clone()?, other))?,
        11 => made.held.push(Status::Accepted)?,
        12 => made.held.push(Status::Rejected)?,
        13 => made.snippet = Some(other),
        14 => made.region = region_at(Some(1)),
        15 => made.admitted.push(0)?,
        _ => made.place.uri = None,
    }
    Ok(made)
}

#[test]
fn each_field_tells_results_apart(rt: HostRuntime) -> Result<(), Fail> {
    let alloc = rt.alloc();
    let seed = RandomState::new(&rt)?;
    let mut records = Vec::new(alloc);
    let mut wanted = Vec::new(alloc);
    for change in 0..CHANGES {
        records.push(changed(alloc, change)?)?;
        wanted.push(change)?;
    }
    for change in 0..CHANGES {
        records.push(changed(alloc, change)?)?;
        let copied = change + 1 < CHANGES;
        wanted.push(if copied { change } else { 2 * CHANGES - 1 })?;
    }
    let firsts = found(alloc, seed, records.as_slice())?;
    assert_eq!(rt; firsts.as_slice(), wanted.as_slice());
    Ok(())
}

/// Few results set apart.
fn apart(alloc: Global, seed: RandomState, records: &[Record]) -> Result<Apart, Fail> {
    let mut list = Vec::new(alloc);
    for found in records {
        list.push(found)?;
    }
    if list.len() > 1000 {
        return Err(Fail::new("too many results"));
    }
    Ok(set_apart(alloc, seed, list.as_slice())?)
}

#[test]
fn findings_are_counted_alone(rt: HostRuntime) -> Result<(), Fail> {
    let seed = RandomState::new(&rt)?;
    for (sketches, copies, numbers) in [
        (&[H, H, B][..], &[false, true, false][..], &[0, 0, 1][..]),
        (
            &[H, H, B, H][..],
            &[false, true, false, true][..],
            &[0, 0, 1, 0][..],
        ),
        (
            &[B, H, B, H][..],
            &[false, false, true, true][..],
            &[0, 1, 0, 1][..],
        ),
        (&[][..], &[][..], &[][..]),
    ] {
        let mut records = Vec::new(rt.alloc());
        for sketch in sketches {
            records.push(record(rt.alloc(), sketch)?)?;
        }
        let found = apart(rt.alloc(), seed, records.as_slice())?;
        assert_eq!(rt; found.copies.as_slice(), copies);
        assert_eq!(rt; found.numbers.as_slice(), numbers);
    }
    Ok(())
}
