//! The strings of each variant, there and back, and white space.
use sarif_model::{Kind, Level, State, Status, is_white_space};
use std::process::Abort;

fn expect_level(rt: &impl Abort, level: Level, text: &str) {
    assert_eq!(rt; level.name(), text);
    assert_eq!(rt; Level::from_name(text), Some(level), "{text}");
}

fn expect_kind(rt: &impl Abort, kind: Kind, text: &str) {
    assert_eq!(rt; kind.name(), text);
    assert_eq!(rt; Kind::from_name(text), Some(kind), "{text}");
}

fn expect_state(rt: &impl Abort, state: State, text: &str) {
    assert_eq!(rt; state.name(), text);
    assert_eq!(rt; State::from_name(text), Some(state), "{text}");
}

fn expect_status(rt: &impl Abort, status: Status, text: &str) {
    assert_eq!(rt; status.name(), text);
    assert_eq!(rt; Status::from_name(text), Some(status), "{text}");
}

#[test]
fn each_variant_has_its_text(rt: HostRuntime) {
    for (level, text) in [
        (Level::NoLevel, "none"),
        (Level::Note, "note"),
        (Level::Warning, "warning"),
        (Level::Error, "error"),
    ] {
        expect_level(&rt, level, text);
    }
    for (kind, text) in [
        (Kind::Pass, "pass"),
        (Kind::Undecided, "open"),
        (Kind::Informational, "informational"),
        (Kind::NotApplicable, "notApplicable"),
        (Kind::Review, "review"),
        (Kind::Fail, "fail"),
    ] {
        expect_kind(&rt, kind, text);
    }
    for (state, text) in [
        (State::New, "new"),
        (State::Unchanged, "unchanged"),
        (State::Updated, "updated"),
        (State::Absent, "absent"),
    ] {
        expect_state(&rt, state, text);
    }
    for (status, text) in [
        (Status::Accepted, "accepted"),
        (Status::UnderReview, "underReview"),
        (Status::Rejected, "rejected"),
    ] {
        expect_status(&rt, status, text);
    }
}

#[test]
fn no_other_text_is_a_variant(rt: HostRuntime) {
    for text in ["", "Note", "noLevel", "high"] {
        assert_eq!(rt; Level::from_name(text), None, "{text}");
    }
    for text in ["", "Open", "undecided", "notapplicable"] {
        assert_eq!(rt; Kind::from_name(text), None, "{text}");
    }
    for text in ["", "New", "changed", "absent "] {
        assert_eq!(rt; State::from_name(text), None, "{text}");
    }
    for text in ["", "Accepted", "underreview", "new"] {
        assert_eq!(rt; Status::from_name(text), None, "{text}");
    }
}

#[test]
fn white_space_is_five_bytes(rt: HostRuntime) {
    for byte in b" \t\n\x0c\r" {
        assert!(rt; is_white_space(*byte));
    }
    for byte in b"a0\x0b\x00\xa0" {
        assert!(rt; !is_white_space(*byte));
    }
}
