//! The request that is served if a standard stream is a terminal.
ghost use Rattle.std.specs.Prelude.{◌≡◌};
ghost use Rattle.sarif_request.specs.Terminal as said;

use crate::clash::is_among;
use crate::request::Request;
use sarif_shown::Screen;
use sarif_streams::STANDARD;

/// What the program knows about its standard streams.
#[derive(Clone, Copy, Debug, PartialEq, Eq)]
pub struct TerminalFacts {
    /// Whether standard output is a terminal.
    pub out: bool,
    /// Whether standard error is a terminal.
    pub err: bool,
    /// Whether terminals are to have no colours.
    pub plain: bool,
}

impl TerminalFacts {
    /// Neither is a terminal.
    pub const NONE: TerminalFacts = TerminalFacts {
        out: false,
        err: false,
        plain: false,
    };
}

/// Returns whether one of the outputs is standard output.
fn uses_output(request: &Request) -> bool
    ensures { result ≡ said.uses_output request.now }
{
    request.out.as_str() == STANDARD || is_among(STANDARD, request.reports.as_slice())
}

/// Returns how standard output shows the hits, if it is a terminal and no output uses it.
fn screen_of(facts: TerminalFacts, request: &Request) -> Option<Screen>
    ensures { result ≡ said.screen_of facts request.now }
{
    if !facts.out || uses_output(request) {
        None
    } else if facts.plain {
        Some(Screen::Plain)
    } else {
        Some(Screen::Coloured)
    }
}

/// Returns the request that is served for this one. If standard error is a terminal, errors are explained, and it says
/// what happened. If standard output is a terminal and no output uses it, it shows the hits.
pub fn at_terminal(facts: TerminalFacts, request: Request) -> Request
    ensures { result ≡ said.at_terminal facts «request» }
{
    let screen = screen_of(facts, &request);
    let mut served = request;
    served.explain = served.explain || facts.err;
    served.screen = screen;
    served
}
