//! The program's exit status.
ghost use Rattle.std.specs.Prelude.{◌≡◌};
ghost use Rattle.sarif_model.specs.MergeFault.{exit_status};
ghost use Rattle.sarif_program.specs.Status.{verdict_status};
ghost use Rattle.sarif_request.specs.Words.{words_status};

use sarif_counts::Verdict;
use sarif_model::Cause;
use sarif_request::WordsFault;
use std::marker::Model;

/// The exit status of a run: 0 if the gate passes, 1 if it fails, 2 if arguments or a merge are rejected, 3 if a read or
/// a write failed. Contracts see the number.
#[derive(Debug, Drop)]
pub struct ExitStatus {
    code: u8,
}

impl Model for ExitStatus {
    ghost use Rattle.std.specs.Prelude.{ℕ};

    ghost Value = { ℕ };

    ghost view = { λ s. s.code };
}

impl ExitStatus {
    /// The status after arguments without a request: 0 for the help or the version, otherwise 2.
    pub fn of_words(fault: &WordsFault) -> ExitStatus
        ensures { result ≡ words_status fault.now }
    {
        ExitStatus {
            code: fault.status(),
        }
    }

    /// The status of a rejected merge: 3 if a read or a write failed, otherwise 2.
    pub fn of_cause(cause: Cause) -> ExitStatus
        ensures { result ≡ exit_status cause }
    {
        ExitStatus {
            code: cause.status(),
        }
    }

    /// The status of an accepted merge whose outputs were written.
    pub(crate) fn of_verdict(verdict: Verdict) -> ExitStatus
        ensures { result ≡ verdict_status verdict }
    {
        let code = match verdict {
            Verdict::Pass => 0,
            Verdict::Fail => 1,
        };
        ExitStatus { code }
    }

    /// The status if the arguments can't be read.
    pub fn for_unread_arguments() -> ExitStatus
        ensures { result ≡ 2 }
    {
        ExitStatus { code: 2 }
    }

    /// The status of an accepted merge one of whose outputs was not written.
    pub(crate) fn for_lost_output() -> ExitStatus
        ensures { result ≡ 3 }
    {
        ExitStatus { code: 3 }
    }

    /// The number with which the program exits.
    pub fn code(self) -> u8
        ensures { result ≡ self }
    {
        self.code
    }
}
