//! What workers send: a work's runs, piece by piece.
ghost use Rattle.std.specs.Prelude.{◌≡◌};
ghost use Rattle.sarif_collect.specs.Piece.{run_in};

/// A part of a run. T is what an item holds, C what the end of a run holds.
#[derive(Debug, Drop, PartialEq, Eq)]
pub enum Piece<T, C> {
    /// One item of the run, by its number in the run.
    Item { run: u32, seq: u32, body: T },
    /// The end of the run, with the number of its items.
    Close { run: u32, count: u32, tail: C },
}

impl<T, C> Piece<T, C> {
    /// The run that the piece is of.
    pub fn run(&self) -> u32
        ensures { result ≡ run_in self.now }
    {
        match self {
            Piece::Item { run, .. } | Piece::Close { run, .. } => *run,
        }
    }
}

/// The content of a mailbox.
#[derive(Debug, Drop, PartialEq, Eq)]
pub enum Parcel<T, C> {
    /// A piece for the collector.
    Carry(Piece<T, C>),
    /// The sender's last parcel. It is short where the sender found no memory for all of its work.
    End { short: bool },
}

/// Why arrivals are not lawful.
#[derive(Clone, Copy, Debug, PartialEq, Eq)]
pub enum Why {
    /// The run isn't one of these runs.
    Stranger,
    /// The run has its close.
    AfterClose,
    /// The run has an item with this number.
    Double,
    /// The run's items are not exactly those from 0 up to the close's count.
    Short,
    /// There was no memory.
    OutOfMemory,
    /// All pieces were accepted, and this run, the first such one, has no close.
    Unclosed(u32),
}

/// A rejected piece.
#[derive(Debug, Drop, PartialEq, Eq)]
pub struct Refused<T, C> {
    /// The piece, as it was passed.
    pub piece: Piece<T, C>,
    /// The first reason against it.
    pub why: Why,
}
