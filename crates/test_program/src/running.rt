//! Runs of the program over strings instead of files and streams.
ghost use Rattle.std.specs.Prelude.{◌<◌, ◌^◌};
ghost use Rattle.std.specs.List.{All};
ghost use Rattle.sarif_streams.specs.Counted.{failed_calls};
ghost use Rattle.sarif_streams.specs.Room.{HaveRoom};

use sarif_program::{Complaints, Writers, run_request, seed_of};
use sarif_request::{Request, RequestedOutput, plain_words, read_words};
use sarif_streams::{Counted, Readers};
use std::alloc::{AllocError, Global};
use std::cell::RefCell;
use std::hash::RandomState;
use std::io::{self, Read, Write};
use std::random::RandomSource;
use std::sync::Wait;
use std::thread::Threads;

/// A system without random bytes.
#[derive(Drop)]
struct NoBytes;

impl RandomSource for NoBytes {
    fn fill_bytes(&self, _buf: &mut [u8]) -> io::Result<()> {
        Err(io::ErrorKind::Other.into())
    }
}

/// The seed of a run that has no random bytes.
fn seed() -> Result<RandomState, AllocError> {
    seed_of(&NoBytes).map_err(|_| AllocError)
}

/// Returns the request of a run without arguments.
pub fn plain_request(alloc: Global) -> Result<Request, AllocError> {
    let words = plain_words(alloc)?;
    read_words(alloc, seed()?, words.as_slice()).map_err(|_| AllocError)
}

/// A reader that returns at most `piece` of its bytes per read, and fails once it was read `good` times.
#[derive(Drop)]
pub struct GivenBytes {
    bytes: &'static [u8],
    piece: usize,
    good: u32,
}

impl GivenBytes {
    /// A reader of a string, which returns ten bytes per read and does not fail within 1,000 reads.
    pub fn whole(text: &'static str) -> GivenBytes {
        GivenBytes {
            bytes: text.as_bytes(),
            piece: 10,
            good: 1000,
        }
    }

    /// A reader of a string, which returns ten bytes per read and fails after `good` reads.
    pub fn failing_over(text: &'static str, good: u32) -> GivenBytes {
        GivenBytes {
            bytes: text.as_bytes(),
            piece: 10,
            good,
        }
    }
}

impl Read for GivenBytes {
    fn read(&mut self, buf: &mut [u8]) -> io::Result<usize> {
        if self.good == 0 {
            return Err(io::ErrorKind::Interrupted.into());
        }
        self.good -= 1;
        let count = self.bytes.len().min(buf.len()).min(self.piece);
        buf[..count].copy_from_slice(&self.bytes[..count]);
        self.bytes = &self.bytes[count..];
        Ok(count)
    }
}

/// How many bytes the writers of a run accept.
#[derive(Clone, Copy)]
pub struct Rooms {
    /// The most bytes that each writer accepts per write.
    pub piece: usize,
    /// How many bytes of the merged log its writer accepts in all.
    pub out: usize,
    /// How many bytes of the summary its writer accepts in all.
    pub say: usize,
    /// How many bytes of messages their writer accepts in all.
    pub complain: usize,
}

/// Enough room for every output of these tests.
pub const AMPLE: Rooms = Rooms {
    piece: 10_000,
    out: 10_000,
    say: 10_000,
    complain: 10_000,
};

/// A writer that accepts at most `piece` bytes per write and `room` bytes in all, and then fails.
#[derive(Drop)]
pub struct Narrow<'a> {
    taken: &'a RefCell<Vec<u8>>,
    piece: usize,
    room: usize,
}

impl<'a> Narrow<'a> {
    /// A writer that adds the bytes that it accepts to `taken`.
    pub fn new(taken: &'a RefCell<Vec<u8>>, piece: usize, room: usize) -> Narrow<'a> {
        Narrow { taken, piece, room }
    }
}

impl Write for Narrow<'_> {
    fn write(&mut self, buf: &[u8]) -> io::Result<usize> {
        let count = buf.len().min(self.piece).min(self.room);
        if count == 0 && !buf.is_empty() {
            return Err(io::ErrorKind::Other.into());
        }
        match self.taken.try_borrow_mut() {
            Ok(mut taken) => taken.extend_from_slice(&buf[..count])?,
            Err(_) => return Err(io::ErrorKind::Other.into()),
        }
        self.room -= count;
        Ok(count)
    }

    fn flush(&mut self) -> io::Result<()> {
        Ok(())
    }
}

/// The exit status of a run, and the bytes that its writers accepted.
#[derive(Drop)]
pub struct Ended {
    /// The exit status.
    pub status: u8,
    /// The bytes of the merged log.
    pub out: Vec<u8>,
    /// The bytes of the summary.
    pub say: Vec<u8>,
    /// The bytes of messages.
    pub complain: Vec<u8>,
}

/// What a run does, and how much its writers accept.
#[derive(Clone, Copy)]
pub struct Setting<'r> {
    /// The request.
    pub request: &'r Request,
    /// How many bytes the writers accept.
    pub rooms: Rooms,
    /// Whether the caller writes the error messages, so that the run writes none.
    pub is_explained: bool,
}

/// Runs a request over these sources. Besides the merged log, the run writes an output to each of these reports.
pub fn run_over<'a, T: Threads + Wait + Sync>(
    threads: &T,
    alloc: Global,
    setting: &Setting<'_>,
    readers: &mut Readers<GivenBytes>,
    reports: Vec<RequestedOutput<Counted<Narrow<'a>>>>,
) -> Result<Ended, AllocError>
    requires readers { HaveRoom readers.old }
    requires reports { All (λ wanted. failed_calls wanted.to < 2 ^ 63) reports.items }
{
    let rooms = setting.rooms;
    let out = RefCell::new(Vec::new(alloc));
    let say = RefCell::new(Vec::new(alloc));
    let complain = RefCell::new(Vec::new(alloc));
    let mut writers: Writers<Narrow<'_>, Narrow<'_>, Narrow<'a>> = Writers {
        out: Counted::new(Narrow::new(&out, rooms.piece, rooms.out)),
        reports,
        say: Counted::new(Narrow::new(&say, rooms.piece, rooms.say)),
    };
    let told = Narrow::new(&complain, rooms.piece, rooms.complain);
    let mut complaints = if setting.is_explained {
        Complaints::with_explanations(told)
    } else {
        Complaints::new(told)
    };
    let status = run_request(
        threads,
        alloc,
        setting.request,
        readers,
        &mut writers,
        &mut complaints,
    );
    drop(writers);
    drop(complaints);
    Ok(Ended {
        status: status.code(),
        out: out.into_inner(),
        say: say.into_inner(),
        complain: complain.into_inner(),
    })
}
