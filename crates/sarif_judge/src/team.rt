//! A team of workers, and how much may wait for the calling thread.
ghost use Rattle.std.specs.Prelude.{◌≡◌};
ghost use Rattle.sarif_judge.specs.Internal.Limits.{merge_room};

/// The room of a merge, for every number of workers.
const MERGE_ROOM: u32 = 256;

/// The workers that judge results, and the room of their mailbox.
#[derive(Clone, Copy, Debug)]
pub struct Team {
    /// How many worker threads there are.
    pub workers: u32,
    /// How many parcels of the workers wait at most for the calling thread.
    pub room: u32,
}

impl Team {
    /// This many workers, with the room of a merge.
    pub fn in_merge(workers: u32) -> Team
        ensures { result ≡ record { workers = workers; room = merge_room } }
    {
        Team {
            workers,
            room: MERGE_ROOM,
        }
    }
}
