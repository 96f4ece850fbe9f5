//! The work that workers do, and the observers that watch them.
ghost use Rattle.std.specs.Prelude.{◌≡◌, ◌≤◌, ◌<◌, ℕ, IfOk};
ghost use Rattle.sarif_dispatch.specs.Limits.{most_runs};

use std::alloc::{AllocError, Global};

/// Runs of numbered items, each with a tail at its end. An implementation states, for each run, how
/// many items it has, what they are, what its tail is, and which heads are heads of it.
pub trait Work {
    /// What a worker keeps of a run while it reads it.
    type Head: Send + Drop;

    /// What a worker makes of an item, and the collector gets.
    type Item: Send + Drop;

    /// The tail of a run, after its items.
    type Tail: Send + Drop;

    // How many runs there are.
    ghost run_count: { Self → ℕ };

    // How many items a run has.
    ghost count: { Self → ℕ → ℕ };

    // The item of a run with a number.
    ghost item: { Self → ℕ → ℕ → Self.Item };

    // The tail of a run.
    ghost end: { Self → ℕ → Self.Tail };

    // Says that a head is a head of the run with this number.
    ghost IsHeadOf: { Self → ℕ → Self.Head → Type 0 };

    /// The number of runs.
    fn runs(&self) -> u32
        ensures { result ≡ run_count self.now };

    /// A head of run `run`, numbered from 0. Returns `AllocError` if memory for it runs out.
    fn start(&self, alloc: Global, run: u32) -> Result<Self::Head, AllocError>
        requires { run < run_count self.now }
        ensures { IfOk result (IsHeadOf self.now run) };

    /// The number of items of the head's run.
    fn len(&self, head: &Self::Head) -> u32
        requires { (run : ℕ) × (run < run_count self.now) × IsHeadOf self.now run head.now }
        ensures { (run : ℕ) → run < run_count self.now → IsHeadOf self.now run head.now
            → result ≡ count self.now run };

    /// Item `seq` of the head's run, numbered from 0. Returns `AllocError` if memory for it runs out.
    fn make(&self, alloc: Global, head: &Self::Head, seq: u32) -> Result<Self::Item, AllocError>
        requires { (run : ℕ) × (run < run_count self.now) × IsHeadOf self.now run head.now
            × (seq < count self.now run) }
        ensures { IfOk result (λ x. (run : ℕ) → run < run_count self.now
            → IsHeadOf self.now run head.now → x ≡ item self.now run seq) };

    /// The tail of the head's run.
    fn tail(&self, head: Self::Head) -> Self::Tail
        requires { (run : ℕ) × (run < run_count self.now) × IsHeadOf self.now run head }
        ensures { (run : ℕ) → run < run_count self.now → IsHeadOf self.now run head
            → result ≡ end self.now run };

    // A work has at most `most_runs` runs.
    ghost few: { (w : Self) → run_count w ≤ most_runs };
}

/// Observes a work while it is gathered. No result depends on it.
pub trait Gate {
    /// A worker calls it just before it makes an item.
    fn making(&self, run: u32, seq: u32);

    /// The calling thread calls it for each item that it took, before it takes the next parcel.
    fn taken(&self, run: u32, seq: u32);
}

/// A gate that does nothing.
#[derive(Clone, Copy)]
pub struct NoGate;

impl Gate for NoGate {
    fn making(&self, _run: u32, _seq: u32) {}

    fn taken(&self, _run: u32, _seq: u32) {}
}
