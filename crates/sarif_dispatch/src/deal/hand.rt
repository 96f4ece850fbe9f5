//! A hand of a deal.
ghost use Rattle.std.specs.Prelude.{◌≡◌, [], false, if◌then◌else◌};
ghost use Rattle.sarif_dispatch.specs.Claims.{hand_view};

use crate::deal::rule::HandView;
use atomic_table::Seat;

/// A hand of a deal, which draws runs. It shows the runs that it drew, and whether it found none
/// left.
#[derive(Drop)]
pub struct Hand {
    pub(crate) seat: Seat<(), HandView>,
    pub(crate) spent: bool,
    pub(crate) ghost one: { seat.me.0.parts ≡ 1 },
    pub(crate) ghost marks: { seat.me.0.marks ≡ (if spent then 1 else 0) },
    pub(crate) ghost free: { seat.me.1 ≡ [] },
}

impl Hand {
    pub(super) fn new(seat: Seat<(), HandView>) -> Self
        requires view { seat.me.0 ≡ hand_view seat.me.0.runs seat.me.0.hands 1 0 [] }
        requires free { seat.me.1 ≡ [] }
        ensures { (result.seat ≡ seat) × (result.spent ≡ false) }
    {
        Hand { seat, spent: false }
    }
}
