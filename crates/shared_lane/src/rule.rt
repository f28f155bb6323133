//! The rule of the lane's table.
//! Word 0 is the tail. From word 1 on there is one cursor for each place, and then the cells.
use crate::view::{Shape, View};
use atomic_table::{Seat, TableRule};

pub struct LaneRule;

impl TableRule<(), View, Shape> for LaneRule {
    ghost use Rattle.shared_lane.specs.Law.{Law, opening_view};

    ghost holds = { Law };

    ghost first = { opening_view };
}

/// A seat at the lane's table. It has no bytes.
pub type LaneSeat = Seat<(), View>;
