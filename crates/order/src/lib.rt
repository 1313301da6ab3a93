#![tactic(auto)]

ghost use Rattle.std.specs.Prelude.{◌≡◌};
ghost use Rattle.order.specs.Reasons.{reason_of};

mod labels;
pub mod order;

use text::fault::Reason;

// Nets are numbered below this.
pub(crate) const NETS: usize = 128;

// Why the components of a drawn circuit have no order, or may not be evaluated.
#[derive(Clone, Copy, Debug, PartialEq, Eq)]
pub enum Obstacle {
    WaitingRing,
    LargeComponent,
}

// The reason for which a circuit with such components is declined.
impl From<Obstacle> for Reason {
    ghost from_gives = { λ obstacle reason. reason ≡ reason_of obstacle };

    fn from(obstacle: Obstacle) -> Reason {
        match obstacle {
            Obstacle::WaitingRing => Reason::WaitingRing,
            Obstacle::LargeComponent => Reason::LargeComponent,
        }
    }
}
