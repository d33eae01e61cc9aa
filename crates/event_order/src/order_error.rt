//! `OrderError`: why there is no order of the events.
use interleavings::Place;
use stride_base::{List, NoMemory as OutOfMemory};

/// Why there is no order of the events.
#[derive(Drop)]
pub enum OrderError {
    /// Each of these events is a direct predecessor of the next, and the last of the first.
    Cycle { places: List<Place> },
    /// Memory ran out.
    NoMemory,
}

impl From<OutOfMemory> for OrderError {
    ghost use Rattle.std.specs.Prelude.{◌≡◌};
    ghost use Rattle.event_order.specs.declared.order_error.OrderError.TheVariants.{NoMemory};

    ghost from_gives = { λ _ error. error ≡ NoMemory };

    fn from(_cause: OutOfMemory) -> OrderError {
        OrderError::NoMemory
    }
}
