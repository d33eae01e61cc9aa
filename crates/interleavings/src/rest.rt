//! What a thread may have left after an order.

/// What a thread may have left after an order.
#[derive(Clone, Copy, Debug, PartialEq, Eq)]
pub enum Rest {
    /// A write or an update that it has claimed.
    Write,
    /// A read that has loaded the value.
    Read,
    /// Exits at which it stands.
    Exits,
}
