//! `Failed`: what a device answers when it has a fault.

/// A device did not do what it was asked, and its count of faults rose.
#[derive(Clone, Copy, Debug, PartialEq, Eq)]
pub struct Failed;
