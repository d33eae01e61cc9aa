//! Gates: where a thread that is recorded can be held, so that a test forces an interleaving.

use std::sync::Wait;

/// A point on the way of a thread that is recorded.
#[derive(Clone, Copy, Debug, PartialEq, Eq)]
pub enum Point {
    /// A read is about to load its value.
    BeforeValue,
    /// A read has loaded its value.
    AfterValue,
    /// A read has found the number of its cell odd.
    AfterOdd,
    /// A write or an update has claimed its cell.
    AfterMark,
    /// A write or an update has stored its value.
    AfterPut,
    /// A write or an update has completed its number.
    AfterTurn,
    /// An entry has found its monitor held.
    Held,
}

/// What each thread calls at each point. It waits or returns, and answers nothing.
pub trait Gate: Sync {
    fn at<R: Wait>(&self, rt: &R, thread: u32, point: Point);
}

/// The gate that holds no thread.
pub struct OpenGate;

impl Gate for OpenGate {
    #[inline(always)]
    fn at<R: Wait>(&self, _rt: &R, _thread: u32, _point: Point) {}
}

/// A thread's way through a gate.
#[derive(Drop)]
pub(crate) struct Way<'g, G> {
    pub gate: &'g G,
    pub thread: u32,
}

impl<'g, G: Gate> Way<'g, G> {
    #[inline(always)]
    pub(crate) fn at<R: Wait>(&self, rt: &R, point: Point) {
        self.gate.at(rt, self.thread, point);
    }
}
