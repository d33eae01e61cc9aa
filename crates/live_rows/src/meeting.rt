//! Gates that hold a thread at a point until another has come to one of its own, until all have come to theirs, or for a while.

use recorder::{Gate, Point};
use std::sync::Wait;
use std::sync::atomic::{AtomicBool, AtomicU64, Ordering};
use std::thread::yield_now;

/// A point of a thread's way.
#[derive(Clone, Copy)]
pub(crate) struct Spot {
    pub thread: u32,
    pub point: Point,
}

/// A thread that comes to a spot is held there until another has come to one.
#[derive(Clone, Copy)]
pub(crate) struct Hold {
    pub at: Spot,
    pub until: Spot,
}

/// How often a thread that is held gives up the processor at most. Then the meeting has failed.
const TURNS: u32 = 1_048_576;

/// Where threads are held, and to which spots they have come.
#[derive(Drop)]
pub(crate) struct Meeting<'h> {
    holds: &'h [Hold],
    /// A bit for each spot of the first eight threads.
    reached: AtomicU64,
    late: AtomicBool,
}

fn bit_of(spot: Spot) -> u64 {
    let place = match spot.point {
        Point::BeforeValue => 0,
        Point::AfterValue => 1,
        Point::AfterOdd => 2,
        Point::AfterMark => 3,
        Point::AfterPut => 4,
        Point::AfterTurn => 5,
        Point::Held => 6,
    };
    1 << (8 * (spot.thread % 8) + place)
}

impl<'h> Meeting<'h> {
    pub(crate) fn new(holds: &'h [Hold]) -> Meeting<'h> {
        Meeting {
            holds,
            reached: AtomicU64::new(0),
            late: AtomicBool::new(false),
        }
    }

    fn has_reached(&self, spot: Spot) -> bool {
        self.reached.load(Ordering::SeqCst) & bit_of(spot) != 0
    }

    fn wait_for(&self, spot: Spot) {
        for _ in 0..TURNS {
            if self.has_reached(spot) {
                return;
            }
            yield_now();
        }
        self.late.store(true, Ordering::SeqCst);
    }

    /// Whether each thread came to each spot that is named, and none was held too long.
    pub(crate) fn succeeded(&self) -> bool {
        !self.late.load(Ordering::SeqCst)
            && self.holds.iter().all(|hold| self.has_reached(hold.at)
                && self.has_reached(hold.until))
    }
}

impl Gate for Meeting<'_> {
    fn at<R: Wait>(&self, _rt: &R, thread: u32, point: Point) {
        let spot = Spot { thread, point };
        self.reached.fetch_or(bit_of(spot), Ordering::SeqCst);
        for hold in self.holds {
            if hold.at.thread == thread && hold.at.point == point {
                self.wait_for(hold.until);
            }
        }
    }
}

/// Where each of so many threads waits, at its first read, until all have come there.
#[derive(Drop)]
pub(crate) struct Rendezvous {
    threads: u64,
    arrived: AtomicU64,
    late: AtomicBool,
}

impl Rendezvous {
    pub(crate) fn of(threads: u64) -> Rendezvous {
        Rendezvous {
            threads,
            arrived: AtomicU64::new(0),
            late: AtomicBool::new(false),
        }
    }

    /// Whether all came, and none waited too long.
    pub(crate) fn succeeded(&self) -> bool {
        !self.late.load(Ordering::SeqCst) && self.arrived.load(Ordering::SeqCst) >= self.threads
    }
}

impl Gate for Rendezvous {
    fn at<R: Wait>(&self, _rt: &R, _thread: u32, point: Point) {
        if point != Point::BeforeValue {
            return;
        }
        self.arrived.fetch_add(1, Ordering::SeqCst);
        for _ in 0..TURNS {
            if self.arrived.load(Ordering::SeqCst) >= self.threads {
                return;
            }
            yield_now();
        }
        self.late.store(true, Ordering::SeqCst);
    }
}

/// How often a slow thread gives up the processor at each point.
const PAUSE: u32 = 64;

/// Where each thread is slow at every point.
pub(crate) struct Slow;

impl Gate for Slow {
    fn at<R: Wait>(&self, _rt: &R, _thread: u32, _point: Point) {
        for _ in 0..PAUSE {
            yield_now();
        }
    }
}
