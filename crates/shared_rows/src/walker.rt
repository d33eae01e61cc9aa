//! A pass beside what is known of it.
ghost use Rattle.std.specs.Prelude.{◌≡◌, ◌+◌, ◌≤◌, length, true, None, IfOk};
ghost use Rattle.interleavings.specs.AtomicStep.{one_more as one_more_look};
ghost use Rattle.shared_rule.specs.Closing.{HasCells};
ghost use Rattle.shared_rule.specs.Passes.{IsPassOf, IsReady, monitors_in, starts_in, view_of};
ghost use Rattle.shared_rows.specs.Standing.{has_name, is_held};

use interleavings::{HeldTurn, OddLooks, Phase};
use shared_rule::limits::{DRAW_LIMIT, EVENT_LIMIT};
use shared_rule::{Closed, Pass, Shared};
use std::alloc::Global;
use std::process::Abort;
use std::sync::Wait;
use std::test::Fail;
use stride_isa::Change;
use stride_isa::limits::{CELL_LIMIT, MONITOR_LIMIT};

/// Shared words, and how many cells and monitors they have.
#[derive(Drop)]
pub(crate) struct Hall {
    pub shared: Shared,
    cells: u32,
    monitors: u32,
    ghost cells_are: { cells ≡ length (starts_in shared) },
    ghost monitors_are: { monitors ≡ monitors_in shared },
}

/// The shared words as they were left, and how many cells they have.
#[derive(Drop)]
pub(crate) struct LastWords {
    closed: Closed,
    cells: u32,
    ghost cells_are: { HasCells closed cells },
}

/// A pass, and what its calls have told so far of what it stands at. A call that it may not make ends the test.
#[derive(Drop)]
pub(crate) struct Walker {
    pub pass: Pass,
    phase: Phase,
    named: bool,
    finished: u32,
    /// What was entered last and not left.
    held: Option<HeldTurn>,
    draws: u64,
    /// Its row of odd looks.
    pub looks: Option<OddLooks>,
    ghost phase_is: { phase ≡ (view_of pass).activity.phase },
    ghost named_is: { named ≡ has_name (view_of pass).activity.name },
    ghost few: { length (view_of pass).activity.events ≤ finished },
    ghost held_is: { is_held held (view_of pass).activity.held ≡ true },
    ghost draws_left: { draws ≤ (view_of pass).draws },
    ghost looks_are: { looks ≡ (view_of pass).activity.looks },
}

fn one_more(rt: &impl Abort, finished: u32) -> u32
    ensures { result ≡ finished + 1 }
{
    assert!(rt; finished < u32::MAX);
    finished + 1
}

// The row with one more odd look at this monitor.
fn longer_row(rt: &impl Abort, row: Option<OddLooks>, mon: u32) -> OddLooks
    ensures { result ≡ one_more_look mon row }
{
    match row {
        Some(row) if row.mon == mon => {
            assert!(rt; row.count < u32::MAX);
            OddLooks {
                mon,
                count: row.count + 1,
            }
        }
        _ => OddLooks { mon, count: 1 },
    }
}

impl Hall {
    /// Shared words with these starting values, and the first pass.
    pub(crate) fn prepare<R: Abort>(
        rt: &R,
        alloc: Global,
        starts: &[u64],
        monitors: u32,
    ) -> Result<(Hall, Walker), Fail>
        ensures { IfOk result (λ made. IsPassOf made.0.shared made.1.pass) }
    {
        assert!(rt; starts.len() <= CELL_LIMIT as usize && monitors as usize <= MONITOR_LIMIT);
        let (shared, pass) = Shared::prepare(alloc, starts, monitors)?;
        let hall = Hall {
            shared,
            cells: starts.len() as u32,
            monitors,
        };
        let first = Walker {
            pass,
            phase: Phase::Idle,
            named: false,
            finished: 0,
            held: None,
            draws: DRAW_LIMIT,
            looks: None,
        };
        Ok((hall, first))
    }

    pub(crate) fn close(self, walker: Walker) -> LastWords
        requires { IsPassOf self.shared walker.pass }
    {
        let Hall { shared, cells, .. } = self;
        LastWords {
            closed: shared.close(walker.pass),
            cells,
        }
    }
}

impl LastWords {
    pub(crate) fn drawn(&self) -> u32 {
        self.closed.drawn()
    }

    pub(crate) fn value<R: Abort>(&self, rt: &R, cell: u32) -> u64 {
        assert!(rt; cell < self.cells);
        self.closed.value(cell)
    }

    pub(crate) fn number<R: Abort>(&self, rt: &R, cell: u32) -> u64 {
        assert!(rt; cell < self.cells);
        self.closed.number(cell)
    }
}

impl Walker {
    fn is_nameless(&self) -> bool
        ensures { result ≡ true → (view_of self.now.pass).activity.name ≡ None }
    {
        !self.named
    }

    fn is_ready(&self) -> bool
        ensures { result ≡ true → IsReady (view_of self.now.pass) }
    {
        self.phase == Phase::Idle && self.named && self.finished < EVENT_LIMIT
    }

    pub(crate) fn split<R: Abort>(&mut self, rt: &R, hall: &Hall) -> Walker
        requires { IsPassOf hall.now.shared self.old.pass }
        ensures left { IsPassOf hall.now.shared self.new.pass }
        ensures right { IsPassOf hall.now.shared result.pass }
    {
        assert!(rt; self.is_nameless() && self.draws >= 2, "a pass is split");
        let pass = hall.shared.split(&mut self.pass);
        let draws = self.draws / 2;
        self.draws -= draws;
        Walker {
            pass,
            phase: Phase::Idle,
            named: false,
            finished: 0,
            held: None,
            draws,
            looks: None,
        }
    }

    pub(crate) fn draw<R: Abort>(&mut self, rt: &R, hall: &Hall) -> u32
        requires { IsPassOf hall.now.shared self.old.pass }
        ensures { IsPassOf hall.now.shared self.new.pass }
    {
        assert!(rt; self.is_nameless() && self.draws >= 1, "a name is drawn");
        let name = hall.shared.draw(&mut self.pass);
        self.named = true;
        self.phase = Phase::Idle;
        self.draws -= 1;
        name
    }

    pub(crate) fn gather<R: Abort>(&mut self, rt: &R, hall: &Hall, other: Walker)
        requires pass { IsPassOf hall.now.shared self.old.pass }
        requires other { IsPassOf hall.now.shared other.pass }
        ensures { IsPassOf hall.now.shared self.new.pass }
    {
        assert!(rt;
            self.is_nameless() && other.phase == Phase::Idle,
            "a pass is gathered"
        );
        hall.shared.gather(&mut self.pass, other.pass);
        self.draws = self.draws.saturating_add(other.draws);
    }

    pub(crate) fn see<R: Abort>(&mut self, rt: &R, hall: &Hall, cell: u32) -> Option<u32>
        requires { IsPassOf hall.now.shared self.old.pass }
        ensures { IsPassOf hall.now.shared self.new.pass }
    {
        assert!(rt; cell < hall.cells && self.is_ready(), "a number is seen");
        let seen = write_turns::see(&hall.shared, &mut self.pass, cell);
        self.phase = match seen {
            Some(n) => Phase::Numbered { cell, n },
            None => Phase::Idle,
        };
        seen
    }

    pub(crate) fn try_claim<R: Abort>(&mut self, rt: &R, hall: &Hall, cell: u32, seen: u32) -> bool
        requires { IsPassOf hall.now.shared self.old.pass }
        ensures { IsPassOf hall.now.shared self.new.pass }
    {
        let numbered = Phase::Numbered { cell, n: seen };
        assert!(rt;
            cell < hall.cells && self.phase == numbered,
            "a cell is claimed"
        );
        let claimed = write_turns::try_claim(&hall.shared, &mut self.pass, cell, seen);
        self.phase = if claimed {
            Phase::Marked { cell, n: seen }
        } else {
            Phase::Idle
        };
        claimed
    }

    pub(crate) fn take<R: Wait + Abort>(&mut self, rt: &R, hall: &Hall, cell: u32) -> u32
        requires { IsPassOf hall.now.shared self.old.pass }
        ensures { IsPassOf hall.now.shared self.new.pass }
    {
        assert!(rt; cell < hall.cells && self.is_ready(), "a cell is taken");
        let n = write_turns::take(rt, &hall.shared, &mut self.pass, cell);
        self.phase = Phase::Marked { cell, n };
        n
    }

    pub(crate) fn fetch<R: Abort>(&mut self, rt: &R, hall: &Hall, cell: u32) -> u64
        requires { IsPassOf hall.now.shared self.old.pass }
        ensures { IsPassOf hall.now.shared self.new.pass }
    {
        let Phase::Marked { cell: claimed, n } = self.phase else {
            panic!(rt; "a cell is claimed before its value is fetched");
        };
        assert!(rt; cell < hall.cells && claimed == cell);
        let old = shared_vars::fetch(&hall.shared, &mut self.pass, cell);
        self.phase = Phase::Fetched { cell, n, old };
        old
    }

    pub(crate) fn store_value<R: Abort>(&mut self, rt: &R, hall: &Hall, cell: u32, value: u64)
        requires { IsPassOf hall.now.shared self.old.pass }
        ensures { IsPassOf hall.now.shared self.new.pass }
    {
        let (claimed, n, old) = match self.phase {
            Phase::Marked { cell, n } => (cell, n, None),
            Phase::Fetched { cell, n, old } => (cell, n, Some(old)),
            _ => panic!(rt; "a cell is claimed before its value is stored"),
        };
        assert!(rt; cell < hall.cells && claimed == cell);
        shared_vars::store_value(&hall.shared, &mut self.pass, cell, value);
        self.phase = Phase::Stored {
            cell,
            n,
            old,
            value,
        };
    }

    pub(crate) fn complete<R: Abort>(&mut self, rt: &R, hall: &Hall, cell: u32, n: u32)
        requires { IsPassOf hall.now.shared self.old.pass }
        ensures { IsPassOf hall.now.shared self.new.pass }
    {
        let Phase::Stored {
            cell: stored,
            n: claimed,
            ..
        } = self.phase
        else {
            panic!(rt; "a value is stored before its number is completed");
        };
        assert!(rt; cell < hall.cells && stored == cell && claimed == n);
        shared_vars::complete(&hall.shared, &mut self.pass, cell, n);
        self.phase = Phase::Idle;
        self.finished = one_more(rt, self.finished);
    }

    pub(crate) fn load_value<R: Abort>(&mut self, rt: &R, hall: &Hall, cell: u32) -> u64
        requires { IsPassOf hall.now.shared self.old.pass }
        ensures { IsPassOf hall.now.shared self.new.pass }
    {
        assert!(rt; cell < hall.cells && self.is_ready(), "a value is loaded");
        let value = shared_vars::load_value(&hall.shared, &mut self.pass, cell);
        self.phase = Phase::Loaded { cell, value };
        value
    }

    pub(crate) fn load_number<R: Abort>(&mut self, rt: &R, hall: &Hall, cell: u32) -> Option<u32>
        requires { IsPassOf hall.now.shared self.old.pass }
        ensures { IsPassOf hall.now.shared self.new.pass }
    {
        let Phase::Loaded { cell: loaded, .. } = self.phase else {
            panic!(rt; "a value is loaded before its number");
        };
        assert!(rt; cell < hall.cells && loaded == cell);
        let bound = shared_vars::load_number(&hall.shared, &mut self.pass, cell);
        if bound.is_some() {
            self.phase = Phase::Idle;
            self.finished = one_more(rt, self.finished);
        }
        bound
    }

    pub(crate) fn read<R: Wait + Abort>(&mut self, rt: &R, hall: &Hall, cell: u32) -> (u64, u32)
        requires { IsPassOf hall.now.shared self.old.pass }
        ensures { IsPassOf hall.now.shared self.new.pass }
    {
        assert!(rt; cell < hall.cells && self.is_ready(), "a cell is read");
        let answer = shared_vars::read(rt, &hall.shared, &mut self.pass, cell);
        self.finished = one_more(rt, self.finished);
        answer
    }

    pub(crate) fn write<R: Wait + Abort>(
        &mut self,
        rt: &R,
        hall: &Hall,
        cell: u32,
        value: u64,
    ) -> u32
        requires { IsPassOf hall.now.shared self.old.pass }
        ensures { IsPassOf hall.now.shared self.new.pass }
    {
        assert!(rt; cell < hall.cells && self.is_ready(), "a cell is written");
        let number = shared_vars::write(rt, &hall.shared, &mut self.pass, cell, value);
        self.finished = one_more(rt, self.finished);
        number
    }

    pub(crate) fn update<R: Wait + Abort>(
        &mut self,
        rt: &R,
        hall: &Hall,
        cell: u32,
        change: Change,
    ) -> (u64, u32)
        requires { IsPassOf hall.now.shared self.old.pass }
        ensures { IsPassOf hall.now.shared self.new.pass }
    {
        assert!(rt; cell < hall.cells && self.is_ready(), "a cell is updated");
        let answer = shared_vars::update(rt, &hall.shared, &mut self.pass, cell, change);
        self.finished = one_more(rt, self.finished);
        answer
    }

    pub(crate) fn look<R: Abort>(&mut self, rt: &R, hall: &Hall, mon: u32) -> Option<u32>
        requires { IsPassOf hall.now.shared self.old.pass }
        ensures { IsPassOf hall.now.shared self.new.pass }
    {
        assert!(rt;
            mon < hall.monitors && self.is_ready(),
            "a monitor is looked at"
        );
        let longer = longer_row(rt, self.looks, mon);
        let turn = monitors::look(&hall.shared, &mut self.pass, mon);
        match turn {
            Some(turn) => {
                self.phase = Phase::Looked { mon, turn };
                self.looks = None;
            }
            None => {
                self.phase = Phase::Idle;
                self.looks = Some(longer);
            }
        }
        turn
    }

    pub(crate) fn try_enter<R: Abort>(
        &mut self,
        rt: &R,
        hall: &Hall,
        mon: u32,
        seen: u32,
    ) -> Option<u32>
        requires { IsPassOf hall.now.shared self.old.pass }
        ensures { IsPassOf hall.now.shared self.new.pass }
    {
        let looked = Phase::Looked { mon, turn: seen };
        assert!(rt;
            mon < hall.monitors && self.phase == looked,
            "a monitor is entered"
        );
        let turn = monitors::try_enter(&hall.shared, &mut self.pass, mon, seen);
        self.phase = Phase::Idle;
        if let Some(turn) = turn {
            self.finished = one_more(rt, self.finished);
            self.held = Some(HeldTurn { mon, turn });
        }
        turn
    }

    pub(crate) fn leave<R: Abort>(&mut self, rt: &R, hall: &Hall, mon: u32, turn: u32)
        requires { IsPassOf hall.now.shared self.old.pass }
        ensures { IsPassOf hall.now.shared self.new.pass }
    {
        let Some(held) = self.held else {
            panic!(rt; "a monitor is held before it is left");
        };
        assert!(rt; mon < hall.monitors && self.phase == Phase::Idle);
        assert!(rt; held.mon == mon && held.turn == turn);
        monitors::leave(&hall.shared, &mut self.pass, mon, turn);
        self.held = None;
        self.finished = one_more(rt, self.finished);
    }
}
