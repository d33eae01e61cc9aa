//! The loop that runs a thread up to where it stands.
ghost use Rattle.std.specs.Prelude.{◌≡◌, ◌+◌, ◌-◌, ◌*◌, ◌<◌, ◌≤◌, None, length};
ghost use Rattle.stride_isa.specs.Listing.{cell_count, code_of, op_at};
ghost use Rattle.stride_isa.specs.Validity.{IsFine, Reaches};
ghost use Rattle.sc_machine.specs.Operands.{operands};
ghost use Rattle.sc_machine.specs.ThreadStep.{done_held, done_stack};
ghost use Rattle.sc_machine.specs.Running.{RanOn, RanTurns, going, thread_with};
ghost use Rattle.sc_machine.specs.ThreadRunInside.{IsRun};
ghost use Rattle.sc_machine.specs.TurnsInARow.{beside};

use crate::end::End;
use crate::instruction::{Next, execute, finish};
use crate::limits::LINE_LIMIT;
use crate::operands::Top;
use crate::task::Task;
use stride_base::List;
use stride_isa::limits::{LOCAL_COUNT, MONITOR_LIMIT, STACK_LIMIT};

/// Where a thread is. The loop keeps it in registers.
#[derive(Clone, Copy)]
pub struct Cursor {
    pub pc: u32,
    pub made: u32,
    pub top: Top,
}

/// Completes the shared instruction at this place, which is given the word that it reads, or 0, and tells the next place.
#[inline(always)]
pub fn completed(
    task: Task<'_>,
    from: Cursor,
    word: u64,
    words: &mut [u64; STACK_LIMIT],
    held: &mut [bool; MONITOR_LIMIT],
) -> Cursor
    requires inside { from.pc < length (code_of task.program.now task.thread) }
    requires reaches { Reaches task.program.now task.thread from.pc from.top.depth }
    requires made { from.made ≤ task.fuel }
    ensures pc { result.pc ≡ from.pc + 1 }
    ensures made { result.made ≡ from.made + 1 }
    ensures stack { operands words.new result.top.depth
        ≡ done_stack (op_at task.entry.program.now task.entry.thread from.pc) (operands words.old from.top.depth) word }
    ensures held { held.new ≡ done_held (op_at task.entry.program.now task.entry.thread from.pc) held.old }
    ensures whole { length words.new ≡ length words.old }
    ensures fine { IsFine task.entry.program.now task.entry.thread from.pc from.top.depth }
{
    let mut at = from;
    finish(task.op(at.pc), task.program, word, words, &mut at.top, held);
    at.pc += 1;
    at.made += 1;
    at
}

/// Makes local instructions from this place up to the next shared one or the end, and tells where, and the end.
#[inline(always)]
pub fn run_on(
    task: Task<'_>,
    from: Cursor,
    words: &mut [u64; STACK_LIMIT],
    locals: &mut [u64; LOCAL_COUNT],
    held: &mut [bool; MONITOR_LIMIT],
    out: &mut List<u8>,
) -> (Cursor, Option<End>)
    requires run { IsRun task.program.now task.thread task.fuel from.pc from.top.depth from.made None }
    requires spare { LINE_LIMIT * (task.fuel - from.made) ≤ out.old.spare }
    ensures ran { RanOn task.entry.program.now task.entry.fuel task.entry.thread
        (going from words.old locals.old held.old out.old.items)
        (thread_with result.1 result.0 words.new locals.new held.new out.new.items) }
    ensures run { IsRun task.entry.program.now task.entry.thread task.entry.fuel result.0.pc result.0.top.depth result.0.made result.1 }
    ensures made { from.made ≤ result.0.made }
    ensures spare { LINE_LIMIT * (task.entry.fuel - result.0.made) ≤ out.new.spare }
    ensures used { out.new.spare + length out.new.items ≡ out.old.spare + length out.old.items }
{
    let (at, _, ended) = run_turns(task, from, 0, words, locals, held, &mut [], &mut [], out);
    (at, ended)
}

/// Makes local instructions from this place, and shared ones while turns are left and the thread may go on, up to where it
/// stands then. It tells where that is, how many turns are left, and the end.
#[inline(always)]
pub fn run_turns(
    task: Task<'_>,
    from: Cursor,
    limit: u32,
    words: &mut [u64; STACK_LIMIT],
    locals: &mut [u64; LOCAL_COUNT],
    held: &mut [bool; MONITOR_LIMIT],
    cells: &mut [u64],
    holders: &mut [Option<u8>],
    out: &mut List<u8>,
) -> (Cursor, u32, Option<End>)
    requires run { IsRun task.program.now task.thread task.fuel from.pc from.top.depth from.made None }
    requires cells { 0 < limit → cell_count task.program.now.decls ≤ length cells.old }
    requires holders { 0 < limit → length holders.old ≡ MONITOR_LIMIT }
    requires spare { LINE_LIMIT * (task.fuel - from.made) ≤ out.old.spare }
    ensures ran { RanTurns task.entry.program.now task.entry.fuel task.entry.thread limit result.1
        (going from words.old locals.old held.old out.old.items) cells.old holders.old
        (beside cells.new holders.new (thread_with result.2 result.0 words.new locals.new held.new out.new.items)) }
    ensures run { IsRun task.entry.program.now task.entry.thread task.entry.fuel result.0.pc result.0.top.depth result.0.made result.2 }
    ensures made { from.made ≤ result.0.made }
    ensures spare { LINE_LIMIT * (task.entry.fuel - result.0.made) ≤ out.new.spare }
    ensures used { out.new.spare + length out.new.items ≡ out.old.spare + length out.old.items }
    ensures whole { length cells.new ≡ length cells.old }
    ensures monitors { length holders.new ≡ length holders.old }
{
    let thread = task.number();
    let mut at = from;
    let mut left = limit;
    'instructions: loop {
        let op = task.op(at.pc);
        match execute(
            op,
            task.program,
            thread,
            at.pc,
            words,
            &mut at.top,
            locals,
            held,
            cells,
            holders,
            left,
            out,
        ) {
            Next::Goes(next) => {
                at.pc = next;
                at.made += 1;
                if at.made >= task.fuel {
                    return (at, left, Some(End::OutOfSteps));
                }
            }
            Next::Passes => {
                at.pc += 1;
                at.made += 1;
                left -= 1;
                if at.made >= task.fuel {
                    return (at, left, Some(End::OutOfSteps));
                }
            }
            Next::Ends(end) => {
                at.made += 1;
                return (at, left, Some(end));
            }
            Next::Stands => return (at, left, None),
        }
    }
}
