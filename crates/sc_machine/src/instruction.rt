//! One instruction, over the parts of a thread's state.
ghost use Rattle.std.specs.Prelude.{◌≡◌, ℕ, List as Words, ◌<◌, ◌≤◌, IfSome, length, slice_index, slice_set};
ghost use Rattle.std.specs.List.{list_any};
ghost use Rattle.stride_isa.specs.Changes.{applied};
ghost use Rattle.stride_isa.specs.Instructions.{kind, popped};
ghost use Rattle.stride_isa.specs.Listing.{cell_count};
ghost use Rattle.stride_isa.specs.Validity.{depth_after, Names};
ghost use Rattle.sc_machine.specs.ThreadStep.{row, halt_end, member_cell as cell_of_member, stop_in, done_stack, done_held};
ghost use Rattle.sc_machine.specs.ThreadRun.{IsCell, IsMonitor, NamesCell};
ghost use Rattle.sc_machine.specs.declared.end.End.TheVariants.{Halted, Trapped};
ghost use Rattle.sc_machine.specs.declared.stop.Stop.TheVariants.{Ended};
ghost use Rattle.sc_machine.specs.Machine.{is_free_for as free_for};
ghost use Rattle.sc_machine.specs.Made.{Executed, parts};
ghost use Rattle.sc_machine.specs.Operands.{operands};

use crate::end::End;
use crate::limits::LINE_LIMIT;
use crate::operands::Top;
use crate::printing::push_line;
use crate::stop::Stop;
use crate::trap::Trap;
use stride_base::List;
use stride_isa::limits::{INSTRUCTION_LIMIT, LOCAL_COUNT, MONITOR_LIMIT, STACK_LIMIT};
use stride_isa::{Change, Checked, Op, instructions};

/// What an instruction came to.
#[derive(Clone, Copy)]
pub enum Next {
    /// It was local, and the thread goes on at this position.
    Goes(u32),
    /// It was a shared one, which was made, and the thread goes on at the next position.
    Passes,
    /// It ended the thread.
    Ends(End),
    /// It is a shared one, and was not made.
    Stands,
}

// The pattern of an instruction, with a name for its operand.
macro_rules! with_operand {
    ($variant:ident () $value:ident) => {
        Op::$variant
    };
    ($variant:ident ($operand:ident) $value:ident) => {
        Op::$variant($value)
    };
}

// One macro for each class of the table: what its instructions do to the parts, of which each class is handed all.
macro_rules! pushes {
    (Push ($program:ident $thread:ident $pc:ident $words:ident $top:ident $locals:ident $held:ident $cells:ident $holders:ident $left:ident $out:ident) $value:ident) => {{
        $top.push($words, $value);
        Next::Goes($pc + 1)
    }};
}

macro_rules! stack {
    (Dup ($program:ident $thread:ident $pc:ident $words:ident $top:ident $locals:ident $held:ident $cells:ident $holders:ident $left:ident $out:ident) $value:ident) => {{
        let first = $top.peek($words, 0);
        $top.push($words, first);
        Next::Goes($pc + 1)
    }};
    (Drop ($program:ident $thread:ident $pc:ident $words:ident $top:ident $locals:ident $held:ident $cells:ident $holders:ident $left:ident $out:ident) $value:ident) => {{
        $top.pop($words);
        Next::Goes($pc + 1)
    }};
    (Swap ($program:ident $thread:ident $pc:ident $words:ident $top:ident $locals:ident $held:ident $cells:ident $holders:ident $left:ident $out:ident) $value:ident) => {{
        let first = $top.pop($words);
        let second = $top.pop($words);
        $top.push($words, first);
        $top.push($words, second);
        Next::Goes($pc + 1)
    }};
    (Over ($program:ident $thread:ident $pc:ident $words:ident $top:ident $locals:ident $held:ident $cells:ident $holders:ident $left:ident $out:ident) $value:ident) => {{
        let second = $top.peek($words, 1);
        $top.push($words, second);
        Next::Goes($pc + 1)
    }};
}

macro_rules! two {
    ($variant:ident ($program:ident $thread:ident $pc:ident $words:ident $top:ident $locals:ident $held:ident $cells:ident $holders:ident $left:ident $out:ident) $value:ident ($method:ident)) => {{
        let right = $top.pop($words);
        let left = $top.pop($words);
        $top.push($words, left.$method(right));
        Next::Goes($pc + 1)
    }};
}

macro_rules! quotient {
    ($variant:ident ($program:ident $thread:ident $pc:ident $words:ident $top:ident $locals:ident $held:ident $cells:ident $holders:ident $left:ident $out:ident) $value:ident ($operator:tt)) => {
        if $top.peek($words, 0) == 0 {
            Next::Ends(trapped(Trap::DivZero, $pc))
        } else {
            let right = $top.pop($words);
            let left = $top.pop($words);
            $top.push($words, left $operator right);
            Next::Goes($pc + 1)
        }
    };
}

macro_rules! bits {
    ($variant:ident ($program:ident $thread:ident $pc:ident $words:ident $top:ident $locals:ident $held:ident $cells:ident $holders:ident $left:ident $out:ident) $value:ident ($operator:tt)) => {{
        let right = $top.pop($words);
        let left = $top.pop($words);
        $top.push($words, left $operator right);
        Next::Goes($pc + 1)
    }};
}

macro_rules! shift {
    ($variant:ident ($program:ident $thread:ident $pc:ident $words:ident $top:ident $locals:ident $held:ident $cells:ident $holders:ident $left:ident $out:ident) $value:ident ($operator:tt)) => {{
        let right = $top.pop($words);
        let left = $top.pop($words);
        $top.push($words, left $operator (right % 64));
        Next::Goes($pc + 1)
    }};
}

macro_rules! compare {
    ($variant:ident ($program:ident $thread:ident $pc:ident $words:ident $top:ident $locals:ident $held:ident $cells:ident $holders:ident $left:ident $out:ident) $value:ident ($operator:tt)) => {{
        let right = $top.pop($words);
        let left = $top.pop($words);
        $top.push($words, u64::from(left $operator right));
        Next::Goes($pc + 1)
    }};
}

macro_rules! complement {
    ($variant:ident ($program:ident $thread:ident $pc:ident $words:ident $top:ident $locals:ident $held:ident $cells:ident $holders:ident $left:ident $out:ident) $value:ident) => {{
        let first = $top.pop($words);
        $top.push($words, !first);
        Next::Goes($pc + 1)
    }};
}

macro_rules! gets {
    ($variant:ident ($program:ident $thread:ident $pc:ident $words:ident $top:ident $locals:ident $held:ident $cells:ident $holders:ident $left:ident $out:ident) $local:ident) => {{
        $top.push($words, $locals[$local as usize]);
        Next::Goes($pc + 1)
    }};
}

macro_rules! sets {
    ($variant:ident ($program:ident $thread:ident $pc:ident $words:ident $top:ident $locals:ident $held:ident $cells:ident $holders:ident $left:ident $out:ident) $local:ident) => {{
        $locals[$local as usize] = $top.pop($words);
        Next::Goes($pc + 1)
    }};
}

macro_rules! jumps {
    ($variant:ident ($program:ident $thread:ident $pc:ident $words:ident $top:ident $locals:ident $held:ident $cells:ident $holders:ident $left:ident $out:ident) $position:ident) => {
        Next::Goes($position)
    };
}

macro_rules! branches {
    ($variant:ident ($program:ident $thread:ident $pc:ident $words:ident $top:ident $locals:ident $held:ident $cells:ident $holders:ident $left:ident $out:ident) $target:ident ($operator:tt)) => {
        if $top.pop($words) $operator 0 {
            Next::Goes($target)
        } else {
            Next::Goes($pc + 1)
        }
    };
}

// A shared instruction is made at once where a turn is left and the thread may go on.
macro_rules! stands {
    (Read ($program:ident $thread:ident $pc:ident $words:ident $top:ident $locals:ident $held:ident $cells:ident $holders:ident $left:ident $out:ident) $decl:ident) => {
        if $left == 0 {
            Next::Stands
        } else {
            let cell = $program.first_cell($decl);
            $top.push($words, $cells[cell as usize]);
            Next::Passes
        }
    };
    (Write ($program:ident $thread:ident $pc:ident $words:ident $top:ident $locals:ident $held:ident $cells:ident $holders:ident $left:ident $out:ident) $decl:ident) => {
        if $left == 0 {
            Next::Stands
        } else {
            let cell = $program.first_cell($decl);
            $cells[cell as usize] = $top.pop($words);
            Next::Passes
        }
    };
    (ReadAt ($program:ident $thread:ident $pc:ident $words:ident $top:ident $locals:ident $held:ident $cells:ident $holders:ident $left:ident $out:ident) $decl:ident) => {
        match member_cell($program, $decl, $top.peek($words, 0)) {
            Some(cell) => {
                if $left == 0 {
                    Next::Stands
                } else {
                    $top.pop($words);
                    $top.push($words, $cells[cell as usize]);
                    Next::Passes
                }
            }
            None => Next::Ends(trapped(Trap::Range, $pc)),
        }
    };
    (WriteAt ($program:ident $thread:ident $pc:ident $words:ident $top:ident $locals:ident $held:ident $cells:ident $holders:ident $left:ident $out:ident) $decl:ident) => {
        match member_cell($program, $decl, $top.peek($words, 0)) {
            Some(cell) => {
                if $left == 0 {
                    Next::Stands
                } else {
                    $top.pop($words);
                    $cells[cell as usize] = $top.pop($words);
                    Next::Passes
                }
            }
            None => Next::Ends(trapped(Trap::Range, $pc)),
        }
    };
    (Xchg ($program:ident $thread:ident $pc:ident $words:ident $top:ident $locals:ident $held:ident $cells:ident $holders:ident $left:ident $out:ident) $decl:ident) => {
        if $left == 0 {
            Next::Stands
        } else {
            let change = Change::Store($top.pop($words));
            $top.push($words, update($cells, $program.first_cell($decl), change));
            Next::Passes
        }
    };
    (AddTo ($program:ident $thread:ident $pc:ident $words:ident $top:ident $locals:ident $held:ident $cells:ident $holders:ident $left:ident $out:ident) $decl:ident) => {
        if $left == 0 {
            Next::Stands
        } else {
            let change = Change::Plus($top.pop($words));
            $top.push($words, update($cells, $program.first_cell($decl), change));
            Next::Passes
        }
    };
    (Cas ($program:ident $thread:ident $pc:ident $words:ident $top:ident $locals:ident $held:ident $cells:ident $holders:ident $left:ident $out:ident) $decl:ident) => {
        if $left == 0 {
            Next::Stands
        } else {
            let new = $top.pop($words);
            let expected = $top.pop($words);
            let change = Change::IfEqual { expected, new };
            $top.push($words, update($cells, $program.first_cell($decl), change));
            Next::Passes
        }
    };
    (Enter ($program:ident $thread:ident $pc:ident $words:ident $top:ident $locals:ident $held:ident $cells:ident $holders:ident $left:ident $out:ident) $monitor:ident) => {{
        let index = monitor_index($program, $monitor);
        if $held[index] {
            Next::Ends(trapped(Trap::Again, $pc))
        } else if $left == 0 || !is_free_for($thread, $holders[index]) {
            Next::Stands
        } else {
            $holders[index] = Some($thread);
            $held[index] = true;
            Next::Passes
        }
    }};
    (Exit ($program:ident $thread:ident $pc:ident $words:ident $top:ident $locals:ident $held:ident $cells:ident $holders:ident $left:ident $out:ident) $monitor:ident) => {{
        let index = monitor_index($program, $monitor);
        if !$held[index] {
            Next::Ends(trapped(Trap::NotHeld, $pc))
        } else if $left == 0 {
            Next::Stands
        } else {
            $holders[index] = None;
            $held[index] = false;
            Next::Passes
        }
    }};
}

macro_rules! prints {
    (Print ($program:ident $thread:ident $pc:ident $words:ident $top:ident $locals:ident $held:ident $cells:ident $holders:ident $left:ident $out:ident) $value:ident) => {{
        push_line($out, $top.pop($words));
        Next::Goes($pc + 1)
    }};
}

macro_rules! halts {
    (Halt ($program:ident $thread:ident $pc:ident $words:ident $top:ident $locals:ident $held:ident $cells:ident $holders:ident $left:ident $out:ident) $value:ident) => {
        Next::Ends(end_of_halt($held, $pc))
    };
}

macro_rules! arms {
    (($parts:tt $op:ident) $([$variant:ident $operand:tt $name:literal $popped:literal $pushed:literal $class:ident $($how:tt)*])*) => {
        match *$op {
            $(with_operand!($variant $operand value) => $class!($variant $parts value $($how)*),)*
        }
    };
}

// Where a thread stands at an instruction: at a shared one that does not trap, and at no local one.
macro_rules! stop_told {
    (stands Read ($program:ident $words:ident $top:ident $held:ident) $decl:ident) => {
        Stop::Read {
            cell: $program.first_cell($decl),
        }
    };
    (stands Write ($program:ident $words:ident $top:ident $held:ident) $decl:ident) => {
        Stop::Write {
            cell: $program.first_cell($decl),
            value: $top.peek($words, 0),
        }
    };
    (stands ReadAt ($program:ident $words:ident $top:ident $held:ident) $decl:ident) => {
        match member_cell($program, $decl, $top.peek($words, 0)) {
            Some(cell) => Stop::Read { cell },
            None => no_stop(),
        }
    };
    (stands WriteAt ($program:ident $words:ident $top:ident $held:ident) $decl:ident) => {
        match member_cell($program, $decl, $top.peek($words, 0)) {
            Some(cell) => Stop::Write {
                cell,
                value: $top.peek($words, 1),
            },
            None => no_stop(),
        }
    };
    (stands Xchg ($program:ident $words:ident $top:ident $held:ident) $decl:ident) => {
        Stop::Update {
            cell: $program.first_cell($decl),
            change: Change::Store($top.peek($words, 0)),
        }
    };
    (stands AddTo ($program:ident $words:ident $top:ident $held:ident) $decl:ident) => {
        Stop::Update {
            cell: $program.first_cell($decl),
            change: Change::Plus($top.peek($words, 0)),
        }
    };
    (stands Cas ($program:ident $words:ident $top:ident $held:ident) $decl:ident) => {
        Stop::Update {
            cell: $program.first_cell($decl),
            change: Change::IfEqual {
                expected: $top.peek($words, 1),
                new: $top.peek($words, 0),
            },
        }
    };
    (stands Enter ($program:ident $words:ident $top:ident $held:ident) $monitor:ident) => {
        if $held[monitor_index($program, $monitor)] {
            no_stop()
        } else {
            Stop::Enter { mon: $monitor }
        }
    };
    (stands Exit ($program:ident $words:ident $top:ident $held:ident) $monitor:ident) => {
        if $held[monitor_index($program, $monitor)] {
            Stop::Exit { mon: $monitor }
        } else {
            no_stop()
        }
    };
    (pushes $variant:ident $parts:tt $value:ident) => {
        no_stop()
    };
    (stack $variant:ident $parts:tt $value:ident) => {
        no_stop()
    };
    (two $variant:ident $parts:tt $value:ident) => {
        no_stop()
    };
    (quotient $variant:ident $parts:tt $value:ident) => {
        no_stop()
    };
    (bits $variant:ident $parts:tt $value:ident) => {
        no_stop()
    };
    (shift $variant:ident $parts:tt $value:ident) => {
        no_stop()
    };
    (compare $variant:ident $parts:tt $value:ident) => {
        no_stop()
    };
    (complement $variant:ident $parts:tt $value:ident) => {
        no_stop()
    };
    (gets $variant:ident $parts:tt $value:ident) => {
        no_stop()
    };
    (sets $variant:ident $parts:tt $value:ident) => {
        no_stop()
    };
    (jumps $variant:ident $parts:tt $value:ident) => {
        no_stop()
    };
    (branches $variant:ident $parts:tt $value:ident) => {
        no_stop()
    };
    (prints $variant:ident $parts:tt $value:ident) => {
        no_stop()
    };
    (halts $variant:ident $parts:tt $value:ident) => {
        no_stop()
    };
}

macro_rules! stops {
    (($parts:tt $op:ident) $([$variant:ident $operand:tt $name:literal $popped:literal $pushed:literal $class:ident $($how:tt)*])*) => {
        match *$op {
            $(with_operand!($variant $operand value) => stop_told!($class $variant $parts value),)*
        }
    };
}

// What a shared instruction does to the parts once it is answered, and nothing for a local one, which is not answered.
macro_rules! finished {
    (stands Read ($program:ident $word:ident $words:ident $top:ident $held:ident) $decl:ident) => {
        $top.push($words, $word)
    };
    (stands Write ($program:ident $word:ident $words:ident $top:ident $held:ident) $decl:ident) => {{
        $top.pop($words);
    }};
    (stands ReadAt ($program:ident $word:ident $words:ident $top:ident $held:ident) $decl:ident) => {{
        $top.pop($words);
        $top.push($words, $word)
    }};
    (stands WriteAt ($program:ident $word:ident $words:ident $top:ident $held:ident) $decl:ident) => {{
        $top.pop($words);
        $top.pop($words);
    }};
    (stands Xchg ($program:ident $word:ident $words:ident $top:ident $held:ident) $decl:ident) => {{
        $top.pop($words);
        $top.push($words, $word)
    }};
    (stands AddTo ($program:ident $word:ident $words:ident $top:ident $held:ident) $decl:ident) => {{
        $top.pop($words);
        $top.push($words, $word)
    }};
    (stands Cas ($program:ident $word:ident $words:ident $top:ident $held:ident) $decl:ident) => {{
        $top.pop($words);
        $top.pop($words);
        $top.push($words, $word)
    }};
    (stands Enter ($program:ident $word:ident $words:ident $top:ident $held:ident) $monitor:ident) => {
        $held[monitor_index($program, $monitor)] = true
    };
    (stands Exit ($program:ident $word:ident $words:ident $top:ident $held:ident) $monitor:ident) => {
        $held[monitor_index($program, $monitor)] = false
    };
    (pushes $variant:ident $parts:tt $value:ident) => {
        ()
    };
    (stack $variant:ident $parts:tt $value:ident) => {
        ()
    };
    (two $variant:ident $parts:tt $value:ident) => {
        ()
    };
    (quotient $variant:ident $parts:tt $value:ident) => {
        ()
    };
    (bits $variant:ident $parts:tt $value:ident) => {
        ()
    };
    (shift $variant:ident $parts:tt $value:ident) => {
        ()
    };
    (compare $variant:ident $parts:tt $value:ident) => {
        ()
    };
    (complement $variant:ident $parts:tt $value:ident) => {
        ()
    };
    (gets $variant:ident $parts:tt $value:ident) => {
        ()
    };
    (sets $variant:ident $parts:tt $value:ident) => {
        ()
    };
    (jumps $variant:ident $parts:tt $value:ident) => {
        ()
    };
    (branches $variant:ident $parts:tt $value:ident) => {
        ()
    };
    (prints $variant:ident $parts:tt $value:ident) => {
        ()
    };
    (halts $variant:ident $parts:tt $value:ident) => {
        ()
    };
}

macro_rules! finishings {
    (($parts:tt $op:ident) $([$variant:ident $operand:tt $name:literal $popped:literal $pushed:literal $class:ident $($how:tt)*])*) => {
        match *$op {
            $(with_operand!($variant $operand value) => finished!($class $variant $parts value),)*
        }
    };
}

#[inline(never)]
fn any_held(held: &[bool]) -> bool
    ensures { result ≡ list_any (λ flag. flag) held.now }
{
    held.iter().any(|flag| *flag)
}

// The end by a trap of the instruction at this position.
fn trapped(trap: Trap, pc: u32) -> End
    ensures { result ≡ Trapped trap pc }
{
    End::Trapped { trap, pc }
}

// The end that a `halt` gives.
#[inline(always)]
fn end_of_halt(held: &[bool], pc: u32) -> End
    ensures { result ≡ halt_end held.now pc }
{
    if any_held(held) {
        trapped(Trap::HeldAtHalt, pc)
    } else {
        End::Halted
    }
}

// What is told where a thread stands at no shared instruction.
fn no_stop() -> Stop
    ensures { result ≡ Ended Halted }
{
    Stop::Ended { end: End::Halted }
}

// The cell of an array's member, or `None` exactly where the index is not below the array's size.
fn member_cell(program: &Checked, decl: u32, index: u64) -> Option<u32>
    requires { decl < length program.now.decls }
    ensures is { result ≡ cell_of_member program.now decl index }
    ensures within { IfSome result (IsCell program.now) }
{
    let size = program.decl(decl).shape.cells();
    if index < u64::from(size) {
        Some(program.first_cell(decl) + index as u32)
    } else {
        None
    }
}

// The place of a monitor among the flags of a thread.
fn monitor_index(program: &Checked, monitor: u32) -> usize
    requires { monitor < length program.now.monitors }
    ensures is { result ≡ monitor }
    ensures small { IsMonitor program.now monitor }
{
    // A program has no more monitors than a thread has flags.
    let monitors = program.monitors();
    prove!(monitor < monitors);
    monitor as usize
}

// Whether no other thread than this one is the holder.
fn is_free_for(thread: u8, holder: Option<u8>) -> bool
    ensures { result ≡ free_for thread holder }
{
    match holder {
        None => true,
        Some(other) => other == thread,
    }
}

// Makes an update of this cell, and tells the value that it had.
#[inline(always)]
fn update(cells: &mut [u64], cell: u32, change: Change) -> u64
    requires { cell < length cells.old }
    ensures old { result ≡ slice_index cells.old cell }
    ensures stored { cells.new ≡ slice_set cells.old cell (applied change (slice_index cells.old cell)) }
{
    let old = cells[cell as usize];
    cells[cell as usize] = change.applied(old);
    old
}

/// Executes a local instruction, or a shared one where a turn is left and the thread may go on there, or tells of a shared
/// one, at which the thread stands.
#[inline(always)]
pub fn execute(
    op: &Op,
    program: &Checked,
    thread: u8,
    pc: u32,
    words: &mut [u64; STACK_LIMIT],
    top: &mut Top,
    locals: &mut [u64; LOCAL_COUNT],
    held: &mut [bool; MONITOR_LIMIT],
    cells: &mut [u64],
    holders: &mut [Option<u8>],
    left: u32,
    out: &mut List<u8>,
) -> Next
    requires position { pc < INSTRUCTION_LIMIT }
    requires enough { popped (kind op.now) ≤ length (operands words.old top.old.depth) }
    requires room { depth_after op.now (length (operands words.old top.old.depth)) ≤ STACK_LIMIT }
    requires names { Names program.now op.now }
    requires spare { LINE_LIMIT ≤ out.old.spare }
    requires cells { 0 < left → cell_count program.now.decls ≤ length cells.old }
    requires holders { 0 < left → length holders.old ≡ MONITOR_LIMIT }
    ensures done { Executed program.now thread op.now (row program.now op.now pc (operands words.old top.old.depth) locals.old held.old) left result
        (parts (operands words.old top.old.depth) locals.old held.old cells.old holders.old out.old)
        (parts (operands words.new top.new.depth) locals.new held.new cells.new holders.new out.new) }
{
    instructions!(arms!((program thread pc words top locals held cells holders left out) op))
}

/// Where the thread stands at this instruction. One that is local or traps reads as if the thread had halted.
#[inline(always)]
pub fn stop_of(
    op: &Op,
    program: &Checked,
    words: &[u64; STACK_LIMIT],
    top: Top,
    held: &[bool; MONITOR_LIMIT],
) -> Stop
    requires enough { popped (kind op.now) ≤ length (operands words.now top.depth) }
    requires names { Names program.now op.now }
    ensures is { (pc : ℕ) → (locals : Words ℕ) → result ≡ stop_in (row program.now op.now pc (operands words.now top.depth) locals held.now) }
    ensures names_cell { NamesCell program.now result }
{
    instructions!(stops!((program words top held) op))
}

/// Completes a shared instruction, which is given the word that it reads, or 0.
#[inline(always)]
pub fn finish(
    op: &Op,
    program: &Checked,
    word: u64,
    words: &mut [u64; STACK_LIMIT],
    top: &mut Top,
    held: &mut [bool; MONITOR_LIMIT],
)
    requires enough { popped (kind op.now) ≤ length (operands words.old top.old.depth) }
    requires room { depth_after op.now (length (operands words.old top.old.depth)) ≤ STACK_LIMIT }
    requires names { Names program.now op.now }
    ensures stack { operands words.new top.new.depth ≡ done_stack op.now (operands words.old top.old.depth) word }
    ensures held { held.new ≡ done_held op.now held.old }
    ensures whole { length words.new ≡ length words.old }
{
    instructions!(finishings!((program word words top held) op));
}
