//! A plain, slow machine, from the description of the language: it makes one instruction at a time, and tells its
//! transcript and ends as text. `follow` is compared with it.
ghost use Rattle.std.specs.Prelude.{◌<◌, length};

use std::alloc::{AllocError, Global};
use std::fmt::Write;
use stride_cli::MemberFault;
use stride_isa::limits::{LOCAL_COUNT, MONITOR_LIMIT};
use stride_isa::{Checked, Op};

/// How a thread stands.
#[derive(Clone, Copy, PartialEq, Eq)]
enum Fate {
    Running,
    Halted,
    Trapped(&'static str),
    OutOfSteps,
}

#[derive(Drop)]
struct Thread {
    code: Vec<Op>,
    pc: usize,
    stack: Vec<u64>,
    locals: [u64; LOCAL_COUNT],
    made: u32,
    fate: Fate,
}

/// What all threads share. Each variable is a row of one cell, each array a row of its size.
#[derive(Drop)]
struct Shared {
    rows: Vec<Vec<u64>>,
    holders: [Option<usize>; MONITOR_LIMIT],
    transcript: String,
}

#[derive(Drop)]
struct Machine {
    fuel: u32,
    threads: Vec<Thread>,
    shared: Shared,
}

/// What comes of an order: the report, or the place of the first member that can't take its turn.
#[derive(Debug, PartialEq, Eq, Drop)]
pub(crate) enum Played {
    Report(String),
    Refused(u32, MemberFault),
}

/// What has to be known of an instruction before it is made.
#[derive(Clone, Copy)]
enum Look {
    /// It touches nothing that another thread can see, and can always be done.
    Plain,
    /// It divides by the topmost word.
    Division,
    /// It ends the thread.
    Halt,
    /// It is shared, and looks at a variable.
    Variable,
    /// It is shared, and looks at the cell of this array that the topmost word names.
    Member(u32),
    /// It enters this monitor.
    Enter(u32),
    /// It exits this monitor.
    Exit(u32),
}

/// A shared instruction at which a thread stands.
#[derive(Clone, Copy)]
enum Stop {
    /// One that waits for nothing.
    Free,
    /// It enters this monitor, and waits while a thread holds it.
    Enter(u32),
}

fn look_of(op: Op) -> Look {
    match op {
        Op::Push(_)
        | Op::Dup
        | Op::Drop
        | Op::Swap
        | Op::Over
        | Op::Add
        | Op::Sub
        | Op::Mul
        | Op::And
        | Op::Or
        | Op::Xor
        | Op::Shl
        | Op::Shr
        | Op::Eq
        | Op::Lt
        | Op::Not
        | Op::Get(_)
        | Op::Set(_)
        | Op::Jump(_)
        | Op::Jz(_)
        | Op::Jnz(_)
        | Op::Print => Look::Plain,
        Op::Div | Op::Rem => Look::Division,
        Op::Halt => Look::Halt,
        Op::Read(_) | Op::Write(_) | Op::Xchg(_) | Op::AddTo(_) | Op::Cas(_) => Look::Variable,
        Op::ReadAt(decl) | Op::WriteAt(decl) => Look::Member(decl),
        Op::Enter(monitor) => Look::Enter(monitor),
        Op::Exit(monitor) => Look::Exit(monitor),
    }
}

fn doubled(word: u64, times: u64) -> u64 {
    let mut word = word;
    for _ in 0..times {
        word = word.wrapping_mul(2);
    }
    word
}

fn halved(word: u64, times: u64) -> u64 {
    let mut word = word;
    for _ in 0..times {
        word /= 2;
    }
    word
}

impl Thread {
    fn new(alloc: Global, code: Vec<Op>) -> Thread {
        Thread {
            code,
            pc: 0,
            stack: Vec::new(alloc),
            locals: [0; LOCAL_COUNT],
            made: 0,
            fate: Fate::Running,
        }
    }

    fn pop(&mut self) -> u64 {
        self.stack.pop().unwrap_or(0)
    }

    /// The word at this depth, counted from the top.
    fn peek(&self, depth: usize) -> u64 {
        self.stack.iter().rev().nth(depth).copied().unwrap_or(0)
    }

    fn next_op(&self) -> Option<Op> {
        if self.fate != Fate::Running {
            return None;
        }
        self.code.get(self.pc).copied()
    }

    fn local(&self, local: u8) -> u64 {
        self.locals.get(local as usize).copied().unwrap_or(0)
    }

    /// Stores the topmost word in a local.
    fn set_local(&mut self, local: u8) {
        let word = self.pop();
        if let Some(place) = self.locals.get_mut(local as usize) {
            *place = word;
        }
    }

    /// Takes so many words off the stack, and puts this one on it.
    fn leave(&mut self, taken: u32, word: u64) -> Result<(), AllocError> {
        for _ in 0..taken {
            self.pop();
        }
        self.stack.push(word)?;
        Ok(())
    }

    fn swap(&mut self) -> Result<(), AllocError> {
        let (right, left) = (self.pop(), self.pop());
        self.leave(0, right)?;
        self.leave(0, left)
    }

    /// Takes a word off the stack, and goes to the position where it is 0, or where it is not.
    fn branch(&mut self, target: u32, wants_zero: bool) {
        if (self.pop() == 0) == wants_zero {
            self.pc = target as usize;
        }
    }
}

impl Shared {
    /// How many cells the declaration has.
    fn size(&self, decl: u32) -> u64 {
        match self.rows.get(decl as usize) {
            Some(row) => row.len() as u64,
            None => 0,
        }
    }

    fn cell(&self, decl: u32, index: u64) -> u64 {
        let Some(row) = self.rows.get(decl as usize) else {
            return 0;
        };
        row.get(index as usize).copied().unwrap_or(0)
    }

    fn set_cell(&mut self, decl: u32, index: u64, word: u64) {
        if let Some(row) = self.rows.get_mut(decl as usize) {
            if let Some(cell) = row.get_mut(index as usize) {
                *cell = word;
            }
        }
    }

    fn holder(&self, monitor: u32) -> Option<usize> {
        self.holders.get(monitor as usize).copied().unwrap_or(None)
    }

    fn set_holder(&mut self, monitor: u32, holder: Option<usize>) {
        if let Some(place) = self.holders.get_mut(monitor as usize) {
            *place = holder;
        }
    }

    fn holds_any(&self, number: usize) -> bool {
        self.holders.iter().any(|holder| *holder == Some(number))
    }

    /// The trap of an instruction of the thread, if it can't be done.
    fn trap(&self, number: usize, thread: &Thread, op: Op) -> Option<&'static str> {
        let holds = |monitor| self.holder(monitor) == Some(number);
        let (word, is_wrong) = match look_of(op) {
            Look::Plain | Look::Variable => return None,
            Look::Division => ("div-zero", thread.peek(0) == 0),
            Look::Halt => ("held-at-halt", self.holds_any(number)),
            Look::Member(decl) => ("range", thread.peek(0) >= self.size(decl)),
            Look::Enter(monitor) => ("again", holds(monitor)),
            Look::Exit(monitor) => ("not-held", !holds(monitor)),
        };
        if is_wrong { Some(word) } else { None }
    }

    fn print(&mut self, number: usize, word: u64) -> Result<(), AllocError> {
        writeln!(self.transcript, "{number} {word}")?;
        Ok(())
    }

    /// Stores a word in a variable, takes so many words off the stack, and leaves the old value.
    fn update(
        &mut self,
        thread: &mut Thread,
        decl: u32,
        taken: u32,
        word: u64,
    ) -> Result<(), AllocError> {
        let old = self.cell(decl, 0);
        self.set_cell(decl, 0, word);
        thread.leave(taken, old)
    }

    fn compare_and_swap(&mut self, thread: &mut Thread, decl: u32) -> Result<(), AllocError> {
        let (expected, new, old) = (thread.peek(1), thread.peek(0), self.cell(decl, 0));
        self.update(thread, decl, 2, if old == expected { new } else { old })
    }

    /// Makes an instruction of the thread that is no `halt` and has no trap.
    fn make(&mut self, number: usize, thread: &mut Thread, op: Op) -> Result<(), AllocError> {
        let (left, right) = (thread.peek(1), thread.peek(0));
        thread.pc = thread.pc.saturating_add(1);
        match op {
            Op::Push(word) => thread.leave(0, word)?,
            Op::Dup => thread.leave(0, right)?,
            Op::Drop => {
                thread.pop();
            }
            Op::Swap => thread.swap()?,
            Op::Over => thread.leave(0, left)?,
            Op::Add => thread.leave(2, left.wrapping_add(right))?,
            Op::Sub => thread.leave(2, left.wrapping_sub(right))?,
            Op::Mul => thread.leave(2, left.wrapping_mul(right))?,
            Op::Div => thread.leave(2, left.checked_div(right).unwrap_or(0))?,
            Op::Rem => thread.leave(2, left.checked_rem(right).unwrap_or(0))?,
            Op::And => thread.leave(2, left & right)?,
            Op::Or => thread.leave(2, left | right)?,
            Op::Xor => thread.leave(2, left ^ right)?,
            Op::Shl => thread.leave(2, doubled(left, right % 64))?,
            Op::Shr => thread.leave(2, halved(left, right % 64))?,
            Op::Eq => thread.leave(2, u64::from(left == right))?,
            Op::Lt => thread.leave(2, u64::from(left < right))?,
            Op::Not => thread.leave(1, !right)?,
            Op::Get(local) => thread.leave(0, thread.local(local))?,
            Op::Set(local) => thread.set_local(local),
            Op::Jump(target) => thread.pc = target as usize,
            Op::Jz(target) => thread.branch(target, true),
            Op::Jnz(target) => thread.branch(target, false),
            Op::Print => self.print(number, thread.pop())?,
            Op::Halt => {}
            Op::Read(decl) => thread.leave(0, self.cell(decl, 0))?,
            Op::Write(decl) => self.set_cell(decl, 0, thread.pop()),
            Op::ReadAt(decl) => thread.leave(1, self.cell(decl, right))?,
            Op::WriteAt(decl) => self.set_cell(decl, thread.pop(), thread.pop()),
            Op::Xchg(decl) => self.update(thread, decl, 1, right)?,
            Op::AddTo(decl) => self.update(
                thread,
                decl,
                1,
                self.cell(decl, 0).wrapping_add(right),
            )?,
            Op::Cas(decl) => self.compare_and_swap(thread, decl)?,
            Op::Enter(monitor) => self.set_holder(monitor, Some(number)),
            Op::Exit(monitor) => self.set_holder(monitor, None),
        }
        Ok(())
    }
}

impl Machine {
    /// At which shared instruction the thread stands. One that traps is a local instruction.
    fn stop(&self, number: usize) -> Option<Stop> {
        let thread = self.threads.get(number)?;
        let op = thread.next_op()?;
        if self.shared.trap(number, thread, op).is_some() {
            return None;
        }
        match look_of(op) {
            Look::Plain | Look::Division | Look::Halt => None,
            Look::Variable | Look::Member(_) | Look::Exit(_) => Some(Stop::Free),
            Look::Enter(monitor) => Some(Stop::Enter(monitor)),
        }
    }

    fn has_ended(&self, number: usize) -> bool {
        match self.threads.get(number) {
            Some(thread) => thread.fate != Fate::Running,
            None => true,
        }
    }

    fn can_take_turn(&self, number: usize) -> bool {
        match self.stop(number) {
            Some(Stop::Enter(monitor)) => self.shared.holder(monitor).is_none(),
            Some(Stop::Free) => true,
            None => false,
        }
    }

    /// Why a thread can't take its turn, if it can't.
    fn member_fault(&self, number: usize) -> MemberFault {
        match self.threads.get(number) {
            Some(_) => MemberFault::CannotGoOn,
            None => MemberFault::NoThread,
        }
    }

    /// Makes one instruction of the thread, if it has not ended.
    fn step(&mut self, number: usize) -> Result<(), AllocError> {
        let Some(thread) = self.threads.get_mut(number) else {
            return Ok(());
        };
        let Some(op) = thread.next_op() else {
            return Ok(());
        };
        if let Some(trap) = self.shared.trap(number, thread, op) {
            thread.fate = Fate::Trapped(trap);
            return Ok(());
        }
        if op == Op::Halt {
            thread.fate = Fate::Halted;
            return Ok(());
        }
        self.shared.make(number, thread, op)?;
        thread.made = thread.made.saturating_add(1);
        if thread.made >= self.fuel {
            thread.fate = Fate::OutOfSteps;
        }
        Ok(())
    }

    fn run_to_stop(&mut self, number: usize) -> Result<(), AllocError> {
        for _ in 0..self.fuel {
            if self.stop(number).is_some() || self.has_ended(number) {
                return Ok(());
            }
            self.step(number)?;
        }
        Ok(())
    }

    fn report(&self, alloc: Global) -> Result<String, AllocError> {
        let mut text = String::from_str(alloc, "transcript\n")?;
        text.push_str(self.shared.transcript.as_str())?;
        text.push_str("ends\n")?;
        for (number, thread) in self.threads.iter().enumerate() {
            let pc = thread.pc;
            match thread.fate {
                Fate::Running => writeln!(text, "{number} stopped at {pc}")?,
                Fate::Halted => writeln!(text, "{number} halted")?,
                Fate::Trapped(trap) => writeln!(text, "{number} trapped {trap} at {pc}")?,
                Fate::OutOfSteps => writeln!(text, "{number} out-of-steps")?,
            }
        }
        Ok(text)
    }
}

fn code_of(alloc: Global, program: &Checked, thread: u32) -> Result<Vec<Op>, AllocError>
    requires { thread < length program.now.threads }
{
    let mut code = Vec::new(alloc);
    for at in 0..program.code_len(thread) {
        code.push(program.op(thread, at))?;
    }
    Ok(code)
}

fn rows_of(alloc: Global, program: &Checked) -> Result<Vec<Vec<u64>>, AllocError> {
    let mut rows = Vec::new(alloc);
    for at in 0..program.decls() {
        let decl = program.decl(at);
        let row = vec![in alloc; decl.start; decl.shape.cells() as usize]?;
        rows.push(row)?;
    }
    Ok(rows)
}

fn machine_of(alloc: Global, program: &Checked, fuel: u32) -> Result<Machine, AllocError> {
    let mut threads = Vec::new(alloc);
    for thread in 0..program.threads() {
        let code = code_of(alloc, program, thread)?;
        threads.push(Thread::new(alloc, code))?;
    }
    let shared = Shared {
        rows: rows_of(alloc, program)?,
        holders: [None; MONITOR_LIMIT],
        transcript: String::new(alloc),
    };
    Ok(Machine {
        fuel,
        threads,
        shared,
    })
}

/// Plays the program by the order, with so many instructions for each thread.
pub(crate) fn play(
    alloc: Global,
    program: &Checked,
    order: &[u8],
    fuel: u32,
) -> Result<Played, AllocError> {
    let mut machine = machine_of(alloc, program, fuel)?;
    for number in 0..machine.threads.len() {
        machine.run_to_stop(number)?;
    }
    for (place, thread) in order.iter().enumerate() {
        let number = usize::from(*thread);
        if !machine.can_take_turn(number) {
            let place = u32::try_from(place).unwrap_or(u32::MAX);
            return Ok(Played::Refused(place, machine.member_fault(number)));
        }
        machine.step(number)?;
        machine.run_to_stop(number)?;
    }
    Ok(Played::Report(machine.report(alloc)?))
}
