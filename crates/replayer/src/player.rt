//! One thread of a program that is played by a schedule.
ghost use Rattle.std.specs.Prelude.{◌≡◌, ◌++◌, ◌<◌, ◌≤◌, OnOk, IfOk, length, true};
ghost use Rattle.sc_machine.specs.Transcript.{tag};
ghost use Rattle.replayer.specs.FirstLine.{line_length};

use itoa::Buffer;
use sc_machine::StandingThread;
use std::alloc::Global;
use stride_base::{List, NoMemory};
use stride_isa::Checked;
use stride_isa::limits::{FUEL_LIMIT, MONITOR_LIMIT};

/// A thread that is played, with the label of its lines in the transcript.
#[derive(Drop)]
pub struct Player<'p> {
    pub thread: StandingThread<'p>,
    label: List<u8>,
    ghost labelled: { label.items ≡ tag thread.number },
}

fn label_of(alloc: Global, thread: u32) -> Result<List<u8>, NoMemory>
    ensures { IfOk result (λ label. label.items ≡ tag thread) }
{
    let mut label = List::new(alloc);
    label.push_all(Buffer::new().format(thread).as_bytes())?;
    label.push(b' ')?;
    Ok(label)
}

// The length of the first line, with its line feed; of all bytes where there is none.
fn line_len(bytes: &[u8]) -> usize
    ensures { result ≡ line_length bytes.now }
{
    for (at, byte) in bytes.iter().enumerate() {
        if *byte == b'\n' {
            return at + 1;
        }
    }
    bytes.len()
}

impl<'p> Player<'p> {
    ghost use Rattle.sc_machine.specs.StandingThread.{started_at};
    ghost use Rattle.sc_machine.specs.ThreadStep.{start_thread};
    ghost use Rattle.sc_machine.specs.Schedule.{settled_lines};
    ghost use Rattle.sc_machine.specs.Transcript.{tagged, transcript_bytes};
    ghost use Rattle.stride_isa.specs.Listing.{cell_count};
    ghost use Rattle.replayer.specs.Players.{WentTurns};

    /// The thread after its local start. What it prints on the way is appended to the transcript too.
    pub fn start(
        alloc: Global,
        program: &'p Checked,
        number: u32,
        fuel: u32,
        transcript: &mut List<u8>,
    ) -> Result<Player<'p>, NoMemory>
        requires thread { number < length program.now.threads }
        requires some { 1 ≤ fuel }
        requires limit { fuel ≤ FUEL_LIMIT }
        ensures thread { IfOk result (λ player. player.thread ≡ started_at program.now fuel number) }
        ensures printed { OnOk result (transcript.new.items ≡ transcript.old.items ++ transcript_bytes (settled_lines program.now fuel number start_thread)) }
    {
        sc_machine::settled_prints();
        let label = label_of(alloc, number)?;
        let thread = StandingThread::start(alloc, program, number, fuel)?;
        let player = Player { thread, label };
        player.tell(player.thread.printed(), transcript)?;
        Ok(player)
    }

    /// Takes up to this many turns of the thread in a row, and tells how many: those before the first stop at which it may not
    /// go on. What it prints on the way is appended to the transcript too.
    pub fn turns(
        &mut self,
        limit: u32,
        cells: &mut [u64],
        holders: &mut [Option<u8>],
        transcript: &mut List<u8>,
    ) -> Result<u32, NoMemory>
        requires cells { cell_count self.old.thread.program.decls ≤ length cells.old }
        requires holders { length holders.old ≡ MONITOR_LIMIT }
        ensures { IfOk result (λ taken. WentTurns self.old.thread self.new.thread limit taken cells.old cells.new holders.old holders.new transcript.old.items transcript.new.items) }
    {
        sc_machine::turns_print();
        let before = self.thread.printed().len();
        let taken = self.thread.turns(limit, cells, holders);
        self.tell(self.thread.printed().split_at(before).1, transcript)?;
        Ok(taken)
    }

    /// Appends bytes that the thread printed, with its label before each line. Most turns print nothing.
    #[inline(always)]
    pub fn tell(&self, printed: &[u8], transcript: &mut List<u8>) -> Result<(), NoMemory>
        ensures { OnOk result (transcript.new.items ≡ transcript.old.items ++ tagged self.now.thread.number true printed.now) }
    {
        if printed.is_empty() {
            return Ok(());
        }
        self.put_lines(printed, transcript)
    }

    /// Each line is appended at once.
    #[inline(never)]
    fn put_lines(&self, printed: &[u8], transcript: &mut List<u8>) -> Result<(), NoMemory>
        ensures { OnOk result (transcript.new.items ≡ transcript.old.items ++ tagged self.now.thread.number true printed.now) }
    {
        let mut rest = printed;
        while !rest.is_empty() {
            let (line, after) = rest.split_at(line_len(rest));
            transcript.push_all(self.label.as_slice())?;
            transcript.push_all(line)?;
            rest = after;
        }
        Ok(())
    }
}
