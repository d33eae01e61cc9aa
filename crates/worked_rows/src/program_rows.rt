//! Rows of the commands that read programs.

use crate::rows::{Ending, Row, Run, plain_run, play_all};
use assembler::AsmKind;
use std::test::Fail;
use stride_cli::MemberFault;
use stride_isa::CheckKind;

/// Two threads: one writes 3 into a variable, the other reads and prints it.
const PUBLISH: &[u8] = b"var x 0\nthread\npush 3\nwrite x\nhalt\nthread\nread x\nprint\nhalt\n";

fn row<'a>(words: &'a [&'a str], text: &'a [u8], order: &'a [u8], ending: Ending) -> Row<'a> {
    Row {
        run: plain_run(words, text, order),
        ending,
        held: b"",
    }
}

fn done<'a>(words: &'a [&'a str], text: &'a [u8], order: &'a [u8], held: &'a [u8]) -> Row<'a> {
    Row {
        held,
        ..row(words, text, order, Ending::Done)
    }
}

#[test]
fn reports_are_put(rt: HostRuntime) -> Result<(), Fail> {
    let updates =
        b"var x 0\nthread\npush 5\naddto x\nprint\nhalt\nthread\npush 7\nxchg x\nprint\nhalt\n";
    let rows = [
        done(
            &["check"],
            b"var total   05\nthread\nagain: # a loop\nread total\njnz again\nhalt\n",
            b"",
            b"var total 5\nthread\nL0:\nread total\njnz L0\nhalt\n",
        ),
        done(
            &["follow"],
            PUBLISH,
            b"order\n0 1\n",
            b"transcript\n1 3\nends\n0 halted\n1 halted\n",
        ),
        done(
            &["follow"],
            updates,
            b"order\n1 0\n",
            b"transcript\n1 0\n0 7\nends\n0 halted\n1 halted\n",
        ),
        done(
            &["sim"],
            PUBLISH,
            b"order\n1 0*4 1\n",
            b"logs\n0 write 1\n1 read 0 1\nlinks\n1 0 0\nschedule 2\n1*1\n0*1\ntranscript\n1 0\nends\n0 halted\n1 halted\n",
        ),
        done(
            &["sim"],
            updates,
            b"order\n0*5 1*5\n",
            b"logs\n0 update 0 1\n1 update 5 2\nlinks\nschedule 2\n0*1\n1*1\ntranscript\n0 0\n1 5\nends\n0 halted\n1 halted\n",
        ),
    ];
    play_all(&rt, rt.alloc(), &rows)
}

#[test]
fn the_first_refusal_is_told(rt: HostRuntime) -> Result<(), Fail> {
    let rows = [
        row(
            &["follow"],
            PUBLISH,
            b"order\n0 0\n",
            Ending::NotEnabled(1, MemberFault::CannotGoOn),
        ),
        row(
            &["follow"],
            PUBLISH,
            b"order\n2\n",
            Ending::NotEnabled(0, MemberFault::NoThread),
        ),
        row(
            &["sim"],
            PUBLISH,
            b"order\n0 7\n",
            Ending::NotEnabled(1, MemberFault::NoThread),
        ),
        // The order's lines are counted with those of the text, of which there are nine, and a word of the order is refused before
        // any member of it.
        row(
            &["follow"],
            PUBLISH,
            b"order\n2 256\n",
            Ending::Text(AsmKind::BadNumber, 11),
        ),
        row(
            &["sim"],
            b"thread\nadd\nhalt\n",
            b"order\n7 x\n",
            Ending::Code(CheckKind::Underflow, 2, 0, 0),
        ),
        row(
            &["check"],
            b"array a 2\nthread\nhalt\nthread\npush 1\naddto a\nhalt\n",
            b"",
            Ending::Code(CheckKind::BadName, 6, 1, 1),
        ),
        row(
            &["check"],
            b"thread\nhalt\norder\n0\n",
            b"",
            Ending::Text(AsmKind::BadLine, 3),
        ),
        row(&[], PUBLISH, b"order\n0 1\n", Ending::Usage),
        row(&["run"], PUBLISH, b"order\n0 1\n", Ending::Usage),
        row(
            &["follow", "follow"],
            PUBLISH,
            b"order\n0 1\n",
            Ending::Usage,
        ),
        row(&["Check"], b"thread\nhalt\n", b"", Ending::Usage),
    ];
    play_all(&rt, rt.alloc(), &rows)
}

/// The schedule `0 1` of two threads, over devices with these failing calls and this room.
fn faulty<'a>(
    failing_reads: &'a [u32],
    failing_puts: &'a [u32],
    room: usize,
    ending: Ending,
    held: &'a [u8],
) -> Row<'a> {
    let run = Run {
        failing_reads,
        failing_puts,
        room,
        ..plain_run(&["follow"], PUBLISH, b"order\n0 1\n")
    };
    Row { run, ending, held }
}

#[test]
fn faults_of_devices_are_told(rt: HostRuntime) -> Result<(), Fail> {
    let rows = [
        faulty(&[], &[2], 100, Ending::WriteFault, b"tran"),
        faulty(&[], &[1], 100, Ending::WriteFault, b""),
        faulty(&[], &[], 14, Ending::WriteFault, b"transcript\n1 3"),
        faulty(&[1], &[], 100, Ending::ReadFault, b""),
        faulty(&[2], &[], 100, Ending::ReadFault, b""),
        faulty(&[1], &[1], 100, Ending::ReadFault, b""),
    ];
    play_all(&rt, rt.alloc(), &rows)
}
