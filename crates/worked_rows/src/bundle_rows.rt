//! Rows of the commands that read bundles.

use crate::rows::{Ending, Misfit, Row, plain_run, play_all};
use log_format::FormatKind;
use std::alloc::Global;
use std::process::Abort;
use std::sync::Wait;
use std::test::Fail;
use std::thread::Threads;

/// One thread that halts, and logged nothing.
const HALTING: [u8; 34] =
    *b"STRIDE1\n\x00\x01\x86\xa0\x00\x00\x00\x0cthread\nhalt\n\x00\x01\x00\x00\x00\x00";

/// One thread that wrote 4 into a variable and read it.
const WRITING: [u8; 88] =
    *b"STRIDE1\n\x00\x01\x86\xa0\x00\x00\x00\x30var x 0\nthread\npush 4\nwrite x\nread x\nprint\nhalt\n\x00\x01\x00\x00\x00\x02\x02\x00\x00\x00\x01\x01\x00\x00\x00\x00\x00\x00\x00\x04\x00\x00\x00\x01";

/// Three threads after a text that is no program: the first entered a monitor, the second logged nothing, the third read.
const MEETING: [u8; 52] =
    *b"STRIDE1\n\x00\x0f\x42\x40\x00\x00\x00\x04\x00ha?\x00\x03\x00\x00\x00\x01\x03\x00\x00\x01\x00\x00\x00\x00\x00\x00\x00\x00\x01\x01\xff\xff\xff\xff\xff\xff\xff\xff\x00\x00\x00\x00";

/// The same as `WRITING`, in version 2.
const WRITING_TWO: [u8; 67] =
    *b"STRIDE2\n\xa0\x8d\x06\x30var x 0\nthread\npush 4\nwrite x\nread x\nprint\nhalt\n\x01\x02\x02\x01\x01\x04\x02";

/// Two threads, each of which writes a variable of its own and then read the other's starting value.
const CROSSING: [u8; 156] =
    *b"STRIDE1\n\x00\x01\x86\xa0\x00\x00\x00^var x 0\nvar y 0\nthread\npush 1\nwrite x\nread y\ndrop\nhalt\nthread\npush 1\nwrite y\nread x\ndrop\nhalt\n\x00\x02\x00\x00\x00\x02\x02\x00\x00\x00\x01\x01\x00\x00\x00\x00\x00\x00\x00\x00\x00\x00\x00\x00\x00\x00\x00\x02\x02\x00\x00\x00\x01\x01\x00\x00\x00\x00\x00\x00\x00\x00\x00\x00\x00\x00";

/// A thread that reads, and by its log wrote.
const DIVERGING: [u8; 96] =
    *b"STRIDE1\n\x00\x01\x86\xa0\x00\x00\x00<var x 0\nthread\nread x\nprint\nhalt\nthread\npush 7\nwrite x\nhalt\n\x00\x02\x00\x00\x00\x01\x02\x00\x00\x00\x01\x00\x00\x00\x01\x02\x00\x00\x00\x01";

/// Two threads that updated a variable one after the other.
const UPDATING: [u8; 94] =
    *b"STRIDE2\n\xa0\x8d\x06Ivar x 0\nthread\npush 5\naddto x\nprint\nhalt\nthread\npush 7\nxchg x\nprint\nhalt\n\x02\x01\x04\x00\x01\x01\x04\x05\x02";

fn row<'a>(words: &'a [&'a str], bytes: &'a [u8], ending: Ending, held: &'a [u8]) -> Row<'a> {
    Row {
        run: plain_run(words, bytes, b""),
        ending,
        held,
    }
}

fn refused(bytes: &[u8], kind: FormatKind, offset: u64) -> Row<'_> {
    row(&["show"], bytes, Ending::Bundle(kind, offset), b"")
}

/// Shows what is left of the bundle when it is cut off, at each length, and what has one byte more.
fn cut_off_everywhere<R: Threads + Wait + Sync + Abort>(
    rt: &R,
    alloc: Global,
    bundle: &[u8],
) -> Result<(), Fail> {
    for length in 0..bundle.len() {
        let row = refused(&bundle[..length], FormatKind::Short, length as u64);
        play_all(rt, alloc, &[row])?;
    }
    let mut longer = bundle.to_vec(alloc)?;
    longer.push(0)?;
    let row = refused(&longer, FormatKind::Long, bundle.len() as u64);
    play_all(rt, alloc, &[row])
}

#[test]
fn bundles_are_shown_and_upgraded(rt: HostRuntime) -> Result<(), Fail> {
    let shown: &[u8] =
        b"threads 1\nfuel 100000\nlogs\n0 write 1\n0 read 4 1\ntext\nvar x 0\nthread\npush 4\nwrite x\nread x\nprint\nhalt\n";
    let rows = [
        row(
            &["show"],
            &HALTING,
            Ending::Done,
            b"threads 1\nfuel 100000\nlogs\ntext\nthread\nhalt\n",
        ),
        row(&["show"], &WRITING, Ending::Done, shown),
        row(&["show"], &WRITING_TWO, Ending::Done, shown),
        row(
            &["show"],
            &MEETING,
            Ending::Done,
            b"threads 3\nfuel 1000000\nlogs\n0 enter 256\n2 read 18446744073709551615 0\ntext\n\x00ha?",
        ),
        row(&["upgrade"], &WRITING, Ending::Done, &WRITING_TWO),
        row(&["upgrade"], &WRITING_TWO, Ending::Done, &WRITING_TWO),
    ];
    play_all(&rt, rt.alloc(), &rows)
}

#[test]
fn bundles_are_inferred_and_replayed(rt: HostRuntime) -> Result<(), Fail> {
    let links: &[u8] = b"links\n0 1 1\nschedule 2\n0*2\n";
    let run: &[u8] = b"schedule 2\n0*2\ntranscript\n0 4\nends\n0 halted\n";
    let rows = [
        row(&["infer"], &WRITING, Ending::Done, links),
        row(&["infer"], &WRITING_TWO, Ending::Done, links),
        row(&["replay"], &WRITING, Ending::Done, run),
        row(&["replay"], &WRITING_TWO, Ending::Done, run),
        row(
            &["replay"],
            &UPDATING,
            Ending::Done,
            b"schedule 2\n0*1\n1*1\ntranscript\n0 0\n1 5\nends\n0 halted\n1 halted\n",
        ),
        row(&["infer"], &DIVERGING, Ending::Diverges(0, 0), b""),
        row(&["replay"], &DIVERGING, Ending::Diverges(0, 0), b""),
        row(
            &["infer"],
            &CROSSING,
            Ending::NoLinkage(Misfit::Cycle(4)),
            b"",
        ),
        row(
            &["replay"],
            &CROSSING,
            Ending::NoLinkage(Misfit::Cycle(4)),
            b"",
        ),
    ];
    play_all(&rt, rt.alloc(), &rows)
}

#[test]
fn what_is_cut_off_is_short(rt: HostRuntime) -> Result<(), Fail> {
    cut_off_everywhere(&rt, rt.alloc(), &HALTING)?;
    cut_off_everywhere(&rt, rt.alloc(), &WRITING)?;
    cut_off_everywhere(&rt, rt.alloc(), &WRITING_TWO)
}

#[test]
fn the_first_wrong_byte_is_named(rt: HostRuntime) -> Result<(), Fail> {
    let mut version = HALTING;
    version[6] = 0x32;
    let mut magic = HALTING;
    magic[6] = 0x33;
    let mut fuel = HALTING;
    fuel[8..12].fill(0);
    let mut threads = HALTING;
    threads[29] = 17;
    let mut tag = WRITING;
    tag[70] = 4;
    let mut bound = WRITING_TWO;
    bound[66] = 1;
    let mut form = WRITING_TWO;
    form[65] = 0x84;
    form[66] = 0;
    let rows = [
        refused(&version, FormatKind::BadCount, 8),
        refused(&magic, FormatKind::BadMagic, 6),
        refused(b"SX", FormatKind::BadMagic, 1),
        refused(&fuel, FormatKind::BadCount, 8),
        refused(&threads, FormatKind::BadCount, 28),
        refused(&tag, FormatKind::BadTag, 70),
        refused(&bound, FormatKind::BadCount, 66),
        refused(&form, FormatKind::BadForm, 65),
        row(
            &["upgrade"],
            &tag,
            Ending::Bundle(FormatKind::BadTag, 70),
            b"",
        ),
    ];
    play_all(&rt, rt.alloc(), &rows)
}
