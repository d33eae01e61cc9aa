//! What no clause says: that calls with ample memory succeed, that the clauses serve their callers,
//! and what the wrappers of std's devices do.
ghost use Rattle.std.specs.Prelude.{◌≡◌, ◌+◌, ◌<◌, IfOk, length, slice_set};
ghost use Rattle.stride_base.specs.Ascending.{AreDistinct};

use crate::{
    Ascending, Failed, InputError, List, MemSink, MemSource, NoMemory, Sink, StdSink, StdSource,
    Steps, put_all, read_all,
};
use std::alloc::Global;
use std::io;
use std::io::{ErrorKind, Read, Write};
use std::marker::Brand;
use std::sync::Wait;
use std::sync::ledger::{Blank, Ledger};
use std::test::Fail;
use std::thread::Threads;

fn three_items(alloc: Global) -> Result<List<u8>, NoMemory> {
    let mut list = List::new(alloc);
    list.push(5)?;
    list.reserve(2)?;
    list.push_spare(6);
    list.push_spare(7);
    Ok(list)
}

fn put_seven(list: &mut List<u8>, i: usize)
    requires { i < length list.old.items }
    ensures items { list.new.items ≡ slice_set list.old.items i 7 }
    ensures spare { list.new.spare ≡ list.old.spare }
{
    *list.get_mut(i) = 7;
}

#[test]
fn list_grows(rt: HostRuntime) -> Result<(), Fail> {
    let mut list = three_items(rt.alloc())?;
    assert_eq!(rt; list.len(), 3);
    put_seven(&mut list, 0);
    list.push_all(&[8, 9])?;
    assert_eq!(rt; list.as_slice(), [7, 6, 7, 8, 9].as_slice());
    Ok(())
}

#[test]
fn list_is_cut(rt: HostRuntime) -> Result<(), Fail> {
    let mut list = three_items(rt.alloc())?;
    assert_eq!(rt; list.len(), 3);
    list.cut(1);
    list.push_spare(8);
    list.push_spare(9);
    assert_eq!(rt; list.as_slice(), [5, 8, 9].as_slice());
    list.cut(3);
    list.cut(0);
    assert!(rt; list.is_empty());
    Ok(())
}

#[test]
fn input_is_read_to_its_end(rt: HostRuntime) -> Result<(), Fail> {
    let alloc = rt.alloc();
    for (bytes, failing, limit, want, rest) in [
        (
            b"abc".as_slice(),
            [].as_slice(),
            3,
            Ok(b"abc".as_slice()),
            b"".as_slice(),
        ),
        (b"abcd", &[], 3, Err(InputError::TooLong), b""),
        (b"abcdef", &[], 3, Err(InputError::TooLong), b"ef"),
        (b"", &[], 3, Ok(b""), b""),
        (b"", &[], 0, Ok(b""), b""),
        (b"a", &[], 0, Err(InputError::TooLong), b""),
        (b"ab", &[], 0, Err(InputError::TooLong), b"b"),
        (b"abc", &[], usize::MAX, Ok(b"abc"), b""),
        (b"abc", &[1], 3, Err(InputError::ReadFault), b"abc"),
        (b"abc", &[2], 3, Err(InputError::ReadFault), b""),
        (b"abc", &[3], 3, Ok(b"abc"), b""),
        (b"abcd", &[2], 3, Err(InputError::TooLong), b""),
    ] {
        let mut source = MemSource::new(alloc, bytes, failing)?;
        match (read_all(alloc, &mut source, limit), want) {
            (Ok(list), Ok(want)) => assert_eq!(rt; list.as_slice(), want),
            (Err(error), Err(want)) => assert_eq!(rt; error, want),
            _ => assert!(rt; false, "{bytes:?} {failing:?} {limit}"),
        }
        assert_eq!(rt; source.rest(), rest);
    }
    Ok(())
}

#[test]
fn input_is_read_in_many_pieces(rt: HostRuntime) -> Result<(), Fail> {
    let bytes = vec![in rt.alloc(); 7; 1000000]?;
    let mut source = MemSource::new(rt.alloc(), &bytes, &[])?;
    let list = read_all(rt.alloc(), &mut source, 1000000).ok();
    assert!(rt; list.is_some_and(|list| list.as_slice() == bytes.as_slice()));
    assert_eq!(rt; source.rest().len(), 0);
    assert_eq!(rt; source.faults(), 0);
    Ok(())
}

#[test]
fn sink_keeps_a_front(rt: HostRuntime) -> Result<(), Fail> {
    for (per_call, room, failing, want, held, faults) in [
        (4, 100, [2].as_slice(), Err(Failed), "sche", 1),
        (4, 100, &[], Ok(()), "schedule", 0),
        (4, 100, &[3], Ok(()), "schedule", 0),
        (4, 100, &[1], Err(Failed), "", 1),
        (100, 6, &[], Err(Failed), "schedu", 1),
        (100, 8, &[], Ok(()), "schedule", 0),
        (1, 0, &[], Err(Failed), "", 1),
    ] {
        let mut sink = MemSink::new(rt.alloc(), per_call, room, failing)?;
        assert_eq!(rt; put_all(&mut sink, b"schedule"), want, "{held}");
        assert_eq!(rt; sink.bytes(), held.as_bytes());
        assert_eq!(rt; sink.faults(), faults);
        assert_eq!(rt; put_all(&mut sink, b""), Ok(()));
        assert_eq!(rt; sink.faults(), faults);
    }
    Ok(())
}

/// Gives two bytes a call, and has a fault at its third.
#[derive(Drop)]
struct BadReader {
    calls: u8,
}

impl Read for BadReader {
    fn read(&mut self, buf: &mut [u8]) -> io::Result<usize> {
        self.calls = self.calls.saturating_add(1);
        if self.calls == 3 {
            return Err(io::Error::from(ErrorKind::BrokenPipe));
        }
        let n = buf.len().min(2);
        buf[..n].fill(9);
        Ok(n)
    }
}

/// Takes two bytes a call until `room` are taken, and flushes at most `flushes` times.
#[derive(Drop)]
struct BadWriter {
    room: usize,
    flushes: u8,
}

impl Write for BadWriter {
    fn write(&mut self, buf: &[u8]) -> io::Result<usize> {
        let n = buf.len().min(2).min(self.room);
        self.room -= n;
        Ok(n)
    }

    fn flush(&mut self) -> io::Result<()> {
        if self.flushes == 0 {
            return Err(io::Error::from(ErrorKind::BrokenPipe));
        }
        self.flushes -= 1;
        Ok(())
    }
}

#[test]
fn std_devices_count_their_faults(rt: HostRuntime) -> Result<(), Fail> {
    let mut source = StdSource::new(b"abc".as_slice());
    let list = read_all(rt.alloc(), &mut source, 3).ok();
    assert!(rt; list.is_some_and(|list| list.as_slice() == b"abc".as_slice()));

    let mut source = StdSource::new(BadReader { calls: 0 });
    let error = read_all(rt.alloc(), &mut source, 100).err();
    assert_eq!(rt; error, Some(InputError::ReadFault));

    let mut written = Vec::new(rt.alloc());
    let mut sink = StdSink::new(&mut written);
    assert_eq!(rt; put_all(&mut sink, b"abc"), Ok(()));
    drop(sink);
    assert_eq!(rt; written.as_slice(), b"abc".as_slice());

    for (room, flushes, want) in [(5, 9, Ok(())), (4, 9, Err(Failed)), (5, 2, Err(Failed))] {
        let mut sink = StdSink::new(BadWriter { room, flushes });
        assert_eq!(rt; put_all(&mut sink, b"abcde"), want, "{room} {flushes}");
    }
    Ok(())
}

fn tick_twice<L: Ledger>(steps: &mut Steps<L>)
    ensures { steps.new ≡ steps.old + 2 }
{
    steps.tick();
    steps.tick();
}

fn expect_two<L: Ledger>(_steps: &Steps<L>)
    requires { _steps.now ≡ 2 }
{}

// The ledger is picked at the call of this function, so no type of its signature may name it.
fn count_two<L: Ledger, R: Threads + Wait + Sync>(rt: &R, blank: Blank)
    requires name { blank.name ≡ L.name }
    requires parts { blank.parts ≡ L.parts }
    requires some_part { 0 < blank.parts }
{
    let mut steps = Steps::<L>::new(rt, blank);
    tick_twice(&mut steps);
    expect_two(&steps);
}

#[test]
fn steps_are_counted(rt: HostRuntime) {
    count_two::<Brand, HostRuntime>(&rt, Blank::new(1));
}

// Each triple's third member is its place, so no two are equal.
fn four_triples(alloc: Global) -> Result<List<(u32, u64, u32)>, NoMemory>
    ensures distinct { IfOk result (λ list. AreDistinct list.items) }
    ensures len { IfOk result (λ list. length list.items ≡ 4) }
{
    let mut list = List::new(alloc);
    list.push_all(&[(7, 5, 0), (2, u64::MAX, 1), (7, 1, 2), (2, u64::MAX, 3)])?;
    Ok(list)
}

fn all_four<L: Ledger>(index: &Ascending, steps: &mut Steps<L>) -> [(u32, u64, u32); 4]
    requires { length index.now ≡ 4 }
    ensures { steps.new ≡ steps.old + 4 }
{
    [
        index.at(0, steps),
        index.at(1, steps),
        index.at(2, steps),
        index.at(3, steps),
    ]
}

fn expect_four<L: Ledger>(_steps: &Steps<L>)
    requires { _steps.now ≡ 4 }
{}

fn look_at_four<L: Ledger, R: Threads + Wait + Sync>(
    rt: &R,
    blank: Blank,
    index: &Ascending,
) -> [(u32, u64, u32); 4]
    requires name { blank.name ≡ L.name }
    requires parts { blank.parts ≡ L.parts }
    requires some_part { 0 < blank.parts }
    requires four { length index.now ≡ 4 }
{
    let mut steps = Steps::<L>::new(rt, blank);
    let triples = all_four(index, &mut steps);
    expect_four(&steps);
    triples
}

#[test]
fn triples_are_sorted_and_looks_counted(rt: HostRuntime) -> Result<(), Fail> {
    let index = Ascending::sorted(four_triples(rt.alloc())?);
    assert_eq!(rt; index.len(), 4);
    let triples = look_at_four::<Brand, HostRuntime>(&rt, Blank::new(1), &index);
    assert_eq!(rt;
        triples,
        [(2, u64::MAX, 1), (2, u64::MAX, 3), (7, 1, 2), (7, 5, 0)]
    );
    Ok(())
}

fn expect_moves<T: Send>(_value: &T) {}

fn expect_shares<T: Sync>(_value: &T) {}

// A list may be moved to another thread where its items may, and shared where they may.
fn list_moves<T: Send>(list: &List<T>) {
    expect_moves(list);
}

fn list_shares<T: Sync>(list: &List<T>) {
    expect_shares(list);
}

#[test]
fn lists_cross_threads(rt: HostRuntime) -> Result<(), Fail> {
    let triples = four_triples(rt.alloc())?;
    list_moves(&triples);
    list_shares(&triples);
    let index = Ascending::sorted(triples);
    expect_moves(&index);
    expect_shares(&index);
    Ok(())
}
