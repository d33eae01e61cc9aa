//! What no clause says of bundles: some of them to the byte, and what is refused, with ample memory.
use super::*;
use interleavings::LogEntry;
use std::test::*;
use stride_base::List;

/// The program `thread` and `halt` with 100,000 instructions, and no entry, in version 1.
const HALTING: [u8; 34] =
    *b"STRIDE1\n\x00\x01\x86\xa0\x00\x00\x00\x0cthread\nhalt\n\x00\x01\x00\x00\x00\x00";

/// The same in version 2.
const HALTING_TWO: [u8; 26] = *b"STRIDE2\n\xa0\x8d\x06\x0cthread\nhalt\n\x01\x00";

/// A program that writes a variable and reads it, with a write and a read, in version 1.
const WRITING: [u8; 88] =
    *b"STRIDE1\n\x00\x01\x86\xa0\x00\x00\x00\x30var x 0\nthread\npush 4\nwrite x\nread x\nprint\nhalt\n\x00\x01\x00\x00\x00\x02\x02\x00\x00\x00\x01\x01\x00\x00\x00\x00\x00\x00\x00\x04\x00\x00\x00\x01";

/// The same in version 2.
const WRITING_TWO: [u8; 67] =
    *b"STRIDE2\n\xa0\x8d\x06\x30var x 0\nthread\npush 4\nwrite x\nread x\nprint\nhalt\n\x01\x02\x02\x01\x01\x04\x02";

fn refusal(rt: HostRuntime, bytes: &[u8]) -> Option<FormatError> {
    decode(rt.alloc(), bytes).err()
}

const fn bad(kind: FormatKind, offset: u64) -> Option<FormatError> {
    Some(FormatError::Bad { kind, offset })
}

#[test]
fn both_versions_are_read_and_written_in_the_second(rt: HostRuntime) -> Result<(), Fail> {
    let rows: [(&[u8], usize, &[u8]); 4] = [
        (&HALTING, 0, &HALTING_TWO),
        (&HALTING_TWO, 0, &HALTING_TWO),
        (&WRITING, 2, &WRITING_TWO),
        (&WRITING_TWO, 2, &WRITING_TWO),
    ];
    for (bytes, entries, again) in rows {
        let bundle = decode(rt.alloc(), bytes)?;
        assert_eq!(rt; bundle.fuel, 100_000);
        assert_eq!(rt; bundle.logs.len(), 1);
        for log in bundle.logs.as_slice() {
            assert_eq!(rt; log.len(), entries);
        }
        assert_eq!(rt; encode(rt.alloc(), &bundle)?.as_slice(), again);
    }
    Ok(())
}

#[test]
fn what_is_cut_off_is_short_and_what_follows_is_long(rt: HostRuntime) -> Result<(), Fail> {
    let rows: [&[u8]; 4] = [&HALTING, &HALTING_TWO, &WRITING, &WRITING_TWO];
    for bytes in rows {
        for length in 0..bytes.len() {
            assert_eq!(rt;
                refusal(rt, &bytes[..length]),
                bad(FormatKind::Short, length as u64)
            );
        }
        let mut longer = List::new(rt.alloc());
        longer.push_all(bytes)?;
        longer.push(0)?;
        assert_eq!(rt;
            refusal(rt, longer.as_slice()),
            bad(FormatKind::Long, bytes.len() as u64)
        );
    }
    Ok(())
}

#[test]
fn wrong_bytes_are_told_where_they_are(rt: HostRuntime) {
    let mut magic = HALTING;
    magic[6] = 0x33;
    assert_eq!(rt; refusal(rt, &magic), bad(FormatKind::BadMagic, 6));
    let mut fuel = HALTING;
    fuel[6] = 0x32;
    assert_eq!(rt; refusal(rt, &fuel), bad(FormatKind::BadCount, 8));
    fuel[6] = 0x31;
    fuel[8..12].fill(0);
    assert_eq!(rt; refusal(rt, &fuel), bad(FormatKind::BadCount, 8));
    let mut threads = HALTING;
    threads[29] = 17;
    assert_eq!(rt; refusal(rt, &threads), bad(FormatKind::BadCount, 28));
    let rows = [0, 4, 5];
    for unknown in rows {
        let mut tag = WRITING;
        tag[70] = unknown;
        assert_eq!(rt; refusal(rt, &tag), bad(FormatKind::BadTag, 70));
        assert_eq!(rt; refusal(rt, &tag[..71]), bad(FormatKind::BadTag, 70));
    }
    let mut tag = WRITING_TWO;
    tag[62] = 5;
    assert_eq!(rt; refusal(rt, &tag), bad(FormatKind::BadTag, 62));
}

#[test]
fn counts_that_the_bytes_cannot_fill(rt: HostRuntime) {
    let mut count = HALTING;
    count[30..34].fill(255);
    assert_eq!(rt; refusal(rt, &count), bad(FormatKind::BadCount, 30));
    count[30..34].copy_from_slice(&100_000_u32.to_be_bytes());
    assert_eq!(rt; refusal(rt, &count), bad(FormatKind::Short, 34));
    let mut text = HALTING;
    text[12..16].fill(255);
    assert_eq!(rt; refusal(rt, &text), bad(FormatKind::Short, 34));
}

/// What these bytes are refused for in place of the number of the write, at 63.
fn refusal_of_number(rt: HostRuntime, number: &[u8]) -> Result<Option<FormatError>, Fail> {
    let mut bytes = List::new(rt.alloc());
    bytes.push_all(&WRITING_TWO[..63])?;
    bytes.push_all(number)?;
    bytes.push_all(&WRITING_TWO[64..])?;
    Ok(refusal(rt, bytes.as_slice()))
}

#[test]
fn numbers_of_the_second_version(rt: HostRuntime) -> Result<(), Fail> {
    let rows: [(&[u8], Option<FormatError>); 8] = [
        (b"\x00", None),
        (b"\x81\x01", None),
        (b"\xff\xff\xff\xff\x0f", None),
        (b"\x81\x00", bad(FormatKind::BadForm, 63)),
        (b"\x80\x80\x80\x80\x80\x00", bad(FormatKind::BadForm, 63)),
        (b"\x80\x80\x80\x80\x10", bad(FormatKind::BadCount, 63)),
        (
            b"\xff\xff\xff\xff\xff\xff\xff\xff\xff\x01",
            bad(FormatKind::BadCount, 63),
        ),
        (
            b"\xff\xff\xff\xff\xff\xff\xff\xff\xff\x81",
            bad(FormatKind::BadForm, 63),
        ),
    ];
    for (number, refused) in rows {
        assert_eq!(rt; refusal_of_number(rt, number)?, refused);
    }
    let mut bound = WRITING_TWO;
    bound[66] = 1;
    assert_eq!(rt; refusal(rt, &bound), bad(FormatKind::BadCount, 66));
    Ok(())
}

/// The beginning of a bundle of version 2 with 1,000,000 instructions, no text and one thread.
const ONE_THREAD: [u8; 13] = *b"STRIDE2\n\xc0\x84\x3d\x00\x01";

/// Whether one log of these entries is read from these bytes, and written so again.
fn are_spelled_so(rt: HostRuntime, entries: &[LogEntry], log: &[u8]) -> Result<bool, Fail> {
    let mut bytes = List::new(rt.alloc());
    bytes.push_all(&ONE_THREAD)?;
    bytes.push_all(log)?;
    let bundle = decode(rt.alloc(), bytes.as_slice())?;
    for read in bundle.logs.as_slice() {
        if read.as_slice() != entries {
            return Ok(false);
        }
    }
    let again = encode(rt.alloc(), &bundle)?;
    Ok(bundle.logs.len() == 1 && again.as_slice() == bytes.as_slice())
}

#[test]
fn entries_of_each_kind(rt: HostRuntime) -> Result<(), Fail> {
    let largest = u32::MAX;
    let rows: [(&[LogEntry], &[u8]); 4] = [
        // A bound that rises, one that stays and one that falls.
        (
            &[
                LogEntry::Read { bound: 5, value: 1 },
                LogEntry::Read { bound: 5, value: 2 },
                LogEntry::Read { bound: 2, value: 3 },
            ],
            b"\x03\x01\x01\x0a\x01\x02\x00\x01\x03\x05",
        ),
        // Only reads have bounds: the others between them are passed over.
        (
            &[
                LogEntry::Read { bound: 3, value: 0 },
                LogEntry::Write { number: 9 },
                LogEntry::Update { number: 8, old: 7 },
                LogEntry::Enter { turn: 1 },
                LogEntry::Read { bound: 4, value: 0 },
            ],
            b"\x05\x01\x00\x06\x02\x09\x04\x07\x08\x03\x01\x01\x00\x02",
        ),
        // The largest numbers, and the longest step up.
        (
            &[
                LogEntry::Read {
                    bound: largest,
                    value: u64::MAX,
                },
                LogEntry::Update {
                    number: largest,
                    old: u64::MAX,
                },
            ],
            b"\x02\x01\xff\xff\xff\xff\xff\xff\xff\xff\xff\x01\xfe\xff\xff\xff\x1f\x04\xff\xff\xff\xff\xff\xff\xff\xff\xff\x01\xff\xff\xff\xff\x0f",
        ),
        // The longest step down.
        (
            &[
                LogEntry::Read {
                    bound: largest,
                    value: 0,
                },
                LogEntry::Read { bound: 0, value: 0 },
            ],
            b"\x02\x01\x00\xfe\xff\xff\xff\x1f\x01\x00\xfd\xff\xff\xff\x1f",
        ),
    ];
    for (entries, log) in rows {
        assert!(rt; are_spelled_so(rt, entries, log)?);
    }
    Ok(())
}

/// A bundle of version 1 with so many reads, whose values differ in all bits and whose bounds rise by one.
fn reads(rt: HostRuntime, count: u32) -> Result<List<u8>, Fail> {
    let mut bytes = List::new(rt.alloc());
    bytes.push_all(b"STRIDE1\n\x00\x0f\x42\x40\x00\x00\x00\x00\x00\x01")?;
    bytes.push_all(&count.to_be_bytes())?;
    for bound in 0..count {
        bytes.push(1)?;
        bytes.push_all(&0xfedc_ba98_7654_3210_u64.to_be_bytes())?;
        bytes.push_all(&bound.to_be_bytes())?;
    }
    Ok(bytes)
}

#[test]
fn a_large_bundle_is_read_and_written(rt: HostRuntime) -> Result<(), Fail> {
    let bundle = decode(rt.alloc(), reads(rt, 50_000)?.as_slice())?;
    let bytes = encode(rt.alloc(), &bundle)?;
    assert_eq!(rt; bytes.len(), 13 + 3 + 50_000 * 12);
    let again = decode(rt.alloc(), bytes.as_slice())?;
    for (one, other) in bundle.logs.as_slice().iter().zip(again.logs.as_slice()) {
        assert_eq!(rt; one.len(), 50_000);
        assert_eq!(rt; one.as_slice(), other.as_slice());
    }
    Ok(())
}

#[test]
fn kinds_have_texts(rt: HostRuntime) -> Result<(), Fail> {
    let error = FormatError::Bad {
        kind: FormatKind::Long,
        offset: 67,
    };
    let text = format!(in rt.alloc(); "{error}")?;
    assert_eq!(rt; text.as_str(), "offset 67: extra bytes after the bundle");
    Ok(())
}
