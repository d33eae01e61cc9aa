//! What no clause says of splits and orders: worked examples, with ample memory.
use super::*;
use std::test::Fail;

const fn bad(kind: AsmKind, line: u32) -> AsmError {
    AsmError::Bad { kind, line }
}

#[test]
fn splits(rt: HostRuntime) {
    let rows: [(&[u8], usize, usize, u32); 14] = [
        (b"", 0, 0, 1),
        (b"thread\nhalt\n", 12, 12, 3),
        (b"thread\nhalt", 11, 11, 3),
        (b"order\n", 0, 6, 2),
        (b"order\n0 1\n", 0, 6, 2),
        (b"thread\nhalt\norder\n0 1\n", 12, 18, 4),
        (b"thread\norder\n0\norder\n1\n", 7, 13, 3),
        (b"thread\norder", 7, 12, 3),
        (b"\n\norder\n", 2, 8, 4),
        (b" order # x\n0\n", 0, 11, 2),
        (b"\torder\t\r\n1\n", 0, 9, 2),
        (b"halt\norder#x", 5, 12, 3),
        (b"order x\nan order\norders\n# order\n", 32, 32, 5),
        (b"order order\norder:\n", 19, 19, 3),
    ];
    for (text, program_end, order_start, order_line) in rows {
        assert!(rt; text.len() <= 100);
        let want = OrderSplit {
            program_end,
            order_start,
            order_line,
        };
        assert_eq!(rt; split_order(text), want);
    }
}

#[test]
fn orders(rt: HostRuntime) -> Result<(), Fail> {
    let rows: [(&[u8], &[u8]); 9] = [
        (b"", &[]),
        (b"\n \t\r\n# 5\n", &[]),
        (b"0", &[0]),
        (b"0 1\n\n2", &[0, 1, 2]),
        (b"255 007\n", &[255, 7]),
        (b"3*2 0*1\n", &[3, 3, 0]),
        (b"1*003\r\n", &[1, 1, 1]),
        (b"\t0\t1 # 2\n#3\n4#5\n", &[0, 1, 4]),
        (b"  2*2  1*2  \n", &[2, 2, 1, 1]),
    ];
    for (text, want) in rows {
        assert!(rt; text.len() <= 100);
        assert_eq!(rt; read_order(rt.alloc(), text, 1)?.as_slice(), want);
    }
    Ok(())
}

#[test]
fn orders_that_are_refused(rt: HostRuntime) {
    use AsmKind::{BadNumber, TooMany};
    let rows: [(&[u8], u32, AsmKind, u32); 22] = [
        (b"0*0", 1, BadNumber, 1),
        (b"0*134217729", 1, BadNumber, 1),
        (b"256", 1, BadNumber, 1),
        (b"*5", 1, BadNumber, 1),
        (b"5*", 1, BadNumber, 1),
        (b"*", 1, BadNumber, 1),
        (b"1*2*3", 1, BadNumber, 1),
        (b"1**2", 1, BadNumber, 1),
        (b"1 * 2", 1, BadNumber, 1),
        (b"x", 1, BadNumber, 1),
        (b"-1", 1, BadNumber, 1),
        (b"+1", 1, BadNumber, 1),
        (b"order\n", 1, BadNumber, 1),
        (b"0\n1 2\n3 x 300\n", 1, BadNumber, 3),
        (b"0 # 1\n\n# 2\nx\n", 10, BadNumber, 13),
        (b"x", 268435457, BadNumber, 268435457),
        (b"99999999999999999999999999", 7, BadNumber, 7),
        (b"0*134217728 0\n", 1, TooMany, 1),
        (b"0*134217728 # all\n\n0\nx\n", 5, TooMany, 7),
        (b"0*134217728\n\t0*0\n0\n", 1, BadNumber, 2),
        (b"1 2*134217728\n", 9, TooMany, 9),
        (b"0*134217728\nx\n", 1, BadNumber, 2),
    ];
    for (text, first_line, kind, line) in rows {
        assert!(rt; text.len() <= 100);
        assert!(rt; 1 <= first_line && first_line <= 268435457);
        let refused = read_order(rt.alloc(), text, first_line).err();
        assert_eq!(rt; refused, Some(bad(kind, line)));
    }
}

#[test]
fn longest_order(rt: HostRuntime) -> Result<(), Fail> {
    let order = read_order(rt.alloc(), b"0*134217727\n1\n", 1)?;
    assert_eq!(rt; order.len(), 134217728);
    assert_eq!(rt; order.as_slice().last(), Some(&1));
    Ok(())
}
