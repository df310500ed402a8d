// Which texts are numbers, and why others are none.

use op_num::{NumRefusal, put_i32, put_u64, read_i32, read_u64};
use std::test::Fail;

#[test]
fn numbers_are_read_and_printed(rt: HostRuntime) -> Result<(), Fail> {
    for (text, value) in [
        (b"-0".as_slice(), 0),
        (b"007", 7),
        (b"2147483647", 2147483647),
        (b"-0002147483648", -2147483648),
    ] {
        assert_eq!(rt; read_i32(text), Ok(value), "{value}");
    }
    for text in [b"".as_slice(), b"-", b"+1", b"--1", b"1 ", b"1a", b"0x1"] {
        assert_eq!(rt; read_i32(text), Err(NumRefusal::NotDigits));
    }
    for text in [
        b"2147483648".as_slice(),
        b"-2147483649",
        b"99999999999999999999",
    ] {
        assert_eq!(rt; read_i32(text), Err(NumRefusal::TooLarge));
    }
    assert_eq!(rt; read_u64(b"18446744073709551615"), Ok(u64::MAX));
    for (text, refusal) in [
        (b"18446744073709551616".as_slice(), NumRefusal::TooLarge),
        (b"18446744073709551616a", NumRefusal::NotDigits),
        (b"-1", NumRefusal::NotDigits),
    ] {
        assert_eq!(rt; read_u64(text), Err(refusal));
    }
    let mut out = Vec::new(rt.alloc());
    put_i32(&mut out, -2147483648)?;
    put_u64(&mut out, u64::MAX)?;
    assert_eq!(rt;
        out.as_slice(),
        b"-214748364818446744073709551615".as_slice()
    );
    Ok(())
}
