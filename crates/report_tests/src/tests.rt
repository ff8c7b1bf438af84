// What is written of answers, glasses and pictures.
use model::{Fault, Size};
use report::{crc32, write_answer, write_glass, write_ppm, write_rows};
use std::test::Fail;

#[test]
fn eight_bytes(rt: HostRuntime) {
    // The bytes of the text "12345678".
    assert_eq!(rt; crc32(&[0x3433_3231, 0x3837_3635]), 0x9ae0_daaf);
}

#[test]
fn no_pixel(rt: HostRuntime) {
    assert_eq!(rt; crc32(&[]), 0);
}

#[test]
fn refusal_and_acceptance(rt: HostRuntime) -> Result<(), Fail> {
    let mut out = Vec::new(rt.alloc());
    let fault = Fault {
        number: 18,
        station: 9,
        word: 4_294_967_295,
    };
    write_answer(&mut out, &Err(fault))?;
    write_answer(&mut out, &Ok(()))?;
    assert_eq!(rt;
        out.as_slice(),
        b"answer 18 9 4294967295\nanswer 0 0 0\n".as_slice()
    );
    Ok(())
}

#[test]
fn line_of_the_crc(rt: HostRuntime) -> Result<(), Fail> {
    let mut out = Vec::new(rt.alloc());
    write_glass(&mut out, &[0x3433_3231, 0x3837_3635])?;
    assert_eq!(rt; out.as_slice(), b"glass 9ae0daaf\n".as_slice());
    Ok(())
}

#[test]
fn two_rows(rt: HostRuntime) -> Result<(), Fail> {
    let mut out = Vec::new(rt.alloc());
    write_rows(&mut out, &[0xff00_0000, 1, 0x0123_4567, 0x89ab_cdef], 2)?;
    assert_eq!(rt;
        out.as_slice(),
        b"ff000000 00000001\n01234567 89abcdef\n".as_slice()
    );
    Ok(())
}

#[test]
fn short_last_row_and_no_width(rt: HostRuntime) -> Result<(), Fail> {
    let mut out = Vec::new(rt.alloc());
    write_rows(&mut out, &[1, 2, 3], 2)?;
    write_rows(&mut out, &[1, 2, 3], 0)?;
    assert_eq!(rt; out.as_slice(), b"00000001 00000002\n00000003\n".as_slice());
    Ok(())
}

#[test]
fn one_by_two(rt: HostRuntime) -> Result<(), Fail> {
    let mut out = Vec::new(rt.alloc());
    let size = Size {
        width: 1,
        height: 2,
    };
    write_ppm(&mut out, size, &[0xff41_4243, 0x0061_6263])?;
    assert_eq!(rt; out.as_slice(), b"P6\n1 2\n255\nABCabc".as_slice());
    Ok(())
}
