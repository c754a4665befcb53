//! Bits and texts that other programs wrote (CPython 3.11 by `repr` and `struct`, and decimal fractions by hand), and random bits.
use spk_floats::{double_in, double_text, float_in, float_text};
use std::alloc::{AllocError, Global};
use std::test::Fail;

/// A Float's text. Where memory was refused it is written again.
fn float_again(alloc: Global, bits: u32) -> Result<String, AllocError> {
    match float_text(alloc, bits) {
        Ok(text) => Ok(text),
        Err(_) => float_text(alloc, bits),
    }
}

/// A Double's.
fn double_again(alloc: Global, bits: u64) -> Result<String, AllocError> {
    match double_text(alloc, bits) {
        Ok(text) => Ok(text),
        Err(_) => double_text(alloc, bits),
    }
}

#[test]
fn floats_are_written_as_elsewhere(rt: HostRuntime) -> Result<(), Fail> {
    let rows: [(u32, &str); 16] = [
        (0x0000_0000, "0.0"),
        (0x8000_0000, "-0.0"),
        (0x3f80_0000, "1.0"),
        (0x40a3_3333, "5.1"),
        (0xc0a3_3333, "-5.1"),
        (0x3dcc_cccd, "0.1"),
        (0x4b80_0000, "16777216.0"),
        (0x4640_e400, "12345.0"),
        (0x0000_0001, "1e-45"),
        (0x007f_ffff, "1.1754942e-38"),
        (0x0080_0000, "1.1754944e-38"),
        (0x7f7f_ffff, "3.4028235e38"),
        (0x7f80_0000, "Infinity"),
        (0xff80_0000, "-Infinity"),
        (0x7fc0_0000, "NaN"),
        (0xffff_ffff, "NaN"),
    ];
    for (bits, text) in rows {
        assert_eq!(rt; float_again(rt.alloc(), bits)?.as_str(), text);
    }
    Ok(())
}

#[test]
fn doubles_are_written_as_elsewhere(rt: HostRuntime) -> Result<(), Fail> {
    let rows: [(u64, &str); 16] = [
        (0x0000_0000_0000_0000, "0.0"),
        (0x8000_0000_0000_0000, "-0.0"),
        (0x3ff0_0000_0000_0000, "1.0"),
        (0x4014_6666_6666_6666, "5.1"),
        (0x3fb9_9999_9999_999a, "0.1"),
        (0x3fd3_3333_3333_3334, "0.30000000000000004"),
        (0x4340_0000_0000_0000, "9007199254740992.0"),
        (0x400921fb54442d18, "3.141592653589793"),
        (0x0000_0000_0000_0001, "5e-324"),
        (0x000f_ffff_ffff_ffff, "2.225073858507201e-308"),
        (0x0010_0000_0000_0000, "2.2250738585072014e-308"),
        (0x7fef_ffff_ffff_ffff, "1.7976931348623157e308"),
        (0x7ff0_0000_0000_0000, "Infinity"),
        (0xfff0_0000_0000_0000, "-Infinity"),
        (0x7ff8_0000_0000_0000, "NaN"),
        (0x7ff0_0000_0000_0001, "NaN"),
    ];
    for (bits, text) in rows {
        assert_eq!(rt; double_again(rt.alloc(), bits)?.as_str(), text);
    }
    Ok(())
}

#[test]
fn texts_give_the_nearest_float(rt: HostRuntime) -> Result<(), Fail> {
    let rows: [(&str, Option<u32>); 18] = [
        ("5.1", Some(0x40a3_3333)),
        ("5", Some(0x40a0_0000)),
        ("-0", Some(0x8000_0000)),
        ("16777217", Some(0x4b80_0000)),
        ("16777219", Some(0x4b80_0002)),
        ("1.00000017881393432617187499", Some(0x3f80_0001)),
        ("1.000000178813934326171875", Some(0x3f80_0002)),
        ("1e-60", Some(0)),
        ("3.4028235677973366e38", Some(0x7f7f_ffff)),
        ("3.4028235677973367e38", None),
        ("1e39", None),
        ("NaN", Some(0x7fc0_0000)),
        ("-Infinity", Some(0xff80_0000)),
        ("nan", None),
        ("inf", None),
        ("-NaN", None),
        (" 5", None),
        ("", None),
    ];
    for (text, bits) in rows {
        assert_eq!(rt; float_in(text), bits);
    }
    Ok(())
}

#[test]
fn texts_give_the_nearest_double(rt: HostRuntime) -> Result<(), Fail> {
    let rows: [(&str, Option<u64>); 15] = [
        ("5.1", Some(0x4014_6666_6666_6666)),
        ("9007199254740993", Some(0x4340_0000_0000_0000)),
        ("9007199254740995", Some(0x4340_0000_0000_0002)),
        ("2.4703282292062327e-324", Some(0)),
        ("2.4703282292062328e-324", Some(1)),
        ("-1e-400", Some(0x8000_0000_0000_0000)),
        ("1.7976931348623158e308", Some(0x7fef_ffff_ffff_ffff)),
        ("1.7976931348623159e308", None),
        ("1e400", None),
        ("Infinity", Some(0x7ff0_0000_0000_0000)),
        ("NaN", Some(0x7ff8_0000_0000_0000)),
        ("infinity", None),
        ("0x10", None),
        ("1e", None),
        ("1,5", None),
    ];
    for (text, bits) in rows {
        assert_eq!(rt; double_in(text), bits);
    }
    Ok(())
}

#[test]
fn random_bits_come_back(rt: HostRuntime) -> Result<(), Fail> {
    let mut state = 20_261_128u64;
    for _ in 0..50_000 {
        // Knuth's multiplier for 64 bits
        state = state
            .wrapping_mul(6_364_136_223_846_793_005)
            .wrapping_add(1_442_695_040_888_963_407);
        let double = state ^ (state >> 29);
        let text = double_again(rt.alloc(), double)?;
        let is_number = double % (1 << 63) <= 0x7ff0_0000_0000_0000;
        let wanted = if is_number {
            double
        } else {
            0x7ff8_0000_0000_0000
        };
        assert!(rt; double_in(text.as_str()) == Some(wanted));
        let float = (double >> 32) as u32;
        let text = float_again(rt.alloc(), float)?;
        let is_number = float % (1 << 31) <= 0x7f80_0000;
        let wanted = if is_number { float } else { 0x7fc0_0000 };
        assert!(rt; float_in(text.as_str()) == Some(wanted));
    }
    Ok(())
}
