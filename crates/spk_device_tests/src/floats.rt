//! Floats and doubles, by their bits (IEEE 754 binary32 and binary64), beside a registry of whole values alone.
use crate::registers::{Birth, Given, Row, Spelled, is_run, is_run_by};
use spk_device::{Outcome, Owner, Refusal};
use spk_payload::Values;

/// 1.5: sign 0, exponent 127, fraction 1/2.
const ONE_AND_A_HALF: u32 = 0x3fc0_0000;

/// -2: sign 1, exponent 1024, fraction 0.
const MINUS_TWO: u64 = 0xc000_0000_0000_0000;

/// Zero of the other sign.
const MINUS_ZERO: u32 = 0x8000_0000;

/// Two that are no numbers: their exponents are full, and their fractions aren't zero.
const NAN: u32 = 0x7fc0_0000;

const OTHER_NAN: u32 = 0x7fc0_0001;

const FIRST: &[Birth] = &[
    ("f", 1, 9, Some(Spelled::Float(ONE_AND_A_HALF))),
    ("d", 2, 10, Some(Spelled::Double(MINUS_TWO))),
    ("n", 3, 9, None),
    ("i", 4, 3, Some(Spelled::Int(7))),
];

const LAST: &[Birth] = &[
    ("f", 1, 9, Some(Spelled::Float(OTHER_NAN))),
    ("d", 2, 10, None),
    ("n", 3, 9, Some(Spelled::Float(MINUS_ZERO))),
    ("i", 4, 3, Some(Spelled::Int(7))),
];

const FLOATS: &[Row] = &[
    Row::First(Owner::Node, "f", 9, Given::Float(ONE_AND_A_HALF), Ok(1)),
    Row::First(Owner::Node, "d", 10, Given::Double(MINUS_TWO), Ok(2)),
    Row::First(Owner::Node, "n", 9, Given::Nothing, Ok(3)),
    Row::First(Owner::Node, "i", 3, Given::Signed(7), Ok(4)),
    Row::Births(Owner::Node, FIRST),
    // neither is of the other datatype, nor of a number's, and a number is of neither's
    Row::First(
        Owner::Node,
        "x",
        9,
        Given::Double(MINUS_TWO),
        Err(Refusal::WrongKind),
    ),
    Row::First(
        Owner::Node,
        "x",
        10,
        Given::Float(ONE_AND_A_HALF),
        Err(Refusal::WrongKind),
    ),
    Row::First(
        Owner::Node,
        "x",
        3,
        Given::Float(ONE_AND_A_HALF),
        Err(Refusal::WrongKind),
    ),
    Row::First(
        Owner::Node,
        "x",
        9,
        Given::Signed(1),
        Err(Refusal::WrongKind),
    ),
    Row::First(
        Owner::Node,
        "x",
        10,
        Given::Unsigned(1),
        Err(Refusal::WrongKind),
    ),
    // no other datatype comes with them
    Row::First(
        Owner::Node,
        "x",
        16,
        Given::Nothing,
        Err(Refusal::WrongKind),
    ),
    Row::First(
        Owner::Node,
        "x",
        19,
        Given::Nothing,
        Err(Refusal::WrongKind),
    ),
    Row::First(Owner::Node, "x", 0, Given::Nothing, Err(Refusal::WrongKind)),
    // equal where the bits are: 0 and -0 differ, and a NaN is equal to itself alone
    Row::Set(1, Given::Float(ONE_AND_A_HALF), Ok(Outcome::Same)),
    Row::Set(1, Given::Float(0), Ok(Outcome::Changed)),
    Row::Set(1, Given::Float(MINUS_ZERO), Ok(Outcome::Changed)),
    Row::Set(1, Given::Float(MINUS_ZERO), Ok(Outcome::Same)),
    Row::Set(1, Given::Float(NAN), Ok(Outcome::Changed)),
    Row::Set(1, Given::Float(NAN), Ok(Outcome::Same)),
    Row::Set(1, Given::Float(OTHER_NAN), Ok(Outcome::Changed)),
    Row::Set(2, Given::Double(MINUS_TWO), Ok(Outcome::Same)),
    Row::Set(2, Given::Double(0), Ok(Outcome::Changed)),
    Row::Set(
        2,
        Given::Double(0x8000_0000_0000_0000),
        Ok(Outcome::Changed),
    ),
    Row::Set(2, Given::Nothing, Ok(Outcome::Changed)),
    Row::Set(3, Given::Float(MINUS_ZERO), Ok(Outcome::Changed)),
    Row::Set(1, Given::Double(0), Err(Refusal::WrongKind)),
    Row::Set(1, Given::Signed(0), Err(Refusal::WrongKind)),
    Row::Set(2, Given::Float(0), Err(Refusal::WrongKind)),
    Row::Set(4, Given::Float(0), Err(Refusal::WrongKind)),
    Row::Births(Owner::Node, LAST),
];

#[test]
fn floats_and_doubles_are_kept_by_their_bits(rt: HostRuntime) {
    assert!(rt; is_run_by(&rt, Values::All, FLOATS));
}

/// Whole values alone: as a registry is that was made without a choice.
const WHOLE: &[Row] = &[
    Row::First(
        Owner::Node,
        "f",
        9,
        Given::Float(ONE_AND_A_HALF),
        Err(Refusal::WrongKind),
    ),
    Row::First(Owner::Node, "f", 9, Given::Nothing, Err(Refusal::WrongKind)),
    Row::First(
        Owner::Node,
        "d",
        10,
        Given::Double(MINUS_TWO),
        Err(Refusal::WrongKind),
    ),
    Row::First(
        Owner::Node,
        "d",
        10,
        Given::Nothing,
        Err(Refusal::WrongKind),
    ),
    Row::First(Owner::Node, "i", 3, Given::Signed(7), Ok(1)),
    Row::Set(1, Given::Float(ONE_AND_A_HALF), Err(Refusal::WrongKind)),
    Row::Set(1, Given::Double(MINUS_TWO), Err(Refusal::WrongKind)),
    Row::Births(Owner::Node, &[("i", 1, 3, Some(Spelled::Int(7)))]),
];

#[test]
fn a_registry_of_whole_values_takes_no_floats(rt: HostRuntime) {
    assert!(rt; is_run(&rt, WHOLE) && is_run_by(&rt, Values::Whole, WHOLE));
}
