//! Texts as other programs write them, and records by hand.
use spk_record::{Record, RecordFault};
use std::alloc::Global;
use std::test::Fail;

/// The last moment, 2^63 - 1.
const LAST: u64 = 9_223_372_036_854_775_807;

/// What a text says. Where memory was refused it is read again.
fn read(alloc: Global, text: &str) -> Result<Record, RecordFault> {
    match Record::decode(alloc, text.as_bytes()) {
        Err(RecordFault::NoMemory) => Record::decode(alloc, text.as_bytes()),
        answer => answer,
    }
}

/// Whether a record is written as this text. Where memory was refused it is written again.
fn is_written(alloc: Global, bd: u8, stamp: u64, text: &str) -> Result<bool, RecordFault> {
    let record = Record { bd, stamp };
    let written = match record.encode(alloc) {
        Err(RecordFault::NoMemory) => record.encode(alloc)?,
        answer => answer?,
    };
    Ok(written.as_str() == text)
}

#[test]
fn texts_of_other_programs_are_read(rt: HostRuntime) -> Result<(), Fail> {
    let rows: [(&str, u8, u64); 4] = [
        (
            "{\"bd\": 7, \"stamp\": 1764115200000}",
            7,
            1_764_115_200_000,
        ),
        ("{\n  \"stamp\": 0,\n  \"bd\": 0\n}\n", 0, 0),
        (
            "{\"bd\":255,\"stamp\":9223372036854775807,\"host\":\"h\"}",
            255,
            LAST,
        ),
        ("{\"\\u0062d\":1,\"stamp\":2}", 1, 2),
    ];
    for (text, bd, stamp) in rows {
        assert!(rt; read(rt.alloc(), text)? == Record { bd, stamp });
    }
    Ok(())
}

#[test]
fn texts_that_say_no_record_are_refused(rt: HostRuntime) -> Result<(), Fail> {
    let rows: [&str; 8] = [
        "",
        "{\"bd\":7,\"stamp\":17641152",
        "{\"bd\":256,\"stamp\":1}",
        "{\"bd\":1,\"stamp\":9223372036854775808}",
        "{\"bd\":-1,\"stamp\":1}",
        "{\"bd\":1.0,\"stamp\":1}",
        "{\"bd\":\"1\",\"stamp\":1}",
        "[1,2]",
    ];
    for text in rows {
        assert!(rt; read(rt.alloc(), text) == Err(RecordFault::BadRecord));
    }
    Ok(())
}

#[test]
fn the_last_stamp_is_written_and_the_one_behind_it_refused(rt: HostRuntime) -> Result<(), Fail> {
    assert!(rt;
        is_written(
            rt.alloc(),
            255,
            LAST,
            "{\"bd\":255,\"stamp\":9223372036854775807}"
        )?
    );
    assert!(rt; is_written(rt.alloc(), 0, 0, "{\"bd\":0,\"stamp\":0}")?);
    for stamp in [LAST + 1, u64::MAX] {
        let refused = Record { bd: 7, stamp }.encode(rt.alloc());
        assert!(rt; matches!(refused, Err(RecordFault::BadRecord)));
    }
    Ok(())
}
