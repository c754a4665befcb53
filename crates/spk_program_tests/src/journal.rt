//! Files by hand, and a journal beside a file in memory that is torn at each byte.
use spk_journal::{Journal, JournalFault, is_mark, read};
use std::alloc::{AllocError, Global};
use std::test::Fail;

/// Files, how many lines they say, how many of these stand before those that wait, and whether they are torn.
const FILES: [(&str, usize, usize, bool); 9] = [
    ("", 0, 0, false),
    ("a", 0, 0, true),
    ("a\n", 1, 0, false),
    ("a\nb", 1, 0, true),
    ("a\nsaid\n", 2, 2, false),
    ("a\nsaid\nb\n", 3, 2, false),
    ("a\nsaid", 1, 0, true),
    ("said\nsaid\n\nsaid.\n", 4, 2, false),
    ("\n\n", 2, 0, false),
];

/// What a file says: its lines, those before the ones that wait, and whether it is torn. Where memory was refused it is read again.
fn counts(alloc: Global, bytes: &[u8]) -> Result<(usize, usize, bool), AllocError> {
    let lines = match read(alloc, bytes) {
        Ok(lines) => lines,
        Err(_) => read(alloc, bytes)?,
    };
    Ok((lines.lines.len(), lines.settled, lines.is_torn))
}

#[test]
fn files_are_read_line_by_line(rt: HostRuntime) -> Result<(), Fail> {
    for (text, lines, settled, is_torn) in FILES {
        assert!(rt; counts(rt.alloc(), text.as_bytes())? == (lines, settled, is_torn));
    }
    assert!(rt; is_mark(b"said") && !is_mark(b"said ") && !is_mark(b""));
    Ok(())
}

/// Notes a line. Where memory was refused it is noted again.
fn noted(alloc: Global, journal: &mut Journal, line: &str) -> Result<(), JournalFault> {
    let first = String::from_str(alloc, line);
    let text = match first {
        Ok(text) => text,
        Err(_) => String::from_str(alloc, line)?,
    };
    match journal.note(text) {
        Err(JournalFault::NoMemory) => journal.note(String::from_str(alloc, line)?),
        answer => answer,
    }
}

/// What a journal's file says where it is made anew. Where memory was refused it is asked again.
fn anew(journal: &Journal, base: &[u8]) -> Result<Vec<u8>, AllocError> {
    match journal.made_anew(base) {
        Ok(bytes) => Ok(bytes),
        Err(_) => journal.made_anew(base),
    }
}

/// What is to be written is written, as far as it isn't to be made anew.
fn write(journal: &mut Journal, file: &mut Vec<u8>) -> Result<(), AllocError> {
    if journal.is_broken() {
        *file = anew(journal, b"0 x\n")?;
        journal.renewed();
        return Ok(());
    }
    if file.extend_from_slice(journal.unwritten()).is_err() {
        file.extend_from_slice(journal.unwritten())?;
    }
    journal.appended();
    Ok(())
}

#[test]
fn a_file_says_what_waits(rt: HostRuntime) -> Result<(), Fail> {
    let alloc = rt.alloc();
    let mut journal = Journal::new(alloc);
    let mut file = Vec::new(alloc);
    write(&mut journal, &mut file)?;
    assert!(rt; counts(alloc, file.as_slice())? == (2, 2, false));
    for line in ["1 a", "2 b", "3 c"] {
        noted(alloc, &mut journal, line)?;
    }
    write(&mut journal, &mut file)?;
    assert!(rt; counts(alloc, file.as_slice())? == (5, 2, false));
    assert!(rt; journal.len() == 3 && !journal.is_empty());
    journal.say();
    write(&mut journal, &mut file)?;
    assert!(rt; counts(alloc, file.as_slice())? == (6, 6, false));
    noted(alloc, &mut journal, "4 d")?;
    noted(alloc, &mut journal, "5 e")?;
    let passed = journal.pass();
    assert!(rt; passed.is_some_and(|line| line.as_str() == "4 d"));
    journal.failed();
    write(&mut journal, &mut file)?;
    assert_eq!(rt; file.as_slice(), b"0 x\nsaid\n5 e\n".as_slice());
    Ok(())
}

#[test]
fn a_torn_file_says_the_lines_that_are_there(rt: HostRuntime) -> Result<(), Fail> {
    let file = b"1 a\n2 bb\nsaid\n3 c\n".as_slice();
    let ends = [4usize, 9, 14, 18];
    for length in 0..=file.len() {
        let Some(front) = file.get(..length) else {
            break;
        };
        let whole = ends.iter().filter(|end| **end <= length).count();
        let settled = if length >= 14 { 3 } else { 0 };
        let is_torn = length > 0 && !ends.contains(&length);
        assert!(rt;
            counts(rt.alloc(), front)? == (whole, settled, is_torn),
            "of {length}"
        );
    }
    Ok(())
}

#[test]
fn lines_that_are_none_are_refused(rt: HostRuntime) -> Result<(), Fail> {
    let mut journal = Journal::new(rt.alloc());
    for line in ["said", "1 a\n", "\n", "1 a\nsaid\n2 b"] {
        let answer = noted(rt.alloc(), &mut journal, line);
        assert!(rt; matches!(answer, Err(JournalFault::BadLine)));
        assert!(rt; journal.is_empty());
    }
    noted(rt.alloc(), &mut journal, "")?;
    noted(rt.alloc(), &mut journal, "saids")?;
    assert!(rt; journal.len() == 2 && JournalFault::BadLine.number() == 118);
    Ok(())
}
