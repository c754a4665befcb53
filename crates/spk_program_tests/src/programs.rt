//! The program `edge` by its calls, beside a disk that fails, and lines in whatever pieces they come.
use spk_files::edge_of;
use spk_link::Due;
use spk_network::App;
use spk_program_plans::EdgePlan;
use spk_programs::{Disk, Disks, EdgeParts, EdgeProgram, Lines, Listener, Opened, begin_edge};
use std::alloc::Global;
use std::io::{self, Write};
use std::process::Abort;
use std::test::Fail;

/// A disk that fails so many times, and then keeps what it is given.
#[derive(Drop)]
struct Slow {
    fails: u32,
    tries: u32,
    kept: u32,
}

impl Disk for Slow {
    fn read(&mut self, _bytes: &mut Vec<u8>) -> bool {
        true
    }

    fn keep(&mut self, _bytes: &[u8]) -> bool {
        self.tries = self.tries.saturating_add(1);
        if self.fails > 0 {
            self.fails = self.fails.saturating_sub(1);
            return false;
        }
        self.kept = self.kept.saturating_add(1);
        true
    }

    fn append(&mut self, _bytes: &[u8]) -> bool {
        false
    }
}

/// The disk of each name is such a one.
#[derive(Drop)]
struct Slowly {
    fails: u32,
}

impl Disks for Slowly {
    type Disk = Slow;

    fn open(&mut self, _name: &str) -> Opened<Slow> {
        Opened::Open(Slow {
            fails: self.fails,
            tries: 0,
            kept: 0,
        })
    }
}

/// A writer that counts lines.
#[derive(Drop)]
struct Counted {
    lines: usize,
}

impl Write for Counted {
    fn write(&mut self, buf: &[u8]) -> io::Result<usize> {
        let lines = buf.iter().filter(|byte| **byte == b'\n').count();
        self.lines = self.lines.saturating_add(lines);
        Ok(buf.len())
    }

    fn flush(&mut self) -> io::Result<()> {
        Ok(())
    }
}

const NODE: &str =
    "{\"group\":\"G\",\"node\":\"N\",\"primary\":null,\"capacity\":10,\"devices\":[\"D\"],\
\"metrics\":[{\"device\":null,\"name\":\"x\",\"type\":3,\"value\":0},{\"device\":\"D\",\"name\":\"y\",\"type\":12,\"value\":null}]}";

/// A program of a node that never ran, with this disk.
fn program(alloc: Global, fails: u32) -> Option<EdgeProgram<EdgeParts<Slow>, Counted, Counted>> {
    let (config, registry) = edge_of(alloc, NODE, 30).ok()?;
    let (_again, names) = edge_of(alloc, NODE, 30).ok()?;
    let plan = EdgePlan {
        config,
        registry,
        names,
        brokers: Vec::new(alloc),
        login: None,
        record: String::new(alloc),
        kept: None,
    };
    let begun = begin_edge(alloc, plan, &mut Slowly { fails }).ok()?;
    let out = Counted { lines: 0 };
    let notes = Counted { lines: 0 };
    Some(EdgeProgram::new(alloc, begun, out, notes))
}

/// What the tests ask of a program, which is proved without the parts of one.
trait Runs {
    /// Whether a connection is due, which then is there.
    fn begins(&mut self, now: u64) -> bool;

    /// How many tries to keep the record were made once it had its turn, and the first byte that is to be written.
    fn turns(&mut self, now: u64) -> (u32, Option<u8>);

    /// How many changes are kept, and how many lines were told to be none, once these bytes came.
    fn lines(&mut self, bytes: &[u8], now: u64) -> (usize, usize);
}

impl Runs for EdgeProgram<EdgeParts<Slow>, Counted, Counted> {
    fn begins(&mut self, now: u64) -> bool {
        let is_due = self.due(0, now) == Due::Connect;
        self.opened(0, now);
        is_due
    }

    fn turns(&mut self, now: u64) -> (u32, Option<u8>) {
        self.turn(now);
        (self.disk().tries, self.unwritten(0).first().copied())
    }

    fn lines(&mut self, bytes: &[u8], now: u64) -> (usize, usize) {
        self.input(bytes, now);
        (self.kept(), self.notes().lines)
    }
}

/// At which moment, how many tries were made then, and whether something may be written.
static TURNS: [(u64, u32, bool); 6] = [
    (1_000, 1, false),
    (1_999, 1, false),
    (2_000, 2, false),
    (2_999, 2, false),
    (3_000, 3, true),
    (3_001, 3, true),
];

/// How many turns are right before the first that isn't. A CONNECT is what is to be written first.
fn turns_right(program: &mut impl Runs) -> usize {
    if !program.begins(1_000) {
        return 0;
    }
    for (place, (now, tries, may)) in TURNS.iter().enumerate() {
        let first = if *may { Some(0x10) } else { None };
        if program.turns(*now) != (*tries, first) {
            return place;
        }
    }
    TURNS.len()
}

#[test]
fn nothing_is_to_be_written_before_its_record_is_kept(rt: HostRuntime) {
    let mut program = program(rt.alloc(), 2).expect(&rt, "a program");
    assert_eq!(rt; turns_right(&mut program), TURNS.len());
}

/// Bytes of standard input, how many changes they say, and how many lines that say nothing.
static SAID: [(&[u8], usize, usize); 15] = [
    (b"{\"metric\":\"x\",\"value\":1}\n", 1, 0),
    (b"{\"metric\":\"x\",\"value\":0}\n", 0, 0),
    (b"{\"device\":null,\"metric\":\"x\",\"value\":2}\n", 1, 0),
    (
        b"[{\"metric\":\"x\",\"value\":1},{\"metric\":\"x\",\"value\":3}]\n",
        2,
        0,
    ),
    (b"[]\n", 0, 0),
    (b"\n  \n", 0, 0),
    (b"{\"metric\":\"x\",\"value\":\"a\"}\n", 0, 1),
    (b"{\"metric\":\"z\",\"value\":1}\n", 0, 1),
    (
        b"{\"device\":\"E\",\"metric\":\"y\",\"value\":\"a\"}\n",
        0,
        1,
    ),
    (
        b"{\"device\":\"D\",\"metric\":\"y\",\"value\":\"a\"}\n",
        0,
        0,
    ),
    (
        b"[{\"device\":\"D\",\"up\":true},{\"device\":\"D\",\"metric\":\"y\",\"value\":\"a\"}]\n",
        1,
        0,
    ),
    (b"{\"metric\":\"x\",\"value\":1,\"more\":1}\n", 0, 1),
    (b"{\"device\":\"E\",\"up\":true}\n", 0, 1),
    (b"{\"metric\":\"x\"", 0, 0),
    (b"\xff\n", 0, 1),
];

/// What lines come to.
fn said(program: &mut impl Runs, bytes: &[u8]) -> (usize, usize) {
    program.lines(bytes, 1_000)
}

#[test]
fn a_line_that_says_nothing_is_told_and_passed_over(rt: HostRuntime) {
    for (bytes, kept, told) in SAID {
        let mut program = program(rt.alloc(), 0).expect(&rt, "a program");
        assert_eq!(rt; said(&mut program, bytes), (kept, told), "of {bytes:?}");
    }
}

/// Adds up lines, each by its number.
#[derive(Drop)]
struct Sum {
    sum: u64,
    passed: u64,
}

impl Listener for Sum {
    fn line(&mut self, number: u64, bytes: &[u8], _now: u64) {
        let length = bytes.len() as u64;
        self.sum = self
            .sum
            .wrapping_mul(100)
            .wrapping_add(number.wrapping_mul(10).wrapping_add(length));
    }

    fn passed(&mut self, _number: u64) {
        self.passed = self.passed.saturating_add(1);
    }
}

#[test]
fn lines_are_the_same_in_whatever_pieces(rt: HostRuntime) -> Result<(), Fail> {
    let bytes = b"ab\n\nc\nde";
    for cut in 0..bytes.len() + 1 {
        let mut lines = Lines::new(rt.alloc());
        let mut sum = Sum { sum: 0, passed: 0 };
        lines.take(bytes.get(..cut).unwrap_or(&[]), &mut sum, 0);
        lines.take(bytes.get(cut..).unwrap_or(&[]), &mut sum, 0);
        assert_eq!(rt; sum.sum, 122_031);
        lines.finish(&mut sum, 0);
        assert_eq!(rt; sum.sum, 12_203_142);
        assert_eq!(rt; sum.passed, 0);
    }
    Ok(())
}
