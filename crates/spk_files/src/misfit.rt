//! What is wrong with a file, and where in it.

use serde_json::Error as JsonError;
use spk_device::{DeviceFault, Refusal};
use spk_world::WorldFault;
use std::alloc::{AllocError, AllocFailed};
use std::fmt;

/// How deep a place may lie, as `nodes[0].metrics[1].value.hex` does.
const DEEPEST: usize = 6;

/// A step into a value.
#[derive(Clone, Copy, Debug, PartialEq, Eq)]
enum Turn {
    Member(&'static str),
    Item(usize),
    Line(usize),
}

/// What stands between a step, if there was one, and a member.
fn link(before: Option<Turn>) -> &'static str {
    match before {
        None => "",
        Some(Turn::Line(_)) => ": ",
        Some(_) => ".",
    }
}

/// A place in a file, as `nodes[0].capacity`, or `line 3: publish[1]` of one whose lines stand each for itself.
#[derive(Clone, Copy, Debug, PartialEq, Eq)]
pub struct Place {
    turns: [Option<Turn>; DEEPEST],
}

impl Place {
    /// The file as a whole.
    pub(crate) const FILE: Place = Place {
        turns: [None; DEEPEST],
    };

    /// One step farther. What lies deeper than files go keeps its place.
    fn then(self, turn: Turn) -> Place {
        let mut turns = self.turns;
        for slot in turns.iter_mut() {
            if slot.is_none() {
                *slot = Some(turn);
                return Place { turns };
            }
        }
        self
    }

    /// The member of this name.
    pub(crate) fn member(self, name: &'static str) -> Place {
        self.then(Turn::Member(name))
    }

    /// The item of this number, from 0.
    pub(crate) fn item(self, index: usize) -> Place {
        self.then(Turn::Item(index))
    }

    /// The same place in the line of this number, from 1.
    fn in_line(self, number: usize) -> Place {
        let mut place = Place::FILE.then(Turn::Line(number));
        for turn in self.turns.iter().flatten() {
            place = place.then(*turn);
        }
        place
    }
}

impl fmt::Display for Place {
    fn fmt<W: fmt::Write>(&self, f: &mut fmt::Formatter<W>) -> fmt::Result {
        let mut last = None;
        for turn in self.turns.iter().flatten() {
            match turn {
                Turn::Line(number) => write!(f, "line {number}")?,
                Turn::Member(name) => write!(f, "{}{name}", link(last))?,
                Turn::Item(index) => write!(f, "[{index}]")?,
            }
            last = Some(*turn);
        }
        if last.is_none() {
            write!(f, "the file")?;
        }
        Ok(())
    }
}

/// What is wrong at a place.
#[derive(Debug, PartialEq, Drop)]
pub enum Cause {
    /// The text isn't JSON: it is read up to this line and column.
    NoJson { line: usize, column: usize },
    /// A member isn't there.
    Missing,
    /// There is a member of this name, which isn't one of the file's.
    Unknown(String),
    /// There are two members of this name.
    Twice(String),
    /// It isn't that.
    Not(&'static str),
    /// It isn't a number from the first to the second.
    Outside(u64, u64),
    /// It hasn't so many parts.
    Parts(usize),
    /// It has more than so many items.
    More(usize),
    /// It has no items.
    Empty,
    /// It has more than so many bytes.
    Longer(usize),
    /// It is one past so many of these in a script.
    Past(u64, &'static str),
    /// No device before it has that name.
    NoDevice,
    /// The node, or the device that is named, has no metric of that name.
    NoMetric,
    /// An earlier node has its group and name.
    Namesake,
    /// An earlier user has it for a name.
    SameUser,
    /// The registry refuses it.
    Registry(Refusal),
    /// No world is made of it.
    World(WorldFault),
}

impl fmt::Display for Cause {
    fn fmt<W: fmt::Write>(&self, f: &mut fmt::Formatter<W>) -> fmt::Result {
        match self {
            Cause::NoJson { line, column } => {
                write!(f, "isn't JSON at line {line}, column {column}")
            }
            Cause::Missing => write!(f, "is missing"),
            Cause::Unknown(name) => write!(f, "has a member that isn't known: {name:?}"),
            Cause::Twice(name) => write!(f, "has an object with two members {name:?}"),
            Cause::Not(what) => write!(f, "isn't {what}"),
            Cause::Outside(least, most) => {
                write!(f, "isn't a whole number from {least} to {most}")
            }
            Cause::Parts(1) => write!(f, "hasn't 1 part"),
            Cause::Parts(count) => write!(f, "hasn't {count} parts"),
            Cause::More(most) => write!(f, "has more than {most} items"),
            Cause::Empty => write!(f, "has no items"),
            Cause::Longer(most) => write!(f, "has more than {most} bytes"),
            Cause::Past(most, what) => write!(f, "is past the {most} {what} of a script"),
            Cause::NoDevice => write!(f, "isn't the name of a device of the node"),
            Cause::NoMetric => write!(
                f,
                "isn't the name of a metric of the node or of that device"
            ),
            Cause::Namesake => write!(f, "has the group and name of an earlier node"),
            Cause::SameUser => write!(f, "is the name of an earlier user"),
            Cause::Registry(refusal) => {
                let number = refusal.number();
                write!(f, "is refused: {refusal} ({number})")
            }
            Cause::World(fault) => {
                let number = fault.number();
                write!(f, "is refused: {fault} ({number})")
            }
        }
    }
}

/// Why a file isn't read.
#[derive(Debug, PartialEq, Drop)]
pub enum Misfit {
    /// A growth was refused.
    NoMemory,
    /// This is wrong there.
    Wrong(Place, Cause),
}

impl Misfit {
    /// Why a text isn't JSON.
    pub(crate) fn of_json(error: &JsonError) -> Misfit {
        if error.is_memory() {
            return Misfit::NoMemory;
        }
        let line = error.line();
        let column = error.column();
        Misfit::Wrong(Place::FILE, Cause::NoJson { line, column })
    }

    /// The same of a text that is the line of this number, from 1, of a file.
    pub(crate) fn in_line(self, number: usize) -> Misfit {
        match self {
            Misfit::NoMemory => Misfit::NoMemory,
            Misfit::Wrong(place, Cause::NoJson { line: _, column }) => {
                let line = number;
                Misfit::Wrong(place, Cause::NoJson { line, column })
            }
            Misfit::Wrong(place, cause) => Misfit::Wrong(place.in_line(number), cause),
        }
    }

    /// What the registry says of the device or the metric there.
    pub(crate) fn of_registry(place: Place, fault: DeviceFault) -> Misfit {
        match fault {
            DeviceFault::NoMemory => Misfit::NoMemory,
            DeviceFault::Refused(refusal) => Misfit::Wrong(place, Cause::Registry(refusal)),
        }
    }
}

impl From<AllocError> for Misfit {
    fn from(_refused: AllocError) -> Misfit {
        Misfit::NoMemory
    }
}

impl<T: Drop> From<AllocFailed<T>> for Misfit {
    fn from(_refused: AllocFailed<T>) -> Misfit {
        Misfit::NoMemory
    }
}
