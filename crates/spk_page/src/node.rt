//! A node's row, its metrics and its devices.
ghost use Rattle.std.specs.Prelude.{◌≡◌};
ghost use Rattle.spk_page.specs.Looks.{look_at, since_at};
ghost use Rattle.spk_page.specs.Rows.{values_at};

use crate::look::Look;
use spk_story::{Counts, Hole, Story};

/// How many values a node and its devices have.
#[derive(Clone, Copy, Debug, PartialEq, Eq)]
pub struct Values {
    /// How many of these are current.
    pub current: usize,
    pub all: usize,
}

/// A node's row. Moments are in milliseconds since 1970.
#[derive(Debug, Drop)]
pub struct Node<'a> {
    /// Its number among the nodes, in the order in which the host first heard them.
    pub place: usize,
    pub group: &'a str,
    pub name: &'a str,
    pub look: Look,
    /// Since when it is shown so.
    pub since: u64,
    /// When a birth of it was consumed last.
    pub born_at: Option<u64>,
    /// When a message of it was consumed last.
    pub used_at: Option<u64>,
    pub counts: Counts,
    /// The hole in its readings that is open.
    pub hole: Option<Hole>,
    pub values: Values,
    /// The names of its devices that are offline.
    pub down: Vec<&'a str>,
    /// At which revision it changed last.
    pub changed: u64,
}

/// What is shown of a metric.
#[derive(Clone, Copy, Debug)]
pub enum Shown<'a> {
    /// It is null.
    Nothing,
    /// A value that this host doesn't read.
    Other,
    Signed(i64),
    Unsigned(u64),
    Flag(bool),
    Words(&'a str),
    Octets(&'a [u8]),
    /// By its bits (IEEE 754 binary32).
    Float(u32),
    /// By its bits (IEEE 754 binary64).
    Double(u64),
}

/// A metric.
#[derive(Clone, Copy, Debug)]
pub struct Metric<'a> {
    pub name: &'a str,
    pub alias: Option<u64>,
    /// The number of its datatype (Sparkplug 3.0.0, 6.4.16), as its birth gave it.
    pub datatype: Option<u32>,
    pub shown: Shown<'a>,
    /// When its value was given last.
    pub at: Option<u64>,
}

/// A device.
#[derive(Debug, Drop)]
pub struct Device<'a> {
    pub name: &'a str,
    pub is_online: bool,
    pub is_stale: bool,
    pub metrics: Vec<Metric<'a>>,
}

/// A node, whole.
#[derive(Debug, Drop)]
pub struct Whole<'a> {
    pub row: Node<'a>,
    /// The holes in its readings that are over, newest first.
    pub holes: &'a [Hole],
    pub metrics: Vec<Metric<'a>>,
    pub devices: Vec<Device<'a>>,
}

/// The values of a node that is shown so: none is current where the node isn't.
fn values_at(look: Look, values: Values) -> Values
    ensures { result ≡ values_at look values }
{
    if look.is_same(Look::Current) {
        return values;
    }
    Values {
        current: 0,
        all: values.all,
    }
}

impl<'a> Node<'a> {
    /// The row of the node at a place, by its names, its story and its values. It is silent once nothing of it was consumed for so many
    /// milliseconds; where it isn't current, none of its values is.
    pub fn new(
        place: usize,
        group: &'a str,
        name: &'a str,
        story: &Story,
        values: Values,
        down: Vec<&'a str>,
        changed: u64,
        patience: Option<u64>,
        now: u64,
    ) -> Node<'a>
        ensures place { result.place ≡ place }
        ensures group { result.group.now ≡ group.now }
        ensures name { result.name.now ≡ name.now }
        ensures look { result.look ≡ look_at story.now patience now }
        ensures since { result.since ≡ since_at story.now patience now }
        ensures born_at { result.born_at ≡ story.now.born_at }
        ensures used_at { result.used_at ≡ story.now.used_at }
        ensures counts { result.counts ≡ story.now.counts }
        ensures hole { result.hole ≡ story.now.hole }
        ensures values { result.values ≡ values_at (look_at story.now patience now) values }
        ensures down { result.down ≡ down.entry }
        ensures changed { result.changed ≡ changed }
    {
        let look = Look::at(story, patience, now);
        Node {
            place,
            group,
            name,
            look,
            since: Look::since(story, patience, now),
            born_at: story.born_at(),
            used_at: story.used_at(),
            counts: story.counts(),
            hole: story.hole(),
            values: values_at(look, values),
            down,
            changed,
        }
    }
}
