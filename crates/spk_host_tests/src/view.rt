use spk_host_rules::Shown;
use spk_payload::{Metric, Raw, Value};
use spk_view::{Ready, Watch};
use std::alloc::{AllocError, Global};
use std::process::Abort;

/// How long no second rebirth is asked for, in milliseconds.
const WAIT: u64 = 2000;

/// A metric's name, alias and value: a UInt32 (7), or from 1,000,000 on a String (12) of so many letters more.
type Row = (Option<&'static str>, Option<u64>, u32);

/// From this number on a row has a text.
const TEXTS: u32 = 1_000_000;

fn raw(alloc: Global, value: u32) -> Result<Raw, AllocError> {
    if value < TEXTS {
        return Ok(Raw::Int(value));
    }
    let mut text = String::new(alloc);
    for _letter in TEXTS..value {
        text.push('x')?;
    }
    Ok(Raw::Words(text))
}

fn metric(
    alloc: Global,
    name: Option<&str>,
    alias: Option<u64>,
    value: u32,
) -> Result<Metric, AllocError> {
    let name = match name {
        Some(name) => Some(String::from_str(alloc, name)?),
        None => None,
    };
    Ok(Metric {
        name,
        alias,
        timestamp: None,
        datatype: Some(if value < TEXTS { 7 } else { 12 }),
        historical: None,
        transient: None,
        null: None,
        value: Some(raw(alloc, value)?),
    })
}

/// Puts a metric behind others.
fn put(
    alloc: Global,
    metrics: &mut Vec<Metric>,
    name: Option<&str>,
    alias: Option<u64>,
    value: u32,
) -> Result<(), AllocError> {
    metrics.push(metric(alloc, name, alias, value)?)?;
    Ok(())
}

fn put_all(alloc: Global, metrics: &mut Vec<Metric>, rows: &[Row]) -> Result<(), AllocError> {
    for (name, alias, value) in rows {
        put(alloc, metrics, *name, *alias, *value)?;
    }
    Ok(())
}

fn metrics(alloc: Global, rows: &[Row]) -> Result<Vec<Metric>, AllocError> {
    let mut metrics = Vec::new(alloc);
    put_all(alloc, &mut metrics, rows)?;
    Ok(metrics)
}

/// What is heard of a node.
enum Heard {
    NodeBirth(&'static [Row]),
    NodeData(&'static [Row]),
    DeviceBirth(&'static str, &'static [Row]),
    DeviceData(&'static str, &'static [Row]),
    DeviceDeath(&'static str),
    /// Births that have the names and the aliases of what is shown, or haven't.
    NodeRebirth(&'static [Row]),
    DeviceRebirth(&'static str, &'static [Row]),
    /// Data that aren't made ready.
    NodeValues(&'static [Row]),
    DeviceValues(&'static str, &'static [Row]),
    Gap,
    NotLive,
    Over,
}

/// The metrics of a message, none where it has none.
fn rows_of(heard: &Heard) -> &'static [Row] {
    match heard {
        Heard::NodeBirth(rows) | Heard::NodeData(rows) => rows,
        Heard::DeviceBirth(_, rows) | Heard::DeviceData(_, rows) => rows,
        _ => &[],
    }
}

/// A message of these metrics made ready, if it is one that is.
fn made(alloc: Global, heard: &Heard, metrics: &[Metric]) -> Option<Result<Ready, AllocError>> {
    match heard {
        Heard::NodeBirth(_) => Some(Ready::node_birth(alloc, metrics)),
        Heard::NodeData(_) => Some(Ready::node_data(alloc, metrics)),
        Heard::DeviceBirth(name, _) => Some(Ready::device_birth(alloc, name, metrics)),
        Heard::DeviceData(name, _) => Some(Ready::device_data(alloc, name, metrics)),
        Heard::DeviceDeath(name) => Some(Ready::device_death(alloc, name)),
        _ => None,
    }
}

/// A message made ready, if it is one.
fn ready(alloc: Global, heard: &Heard) -> Option<Result<Ready, AllocError>> {
    match metrics(alloc, rows_of(heard)) {
        Ok(metrics) => made(alloc, heard, &metrics),
        Err(fault) => Some(Err(fault)),
    }
}

/// What the tests ask of a watch. They are written over any that answers it, since a function over a type parameter is proved
/// without the parts of a watch.
trait Watches {
    fn make_room(&mut self, room: usize) -> Result<(), AllocError>;

    /// Whether a rebirth is asked for, or None where a message came back.
    fn take(&mut self, ready: Ready, now: u64) -> Option<bool>;

    /// Whether a birth, of the device that is named or of the node, has the names and the aliases of what is shown.
    fn rebear(
        &mut self,
        alloc: Global,
        device: Option<&str>,
        metrics: &[Metric],
    ) -> Result<bool, AllocError>;

    /// Whether a rebirth is asked for at data, of the device that is named or of the node.
    fn change(
        &mut self,
        alloc: Global,
        device: Option<&str>,
        metrics: &[Metric],
        now: u64,
    ) -> Result<bool, AllocError>;

    fn miss(&mut self, now: u64) -> bool;

    fn wonder(&mut self, now: u64) -> bool;

    fn end(&mut self);

    /// The number that the node's metric of a name shows, if there is one.
    fn own(&self, name: &str) -> Option<u64>;

    /// The number that a device's metric of a name shows, if there is one.
    fn of_device(&self, device: &str, name: &str) -> Option<u64>;

    /// Whether a device is online, and whether its values are stale, if it is shown.
    fn device_stands(&self, device: &str) -> Option<(bool, bool)>;

    /// Whether the node is online, and whether its own values are stale, if it is shown.
    fn node_stands(&self) -> Option<(bool, bool)>;
}

impl Watches for Watch {
    fn make_room(&mut self, room: usize) -> Result<(), AllocError> {
        self.reserve(room)
    }

    fn take(&mut self, ready: Ready, now: u64) -> Option<bool> {
        self.consume(WAIT, ready, now).ok()
    }

    fn rebear(
        &mut self,
        alloc: Global,
        device: Option<&str>,
        metrics: &[Metric],
    ) -> Result<bool, AllocError> {
        match device {
            Some(name) => self.consume_device_rebirth(alloc, name, metrics),
            None => self.consume_node_rebirth(alloc, metrics),
        }
    }

    fn change(
        &mut self,
        alloc: Global,
        device: Option<&str>,
        metrics: &[Metric],
        now: u64,
    ) -> Result<bool, AllocError> {
        match device {
            Some(name) => self.consume_any_device_data(alloc, WAIT, name, metrics, now),
            None => self.consume_any_node_data(alloc, WAIT, metrics, now),
        }
    }

    fn miss(&mut self, now: u64) -> bool {
        self.gap(WAIT, now)
    }

    fn wonder(&mut self, now: u64) -> bool {
        self.not_live(WAIT, now)
    }

    fn end(&mut self) {
        self.over();
    }

    fn own(&self, name: &str) -> Option<u64> {
        let view = self.view()?;
        let metric = view.metric(name)?;
        Some(number(metric.shown()))
    }

    fn of_device(&self, device: &str, name: &str) -> Option<u64> {
        let view = self.view()?;
        let device = view.device(device)?;
        let metric = device.metric(name)?;
        Some(number(metric.shown()))
    }

    fn device_stands(&self, device: &str) -> Option<(bool, bool)> {
        let view = self.view()?;
        let device = view.device(device)?;
        Some((device.is_online(), device.is_stale()))
    }

    fn node_stands(&self) -> Option<(bool, bool)> {
        let view = self.view()?;
        Some((view.is_online(), view.is_stale()))
    }
}

/// What is answered where no message is made ready.
fn turn(
    alloc: Global,
    watch: &mut impl Watches,
    heard: &Heard,
    now: u64,
) -> Result<bool, AllocError> {
    match heard {
        Heard::Gap => Ok(watch.miss(now)),
        Heard::NotLive => Ok(watch.wonder(now)),
        Heard::NodeRebirth(rows) => watch.rebear(alloc, None, &metrics(alloc, rows)?),
        Heard::NodeValues(rows) => watch.change(alloc, None, &metrics(alloc, rows)?, now),
        Heard::DeviceValues(name, rows) => {
            watch.change(alloc, Some(name), &metrics(alloc, rows)?, now)
        }
        Heard::DeviceRebirth(name, rows) => {
            watch.rebear(alloc, Some(name), &metrics(alloc, rows)?)
        }
        _ => {
            watch.end();
            Ok(false)
        }
    }
}

/// Something is heard at a moment, with room for so many devices more.
fn hear(
    alloc: Global,
    watch: &mut impl Watches,
    heard: &Heard,
    now: u64,
    room: usize,
) -> Result<Option<bool>, AllocError> {
    watch.make_room(room)?;
    match ready(alloc, heard) {
        Some(Ok(ready)) => Ok(watch.take(ready, now)),
        Some(Err(fault)) => Err(fault),
        None => Ok(Some(turn(alloc, watch, heard, now)?)),
    }
}

/// The number that is shown, or 0.
fn number(shown: &Shown) -> u64 {
    match shown {
        Shown::Typed(Value::Unsigned(number)) => *number,
        Shown::Typed(Value::Words(text)) => u64::from(TEXTS).saturating_add(text.len() as u64),
        _ => 0,
    }
}

/// What is looked at: a metric of the node's own, one of a device, a device, or the node.
enum Seen {
    Own(&'static str, Option<u64>),
    Of(&'static str, &'static str, Option<u64>),
    Device(&'static str, Option<(bool, bool)>),
    Node(Option<(bool, bool)>),
}

/// It is seen so.
fn is_seen(watch: &impl Watches, seen: &Seen) -> bool {
    match seen {
        Seen::Own(name, number) => watch.own(name) == *number,
        Seen::Of(device, name, number) => watch.of_device(device, name) == *number,
        Seen::Device(device, standing) => watch.device_stands(device) == *standing,
        Seen::Node(standing) => watch.node_stands() == *standing,
    }
}

fn are_seen(watch: &impl Watches, all: &[Seen]) -> bool {
    for seen in all {
        if !is_seen(watch, seen) {
            return false;
        }
    }
    true
}

/// A moment, the room asked for before, what is heard, what is answered, and what is seen then.
type Line = (u64, usize, Heard, Option<bool>, &'static [Seen]);

/// A watch hears one line after the other.
fn play(
    rt: &(impl Abort + AllocGlobal),
    watch: &mut impl Watches,
    lines: &[Line],
) -> Result<(), AllocError> {
    for (now, room, heard, asks, seen) in lines {
        let answer = hear(rt.alloc(), watch, heard, *now, *room)?;
        assert!(rt; answer == *asks && are_seen(watch, seen), "at {now}");
    }
    Ok(())
}

/// What a watch hears.
#[derive(Clone, Copy)]
enum Case {
    Lines(&'static [Line]),
    Many,
}

fn hear_case(
    rt: &(impl Abort + AllocGlobal),
    watch: &mut impl Watches,
    case: Case,
) -> Result<(), AllocError> {
    match case {
        Case::Lines(lines) => play(rt, watch, lines),
        Case::Many => hear_many(rt, watch),
    }
}

/// A new watch hears it.
fn plays(rt: &(impl Abort + AllocGlobal), case: Case) -> Result<(), AllocError> {
    hear_case(rt, &mut Watch::new(rt.alloc()), case)
}

/// The same, and again from the beginning where memory was refused.
fn assert_plays(rt: &(impl Abort + AllocGlobal), case: Case) {
    if plays(rt, case).is_err() {
        assert!(rt; plays(rt, case).is_ok());
    }
}

const NOT: Option<bool> = Some(false);

const ASKS: Option<bool> = Some(true);

static MOVING: [Line; 7] = [
    (
        0,
        0,
        Heard::NodeBirth(&[
            (Some("a"), Some(1), 10),
            (Some("b"), Some(1), 20),
            (None, Some(3), 70),
            (Some("a"), Some(2), 30),
        ]),
        NOT,
        &[Seen::Own("a", Some(30)), Seen::Own("b", Some(20))],
    ),
    (
        1,
        0,
        Heard::NodeData(&[(None, Some(1), 21)]),
        NOT,
        &[Seen::Own("a", Some(30)), Seen::Own("b", Some(21))],
    ),
    (
        2,
        0,
        Heard::NodeData(&[(Some("b"), Some(2), 31)]),
        NOT,
        &[Seen::Own("a", Some(31)), Seen::Own("b", Some(21))],
    ),
    (
        3,
        0,
        Heard::NodeData(&[(Some("b"), None, 22), (Some("c"), None, 5)]),
        NOT,
        &[Seen::Own("b", Some(22)), Seen::Own("c", None)],
    ),
    (
        4,
        0,
        Heard::NodeData(&[(None, Some(3), 71)]),
        ASKS,
        &[Seen::Own("a", Some(31)), Seen::Own("b", Some(22))],
    ),
    (5, 0, Heard::NodeData(&[(None, Some(3), 72)]), NOT, &[]),
    (
        6,
        0,
        Heard::NodeBirth(&[(Some("b"), Some(3), 1)]),
        NOT,
        &[Seen::Own("a", None), Seen::Own("b", Some(1))],
    ),
];

#[test]
fn an_alias_leads_to_the_last_metric_that_has_it(rt: HostRuntime) {
    assert_plays(&rt, Case::Lines(&MOVING));
}

static DEVICES: [Line; 9] = [
    (
        0,
        0,
        Heard::DeviceBirth("D", &[(Some("t"), Some(1), 9)]),
        NOT,
        &[Seen::Node(None), Seen::Device("D", None)],
    ),
    (
        1,
        0,
        Heard::NodeBirth(&[(Some("t"), Some(1), 1)]),
        NOT,
        &[Seen::Device("D", None)],
    ),
    (
        2,
        1,
        Heard::DeviceBirth("D", &[(Some("t"), Some(1), 2)]),
        NOT,
        &[Seen::Device("D", Some((true, false)))],
    ),
    (
        3,
        1,
        Heard::DeviceBirth("E", &[(Some("u"), Some(1), 3)]),
        NOT,
        &[Seen::Of("E", "u", Some(3))],
    ),
    (
        4,
        0,
        Heard::DeviceData("E", &[(None, Some(1), 4)]),
        NOT,
        &[
            Seen::Own("t", Some(1)),
            Seen::Of("D", "t", Some(2)),
            Seen::Of("E", "u", Some(4)),
        ],
    ),
    (
        5,
        0,
        Heard::DeviceDeath("D"),
        NOT,
        &[
            Seen::Device("D", Some((false, true))),
            Seen::Device("E", Some((true, false))),
        ],
    ),
    (
        6,
        0,
        Heard::NodeBirth(&[]),
        NOT,
        &[Seen::Device("E", Some((false, true))), Seen::Own("t", None)],
    ),
    (
        7,
        0,
        Heard::DeviceData("E", &[(None, Some(1), 5)]),
        ASKS,
        &[Seen::Of("E", "u", Some(4)), Seen::Device("F", None)],
    ),
    (8, 0, Heard::DeviceDeath("F"), NOT, &[]),
];

#[test]
fn two_devices_have_the_same_aliases(rt: HostRuntime) {
    assert_plays(&rt, Case::Lines(&DEVICES));
}

static REBIRTHS: [Line; 16] = [
    (
        0,
        0,
        Heard::NodeRebirth(&[(Some("a"), Some(1), 9)]),
        NOT,
        &[Seen::Node(None)],
    ),
    (
        1,
        0,
        Heard::NodeBirth(&[(Some("a"), Some(1), 10), (Some("b"), None, 20)]),
        NOT,
        &[],
    ),
    (2, 0, Heard::Over, NOT, &[Seen::Node(Some((false, true)))]),
    (
        3,
        0,
        Heard::NodeRebirth(&[(Some("a"), Some(1), 11), (Some("b"), None, 21)]),
        ASKS,
        &[
            Seen::Own("a", Some(11)),
            Seen::Own("b", Some(21)),
            Seen::Node(Some((true, false))),
        ],
    ),
    (
        4,
        0,
        Heard::NodeRebirth(&[(Some("a"), Some(2), 12), (Some("b"), None, 22)]),
        NOT,
        &[Seen::Own("a", Some(11)), Seen::Own("b", Some(21))],
    ),
    (
        5,
        0,
        Heard::NodeRebirth(&[(Some("a"), Some(1), 13)]),
        NOT,
        &[Seen::Own("a", Some(11)), Seen::Own("b", Some(21))],
    ),
    (
        6,
        1,
        Heard::DeviceBirth("D", &[(Some("t"), Some(1), 30)]),
        NOT,
        &[Seen::Of("D", "t", Some(30))],
    ),
    (
        7,
        0,
        Heard::NodeRebirth(&[(Some("a"), Some(1), 14), (Some("b"), None, 24)]),
        ASKS,
        &[
            Seen::Own("a", Some(14)),
            Seen::Device("D", Some((false, true))),
        ],
    ),
    (
        8,
        0,
        Heard::DeviceRebirth("D", &[(Some("t"), Some(1), 31)]),
        ASKS,
        &[
            Seen::Of("D", "t", Some(31)),
            Seen::Device("D", Some((true, false))),
        ],
    ),
    (
        9,
        0,
        Heard::DeviceRebirth("E", &[(Some("t"), Some(1), 32)]),
        NOT,
        &[Seen::Of("D", "t", Some(31)), Seen::Device("E", None)],
    ),
    (
        10,
        0,
        Heard::NodeBirth(&[
            (Some("a"), Some(1), 1),
            (Some("a"), Some(1), 2),
            (Some("a"), Some(1), 3),
            (Some("a"), Some(1), 4),
        ]),
        NOT,
        &[Seen::Own("a", Some(4))],
    ),
    (
        11,
        0,
        Heard::NodeRebirth(&[(Some("a"), Some(1), 5)]),
        NOT,
        &[Seen::Own("a", Some(4))],
    ),
    // room for three is more than twice one, and room for two isn't
    (
        12,
        0,
        Heard::NodeBirth(&[
            (Some("a"), Some(1), 6),
            (Some("a"), Some(1), 7),
            (Some("a"), Some(1), 8),
        ]),
        NOT,
        &[Seen::Own("a", Some(8))],
    ),
    (
        13,
        0,
        Heard::NodeRebirth(&[(Some("a"), Some(1), 9)]),
        NOT,
        &[Seen::Own("a", Some(8))],
    ),
    (
        14,
        0,
        Heard::NodeBirth(&[(Some("a"), Some(1), 10), (Some("a"), Some(1), 11)]),
        NOT,
        &[Seen::Own("a", Some(11))],
    ),
    (
        15,
        0,
        Heard::NodeRebirth(&[(Some("a"), Some(1), 12)]),
        ASKS,
        &[Seen::Own("a", Some(12))],
    ),
];

#[test]
fn a_rebirth_of_the_same_names_sets_their_values(rt: HostRuntime) {
    assert_plays(&rt, Case::Lines(&REBIRTHS));
}

static VALUES: [Line; 6] = [
    (
        0,
        0,
        Heard::NodeBirth(&[
            (Some("a"), Some(1), 1_000_003),
            (Some("b"), Some(2), 20),
            (Some("c"), Some(3), 1_000_001),
        ]),
        NOT,
        &[
            Seen::Own("a", Some(1_000_003)),
            Seen::Own("c", Some(1_000_001)),
        ],
    ),
    (
        1,
        0,
        Heard::NodeValues(&[
            (None, Some(1), 1_000_005),
            (None, Some(2), 21),
            (None, Some(3), 1_000_002),
        ]),
        NOT,
        &[
            Seen::Own("a", Some(1_000_005)),
            Seen::Own("b", Some(21)),
            Seen::Own("c", Some(1_000_002)),
        ],
    ),
    (
        2,
        0,
        Heard::NodeValues(&[(Some("c"), None, 1_000_004), (None, Some(1), 1_000_006)]),
        NOT,
        &[
            Seen::Own("a", Some(1_000_006)),
            Seen::Own("c", Some(1_000_004)),
        ],
    ),
    (
        3,
        0,
        Heard::NodeValues(&[(None, Some(9), 1_000_007), (None, Some(1), 1_000_008)]),
        ASKS,
        &[
            Seen::Own("a", Some(1_000_008)),
            Seen::Own("c", Some(1_000_004)),
        ],
    ),
    (
        4,
        1,
        Heard::DeviceBirth(
            "D",
            &[(Some("t"), Some(1), 1_000_001), (Some("u"), Some(2), 5)],
        ),
        NOT,
        &[Seen::Of("D", "t", Some(1_000_001))],
    ),
    (
        5,
        0,
        Heard::DeviceValues("D", &[(None, Some(2), 6), (None, Some(1), 1_000_009)]),
        NOT,
        &[
            Seen::Of("D", "u", Some(6)),
            Seen::Of("D", "t", Some(1_000_009)),
            Seen::Own("a", Some(1_000_008)),
        ],
    ),
];

#[test]
fn data_with_texts_are_shown_without_being_made_ready(rt: HostRuntime) {
    assert_plays(&rt, Case::Lines(&VALUES));
}

static LOSSES: [Line; 7] = [
    (0, 0, Heard::NotLive, ASKS, &[Seen::Node(None)]),
    (
        1,
        0,
        Heard::NodeBirth(&[(Some("t"), None, 1)]),
        NOT,
        &[Seen::Node(Some((true, false)))],
    ),
    (
        2,
        1,
        Heard::DeviceBirth("D", &[]),
        NOT,
        &[Seen::Device("D", Some((true, false)))],
    ),
    (
        3,
        0,
        Heard::Gap,
        ASKS,
        &[
            Seen::Node(Some((true, true))),
            Seen::Device("D", Some((true, true))),
        ],
    ),
    (2002, 0, Heard::NotLive, NOT, &[]),
    (2003, 0, Heard::NotLive, ASKS, &[]),
    (
        2004,
        0,
        Heard::Over,
        NOT,
        &[
            Seen::Node(Some((false, true))),
            Seen::Device("D", Some((false, true))),
            Seen::Own("t", Some(1)),
        ],
    ),
];

#[test]
fn a_gap_makes_stale_and_an_end_offline(rt: HostRuntime) {
    assert_plays(&rt, Case::Lines(&LOSSES));
}

static ROOMS: [Line; 4] = [
    (0, 0, Heard::NodeBirth(&[]), NOT, &[]),
    (
        1,
        0,
        Heard::DeviceBirth("D", &[]),
        None,
        &[Seen::Device("D", None)],
    ),
    (
        2,
        1,
        Heard::DeviceBirth("D", &[]),
        NOT,
        &[Seen::Device("D", Some((true, false)))],
    ),
    (3, 0, Heard::DeviceBirth("D", &[]), NOT, &[]),
];

#[test]
fn the_birth_of_a_device_comes_back_where_there_is_no_room(rt: HostRuntime) {
    assert_plays(&rt, Case::Lines(&ROOMS));
}

/// Names that have one key: the bytes 17 to 24 are what the hasher is at by then, and so the last eight count for nothing.
static ONE_KEY: [Line; 4] = [
    (
        0,
        0,
        Heard::NodeBirth(&[
            (Some("Pump 00000064263diY4XGbP/Speed 1"), Some(1), 10),
            (Some("Pump 00000064263diY4XGbP/Speed 2"), None, 20),
            (Some("Pump 00000064263diY4XGbP/Torque1"), Some(2), 30),
            (Some("Pump 00000064263diY4XGbP/Speed 1"), Some(3), 11),
        ]),
        NOT,
        &[
            Seen::Own("Pump 00000064263diY4XGbP/Speed 1", Some(11)),
            Seen::Own("Pump 00000064263diY4XGbP/Speed 2", Some(20)),
            Seen::Own("Pump 00000064263diY4XGbP/Torque1", Some(30)),
            Seen::Own("Pump 00000064263diY4XGbP/Torque2", None),
        ],
    ),
    (
        1,
        0,
        Heard::NodeData(&[
            (Some("Pump 00000064263diY4XGbP/Speed 2"), None, 21),
            (Some("Pump 00000064263diY4XGbP/Torque2"), None, 41),
            (None, Some(3), 12),
        ]),
        NOT,
        &[
            Seen::Own("Pump 00000064263diY4XGbP/Speed 1", Some(12)),
            Seen::Own("Pump 00000064263diY4XGbP/Speed 2", Some(21)),
            Seen::Own("Pump 00000064263diY4XGbP/Torque1", Some(30)),
        ],
    ),
    (
        2,
        0,
        Heard::NodeData(&[(None, Some(1), 13)]),
        ASKS,
        &[Seen::Own("Pump 00000064263diY4XGbP/Speed 1", Some(12))],
    ),
    (
        3,
        0,
        Heard::NodeBirth(&[(Some("Pump 00000064263diY4XGbP/Torque2"), None, 1)]),
        NOT,
        &[
            Seen::Own("Pump 00000064263diY4XGbP/Speed 1", None),
            Seen::Own("Pump 00000064263diY4XGbP/Torque2", Some(1)),
        ],
    ),
];

#[test]
fn names_of_one_key_are_told_apart(rt: HostRuntime) {
    assert_plays(&rt, Case::Lines(&ONE_KEY));
}

/// Puts a metric that is named by its number, with it as alias and so much more as value, behind others.
fn put_named(
    alloc: Global,
    metrics: &mut Vec<Metric>,
    number: u32,
    more: u32,
) -> Result<(), AllocError> {
    let name = format!(in alloc; "{number}")?;
    let value = number.wrapping_add(more);
    put(
        alloc,
        metrics,
        Some(name.as_str()),
        Some(u64::from(number)),
        value,
    )
}

/// 10,000 such metrics.
fn many(alloc: Global, more: u32) -> Result<Vec<Metric>, AllocError> {
    let mut metrics = Vec::new(alloc);
    for number in 0..10_000 {
        put_named(alloc, &mut metrics, number, more)?;
    }
    Ok(metrics)
}

/// A birth of them, or data.
fn many_ready(alloc: Global, is_birth: bool, more: u32) -> Result<Ready, AllocError> {
    match many(alloc, more) {
        Ok(metrics) if is_birth => Ready::node_birth(alloc, &metrics),
        Ok(metrics) => Ready::node_data(alloc, &metrics),
        Err(fault) => Err(fault),
    }
}

/// Metrics, and what is shown of them then.
static OF_MANY: [(&str, Option<u64>); 4] = [
    ("0", Some(2)),
    ("5000", Some(5002)),
    ("9999", Some(10_001)),
    ("10000", None),
];

/// A birth of 10,000 metrics, and data for each of them.
fn hear_many(rt: &(impl Abort + AllocGlobal), watch: &mut impl Watches) -> Result<(), AllocError> {
    let _asks = watch.take(many_ready(rt.alloc(), true, 1)?, 0);
    let _asks = watch.take(many_ready(rt.alloc(), false, 2)?, 1);
    for (name, number) in &OF_MANY {
        assert!(rt; watch.own(name) == *number, "{name}");
    }
    Ok(())
}

#[test]
fn data_for_each_of_10000_metrics(rt: HostRuntime) {
    assert_plays(&rt, Case::Many);
}
