//! Topic names, topic filters and the topics of Sparkplug.
use spk_topics::{Filter, Spark, Topic, TopicFault, Verb, matches};
use std::alloc::{AllocError, Global};
use std::process::Abort;

/// Texts that are filters.
static FILTERS: [&str; 12] = [
    "a",
    "/",
    "+",
    "#",
    "a/#",
    "+/#",
    "/+",
    "a/+/b",
    "+/+",
    "a//b",
    "$SYS/#",
    "\u{e9}/\u{2603}",
];

/// Texts that are none, and why.
static NO_FILTERS: [(&str, TopicFault); 11] = [
    ("", TopicFault::Empty),
    ("a+", TopicFault::Wildcard),
    ("+a/b", TopicFault::Wildcard),
    ("a#", TopicFault::Wildcard),
    ("#/a", TopicFault::Wildcard),
    ("a/#/b", TopicFault::Wildcard),
    ("##", TopicFault::Wildcard),
    ("++", TopicFault::Wildcard),
    ("+#", TopicFault::Wildcard),
    ("\0a#", TopicFault::Wildcard),
    ("a\0", TopicFault::Nul),
];

/// Why a text is no filter, if it is none.
fn no_filter(text: &str) -> Option<TopicFault> {
    Filter::read(text).err()
}

#[test]
fn filters_are_read_or_refused_for_the_first_reason(rt: HostRuntime) {
    for text in &FILTERS {
        assert!(rt; no_filter(text).is_none(), "{text}");
    }
    for (text, want) in &NO_FILTERS {
        assert!(rt; no_filter(text) == Some(*want), "{text}");
    }
}

/// Texts that are topic names.
static TOPICS: [&str; 6] = ["a", "/", "a/b", "$SYS/x", "a//", "spBv1.0/G/DDATA/N/D"];

/// Texts that are no topic names, and why.
static NO_TOPICS: [(&str, TopicFault); 5] = [
    ("", TopicFault::Empty),
    ("+", TopicFault::Wildcard),
    ("a/#", TopicFault::Wildcard),
    ("a+b\0", TopicFault::Wildcard),
    ("\0", TopicFault::Nul),
];

/// Why a text is no topic name, if it is none.
fn no_topic(text: &str) -> Option<TopicFault> {
    Topic::read(text).err()
}

#[test]
fn topics_are_read_or_refused_for_the_first_reason(rt: HostRuntime) {
    for text in &TOPICS {
        assert!(rt; no_topic(text).is_none(), "{text}");
    }
    for (text, want) in &NO_TOPICS {
        assert!(rt; no_topic(text) == Some(*want), "{text}");
    }
}

/// A count of slashes, what ends them, and why the text is no filter and no topic name.
static LENGTHS: [(usize, &str, Option<TopicFault>, Option<TopicFault>); 3] = [
    (65_535, "", None, None),
    (
        65_536,
        "",
        Some(TopicFault::TooLong),
        Some(TopicFault::TooLong),
    ),
    (
        65_536,
        "+",
        Some(TopicFault::TooLong),
        Some(TopicFault::Wildcard),
    ),
];

#[test]
fn a_text_may_have_65535_bytes(rt: HostRuntime) {
    for (count, end, filter, topic) in &LENGTHS {
        let text = slashes(&rt, *count, end);
        assert!(rt; no_filter(&text) == *filter, "{count}");
        assert!(rt; no_topic(&text) == *topic, "{count}");
    }
}

/// Slashes and what ends them. Where memory is refused once, it is asked for again.
pub(crate) fn slashes(rt: &(impl Abort + AllocGlobal), count: usize, end: &str) -> String {
    match ended(rt.alloc(), count, end) {
        Ok(text) => text,
        Err(_) => ended(rt.alloc(), count, end).expect(rt, "memory"),
    }
}

fn ended(alloc: Global, count: usize, end: &str) -> Result<String, AllocError> {
    let mut text = String::new(alloc);
    for _ in 0..count {
        text.push_str("/")?;
    }
    text.push_str(end)?;
    Ok(text)
}

/// A filter, a topic name, and whether they match.
static MATCHES: [(&str, &str, bool); 24] = [
    ("#", "$SYS/x", false),
    ("spBv1.0/#", "spBv1.0", true),
    ("+/b", "/b", true),
    ("+", "a/b", false),
    ("sport/tennis/player1/#", "sport/tennis/player1", true),
    (
        "sport/tennis/player1/#",
        "sport/tennis/player1/ranking",
        true,
    ),
    (
        "sport/tennis/player1/#",
        "sport/tennis/player1/score/wimbledon",
        true,
    ),
    ("sport/tennis/+", "sport/tennis/player1", true),
    ("sport/tennis/+", "sport/tennis/player1/ranking", false),
    ("sport/+", "sport", false),
    ("sport/+", "sport/", true),
    ("+/+", "/finance", true),
    ("/+", "/finance", true),
    ("+", "/finance", false),
    ("+/monitor/Clients", "$SYS/monitor/Clients", false),
    ("$SYS/#", "$SYS/monitor", true),
    ("$SYS/monitor/+", "$SYS/monitor/Clients", true),
    ("a", "A", false),
    ("/a", "a", false),
    ("a/#", "ab", false),
    ("a/b", "a/b", true),
    ("a/b", "a/b/", false),
    ("a/+/c", "a//c", true),
    ("#", "/", true),
];

/// Whether they match, where they can be read.
fn is_match(filter: &str, topic: &str) -> Option<bool> {
    match (Filter::read(filter), Topic::read(topic)) {
        (Ok(filter), Ok(topic)) => Some(matches(&filter, &topic)),
        _ => None,
    }
}

#[test]
fn a_filter_matches_by_levels(rt: HostRuntime) {
    for (filter, topic, want) in &MATCHES {
        assert!(rt; is_match(filter, topic) == Some(*want), "{filter} {topic}");
    }
}

/// Topics of Sparkplug.
static SPARKPLUG_TOPICS: [&str; 11] = [
    "spBv1.0/G/NBIRTH/N",
    "spBv1.0/G/NDEATH/N",
    "spBv1.0/G/NDATA/N",
    "spBv1.0/G/NCMD/N",
    "spBv1.0/G/DBIRTH/N/D",
    "spBv1.0/G/DDEATH/N/D",
    "spBv1.0/G/DDATA/N/D",
    "spBv1.0/G/DCMD/N/D",
    "spBv1.0/STATE/H",
    "spBv1.0/STATE/NDATA/N",
    "spBv1.0/a b/NDATA/\u{e9}",
];

/// Texts that are none.
static OTHER_TOPICS: [&str; 15] = [
    "",
    "spBv1.0",
    "spBv1.0/G/NDATA",
    "spBv1.0/G/NDATA/N/D",
    "spBv1.0/G/DDATA/N",
    "spBv1.0/G/DDATA/N/D/E",
    "spBv1.0/G/STATE/N",
    "spBv1.0//NDATA/N",
    "spBv1.0/G/NDATA/",
    "spBv1.0/G/NDATA/+",
    "spBv1.0/G#/NDATA/N",
    "spBv1.0/G/NDATA/N\0",
    "spBv1.0/STATE/",
    "spBv1.0/G/ndata/N",
    "spAv1.0/G/NDATA/N",
];

/// After one refusal the same call is made again.
fn read_again(alloc: Global, topic: &str) -> Result<Spark, TopicFault> {
    match Spark::read(alloc, topic) {
        Err(TopicFault::NoMemory) => Spark::read(alloc, topic),
        other => other,
    }
}

/// Why a text is no topic of Sparkplug, if it is none.
fn no_spark(alloc: Global, topic: &str) -> Option<TopicFault> {
    read_again(alloc, topic).err()
}

fn text_again(alloc: Global, spark: &Spark) -> Result<String, TopicFault> {
    match spark.text(alloc) {
        Err(TopicFault::NoMemory) => spark.text(alloc),
        other => other,
    }
}

fn is_text(alloc: Global, spark: &Spark, want: &str) -> bool {
    match text_again(alloc, spark) {
        Ok(text) => text.as_str() == want,
        Err(_) => false,
    }
}

fn is_written_back(alloc: Global, topic: &str) -> bool {
    match read_again(alloc, topic) {
        Ok(spark) => is_text(alloc, &spark, topic),
        Err(_) => false,
    }
}

#[test]
fn sparkplug_topics_are_read_and_written_back(rt: HostRuntime) {
    for topic in &SPARKPLUG_TOPICS {
        assert!(rt; is_written_back(rt.alloc(), topic), "{topic}");
    }
    for topic in &OTHER_TOPICS {
        let refused = no_spark(rt.alloc(), topic);
        assert!(rt; refused == Some(TopicFault::NotSparkplug), "{topic}");
    }
}

/// Texts that may not stand in a topic as a name.
static NO_NAMES: [&str; 5] = ["", "a/b", "+", "a#", "\0"];

/// A text of its own. Where memory is refused once, it is asked for again.
fn text(rt: &(impl Abort + AllocGlobal), text: &str) -> String {
    match String::from_str(rt.alloc(), text) {
        Ok(own) => own,
        Err(_) => String::from_str(rt.alloc(), text).expect(rt, "memory"),
    }
}

/// Why a host of this name has no topic, if it has none.
fn no_state(rt: &(impl Abort + AllocGlobal), name: &str) -> Option<TopicFault> {
    let spark = Spark::State {
        host: text(rt, name),
    };
    text_again(rt.alloc(), &spark).err()
}

/// Whether data of this group and node have that topic.
fn is_data_topic(rt: &(impl Abort + AllocGlobal), group: &str, node: &str, topic: &str) -> bool {
    let spark = Spark::Node {
        group: text(rt, group),
        kind: Verb::Data,
        node: text(rt, node),
    };
    is_text(rt.alloc(), &spark, topic)
}

#[test]
fn names_that_may_not_stand_in_a_topic_are_refused(rt: HostRuntime) {
    for name in &NO_NAMES {
        let refused = no_state(&rt, name);
        assert!(rt; refused == Some(TopicFault::NotSparkplug), "{name}");
    }
    assert!(rt; is_data_topic(&rt, "STATE", "N", "spBv1.0/STATE/NDATA/N"));
}

/// A fault, its number and its name.
static NUMBERS: [(TopicFault, u32, &str); 6] = [
    (TopicFault::NoMemory, 1, "NoMemory"),
    (TopicFault::Empty, 20, "Empty"),
    (TopicFault::Wildcard, 21, "Wildcard"),
    (TopicFault::Nul, 22, "Nul"),
    (TopicFault::TooLong, 23, "TooLong"),
    (TopicFault::NotSparkplug, 24, "NotSparkplug"),
];

fn shown(rt: &(impl Abort + AllocGlobal), fault: TopicFault) -> String {
    match fault.to_string(rt.alloc()) {
        Ok(text) => text,
        Err(_) => fault.to_string(rt.alloc()).expect(rt, "memory"),
    }
}

#[test]
fn each_fault_has_its_number(rt: HostRuntime) {
    for (fault, number, name) in &NUMBERS {
        assert!(rt; fault.number() == *number, "{name}");
        assert!(rt; shown(&rt, *fault).as_str() == *name, "{name}");
    }
}
