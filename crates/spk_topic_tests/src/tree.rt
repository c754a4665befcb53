//! The tree of grants by its calls. A function that holds a tree is dear to prove: what the tests ask of one they ask through a trait without
//! clauses, and the rows are walked over a type parameter.
use crate::topics::slashes;
use Step::{Find, Grant, Take};
use spk_topics::{Filter, Topic, TopicFault, Tree};
use std::alloc::Global;
use std::process::Abort;

/// What the tests ask of a tree. Nothing is answered where a text can't be read.
pub(crate) trait Grants {
    /// Whether the filter is new for the key. Where memory was refused the call is made again.
    fn grant_to(&mut self, filter: &str, key: u64, qos: u8) -> Option<bool>;

    /// Whether the grant stood.
    fn take_from(&mut self, filter: &str, key: u64) -> Option<bool>;

    /// Whether these keys are found, with these QoS. Where memory was refused the call is made again.
    fn is_found(&self, topic: &str, keys: &[(u64, u8)]) -> bool;
}

fn granted(tree: &mut Tree, filter: &Filter, key: u64, qos: u8) -> Result<bool, TopicFault> {
    match tree.grant(filter, key, qos) {
        Err(TopicFault::NoMemory) => tree.grant(filter, key, qos),
        answer => answer,
    }
}

fn found(tree: &Tree, topic: &Topic) -> Result<Vec<(u64, u8)>, TopicFault> {
    match tree.find(topic) {
        Err(TopicFault::NoMemory) => tree.find(topic),
        answer => answer,
    }
}

impl Grants for Tree {
    fn grant_to(&mut self, filter: &str, key: u64, qos: u8) -> Option<bool> {
        match Filter::read(filter) {
            Ok(filter) => granted(self, &filter, key, qos).ok(),
            Err(_) => None,
        }
    }

    fn take_from(&mut self, filter: &str, key: u64) -> Option<bool> {
        match Filter::read(filter) {
            Ok(filter) => Some(self.take_back(&filter, key)),
            Err(_) => None,
        }
    }

    fn is_found(&self, topic: &str, keys: &[(u64, u8)]) -> bool {
        match Topic::read(topic) {
            Ok(topic) => match found(self, &topic) {
                Ok(found) => found.as_slice() == keys,
                Err(_) => false,
            },
            Err(_) => false,
        }
    }
}

/// A call on a tree, and what it answers.
#[derive(Clone, Copy)]
enum Step<'a> {
    /// A filter, a key, a QoS, and whether the filter is new for the key.
    Grant(&'a str, u64, u8, bool),
    /// A filter, a key, and whether the grant stood.
    Take(&'a str, u64, bool),
    /// A topic, and each key that is found with its QoS.
    Find(&'a str, &'a [(u64, u8)]),
}

/// Makes a call, and says whether it has that answer.
fn is_answered<T: Grants>(tree: &mut T, step: Step) -> bool {
    match step {
        Grant(filter, key, qos, is_new) => tree.grant_to(filter, key, qos) == Some(is_new),
        Take(filter, key, stood) => tree.take_from(filter, key) == Some(stood),
        Find(topic, found) => tree.is_found(topic, found),
    }
}

/// Makes the calls in turn; the first one that isn't answered so.
fn first_wrong<T: Grants>(tree: &mut T, steps: &[Step]) -> Option<usize> {
    for (place, step) in steps.iter().enumerate() {
        if !is_answered(tree, *step) {
            return Some(place);
        }
    }
    None
}

const GREATEST: &[Step] = &[
    Grant("a/#", 2, 0, true),
    Grant("+/b", 2, 1, true),
    Grant("#", 1, 0, true),
    Find("a/b", &[(1, 0), (2, 1)]),
    Find("a", &[(1, 0), (2, 0)]),
    Find("$SYS/b", &[]),
];

const SET_AGAIN: &[Step] = &[
    Grant("a/b", 7, 0, true),
    Grant("a/b", 7, 1, false),
    Grant("a/b", 8, 0, true),
    Grant("a/+", 8, 1, true),
    Find("a/b", &[(7, 1), (8, 1)]),
    Take("a/b", 7, true),
    Take("a/b", 7, false),
    Take("a/c", 8, false),
    Take("a", 8, false),
    Take("a/+", 8, true),
    Find("a/b", &[(8, 0)]),
    Take("a/b", 8, true),
    Find("a/b", &[]),
    Grant("c", 9, 1, true),
    Find("c", &[(9, 1)]),
];

const ABOVE_AND_BELOW: &[Step] = &[
    Grant("a", 1, 0, true),
    Grant("a/b/c", 2, 0, true),
    Grant("a/b", 3, 0, true),
    Grant("a/d", 4, 0, true),
    Take("a", 1, true),
    Take("a/b", 3, true),
    Find("a/b/c", &[(2, 0)]),
    Take("a/b/c", 2, true),
    Find("a/d", &[(4, 0)]),
    Find("a/b", &[]),
];

/// The first level below `a` goes and comes back: alone, beside a second one, and beside a second and a third.
const FIRST_BELOW: &[Step] = &[
    Grant("a", 9, 0, true),
    Grant("a/b", 1, 0, true),
    Take("a/b", 1, true),
    Find("a/b", &[]),
    Grant("a/b", 1, 1, true),
    Find("a/b", &[(1, 1)]),
    Grant("a/c", 2, 0, true),
    Take("a/b", 1, true),
    Find("a/b", &[]),
    Find("a/c", &[(2, 0)]),
    Grant("a/b", 1, 0, true),
    Find("a/b", &[(1, 0)]),
    Find("a/c", &[(2, 0)]),
    Grant("a/d", 3, 1, true),
    Take("a/b", 1, true),
    Find("a/b", &[]),
    Find("a/c", &[(2, 0)]),
    Find("a/d", &[(3, 1)]),
    Grant("a/b", 1, 1, true),
    Find("a/b", &[(1, 1)]),
    Find("a/c", &[(2, 0)]),
    Find("a/d", &[(3, 1)]),
    Take("a/c", 2, true),
    Take("a/b", 1, true),
    Find("a/c", &[]),
    Find("a/d", &[(3, 1)]),
    Take("a/d", 3, true),
    Find("a/d", &[]),
];

/// Two filters part inside an edge; the node between comes, is granted itself, and goes.
const PARTED: &[Step] = &[
    Grant("a/b/c/d", 1, 0, true),
    Find("a/b/c", &[]),
    Find("a/b/c/d", &[(1, 0)]),
    Grant("a/b/x", 2, 1, true),
    Find("a/b/c/d", &[(1, 0)]),
    Find("a/b/x", &[(2, 1)]),
    Find("a/b", &[]),
    Grant("a/b", 3, 0, true),
    Find("a/b", &[(3, 0)]),
    Take("a/b", 3, true),
    Take("a/b/x", 2, true),
    Find("a/b/x", &[]),
    Find("a/b/c/d", &[(1, 0)]),
    Take("a/b", 3, false),
    Grant("a/b/c", 4, 1, true),
    Grant("a/b/c/d/e/f", 5, 0, true),
    Take("a/b/c/d", 1, true),
    Find("a/b/c/d", &[]),
    Find("a/b/c", &[(4, 1)]),
    Find("a/b/c/d/e/f", &[(5, 0)]),
    Take("a/b/c", 4, true),
    Find("a/b/c/d/e/f", &[(5, 0)]),
    Grant("b/b/c/d/e/f", 6, 0, true),
    Find("b/b/c/d/e/f", &[(6, 0)]),
    Take("a/b/c/d/e/f", 5, true),
    Find("a/b/c/d/e/f", &[]),
    Find("b/b/c/d/e/f", &[(6, 0)]),
];

/// Empty levels, and names of which one begins the other.
const LOOKALIKES: &[Step] = &[
    Grant("a/bc", 1, 0, true),
    Grant("a/b", 2, 0, true),
    Grant("a/b/", 3, 0, true),
    Grant("/", 4, 0, true),
    Grant("//", 5, 0, true),
    Find("a/bc", &[(1, 0)]),
    Find("a/b", &[(2, 0)]),
    Find("a/b/", &[(3, 0)]),
    Find("/", &[(4, 0)]),
    Find("//", &[(5, 0)]),
    Find("a", &[]),
    Take("a/b", 2, true),
    Find("a/bc", &[(1, 0)]),
    Find("a/b/", &[(3, 0)]),
    Take("/", 4, true),
    Find("//", &[(5, 0)]),
];

/// Wildcards stand inside an edge, and at its end.
const INSIDE: &[Step] = &[
    Grant("a/+/c/#", 1, 0, true),
    Grant("+/b/+", 2, 1, true),
    Grant("$SYS/+/x/#", 3, 0, true),
    Find("a/b", &[]),
    Find("a/b/c", &[(1, 0), (2, 1)]),
    Find("a/x/c", &[(1, 0)]),
    Find("a/x/c/d/e", &[(1, 0)]),
    Find("a/x/d", &[]),
    Find("x/b/", &[(2, 1)]),
    Find("x/b", &[]),
    Find("$SYS/b/x", &[(3, 0)]),
    Find("$SYS/b/x/y", &[(3, 0)]),
    Find("$SYS/b/c", &[]),
    Find("x/b/c/d", &[]),
];

/// What a run shows, and its calls.
static RUNS: [(&str, &[Step]); 7] = [
    ("a key is found once with its greatest grant", GREATEST),
    ("a grant is set again and taken back", SET_AGAIN),
    (
        "a filter stays when one above or below it goes",
        ABOVE_AND_BELOW,
    ),
    ("the first level below goes and comes back", FIRST_BELOW),
    ("filters part inside an edge and join again", PARTED),
    ("names that begin alike are kept apart", LOOKALIKES),
    ("wildcards inside an edge match what they say", INSIDE),
];

/// Whether each call on a tree without grants, in turn, is answered so.
fn is_run(alloc: Global, steps: &[Step]) -> bool {
    first_wrong(&mut Tree::new(alloc), steps).is_none()
}

#[test]
fn a_tree_answers_by_the_grants_that_stand(rt: HostRuntime) {
    for (shows, steps) in &RUNS {
        assert!(rt; is_run(rt.alloc(), steps), "{shows}");
    }
}

/// What a call asks of a text.
#[derive(Clone, Copy)]
enum Ask {
    /// A key, a QoS, and whether the filter is new for the key.
    Granted(u64, u8, bool),
    /// A key, and whether the grant stood.
    Taken(u64, bool),
    /// Each key that is found with its QoS.
    Found(&'static [(u64, u8)]),
}

/// A call whose text is so many slashes and what ends them.
type Deep = (usize, &'static str, Ask);

const LONGEST: &[Deep] = &[
    (65_535, "", Ask::Granted(3, 1, true)),
    (65_535, "", Ask::Found(&[(3, 1)])),
    (65_534, "", Ask::Found(&[])),
    (65_534, "", Ask::Taken(3, false)),
    (65_535, "", Ask::Taken(3, true)),
    (65_535, "", Ask::Found(&[])),
];

const ENDS: &[Deep] = &[
    (65_534, "#", Ask::Granted(1, 0, true)),
    (65_534, "+", Ask::Granted(2, 1, true)),
    (65_535, "", Ask::Found(&[(1, 0)])),
    (65_534, "", Ask::Found(&[(1, 0), (2, 1)])),
    (65_533, "", Ask::Found(&[(1, 0)])),
    (65_532, "", Ask::Found(&[])),
];

const SHARED: &[Deep] = &[
    (65_535, "", Ask::Granted(1, 0, true)),
    (65_534, "x", Ask::Granted(2, 1, true)),
    (65_534, "", Ask::Found(&[])),
    (65_534, "", Ask::Granted(3, 0, true)),
    (65_535, "", Ask::Found(&[(1, 0)])),
    (65_534, "x", Ask::Found(&[(2, 1)])),
    (65_534, "", Ask::Found(&[(3, 0)])),
    (65_535, "", Ask::Taken(1, true)),
    (65_534, "", Ask::Taken(3, true)),
    (65_534, "x", Ask::Found(&[(2, 1)])),
    (65_535, "", Ask::Found(&[])),
];

/// What a run shows, and its calls.
static DEEP_RUNS: [(&str, &[Deep]); 3] = [
    (
        "a filter of 65536 levels is found for its topic alone",
        LONGEST,
    ),
    (
        "wildcards at the end of many levels match what they say",
        ENDS,
    ),
    ("two filters share 65535 levels", SHARED),
];

fn is_asked<T: Grants>(tree: &mut T, text: &str, ask: Ask) -> bool {
    match ask {
        Ask::Granted(key, qos, is_new) => is_answered(tree, Grant(text, key, qos, is_new)),
        Ask::Taken(key, stood) => is_answered(tree, Take(text, key, stood)),
        Ask::Found(keys) => is_answered(tree, Find(text, keys)),
    }
}

/// Makes the calls in turn; the first one that isn't answered so.
fn first_wrong_deep<T: Grants>(
    rt: &(impl Abort + AllocGlobal),
    tree: &mut T,
    steps: &[Deep],
) -> Option<usize> {
    for (place, (count, end, ask)) in steps.iter().enumerate() {
        if !is_asked(tree, &slashes(rt, *count, end), *ask) {
            return Some(place);
        }
    }
    None
}

/// The same, of calls with many slashes.
fn is_deep_run(rt: &(impl Abort + AllocGlobal), steps: &[Deep]) -> bool {
    first_wrong_deep(rt, &mut Tree::new(rt.alloc()), steps).is_none()
}

#[test]
fn a_tree_of_65536_levels_answers_by_the_grants_that_stand(rt: HostRuntime) {
    for (shows, steps) in &DEEP_RUNS {
        assert!(rt; is_deep_run(&rt, steps), "{shows}");
    }
}

static IN_TURN: [&str; 6] = ["a/b/c/d", "e/f/g/h", "e/f", "///", "+/+/#", "a/b/c/d"];

/// Whether a filter comes and goes, and one beside it stays.
fn comes_and_goes<T: Grants>(tree: &mut T, filter: &str) -> bool {
    tree.grant_to(filter, 1, 0) == Some(true)
        && tree.take_from(filter, 1) == Some(true)
        && tree.is_found("a/b", &[(1, 1)])
}

fn stays_beside<T: Grants>(tree: &mut T) -> bool {
    if tree.grant_to("a/+", 1, 1) != Some(true) {
        return false;
    }
    for filter in &IN_TURN {
        if !comes_and_goes(tree, filter) {
            return false;
        }
    }
    tree.is_found("a/b", &[(1, 1)])
}

#[test]
fn filters_come_and_go_beside_one_that_stays(rt: HostRuntime) {
    assert!(rt; stays_beside(&mut Tree::new(rt.alloc())));
}
