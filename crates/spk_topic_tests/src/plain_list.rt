//! Three hundred grants beside a plain list of them.
use crate::tree::Grants;
use spk_topics::{Filter, Topic, Tree, matches};
use std::alloc::{AllocError, Global};
use std::process::Abort;

/// A text of parts, also where memory is refused once.
fn text(rt: &(impl Abort + AllocGlobal), parts: [&str; 4]) -> String {
    match joined(rt.alloc(), parts) {
        Ok(text) => text,
        Err(_) => joined(rt.alloc(), parts).expect(rt, "memory"),
    }
}

fn joined(alloc: Global, parts: [&str; 4]) -> Result<String, AllocError> {
    let mut text = String::new(alloc);
    for part in parts {
        text.push_str(part)?;
    }
    Ok(text)
}

/// The same for a list's end.
fn push(rt: &impl Abort, list: &mut Vec<Given>, given: Given) {
    if let Err(back) = list.push(given) {
        assert!(rt; list.push(back.value).is_ok());
    }
}

/// One grant of the plain list.
#[derive(Drop)]
struct Given {
    filter: String,
    key: u64,
    qos: u8,
    stands: bool,
}

/// Three hundred grants of 13 keys, two for each of 150 filters.
fn three_hundred(rt: &(impl Abort + AllocGlobal)) -> Vec<Given> {
    let mut grants = Vec::new(rt.alloc());
    let mut count = 0u64;
    for first in ["a", "b", "", "+", "$x"] {
        for second in ["a", "b", "", "+", "$x"] {
            for end in ["", "/#", "/b", "/+", "/+/c", "//"] {
                for step in 0..2 {
                    let key = 7u64.wrapping_mul(count).wrapping_add(step) % 13;
                    let given = Given {
                        filter: text(rt, [first, "/", second, end]),
                        key,
                        qos: (count % 2) as u8,
                        stands: true,
                    };
                    push(rt, &mut grants, given);
                    count = count.wrapping_add(1);
                }
            }
        }
    }
    grants
}

/// The greatest grant of each key, by a look at each one that stands.
fn greatest(rt: &impl Abort, grants: &[Given], topic: &str) -> [Option<u8>; 13] {
    let topic = Topic::read(topic).expect(rt, "a topic");
    let mut best = [None; 13];
    for given in grants {
        let filter = Filter::read(&given.filter).expect(rt, "a filter");
        let place = (given.key % 13) as usize;
        if given.stands && matches(&filter, &topic) {
            let old: u8 = best[place].unwrap_or(0);
            best[place] = Some(old.max(given.qos));
        }
    }
    best
}

static NAMES: [&str; 5] = ["a", "b", "", "$x", "c"];

static ENDS: [&str; 6] = ["", "/b", "/", "/a/c", "/b/c", "//"];

/// The keys of the plain list, each with its greatest grant. Where memory was refused they are looked for again.
fn listed(alloc: Global, best: &[Option<u8>; 13]) -> Result<Vec<(u64, u8)>, AllocError> {
    let mut keys = Vec::new(alloc);
    for (key, best) in best.iter().enumerate() {
        if let Some(qos) = best {
            keys.push((key as u64, *qos))?;
        }
    }
    Ok(keys)
}

fn listed_again(rt: &(impl Abort + AllocGlobal), best: &[Option<u8>; 13]) -> Vec<(u64, u8)> {
    match listed(rt.alloc(), best) {
        Ok(keys) => keys,
        Err(_) => listed(rt.alloc(), best).expect(rt, "memory"),
    }
}

fn is_same<T: Grants>(
    rt: &(impl Abort + AllocGlobal),
    tree: &T,
    grants: &[Given],
    topic: &str,
) -> bool {
    tree.is_found(topic, &listed_again(rt, &greatest(rt, grants, topic)))
}

/// The tree finds for the thirty topics that begin so what the plain list says.
fn are_same<T: Grants>(
    rt: &(impl Abort + AllocGlobal),
    tree: &T,
    grants: &[Given],
    first: &str,
) -> bool {
    for second in &NAMES {
        for end in &ENDS {
            if !is_same(rt, tree, grants, &text(rt, [first, "/", second, end])) {
                return false;
            }
        }
    }
    true
}

/// The same for 150 topics.
fn compare<T: Grants>(rt: &(impl Abort + AllocGlobal), tree: &T, grants: &[Given]) {
    for first in &NAMES {
        assert!(rt; are_same(rt, tree, grants, first), "{first}");
    }
}

fn grant_all<T: Grants>(rt: &impl Abort, tree: &mut T, grants: &[Given]) {
    for given in grants {
        assert!(rt; tree.grant_to(&given.filter, given.key, given.qos) == Some(true));
    }
}

/// Takes two of three grants back.
fn take_most<T: Grants>(rt: &impl Abort, tree: &mut T, grants: &mut [Given]) {
    for (place, given) in grants.iter_mut().enumerate() {
        if place % 3 != 1 {
            assert!(rt; tree.take_from(&given.filter, given.key) == Some(true));
            given.stands = false;
        }
    }
}

fn take_all<T: Grants>(rt: &impl Abort, tree: &mut T, grants: &[Given]) {
    for given in grants {
        assert!(rt; tree.take_from(&given.filter, given.key) == Some(given.stands));
    }
}

fn plays_beside<T: Grants>(rt: &(impl Abort + AllocGlobal), tree: &mut T) {
    let mut grants = three_hundred(rt);
    grant_all(rt, tree, &grants);
    compare(rt, tree, &grants);
    take_most(rt, tree, &mut grants);
    compare(rt, tree, &grants);
    take_all(rt, tree, &grants);
    assert!(rt; tree.is_found("a/b", &[]));
}

#[test]
fn the_tree_answers_as_a_look_at_each_grant(rt: HostRuntime) {
    plays_beside(&rt, &mut Tree::new(rt.alloc()));
}
