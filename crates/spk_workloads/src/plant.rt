//! The job `plant`: plans, read and run on threads.

use crate::digest::Digest;
use crate::random::Random;
use crate::world::OneFile;
use spk_commands::{Outcome, plant, run};
use std::alloc::Global;
use std::io::Eprint;
use std::sync::Wait;
use std::thread::Threads;

/// A node of a plan: changes that are kept before its session begins, and some that follow.
fn put_node(
    text: &mut String,
    number: u64,
    random: &mut Random,
    kept: u64,
    changes: u64,
) -> Option<()> {
    let comma = if number == 0 { "" } else { ",\n" };
    let first = random.below(100);
    let kept = kept.saturating_sub(random.below(20));
    let changes = changes.saturating_sub(random.below(100));
    write!(
        text,
        "{comma}{{\"node\":\"Line {number}\",\"capacity\":4096,\"devices\":[\"D\"],\"metrics\":[{{\"device\":null,\"name\":\"Speed\",\"type\":3,\"value\":0}},{{\"device\":\"D\",\"name\":\"State\",\"type\":12,\"value\":\"off\"}},{{\"device\":null,\"name\":\"Count\",\"type\":8,\"value\":{first}}}],\"script\":[[\"device\",\"D\",true],[\"ramp\",1,{kept}],[\"open\"],[\"born\"],[\"drain\"],[\"set\",2,\"on\"],[\"ramp\",3,{changes}],[\"device\",\"D\",false]]}}"
    )
    .ok()
}

/// A plan of so many nodes.
fn plan(alloc: Global, random: &mut Random, nodes: u64, kept: u64, changes: u64) -> Option<String> {
    let front =
        "{\"group\":\"G\",\"host\":\"H\",\"ring\":65536,\"ingress\":64,\"wait\":2000,\"nodes\":[";
    let mut text = String::from_str(alloc, front).ok()?;
    for number in 0..nodes {
        put_node(&mut text, number, random, kept, changes)?;
    }
    text.push_str("]}\n").ok()?;
    Some(text)
}

/// A plan is read and run, and its report printed. None where it is refused.
fn play<R>(rt: &R, digest: &mut Digest, text: String) -> Option<()>
where
    R: AllocGlobal + Threads + Wait + Eprint + Sync,
{
    let mut files = OneFile::new(text);
    let Outcome::Plant(plan) = run(rt, &["sparkplug", "plant", "file"], &mut files, digest) else {
        return None;
    };
    if plant(rt, plan, digest) == 0 {
        Some(())
    } else {
        None
    }
}

/// Plants of 1, 4 and 16 nodes. The sum of their reports.
pub(crate) fn job<R>(rt: &R, seed: u64, is_small: bool) -> Option<u64>
where
    R: AllocGlobal + Threads + Wait + Eprint + Sync,
{
    let alloc = rt.alloc();
    let mut random = Random::new(seed);
    let mut digest = Digest::new();
    let turns = if is_small { 1 } else { 2 };
    let changes = if is_small { 2_000 } else { 56_000 };
    for _ in 0..turns {
        for nodes in [1, 4, 16u64] {
            let text = plan(alloc, &mut random, nodes, 4_000 / nodes, changes / nodes)?;
            play(rt, &mut digest, text)?;
        }
    }
    Some(digest.sum())
}
