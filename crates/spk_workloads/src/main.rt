//! The jobs that users of Juldremm wait for, through public calls, on inputs that are made from a number: `bench/run` times them
//! (`bench/workloads.txt`, docs/PERF.md).
#![tactic(auto)]

mod broker;
mod digest;
mod edge;
mod host;
mod lines;
mod packets;
mod plant;
mod publishers;
mod random;
mod serving;
mod sums;
mod texts;
mod world;

use std::env;
use std::io::{self, Eprint};
use std::process::ExitCode;
use std::sync::Wait;
use std::thread::Threads;

/// All jobs.
const JOBS: [&str; 6] = [
    "broker-data",
    "broker-restart",
    "host",
    "edge",
    "world",
    "plant",
];

/// The sum of what a job answered, or None where one of its calls was refused, or there is no such job.
fn job<R>(rt: &R, name: &str, seed: u64, is_small: bool) -> Option<u64>
where
    R: AllocGlobal + Threads + Wait + Eprint + Sync,
{
    match name {
        "broker-data" => broker::data(rt.alloc(), seed, is_small),
        "broker-restart" => broker::restart(rt.alloc(), seed, is_small),
        "host" => host::run(rt.alloc(), seed, is_small),
        "edge" => edge::run(rt.alloc(), seed, is_small),
        "world" => world::job(rt, seed, is_small),
        "plant" => plant::job(rt, seed, is_small),
        _ => None,
    }
}

/// A job is done, and its sum printed.
fn told<R>(rt: &R, name: &str, seed: u64, is_small: bool) -> io::Result<u8>
where
    R: AllocGlobal + Threads + Wait + Print + Eprint + Sync,
{
    match job(rt, name, seed, is_small) {
        Some(sum) => {
            println!(rt; "{name} {sum:016x}")?;
            Ok(0)
        }
        None => {
            println!(rt; "{name} was refused")?;
            Ok(1)
        }
    }
}

/// All jobs are done, small.
fn all_small<R>(rt: &R, seed: u64) -> io::Result<u8>
where
    R: AllocGlobal + Threads + Wait + Print + Eprint + Sync,
{
    let mut status = 0u8;
    for name in JOBS {
        status = status.max(told(rt, name, seed, true)?);
    }
    Ok(status)
}

/// A word that is a number below 2^32.
fn seed_of(word: &str) -> Option<u64> {
    match word.parse::<u32>() {
        Ok(seed) => Some(u64::from(seed)),
        Err(_) => None,
    }
}

fn main(rt: HostRuntime) -> io::Result<ExitCode> {
    let words: Vec<String> = env::args(&rt)?.collect(rt.alloc())?;
    let name = words.get(1).map_or("", |word| word.as_str());
    let word = words.get(2).map_or("", |word| word.as_str());
    let Some(seed) = seed_of(word) else {
        println!(rt; "usage: spk_workloads JOB SEED, or small SEED")?;
        return Ok(ExitCode::from(2));
    };
    let status = if name == "small" {
        all_small(&rt, seed)?
    } else {
        told(&rt, name, seed, false)?
    };
    Ok(ExitCode::from(status))
}
