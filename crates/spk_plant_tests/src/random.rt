//! Plants whose rings are too small, under gates that give way at random: what must hold of every report holds.
use crate::gates::Chance;
use crate::plans::{Outcome, ran, text_of};
use std::env;
use std::env::Env;
use std::process::Abort;
use std::sync::Wait;
use std::thread::Threads;

/// Plans with rings of 4 at each width.
const FRONTS: [&str; 4] = [
    r#""ring":4,"ingress":8,"wait":50,"width":1"#,
    r#""ring":4,"ingress":8,"wait":50,"width":8"#,
    r#""ring":4,"ingress":8,"wait":50,"width":64"#,
    r#""ring":4,"ingress":8,"wait":50,"width":96"#,
];

/// 5,000 changes, and an outage with changes that are kept.
const SCRIPTS: [(&str, &str); 2] = [
    ("A", r#"["open"],["born"],["ramp",1,5000]"#),
    (
        "B",
        r#"["open"],["born"],["ramp",1,5000],["cut"],["ramp",1,40],["open"],["born"],["drain"],["set",1,0]"#,
    ),
];

/// What a plan comes to under a gate of this seed.
fn outcome_of<R>(rt: &R, front: &str, seed: u64) -> Outcome
where
    R: AllocGlobal + Threads + Wait + Abort + Sync,
{
    let text = text_of(rt, front, &SCRIPTS);
    match ran(rt, &text, &Chance::from(seed)) {
        Some(outcome) => outcome,
        None => ran(rt, &text, &Chance::from(seed)).expect(rt, "memory is there again"),
    }
}

/// How many plans are run at each width, if the environment doesn't say.
const RUNS: u64 = 50;

/// How many plans are run at each width: `RUNS`, or as many as the environment's `PLANT_RUNS` says.
fn runs(rt: &(impl Env + AllocGlobal)) -> u64 {
    match env::var(rt, "PLANT_RUNS") {
        Ok(text) => text.as_str().parse::<u64>().unwrap_or(RUNS),
        Err(_) => RUNS,
    }
}

#[test]
fn what_must_hold_holds_of_every_report(rt: HostRuntime) {
    for run in 0..runs(&rt) {
        for (number, front) in FRONTS.iter().enumerate() {
            let seed = run.wrapping_mul(4).wrapping_add(number as u64);
            let outcome = outcome_of(&rt, front, seed);
            assert_eq!(rt; outcome.complaint, None, "of {front}, {seed}");
            let [(births, published, _consumed), ..] = outcome.counts;
            assert!(rt; births <= published, "of {front}, {seed}");
        }
    }
}
