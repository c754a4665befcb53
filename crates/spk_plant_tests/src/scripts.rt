//! Scripts, and what becomes of their steps.
use crate::plans::{Outcome, WIDE, ran_free, text_of};
use std::process::Abort;
use std::sync::Wait;
use std::thread::Threads;

/// A script, and how many births and messages a node with it publishes.
type Row = (&'static str, usize, usize);

static ROWS: [Row; 16] = [
    // nothing; changes of a node without a connection are kept
    ("", 0, 0),
    (
        r#"["set",1,5],["ramp",1,1000],["drain"],["cut"],["stop"],["born"]"#,
        0,
        0,
    ),
    // a birth
    (r#"["open"],["born"]"#, 1, 1),
    // a value is told once; one of another kind, an unknown alias and an unknown device are passed over
    (
        r#"["open"],["born"],["set",1,5],["set",1,5],["set",1,-6]"#,
        1,
        3,
    ),
    (
        r#"["open"],["born"],["set",1,true],["set",9,1],["ramp",9,3],["ramp",2,3],["device","E",true]"#,
        1,
        1,
    ),
    (r#"["open"],["born"],["ramp",1,3],["ramp",1,0]"#, 1, 4),
    // the first change of a ramp is to 1, which the metric has already
    (r#"["open"],["born"],["set",1,1],["ramp",1,3]"#, 1, 4),
    // DBIRTH, DDATA, DDEATH; a device that is down tells no change
    (
        r#"["open"],["born"],["set",2,true],["device","D",true],["set",2,false],["device","D",false]"#,
        1,
        4,
    ),
    (
        r#"["device","D",true],["open"],["born"],["device","D",true]"#,
        1,
        2,
    ),
    // a second connection; an open one isn't opened again
    (r#"["open"],["open"],["born"],["open"]"#, 1, 1),
    (r#"["open"],["born"],["cut"],["open"],["born"]"#, 2, 2),
    (
        r#"["open"],["born"],["stop"],["open"],["born"],["set",1,7]"#,
        2,
        3,
    ),
    (r#"["open"],["born"],["stop"],["stop"],["cut"]"#, 1, 1),
    // what is kept in an outage is sent then, 32 changes at most in one message
    (
        r#"["open"],["born"],["cut"],["ramp",1,3],["open"],["born"],["drain"]"#,
        2,
        3,
    ),
    (
        r#"["ramp",1,40],["open"],["born"],["drain"],["drain"]"#,
        1,
        3,
    ),
    (r#"["ramp",1,101],["open"],["born"],["drain"]"#, 1, 5),
];

/// So many births and messages are published, and all are consumed.
fn assert_published(rt: &impl Abort, outcome: &Outcome, row: &Row) {
    let (script, births, messages) = row;
    let [counts, ..] = outcome.counts;
    assert!(rt; counts == (*births, *messages, *messages), "of {script}");
    assert!(rt; !outcome.is_cut, "of {script}");
    assert_eq!(rt; outcome.refused, 0, "of {script}");
    assert_eq!(rt; outcome.complaint, None, "of {script}");
}

/// A node with each of these scripts publishes as many.
fn publishes<R>(rt: &R, rows: &[Row])
where
    R: AllocGlobal + Threads + Wait + Abort + Sync,
{
    for row in rows {
        let text = text_of(rt, WIDE, &[("A", row.0)]);
        assert_published(rt, &ran_free(rt, &text), row);
    }
}

#[test]
fn each_kind_of_step_does_its_work(rt: HostRuntime) {
    publishes(&rt, &ROWS);
}
