//! Files of plans that are none: what is said of them, and where.
use crate::plans::room;
use spk_files::{FileFault, Misfit, plan_of, read_plan};
use std::io::Write;
use std::process::Abort;

/// These texts, one behind the other.
fn joined(rt: &(impl Abort + AllocGlobal), pieces: &[&str]) -> Vec<u8> {
    let mut text = room(rt);
    for piece in pieces {
        assert!(rt; text.write_all(piece.as_bytes()).is_ok());
    }
    text
}

/// What is wrong with a text.
fn misfit(rt: &impl AllocGlobal, text: &str) -> Option<Misfit> {
    plan_of(rt.alloc(), text).err()
}

/// What a file of this text is refused for.
fn fault(rt: &impl AllocGlobal, text: &str) -> Option<FileFault> {
    read_plan(rt.alloc(), text).err()
}

/// What is said of a text: where, and what. Nothing of a plan. Where memory was refused it is read again.
fn said(rt: &(impl Abort + AllocGlobal), text: &str) -> Vec<u8> {
    let mut words = room(rt);
    let answer = match misfit(rt, text) {
        Some(Misfit::NoMemory) => misfit(rt, text),
        answer => answer,
    };
    match answer {
        None => {}
        Some(Misfit::NoMemory) => panic!(rt; "memory is there again"),
        Some(Misfit::Wrong(place, cause)) => {
            assert!(rt; write!(words, "{place} {cause}").is_ok());
        }
    }
    words
}

/// The members of a plan up to its nodes.
const FRONT: &str = r#"{"group":"G","host":"H","ring":4,"ingress":1,"wait":0"#;
/// A node up to its script.
const NODE: &str =
    r#"{"node":"A","capacity":1,"devices":["D"],"metrics":[{"device":null,"name":"x","type":3,"value":0}]"#;

/// A wrong text has this said of it.
fn is_bad(rt: &(impl Abort + AllocGlobal), pieces: &[&str], wanted: &[&str]) {
    let text = joined(rt, pieces);
    let text = str::from_utf8(&text).expect(rt, "text");
    let wanted = joined(rt, wanted);
    assert!(rt; said(rt, text).as_slice() == wanted.as_slice(), "of {text}");
}

static READ: [&[&str]; 4] = [
    &[FRONT, ",\"nodes\":[", NODE, ",\"script\":[]}]}"],
    &[
        FRONT,
        ",\"width\":1,\"nodes\":[",
        NODE,
        ",\"script\":[[\"open\"]]}]}",
    ],
    &[
        FRONT,
        ",\"width\":96,\"nodes\":[",
        NODE,
        ",\"script\":[[\"ramp\",1,0]]}]}",
    ],
    &[
        "\n{\"nodes\" : [",
        NODE,
        ",\"script\":[]}],\"wait\":0,\"ingress\":65536,\"ring\":65536,\"host\":\"G\",\"group\":\"G\"}\n",
    ],
];

/// A plan is read.
fn is_read(rt: &(impl Abort + AllocGlobal), pieces: &[&str]) {
    is_bad(rt, pieces, &[]);
    let text = joined(rt, pieces);
    let text = str::from_utf8(&text).expect(rt, "text");
    let answer = match fault(rt, text) {
        Some(FileFault::NoMemory) => fault(rt, text),
        answer => answer,
    };
    assert!(rt; answer.is_none(), "of {text}");
}

#[test]
fn a_file_of_a_plan_is_read(rt: HostRuntime) {
    for pieces in &READ {
        is_read(&rt, pieces);
    }
}

/// What is wrong, where, and why.
type Bad = (&'static str, &'static str, &'static str);

const NAME: &str = "isn't a name: not empty, and without `+`, `/`, `#` and U+0000";

const ROOM: &str = "isn't a whole number from 1 to 65536";

static MEMBERS: [Bad; 27] = [
    ("", "the file ", "isn't JSON at line 1, column 0"),
    ("{", "the file ", "isn't JSON at line 1, column 1"),
    ("[]", "the file ", "isn't an object"),
    ("{}", "group ", "is missing"),
    (r#"{"group":1}"#, "group ", "isn't a text"),
    (r#"{"group":""}"#, "group ", NAME),
    (r#"{"group":"G"}"#, "host ", "is missing"),
    (r#"{"group":"G","host":"a/b"}"#, "host ", NAME),
    (r#"{"group":"G","host":null}"#, "host ", "isn't a text"),
    (r#"{"group":"G","host":"H"}"#, "ring ", "is missing"),
    (
        r#"{"group":"G","host":"H","ring":3}"#,
        "ring ",
        "isn't a whole number from 4 to 65536",
    ),
    (
        r#"{"group":"G","host":"H","ring":65537}"#,
        "ring ",
        "isn't a whole number from 4 to 65536",
    ),
    (
        r#"{"group":"G","host":"H","ring":4.0}"#,
        "ring ",
        "isn't a whole number from 4 to 65536",
    ),
    (
        r#"{"group":"G","host":"H","ring":4}"#,
        "ingress ",
        "is missing",
    ),
    (
        r#"{"group":"G","host":"H","ring":4,"ingress":0}"#,
        "ingress ",
        ROOM,
    ),
    (
        r#"{"group":"G","host":"H","ring":4,"ingress":65537}"#,
        "ingress ",
        ROOM,
    ),
    (
        r#"{"group":"G","host":"H","ring":4,"ingress":1}"#,
        "wait ",
        "is missing",
    ),
    (
        r#"{"group":"G","host":"H","ring":4,"ingress":1,"wait":-1}"#,
        "wait ",
        "isn't a whole number from 0 to 18446744073709551615",
    ),
    (
        r#"{"group":"G","host":"H","ring":4,"ingress":1,"wait":0,"width":0}"#,
        "width ",
        "isn't a whole number from 1 to 96",
    ),
    (
        r#"{"group":"G","host":"H","ring":4,"ingress":1,"wait":0,"width":97}"#,
        "width ",
        "isn't a whole number from 1 to 96",
    ),
    (
        r#"{"group":"G","host":"H","ring":4,"ingress":1,"wait":0,"width":null}"#,
        "width ",
        "isn't a whole number from 1 to 96",
    ),
    (
        r#"{"group":"G","host":"H","ring":4,"ingress":1,"wait":0}"#,
        "nodes ",
        "is missing",
    ),
    (
        r#"{"group":"G","host":"H","ring":4,"ingress":1,"wait":0,"nodes":[]}"#,
        "nodes ",
        "has no items",
    ),
    (
        r#"{"group":"G","host":"H","ring":4,"ingress":1,"wait":0,"nodes":{}}"#,
        "nodes ",
        "isn't an array",
    ),
    (
        r#"{"group":"G","host":"H","ring":4,"ingress":1,"wait":0,"nodes":[0,0,0,0,0,0,0,0,0,0,0,0,0,0,0,0,0]}"#,
        "nodes ",
        "has more than 16 items",
    ),
    (
        r#"{"group":"G","host":"H","ring":4,"ingress":1,"wait":0,"nodes":[],"hosts":1}"#,
        "the file ",
        "has a member that isn't known: \"hosts\"",
    ),
    (
        r#"{"group":"G","host":"H","ring":4,"ring":5,"ingress":1,"wait":0,"nodes":[]}"#,
        "the file ",
        "has an object with two members \"ring\"",
    ),
];

fn are_bad_plans(rt: &(impl Abort + AllocGlobal), rows: &[Bad]) {
    for (text, place, cause) in rows {
        is_bad(rt, &[*text], &[*place, *cause]);
    }
}

#[test]
fn wrong_members_of_a_plan_have_their_place(rt: HostRuntime) {
    are_bad_plans(&rt, &MEMBERS);
}

const CAPACITY: &str = "isn't a whole number from 1 to 4096";

static NODES: [Bad; 20] = [
    ("5", " ", "isn't an object"),
    ("{}", ".node ", "is missing"),
    (r#"{"node":"N#"}"#, ".node ", NAME),
    (
        r#"{"node":"N","group":"G"}"#,
        " ",
        "has a member that isn't known: \"group\"",
    ),
    (
        r#"{"node":"N","primary":null}"#,
        " ",
        "has a member that isn't known: \"primary\"",
    ),
    (
        r#"{"node":"N","numbering":"runs on"}"#,
        " ",
        "has a member that isn't known: \"numbering\"",
    ),
    (r#"{"node":"N"}"#, ".capacity ", "is missing"),
    (r#"{"node":"N","capacity":0}"#, ".capacity ", CAPACITY),
    (r#"{"node":"N","capacity":4097}"#, ".capacity ", CAPACITY),
    (r#"{"node":"N","capacity":1}"#, ".devices ", "is missing"),
    (
        r#"{"node":"N","capacity":1,"devices":["D","D"]}"#,
        ".devices[1] ",
        "is refused: Duplicate (40)",
    ),
    (
        r#"{"node":"N","capacity":1,"devices":["a/b"]}"#,
        ".devices[0] ",
        "is refused: BadName (44)",
    ),
    (
        r#"{"node":"N","capacity":1,"devices":[]}"#,
        ".metrics ",
        "is missing",
    ),
    (
        r#"{"node":"N","capacity":1,"devices":[],"metrics":[{"device":"D"}]}"#,
        ".metrics[0].device ",
        "isn't the name of a device of the node",
    ),
    (
        r#"{"node":"N","capacity":1,"devices":[],"metrics":[{"device":null,"name":"x","type":3,"value":true}]}"#,
        ".metrics[0] ",
        "is refused: WrongKind (42)",
    ),
    (
        r#"{"node":"N","capacity":1,"devices":[],"metrics":[{"device":null,"name":"x","type":9,"value":null}]}"#,
        ".metrics[0] ",
        "is refused: WrongKind (42)",
    ),
    (
        r#"{"node":"N","capacity":1,"devices":[],"metrics":[]}"#,
        ".script ",
        "is missing",
    ),
    (
        r#"{"node":"N","capacity":1,"devices":[],"metrics":[],"script":{}}"#,
        ".script ",
        "isn't an array",
    ),
    (
        r#"{"node":"N","capacity":1,"devices":[],"metrics":[],"script":[["open"],["open"],5]}"#,
        ".script[2] ",
        "isn't an array",
    ),
    (
        r#"{"node":"A","capacity":1,"devices":[],"metrics":[],"script":[]}"#,
        " ",
        "has the group and name of an earlier node",
    ),
];

fn are_bad_nodes(rt: &(impl Abort + AllocGlobal), rows: &[Bad]) {
    for (node, place, cause) in rows {
        let pieces = [FRONT, ",\"nodes\":[", NODE, ",\"script\":[]},", *node, "]}"];
        is_bad(rt, &pieces, &["nodes[1]", *place, *cause]);
    }
}

#[test]
fn wrong_nodes_of_a_plan_have_their_place(rt: HostRuntime) {
    are_bad_nodes(&rt, &NODES);
}

const NUMBER: &str = "isn't a whole number from 0 to 18446744073709551615";

const CHANGES: &str = "isn't a whole number from 0 to 100000";

const VALUE: &str =
    "isn't null, a whole number of 64 bits, true, false, a text, or bytes as {\"hex\":\"0a\"}";

static STEPS: [Bad; 21] = [
    ("null", " ", "isn't an array"),
    ("[]", "[0] ", "is missing"),
    ("[1]", "[0] ", "isn't a text"),
    (r#"["shut"]"#, "[0] ", "isn't a kind of step"),
    (r#"["Open"]"#, "[0] ", "isn't a kind of step"),
    (r#"["accepted"]"#, "[0] ", "isn't a kind of step"),
    (r#"["open",0]"#, " ", "hasn't 1 part"),
    (r#"["stop",0,5]"#, " ", "hasn't 1 part"),
    (r#"["set",1]"#, " ", "hasn't 3 parts"),
    (r#"["set",0,5,1,8]"#, " ", "hasn't 3 parts"),
    (r#"["set",-1,8]"#, "[1] ", NUMBER),
    (r#"["set","x",8]"#, "[1] ", NUMBER),
    (r#"["set",1,1.5]"#, "[2] ", VALUE),
    (r#"["set",1,[]]"#, "[2] ", VALUE),
    (
        r#"["set",1,{"hex":"0"}]"#,
        "[2].hex ",
        "isn't an even number of hexadecimal digits",
    ),
    (r#"["ramp",1,-1]"#, "[2] ", CHANGES),
    (r#"["ramp",1,100001]"#, "[2] ", CHANGES),
    (r#"["ramp",1.5,1]"#, "[1] ", NUMBER),
    (r#"["device",1,true]"#, "[1] ", "isn't a text"),
    (r#"["device","D",1]"#, "[2] ", "isn't true or false"),
    (
        r#"["ramp",1,100000]"#,
        " ",
        "is past the 100000 changes of a script",
    ),
];

fn are_bad_steps(rt: &(impl Abort + AllocGlobal), rows: &[Bad]) {
    for (step, place, cause) in rows {
        let pieces = [
            FRONT,
            ",\"nodes\":[",
            NODE,
            ",\"script\":[[\"open\"],[\"set\",1,5],",
            *step,
            ",[\"stop\"]]}]}",
        ];
        is_bad(rt, &pieces, &["nodes[0].script[2]", *place, *cause]);
    }
}

#[test]
fn wrong_steps_of_a_plan_have_their_place(rt: HostRuntime) {
    are_bad_steps(&rt, &STEPS);
}

/// A text, so many times.
fn many(rt: &(impl Abort + AllocGlobal), piece: &[u8], count: usize) -> Vec<u8> {
    let mut text = room(rt);
    for _ in 0..count {
        assert!(rt; text.write_all(piece).is_ok());
    }
    text
}

/// A plan with so many steps that open a connection has this said of it.
fn opens(rt: &(impl Abort + AllocGlobal), count: usize, wanted: &str) {
    let opens = many(rt, b"[\"open\"],", count);
    let opens = str::from_utf8(&opens).expect(rt, "text");
    let pieces = [
        FRONT,
        ",\"nodes\":[",
        NODE,
        ",\"script\":[",
        opens,
        "[\"cut\"]]}]}",
    ];
    is_bad(rt, &pieces, &[wanted]);
}

/// A plan whose host's name has so many bytes has this said of it.
fn names(rt: &(impl Abort + AllocGlobal), count: usize, wanted: &str) {
    let host = many(rt, b"h", count);
    let host = str::from_utf8(&host).expect(rt, "text");
    let pieces = [
        "{\"group\":\"G\",\"ring\":4,\"ingress\":1,\"wait\":0,\"host\":\"",
        host,
        "\",\"nodes\":[",
        NODE,
        ",\"script\":[]}]}",
    ];
    is_bad(rt, &pieces, &[wanted]);
}

#[test]
fn plans_have_their_limits(rt: HostRuntime) {
    opens(&rt, 200, "");
    opens(
        &rt,
        201,
        "nodes[0].script[200] is past the 200 \"open\" steps of a script",
    );
    names(&rt, 60_000, "");
    names(&rt, 60_001, "host has more than 60000 bytes");
}
