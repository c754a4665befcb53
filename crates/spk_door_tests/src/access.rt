//! Rows: filters by the examples of MQTT 3.1.1, sections 4.7.1.2, 4.7.1.3 and 4.7.2, topics by Sparkplug 3.0.0, chapter 4.

use spk_access::{NodeName, Rights, covers};
use std::alloc::Global;
use std::process::Abort;
use std::test::Fail;

/// A filter, another one, and whether the first covers the second.
static COVERED: [(&str, &str, bool); 24] = [
    ("#", "#", true),
    ("#", "sport/+/player1/#", true),
    ("sport/tennis/player1/#", "sport/tennis/player1", true),
    ("sport/tennis/player1/#", "sport/tennis/player1/#", true),
    (
        "sport/tennis/player1/#",
        "sport/tennis/player1/score/+",
        true,
    ),
    ("sport/tennis/player1/#", "sport/tennis/+", false),
    ("sport/tennis/player1/#", "sport/#", false),
    ("sport/tennis/+", "sport/tennis/player1", true),
    ("sport/tennis/+", "sport/tennis/+", true),
    ("sport/tennis/+", "sport/tennis/#", false),
    ("sport/tennis/+", "sport/tennis/player1/ranking", false),
    ("sport/tennis/+", "sport/tennis", false),
    ("sport/+", "sport/", true),
    ("sport/+", "sport", false),
    ("+/+", "/finance", true),
    ("/+", "/finance", true),
    ("+", "/finance", false),
    ("+/tennis/#", "+/tennis/+/ranking", true),
    ("#", "$SYS/monitor/Clients", false),
    ("+/monitor/Clients", "$SYS/monitor/Clients", false),
    ("$SYS/#", "$SYS/monitor/+", true),
    ("$SYS/monitor/+", "$SYS/monitor/Clients", true),
    ("spBv1.0/G/+/N/#", "spBv1.0/G/NBIRTH/N", true),
    ("spBv1.0/G/+/N/#", "spBv1.0/G/NBIRTH/+", false),
];

#[test]
fn filters_cover_one_another(rt: HostRuntime) {
    for (wide, filter, covered) in COVERED {
        assert_eq!(rt; covers(wide, filter), covered, "{wide} and {filter}");
    }
}

/// A client identifier, a topic, and whether it may publish there under a guard.
static GUARDED: [(&str, &str, bool); 27] = [
    ("G/N", "spBv1.0/G/NBIRTH/N", true),
    ("G/N", "spBv1.0/G/NDATA/N", true),
    ("G/N", "spBv1.0/G/NDEATH/N", true),
    ("G/N", "spBv1.0/G/DBIRTH/N/D", true),
    ("G/N", "spBv1.0/G/DDATA/N/D", true),
    ("G/N", "spBv1.0/G/DDEATH/N/any", true),
    ("G/N", "spBv1.0/G/NDATA/M", false),
    ("G/N", "spBv1.0/H/NDATA/N", false),
    ("G/N", "spBv1.0/G/DDATA/M/N", false),
    ("G/N", "spBv1.0/G/NCMD/N", false),
    ("G/N", "spBv1.0/G/DCMD/N/D", false),
    ("G/N", "spBv1.0/STATE/N", false),
    ("G/N", "spBv1.0/STATE/G", false),
    ("G/N", "other/topic", true),
    ("G/N", "spBv1.0/G/NDATA/N/D/more", true),
    ("H", "spBv1.0/STATE/H", true),
    ("H", "spBv1.0/STATE/HH", false),
    ("H", "spBv1.0/G/NCMD/N", true),
    ("H", "spBv1.0/G/DCMD/N/D", true),
    ("H", "spBv1.0/G/NDATA/N", false),
    ("H", "spBv1.0/H/NDATA/H", false),
    ("", "spBv1.0/G/NCMD/N", false),
    ("", "spBv1.0/G/NDATA/N", false),
    ("G/N/D", "spBv1.0/G/NDATA/N", false),
    ("G/N/D", "spBv1.0/G/DDATA/N/D", false),
    ("G/N/", "spBv1.0/G/NDATA/N", false),
    ("G/N/D", "spBv1.0/G/NCMD/N", false),
];

#[test]
fn a_guard_knows_whose_topics_are_whose(rt: HostRuntime) -> Result<(), Fail> {
    for (client, topic, may) in GUARDED {
        let rights = Rights::of_client(rt.alloc(), client).expect(&rt, "rights");
        let answer = rights
            .may_publish(rt.alloc(), true, topic)
            .expect(&rt, "an answer");
        assert_eq!(rt; answer, may, "{client} on {topic}");
        assert!(rt;
            rights
                .may_publish(rt.alloc(), false, topic)
                .expect(&rt, "an answer")
        );
        assert!(rt; rights.may_subscribe("#"));
    }
    Ok(())
}

/// A text with memory of its own.
fn text(alloc: Global, text: &str) -> Option<String> {
    String::from_str(alloc, text).ok()
}

/// A list of one filter.
fn one(alloc: Global, filter: &str) -> Option<Vec<String>> {
    let mut filters = Vec::new(alloc);
    filters.push(text(alloc, filter)?).ok()?;
    Some(filters)
}

/// A user that is the node N of G, with these filters.
fn user(alloc: Global, publish: &str, subscribe: &str) -> Option<Rights> {
    Some(Rights {
        node: Some(NodeName {
            group: text(alloc, "G")?,
            node: text(alloc, "N")?,
        }),
        host: None,
        publish: Some(one(alloc, publish)?),
        subscribe: Some(one(alloc, subscribe)?),
    })
}

#[test]
fn filters_and_a_guard_both_bind(rt: HostRuntime) -> Result<(), Fail> {
    let rights = user(rt.alloc(), "spBv1.0/G/+/N/#", "spBv1.0/G/NCMD/N").expect(&rt, "a user");
    let rows = [
        ("spBv1.0/G/NDATA/N", true, true),
        ("spBv1.0/G/NCMD/N", true, false),
        ("spBv1.0/G/NDATA/M", false, false),
        ("other", false, false),
    ];
    for (topic, free, guarded) in rows {
        assert_eq!(rt;
            rights
                .may_publish(rt.alloc(), false, topic)
                .expect(&rt, "an answer"),
            free
        );
        assert_eq!(rt;
            rights
                .may_publish(rt.alloc(), true, topic)
                .expect(&rt, "an answer"),
            guarded
        );
    }
    assert!(rt; rights.may_subscribe("spBv1.0/G/NCMD/N"));
    assert!(rt; !rights.may_subscribe("spBv1.0/G/NCMD/+"));
    assert!(rt; !rights.may_subscribe("spBv1.0/G/NCMD/M"));
    Ok(())
}

#[test]
fn no_filters_let_nothing_through(rt: HostRuntime) -> Result<(), Fail> {
    let rights = Rights {
        node: None,
        host: None,
        publish: Some(Vec::new(rt.alloc())),
        subscribe: Some(Vec::new(rt.alloc())),
    };
    assert!(rt;
        !rights
            .may_publish(rt.alloc(), false, "a")
            .expect(&rt, "an answer")
    );
    assert!(rt; !rights.may_subscribe("a"));
    Ok(())
}
