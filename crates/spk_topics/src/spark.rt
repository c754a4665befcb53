//! The topics of Sparkplug 3.0.0 (chapter 4).
ghost use Rattle.std.specs.Prelude.{◌≡◌, ◌==◌, ◌≢◌, ◌⊎◌, ◌||◌, ◌∷◌, codes, IfOk, IfErr, IfSome, IfNone, IsTrue, Some, None};
ghost use Rattle.std.specs.List.{list_any};
ghost use Rattle.std.specs.String.{string_bytes};
ghost use Rattle.spk_topics.specs.Spark.{Named, RefusesNames, RefusesText, device_type, has_names, is_name, named, named_at, named_levels, node_type, topic_of};
ghost use Rattle.spk_topics.specs.Levels.{levels};
ghost use Rattle.spk_topics.specs.SparkReading.{parts_named};

use crate::fault::TopicFault;
use crate::levels::cut;
use std::alloc::{AllocError, Global};

/// What a message is: the `BIRTH` of `NBIRTH` and `DBIRTH`, and so on.
#[derive(Clone, Copy, Debug, PartialEq, Eq)]
pub enum Verb {
    /// NBIRTH, DBIRTH.
    Birth,
    /// NDEATH, DDEATH.
    Death,
    /// NDATA, DDATA.
    Data,
    /// NCMD, DCMD.
    Command,
}

/// A topic of Sparkplug.
#[derive(Debug, PartialEq, Eq, Drop)]
pub enum Spark {
    /// `spBv1.0/group/TYPE/node`, with TYPE one of NBIRTH, NDEATH, NDATA, NCMD.
    Node {
        /// The group.
        group: String,
        /// What is sent.
        kind: Verb,
        /// The edge node.
        node: String,
    },
    /// `spBv1.0/group/TYPE/node/device`, with TYPE one of DBIRTH, DDEATH, DDATA, DCMD.
    Device {
        /// The group.
        group: String,
        /// What is sent.
        kind: Verb,
        /// The edge node.
        node: String,
        /// The device.
        device: String,
    },
    /// `spBv1.0/STATE/host`.
    State {
        /// The host application.
        host: String,
    },
}

// A topic's names, in its text.
enum Parts<'a> {
    Node(&'a str, Verb, &'a str),
    Device(&'a str, Verb, &'a str, &'a str),
    State(&'a str),
}

impl Spark {
    /// The Sparkplug topic of a text. Any other text is NotSparkplug, also where a name is empty or has
    /// a `+`, a `#` or U+0000.
    pub fn read(alloc: Global, text: &str) -> Result<Spark, TopicFault>
        ensures ok { IfOk result
            (λ s. IsTrue (has_names (named s)) × (topic_of (named s) ≡ text.now)) }
        ensures err { IfErr result (RefusesText text.now) }
        // The same by a function of the text (`laws::reading`).
        ensures reads { IfOk result (λ s. named_at text.now ≡ Some (named s)) }
        ensures reads_none { IfErr result
            (λ f. (f ≡ TopicFault.NoMemory)
            ⊎ ((f ≡ TopicFault.NotSparkplug) × (named_at text.now ≡ None))) }
    {
        match parse(text) {
            Some(parts) => Ok(parts.owned(alloc)?),
            None => Err(TopicFault::NotSparkplug),
        }
    }

    /// The topic's text. Names that are empty or have a `/`, a `+`, a `#` or U+0000 are NotSparkplug.
    pub fn text(&self, alloc: Global) -> Result<String, TopicFault>
        ensures ok { IfOk result
            (λ t. IsTrue (has_names (named self.now))
            × (string_bytes t ≡ topic_of (named self.now))) }
        ensures err { IfErr result (RefusesNames (named self.now)) }
    {
        if !self.has_names() {
            return Err(TopicFault::NotSparkplug);
        }
        Ok(self.spelled(alloc)?)
    }

    /// Whether each of its names may stand in a topic.
    fn has_names(&self) -> bool
        ensures { result ≡ has_names (named self.now) }
    {
        match self {
            Spark::Node { group, node, .. } => is_name(group) && is_name(node),
            Spark::Device {
                group,
                node,
                device,
                ..
            } => is_name(group) && is_name(node) && is_name(device),
            Spark::State { host } => is_name(host),
        }
    }

    /// Its levels with slashes between them.
    fn spelled(&self, alloc: Global) -> Result<String, AllocError>
        ensures { IfOk result (λ t. string_bytes t ≡ topic_of (named self.now)) }
    {
        match self {
            Spark::Node { group, kind, node } => {
                let kind = node_type(*kind);
                format!(in alloc; "spBv1.0/{group}/{kind}/{node}")
            }
            Spark::Device {
                group,
                kind,
                node,
                device,
            } => {
                let kind = device_type(*kind);
                format!(in alloc; "spBv1.0/{group}/{kind}/{node}/{device}")
            }
            Spark::State { host } => format!(in alloc; "spBv1.0/STATE/{host}"),
        }
    }
}

impl<'a> Parts<'a> {
    /// The same names with memory of their own.
    fn owned(self, alloc: Global) -> Result<Spark, AllocError>
        ensures { IfOk result (λ s. named s ≡ parts_named self.entry) }
    {
        Ok(match self {
            Parts::Node(group, kind, node) => Spark::Node {
                group: String::from_str(alloc, group)?,
                kind,
                node: String::from_str(alloc, node)?,
            },
            Parts::Device(group, kind, node, device) => Spark::Device {
                group: String::from_str(alloc, group)?,
                kind,
                node: String::from_str(alloc, node)?,
                device: String::from_str(alloc, device)?,
            },
            Parts::State(host) => Spark::State {
                host: String::from_str(alloc, host)?,
            },
        })
    }
}

/// The names in a text, if it is a Sparkplug topic.
fn parse(text: &str) -> Option<Parts<'_>>
    ensures found { IfSome result
        (λ p. IsTrue (has_names (parts_named p))
        × (levels text.now ≡ named_levels (parts_named p))) }
    ensures none { IfNone result
        ((n : Named) → IsTrue (has_names n) → levels text.now ≢ named_levels n) }
{
    let (prefix, rest) = cut(text);
    let (group, rest) = cut(rest?);
    let (kind, rest) = cut(rest?);
    if prefix != "spBv1.0" {
        return None;
    }
    match rest {
        Some(rest) => parse_named(group, kind, rest),
        None if group == "STATE" && is_name(kind) => Some(Parts::State(kind)),
        None => None,
    }
}

/// The names of an edge node or of a device, whose levels from the third on are the kind and the rest.
fn parse_named<'a>(group: &'a str, kind: &'a str, rest: &'a str) -> Option<Parts<'a>>
    ensures found { IfSome result
        (λ p. IsTrue (has_names (parts_named p))
        × (codes "spBv1.0" ∷ group.now ∷ kind.now ∷ levels rest.now
        ≡ named_levels (parts_named p))) }
    ensures none { IfNone result
        ((n : Named) → IsTrue (has_names n)
        → codes "spBv1.0" ∷ group.now ∷ kind.now ∷ levels rest.now ≢ named_levels n) }
{
    let (node, rest) = cut(rest);
    if !is_name(group) || !is_name(node) {
        return None;
    }
    match rest {
        None => Some(Parts::Node(group, node_verb(kind)?, node)),
        Some(rest) => {
            let (device, more) = cut(rest);
            if more.is_some() || !is_name(device) {
                return None;
            }
            Some(Parts::Device(group, device_verb(kind)?, node, device))
        }
    }
}

/// Whether a byte stands in a text that no name has. One pass serves, since names are short.
fn has_barred(text: &str) -> bool
    ensures { result ≡ list_any (λ b. b == 47 || b == 43 || b == 35 || b == 0) text.now }
{
    text.bytes()
        .any(|b| b == b'/' || b == b'+' || b == b'#' || b == 0)
}

// Whether a text may be a name in a topic.
#[tactic(auto, using(crate::proofs::NameLemmas::name_by_bytes))]
fn is_name(text: &str) -> bool
    ensures { result ≡ is_name text.now }
{
    !text.is_empty() && !has_barred(text)
}

/// The third level of an edge node's topic, as `NBIRTH` (Sparkplug 3.0.0, chapter 4). Takes no memory.
pub fn node_type(kind: Verb) -> &'static str
    ensures { result.now ≡ node_type kind }
{
    match kind {
        Verb::Birth => "NBIRTH",
        Verb::Death => "NDEATH",
        Verb::Data => "NDATA",
        Verb::Command => "NCMD",
    }
}

/// The third level of a device's topic, as `DBIRTH` (Sparkplug 3.0.0, chapter 4). Takes no memory.
pub fn device_type(kind: Verb) -> &'static str
    ensures { result.now ≡ device_type kind }
{
    match kind {
        Verb::Birth => "DBIRTH",
        Verb::Death => "DDEATH",
        Verb::Data => "DDATA",
        Verb::Command => "DCMD",
    }
}

/// What an edge node's third level says.
fn node_verb(kind: &str) -> Option<Verb>
    ensures some { IfSome result (λ verb. node_type verb ≡ kind.now) }
    ensures none { IfNone result ((verb : Verb) → node_type verb ≢ kind.now) }
{
    if kind == "NBIRTH" {
        Some(Verb::Birth)
    } else if kind == "NDEATH" {
        Some(Verb::Death)
    } else if kind == "NDATA" {
        Some(Verb::Data)
    } else if kind == "NCMD" {
        Some(Verb::Command)
    } else {
        None
    }
}

/// What a device's third level says.
fn device_verb(kind: &str) -> Option<Verb>
    ensures some { IfSome result (λ verb. device_type verb ≡ kind.now) }
    ensures none { IfNone result ((verb : Verb) → device_type verb ≢ kind.now) }
{
    if kind == "DBIRTH" {
        Some(Verb::Birth)
    } else if kind == "DDEATH" {
        Some(Verb::Death)
    } else if kind == "DDATA" {
        Some(Verb::Data)
    } else if kind == "DCMD" {
        Some(Verb::Command)
    } else {
        None
    }
}
