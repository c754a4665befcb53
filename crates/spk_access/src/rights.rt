//! What a client may do.
ghost use Rattle.std.specs.Prelude.{◌≡◌, IfErr, IfOk, Some, None, true};
ghost use Rattle.std.specs.List.{list_any};
ghost use Rattle.std.specs.Option.{option_map};
ghost use Rattle.std.specs.String.{string_bytes};
ghost use Rattle.spk_topics.specs.Fitting.{is_match};
ghost use Rattle.spk_topics.specs.Spark.{Named, named};
ghost use Rattle.spk_access.specs.Covering.{covers};
ghost use Rattle.spk_access.specs.Rights.{client_rights, is_command, is_node, is_somebody, may_publish, may_subscribe, named_rights, node_view, owns, owns_named, owns_topic, rights_view, some_covers, some_matches, texts_view};

use crate::covering::covers;
use crate::levels::cut;
use spk_topics::{Spark, TopicFault, Verb, matches_text};
use std::alloc::{AllocError, Global};

/// An edge node, by its group and its name.
#[derive(Debug, PartialEq, Eq, Drop)]
pub struct NodeName {
    pub group: String,
    pub node: String,
}

/// What a client may do.
#[derive(Debug, PartialEq, Eq, Drop)]
pub struct Rights {
    /// The edge node that it is, if it is one.
    pub node: Option<NodeName>,
    /// The host application that it is, if it is one.
    pub host: Option<String>,
    /// Filters of the topics on which it may publish; None where each will do.
    pub publish: Option<Vec<String>>,
    /// Filters that cover those to which it may subscribe; None where each will do.
    pub subscribe: Option<Vec<String>>,
}

/// Whether a filter among these matches a topic.
fn any_matches(filters: &[String], topic: &str) -> bool
    ensures { result ≡ list_any (λ f. is_match (string_bytes f) topic.now) filters.now }
{
    filters
        .iter()
        .any(|filter| matches_text(filter.as_str(), topic))
}

/// Whether a filter among these covers another one.
fn any_covers(filters: &[String], filter: &str) -> bool
    ensures { result ≡ list_any (λ f. covers (string_bytes f) filter.now) filters.now }
{
    filters.iter().any(|wide| covers(wide.as_str(), filter))
}

/// The same of a list, where there is one.
fn some_matches(filters: &Option<Vec<String>>, topic: &str) -> bool
    ensures { result ≡ some_matches (texts_view filters.now) topic.now }
{
    match filters {
        Some(filters) => any_matches(filters, topic),
        None => true,
    }
}

/// The same of a list, where there is one.
fn some_covers(filters: &Option<Vec<String>>, filter: &str) -> bool
    ensures { result ≡ some_covers (texts_view filters.now) filter.now }
{
    match filters {
        Some(filters) => any_covers(filters, filter),
        None => true,
    }
}

/// Whether a message of this kind is a command.
fn is_command(kind: Verb) -> bool
    ensures { result ≡ is_command kind }
{
    match kind {
        Verb::Command => true,
        _ => false,
    }
}

impl Rights {
    /// Those of nobody.
    fn of_nobody() -> Rights
        ensures { rights_view result ≡ named_rights None None }
    {
        Rights {
            node: None,
            host: None,
            publish: None,
            subscribe: None,
        }
    }

    /// Those of a host. Refused where memory was.
    fn of_host(alloc: Global, host: &str) -> Result<Rights, AllocError>
        ensures { IfOk result (λ r. rights_view r ≡ named_rights None (Some host.now)) }
    {
        let host = String::from_str(alloc, host)?;
        Ok(Rights {
            node: None,
            host: Some(host),
            publish: None,
            subscribe: None,
        })
    }

    /// Those of a node. Refused where memory was.
    fn of_node(alloc: Global, group: &str, node: &str) -> Result<Rights, AllocError>
        ensures { IfOk result
            (λ r. rights_view r
            ≡ named_rights (Some (record { group = group.now; node = node.now })) None) }
    {
        let group = String::from_str(alloc, group)?;
        let node = String::from_str(alloc, node)?;
        Ok(Rights {
            node: Some(NodeName { group, node }),
            host: None,
            publish: None,
            subscribe: None,
        })
    }

    /// Those of a client without a user, by its identifier: `group/node` is that node, and a text without a slash the host of that name; any other client, and an
    /// empty identifier, is neither. It may publish and subscribe as the guard lets it. Refused where memory was, which only a node and a host take.
    pub fn of_client(alloc: Global, client: &str) -> Result<Rights, AllocError>
        ensures ok { IfOk result (λ r. rights_view r ≡ client_rights client.now) }
        ensures err { IfErr result (λ e. is_somebody (client_rights client.now) ≡ true) }
    {
        let (first, rest) = cut(client);
        let Some(rest) = rest else {
            if first.is_empty() {
                return Ok(Rights::of_nobody());
            }
            return Rights::of_host(alloc, first);
        };
        let (second, more) = cut(rest);
        if more.is_some() {
            return Ok(Rights::of_nobody());
        }
        Rights::of_node(alloc, first, second)
    }

    /// Whether it is this node.
    fn is_node(&self, group: &str, node: &str) -> bool
        ensures { result ≡ is_node (rights_view self.now).node group.now node.now }
    {
        match &self.node {
            Some(own) => own.group.as_str() == group && own.node.as_str() == node,
            None => false,
        }
    }

    /// Whether it is this host.
    fn is_host(&self, host: &str) -> bool
        ensures { result ≡ owns_named (rights_view self.now) (Named.of_state host.now) }
    {
        match &self.host {
            Some(own) => own.as_str() == host,
            None => false,
        }
    }

    /// Whether messages of this kind of a node come of it.
    fn owns(&self, kind: Verb, group: &str, node: &str) -> bool
        ensures { result ≡ owns (rights_view self.now) kind group.now node.now }
    {
        if is_command(kind) {
            self.host.is_some()
        } else {
            self.is_node(group, node)
        }
    }

    /// Whether messages of a topic of Sparkplug come of it.
    fn owns_named(&self, topic: &Spark) -> bool
        ensures { result ≡ owns_named (rights_view self.now) (named topic.now) }
    {
        match topic {
            Spark::Node { group, kind, node } => self.owns(*kind, group.as_str(), node.as_str()),
            Spark::Device {
                group,
                kind,
                node,
                ..
            } => self.owns(*kind, group.as_str(), node.as_str()),
            Spark::State { host } => self.is_host(host.as_str()),
        }
    }

    /// Whether messages of a topic come of it, or of anybody. Refused where memory was.
    fn owns_topic(&self, alloc: Global, topic: &str) -> Result<bool, AllocError>
        ensures { IfOk result (λ owns. owns ≡ owns_topic (rights_view self.now) topic.now) }
    {
        match Spark::read(alloc, topic) {
            Ok(named) => Ok(self.owns_named(&named)),
            Err(TopicFault::NoMemory) => Err(AllocError),
            Err(_) => Ok(true),
        }
    }

    /// Whether it may publish on a topic. Under a guard births, data and deaths are those of their node alone, STATE those of its host, and commands of hosts;
    /// other topics are anybody's. Refused where memory was, which only a guard takes.
    pub fn may_publish(&self, alloc: Global, guard: bool, topic: &str) -> Result<bool, AllocError>
        ensures ok { IfOk result
            (λ may. may ≡ may_publish (rights_view self.now) guard topic.now) }
        ensures err { IfErr result (λ e. (guard ≡ true)
            × (some_matches (rights_view self.now).publish topic.now ≡ true)) }
    {
        if !some_matches(&self.publish, topic) {
            return Ok(false);
        }
        if !guard {
            return Ok(true);
        }
        self.owns_topic(alloc, topic)
    }

    /// Whether it may subscribe to a filter: whether one of its filters covers it. It takes no memory.
    pub fn may_subscribe(&self, filter: &str) -> bool
        ensures { result ≡ may_subscribe (rights_view self.now) filter.now }
    {
        some_covers(&self.subscribe, filter)
    }
}
