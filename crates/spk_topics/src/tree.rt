//! The grants of a broker: who gets a publish, and with which quality of service.
ghost use Rattle.std.specs.Prelude.{◌≡◌, IfOk, OnOk, OnErr, IfErr, None, is_none, is_some};
ghost use Rattle.std.specs.FinMap as map;
ghost use Rattle.spk_topics.specs.Grants.{Finds};
ghost use Rattle.spk_topics.specs.Edges.{IsSeatIn};
ghost use Rattle.spk_topics.specs.Nodes.{IsWhole, IsWholeBut, rows_of};
ghost use Rattle.spk_topics.specs.Rows.{Absent, grants_of};

use crate::fault::TopicFault;
use crate::filter::Filter;
use crate::found::listed;
use crate::nodes::Nodes;
use crate::topic::Topic;
use std::alloc::Global;
use std::marker::Model;

/// The grants that stand: for a filter and a key, a QoS. Contracts see them as the finite map from pairs
/// of a filter's bytes and a key to a QoS.
///
/// They stand in a tree of levels: the levels of a filter lead from the root, edge by edge, to the node of
/// its grants. An edge has as many levels as lead there alone, so a filter makes two nodes at most, however
/// many levels it has. `grant` and `take_back` walk that way, `find` the ways that fit the topic, by the level
/// itself, `+` and `#`. The nodes stand in one vector and name each other by number, and every walk is a
/// loop, so a filter of many levels costs no stack. A node that carries nothing any more is used again.
#[derive(Drop)]
pub struct Tree {
    alloc: Global,
    pub(crate) nodes: Nodes,
}

impl Model for Tree {
    ghost use Rattle.std.specs.Prelude.{ℕ, List};
    ghost use Rattle.std.specs.Coded.{coded_ℕ, coded_list, coded×};
    ghost use Rattle.std.specs.FinMap as map;
    ghost use Rattle.spk_topics.specs.Grants.{grant_cmp};

    ghost Value = { map.FinMap grant_cmp ℕ };

    ghost coded = { map.code (coded× (coded_list coded_ℕ) coded_ℕ) coded_ℕ };

    ghost use Rattle.spk_topics.specs.Rows.{grants_of};
    ghost use Rattle.spk_topics.specs.Nodes.{rows_of, IsWhole};

    ghost view = { λ a. grants_of (rows_of a.nodes) };

    ghost invariant = { λ a. IsWhole a.nodes };
}

impl Tree {
    /// No grants.
    pub fn new(alloc: Global) -> Tree
        ensures { result ≡ map.empty }
    {
        Tree {
            alloc,
            nodes: Nodes::new(alloc),
        }
    }

    /// Sets the QoS of a filter and a key, and says whether the filter is new for that key. It fails only
    /// where the filter is new for that key, and then nothing has changed.
    pub fn grant(&mut self, filter: &Filter, key: u64, qos: u8) -> Result<bool, TopicFault>
        ensures is_new { IfOk result
            (λ is_new. is_new ≡ is_none (map.get self.old (filter.now, key))) }
        ensures ok { OnOk result (self.new ≡ map.insert self.old (filter.now, key) qos) }
        ensures fault { IfErr result (λ e. e ≡ TopicFault.NoMemory) }
        ensures fails_new { OnErr result (map.get self.old (filter.now, key) ≡ None) }
        ensures err { OnErr result (self.new ≡ self.old) }
    {
        grant_in(self.alloc, &mut self.nodes, filter.text(), key, qos)
    }

    /// Takes the grant of a filter and a key back, and says whether it stood. It takes no memory.
    pub fn take_back(&mut self, filter: &Filter, key: u64) -> bool
        ensures stood { result ≡ is_some (map.get self.old (filter.now, key)) }
        ensures gone { self.new ≡ map.remove self.old (filter.now, key) }
    {
        take_in(&mut self.nodes, filter.text(), key)
    }

    /// Each key that has a filter which matches the topic, once, in ascending keys, with its greatest QoS.
    pub fn find(&self, topic: &Topic) -> Result<Vec<(u64, u8)>, TopicFault>
        ensures ok { IfOk result (λ found. Finds self.now topic.now found.items) }
        ensures fault { IfErr result (λ e. e ≡ TopicFault.NoMemory) }
    {
        find_in(self.alloc, &self.nodes, topic.text())
    }
}

fn find_in(alloc: Global, nodes: &Nodes, topic: &str) -> Result<Vec<(u64, u8)>, TopicFault>
    requires { IsWhole nodes.now }
    ensures ok { IfOk result
        (λ found. Finds (grants_of (rows_of nodes.now)) topic.now found.items) }
    ensures fault { IfErr result (λ e. e ≡ TopicFault.NoMemory) }
{
    let found = nodes.find(alloc, topic)?;
    listed(alloc, &found)
}

fn grant_in(
    alloc: Global,
    nodes: &mut Nodes,
    filter: &str,
    key: u64,
    qos: u8,
) -> Result<bool, TopicFault>
    requires { IsWhole nodes.old }
    ensures whole { IsWhole nodes.new }
    ensures is_new { IfOk result
        (λ is_new. is_new ≡ is_none (map.get (grants_of (rows_of nodes.old)) (filter.now, key))) }
    ensures ok { OnOk result
        (grants_of (rows_of nodes.new)
        ≡ map.insert (grants_of (rows_of nodes.old)) (filter.now, key) qos) }
    ensures fault { IfErr result (λ e. e ≡ TopicFault.NoMemory) }
    ensures fails_new { OnErr result
        (map.get (grants_of (rows_of nodes.old)) (filter.now, key) ≡ None) }
    ensures err { OnErr result (grants_of (rows_of nodes.new) ≡ grants_of (rows_of nodes.old)) }
{
    let place = place_for(alloc, nodes, filter)?;
    match nodes.set_at(place, key, qos) {
        Ok(is_new) => Ok(is_new),
        Err(fault) => {
            nodes.prune(place);
            Err(fault)
        }
    }
}

/// The node of a filter's grants, or a new one for them.
fn place_for(alloc: Global, nodes: &mut Nodes, filter: &str) -> Result<usize, TopicFault>
    requires { IsWhole nodes.old }
    ensures whole { IfOk result (λ n. IsWholeBut nodes.new n) }
    ensures err { OnErr result (IsWhole nodes.new) }
    ensures same { grants_of (rows_of nodes.new) ≡ grants_of (rows_of nodes.old) }
    ensures seat { IfOk result (λ n. IsSeatIn nodes.new filter.now n) }
    ensures fault { IfErr result (λ e. e ≡ TopicFault.NoMemory) }
    ensures fails_new { OnErr result (Absent (rows_of nodes.old) filter.now) }
{
    if let Some(place) = nodes.place_of(filter) {
        return Ok(place);
    }
    nodes.grow(alloc, filter)
}

fn take_in(nodes: &mut Nodes, filter: &str, key: u64) -> bool
    requires { IsWhole nodes.old }
    ensures whole { IsWhole nodes.new }
    ensures stood { result ≡ is_some (map.get (grants_of (rows_of nodes.old)) (filter.now, key)) }
    ensures gone { grants_of (rows_of nodes.new)
        ≡ map.remove (grants_of (rows_of nodes.old)) (filter.now, key) }
{
    match nodes.place_of(filter) {
        Some(place) => {
            let stood = nodes.take_at(place, key);
            nodes.prune(place);
            stood
        }
        None => false,
    }
}
