//! The nodes of the tree of levels, and the grants that stand in them.
ghost use Rattle.std.specs.Prelude.{◌≡◌, ◌++◌, ◌∷◌, [], slice_get, IfOk, OnOk, OnErr, IfErr, None, is_none, is_some};
ghost use Rattle.std.specs.FinMap as map;
ghost use Rattle.std.specs.Option.{option_copied};
ghost use Rattle.spk_topics.specs.Nodes.{child_of, links_of, rows_of};
ghost use Rattle.spk_topics.specs.Paths.{text_in};
ghost use Rattle.spk_topics.specs.Rows.{IsPlace, SetsRow, grants_of};
ghost use Rattle.spk_topics.specs.Whole.{HasGrants};

use crate::fault::TopicFault;
use crate::node::Node;
use std::alloc::Global;

/// Nodes that name each other by number. Node 0 is the root, from which each filter's levels lead to the
/// node of its grants.
#[derive(Drop)]
pub(crate) struct Nodes {
    /// All of them, used and unused.
    pub(crate) list: Vec<Node>,
    /// The first one that isn't used. Each names the next.
    pub(crate) unused: Option<usize>,
}

impl Nodes {
    /// No nodes. It takes no memory.
    pub(crate) fn new(alloc: Global) -> Nodes
        ensures rows { rows_of result ≡ [] }
        ensures links { links_of result ≡ [] }
        ensures unused { result.unused ≡ None }
    {
        Nodes {
            list: Vec::new(alloc),
            unused: None,
        }
    }

    /// One more node, without grants and edges.
    pub(crate) fn push(&mut self, alloc: Global) -> Result<(), TopicFault>
        ensures rows { OnOk result (rows_of self.new ≡ rows_of self.old ++ ([], []) ∷ []) }
        ensures links { OnOk result
            (links_of self.new ≡ links_of self.old ++ ((λ _. None), None, None) ∷ []) }
        ensures fault { IfErr result (λ e. e ≡ TopicFault.NoMemory) }
        ensures unused { self.new.unused ≡ self.old.unused }
        ensures err { OnErr result (self.new.list.items ≡ self.old.list.items) }
    {
        match self.list.push(Node::new(alloc)) {
            Ok(()) => Ok(()),
            Err(_) => Err(TopicFault::NoMemory),
        }
    }

    /// The node of a number, if it is there.
    pub(crate) fn node(&self, number: usize) -> Option<&Node>
        ensures { option_copied result ≡ slice_get self.now.list.items number }
    {
        self.list.get(number)
    }

    /// The node to which a level leads from a node.
    #[inline(always)]
    pub(crate) fn child(&self, number: usize, level: &str) -> Option<usize>
        ensures { result ≡ child_of self.now number level.now }
    {
        self.node(number)?.child(level)
    }

    /// Sets the QoS of a key in the node of a filter, and says whether the key is new there.
    pub(crate) fn set_at(&mut self, place: usize, key: u64, qos: u8) -> Result<bool, TopicFault>
        requires { IsPlace (rows_of self.old) (text_in (rows_of self.old) place) place }
        ensures is_new { IfOk result
            (λ is_new. is_new
            ≡ is_none (map.get (grants_of (rows_of self.old))
            (text_in (rows_of self.old) place, key))) }
        ensures ok { OnOk result
            (grants_of (rows_of self.new)
            ≡ map.insert (grants_of (rows_of self.old))
            (text_in (rows_of self.old) place, key) qos) }
        ensures rows { SetsRow (rows_of self.old) (rows_of self.new)
            (text_in (rows_of self.old) place) place }
        ensures filled { OnOk result (HasGrants (rows_of self.new) place) }
        ensures links { links_of self.new ≡ links_of self.old }
        ensures unused { self.new.unused ≡ self.old.unused }
        ensures fault { IfErr result (λ e. e ≡ TopicFault.NoMemory) }
        ensures err { OnErr result (rows_of self.new ≡ rows_of self.old) }
        ensures fails_new { OnErr result
            (map.get (grants_of (rows_of self.old)) (text_in (rows_of self.old) place, key)
            ≡ None) }
    {
        match self.list[place].set(key, qos) {
            Ok(is_new) => Ok(is_new),
            Err(fault) => Err(fault),
        }
    }

    /// Takes the grant of a key back in the node of a filter, and says whether it stood.
    pub(crate) fn take_at(&mut self, place: usize, key: u64) -> bool
        requires { IsPlace (rows_of self.old) (text_in (rows_of self.old) place) place }
        ensures stood { result
            ≡ is_some (map.get (grants_of (rows_of self.old))
            (text_in (rows_of self.old) place, key)) }
        ensures gone { grants_of (rows_of self.new)
            ≡ map.remove (grants_of (rows_of self.old)) (text_in (rows_of self.old) place, key) }
        ensures rows { SetsRow (rows_of self.old) (rows_of self.new)
            (text_in (rows_of self.old) place) place }
        ensures links { links_of self.new ≡ links_of self.old }
        ensures unused { self.new.unused ≡ self.old.unused }
    {
        self.list[place].take(key)
    }
}
