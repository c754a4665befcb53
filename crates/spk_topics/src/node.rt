//! A node of the tree of levels: the grants of one filter, and the edges to the nodes below it.
ghost use Rattle.std.specs.Prelude.{◌≡◌, ◌≢◌, ◌⊎◌, [], ℕ, List, IfOk, IfSome, IfNone, OnOk, OnErr, IfErr, IsTrue, false, Some, None, is_none, is_some, cond};
ghost use Rattle.std.specs.Option.{option_map};
ghost use Rattle.std.specs.Ordering.{nat_cmp, is_eq};
ghost use Rattle.std.specs.Str.{bytes_eq};
ghost use Rattle.std.specs.String.{string_bytes};
ghost use Rattle.std.specs.BTreeMap.{get};
ghost use Rattle.spk_topics.specs.Nodes.{edge_of, link_of, next_of, only_way, row_of, ways_of};
ghost use Rattle.spk_topics.specs.Whole.{HasOne, HasTwo};

use crate::fault::TopicFault;
use std::alloc::Global;
use std::collections::BTreeMap;

/// The edge that leads to a node.
#[derive(Drop)]
pub(crate) struct Edge {
    /// The number of the node above.
    pub(crate) parent: usize,
    /// The first level of the edge. The others stand in the node's path, behind that of the node above.
    pub(crate) level: String,
}

/// An edge to a node below.
#[derive(Drop)]
pub(crate) struct Branch {
    /// The first level of the edge.
    pub(crate) level: String,
    /// The number of the node.
    pub(crate) number: usize,
}

/// The edges to the nodes below. One stands by itself, since many nodes have no other, and a map of one entry
/// takes half a thousand bytes.
#[derive(Drop)]
pub(crate) enum Children {
    /// None.
    Nothing,
    /// A single one.
    One(Branch),
    /// The numbers of the nodes below, by the first level of the edge.
    Many(BTreeMap<String, usize>),
}

/// The grants of one filter, and where the tree goes on from here.
#[derive(Drop)]
pub(crate) struct Node {
    /// The levels from the root to here. Of a node with grants it is their filter.
    pub(crate) path: String,
    /// The QoS of each key.
    pub(crate) grants: BTreeMap<u64, u8>,
    /// The edges to the nodes below.
    pub(crate) children: Children,
    /// The edge that leads here: none to the root, and none to a node that isn't used.
    pub(crate) up: Option<Edge>,
    /// Of a node that isn't used: the next one that isn't.
    pub(crate) next_unused: Option<usize>,
}

impl Node {
    /// Without grants and edges.
    pub(crate) fn new(alloc: Global) -> Node
        ensures row { row_of result ≡ ([], []) }
        ensures link { link_of result ≡ ((λ _. None), None, None) }
    {
        Node {
            path: String::new(alloc),
            grants: BTreeMap::new(alloc),
            children: Children::Nothing,
            up: None,
            next_unused: None,
        }
    }

    /// Whether it has neither grants nor edges to nodes below.
    pub(crate) fn is_bare(&self) -> bool
        ensures grants { IsTrue result → self.now.grants.entries ≡ [] }
        ensures children { IsTrue result → (l : List ℕ) → next_of self.now l ≡ None }
        ensures full { result ≡ false
            → (self.now.grants.entries ≢ [])
            ⊎ ((l : List ℕ) × (n : ℕ) × (next_of self.now l ≡ Some n)) }
    {
        self.grants.is_empty() && self.children.are_none()
    }

    /// The number of the node below, if there is a single one and the node has no grants.
    pub(crate) fn joint(&self) -> Option<usize>
        ensures grants { IfSome result (λ n. self.now.grants.entries ≡ []) }
        ensures one { IfSome result (λ n. HasOne (next_of self.now) n) }
        ensures needed { IfNone result
            ((self.now.grants.entries ≢ [])
            ⊎ (HasTwo (next_of self.now) ⊎ ((l : List ℕ) → next_of self.now l ≡ None))) }
    {
        if !self.grants.is_empty() {
            return None;
        }
        self.children.only()
    }

    /// Takes the edge that leads here, the path, and the edges that lead on. The node is unused, and names the next one.
    pub(crate) fn free(&mut self, next: Option<usize>) -> Option<Edge>
        ensures row { IfSome result (λ edge. row_of self.new ≡ ([], self.old.grants.entries)) }
        ensures up { IfSome result (λ edge. self.new.up ≡ None) }
        ensures next { IfSome result (λ edge. self.new.next_unused ≡ next) }
        ensures edge { IfSome result
            (λ edge. option_map edge_of self.old.up ≡ Some (edge_of edge)) }
        ensures children { IfSome result (λ edge. (l : List ℕ) → next_of self.new l ≡ None) }
        ensures none { IfNone result (self.old.up ≡ None) }
        ensures same { IfNone result (row_of self.new ≡ row_of self.old) }
        ensures same_link { IfNone result (link_of self.new ≡ link_of self.old) }
    {
        let edge = self.up.take()?;
        let alloc = *self.path.allocator();
        self.path = String::new(alloc);
        self.children = Children::Nothing;
        self.next_unused = next;
        Some(edge)
    }

    /// Whether some key has a grant.
    pub(crate) fn has_grants(&self) -> bool
        ensures yes { IsTrue result → self.now.grants.entries ≢ [] }
        ensures no { result ≡ false → self.now.grants.entries ≡ [] }
    {
        !self.grants.is_empty()
    }

    /// Sets the QoS of a key, and says whether the key is new.
    pub(crate) fn set(&mut self, key: u64, qos: u8) -> Result<bool, TopicFault>
        ensures path { self.new.path ≡ self.old.path }
        ensures is_new { IfOk result
            (λ is_new. is_new ≡ is_none (get nat_cmp self.old.grants key)) }
        ensures ok { OnOk result
            ((j : ℕ)
            → get nat_cmp self.new.grants j
            ≡ cond (is_eq (nat_cmp key j)) (Some qos) (get nat_cmp self.old.grants j)) }
        ensures link { link_of self.new ≡ link_of self.old }
        ensures fault { IfErr result (λ e. e ≡ TopicFault.NoMemory) }
        ensures err { OnErr result (self.new.grants.entries ≡ self.old.grants.entries) }
        ensures fails_new { OnErr result (get nat_cmp self.old.grants key ≡ None) }
    {
        match self.grants.insert(key, qos) {
            Ok(old) => Ok(old.is_none()),
            Err(_) => Err(TopicFault::NoMemory),
        }
    }

    /// Takes a key's grant back, and says whether it stood.
    pub(crate) fn take(&mut self, key: u64) -> bool
        ensures path { self.new.path ≡ self.old.path }
        ensures stood { result ≡ is_some (get nat_cmp self.old.grants key) }
        ensures rest { (j : ℕ)
            → get nat_cmp self.new.grants j
            ≡ cond (is_eq (nat_cmp key j)) None (get nat_cmp self.old.grants j) }
        ensures link { link_of self.new ≡ link_of self.old }
    {
        self.grants.remove(&key).is_some()
    }

    /// The number of the node to which a level leads.
    // Inlined, a level that `find` knows beforehand is compared as a constant.
    #[inline(always)]
    pub(crate) fn child(&self, level: &str) -> Option<usize>
        ensures { result ≡ next_of self.now level.now }
    {
        self.children.get(level)
    }
}

impl Children {
    /// The number of the node to which a level leads.
    #[inline(always)]
    pub(crate) fn get(&self, level: &str) -> Option<usize>
        ensures { result ≡ ways_of self.now level.now }
    {
        match self {
            Children::Nothing => None,
            Children::One(branch) => branch.get(level),
            Children::Many(branches) => branches.get(level).copied(),
        }
    }

    /// Whether no edge leads on.
    fn are_none(&self) -> bool
        ensures none { IsTrue result → (l : List ℕ) → ways_of self.now l ≡ None }
        ensures some { result ≡ false → (l : List ℕ) × (n : ℕ) × (ways_of self.now l ≡ Some n) }
    {
        match self {
            Children::Nothing => true,
            Children::One(_) => false,
            Children::Many(branches) => branches.is_empty(),
        }
    }

    /// The number of the node below, if there is a single one.
    fn only(&self) -> Option<usize>
        ensures one { IfSome result (λ n. HasOne (ways_of self.now) n) }
        ensures none { IfNone result
            (HasTwo (ways_of self.now) ⊎ ((l : List ℕ) → ways_of self.now l ≡ None)) }
    {
        match self {
            Children::Nothing => None,
            Children::One(branch) => Some(branch.number),
            Children::Many(branches) => only_of(branches),
        }
    }

    /// Lets a level lead to the node of a number.
    pub(crate) fn add(
        &mut self,
        alloc: Global,
        level: &str,
        number: usize,
    ) -> Result<(), TopicFault>
        ensures ok { OnOk result
            ((l : List ℕ)
            → ways_of self.new l ≡ cond (bytes_eq level.now l) (Some number) (ways_of self.old l)) }
        ensures fault { IfErr result (λ e. e ≡ TopicFault.NoMemory) }
        ensures err { OnErr result (ways_of self.new ≡ ways_of self.old) }
    {
        let text = String::from_str(alloc, level)?;
        match self {
            Children::Nothing => {
                *self = Children::One(Branch {
                    level: text,
                    number,
                });
                Ok(())
            }
            Children::One(branch) => {
                let both = branch.with(alloc, text, number)?;
                *self = Children::Many(both);
                Ok(())
            }
            Children::Many(branches) => {
                branches.insert(text, number)?;
                Ok(())
            }
        }
    }

    /// Lets a level that leads to a node lead to another one. It takes no memory.
    pub(crate) fn turn(&mut self, level: &str, number: usize)
        requires { (n : ℕ) × (ways_of self.old level.now ≡ Some n) }
        ensures { (l : List ℕ)
            → ways_of self.new l ≡ cond (bytes_eq level.now l) (Some number) (ways_of self.old l) }
    {
        match self {
            Children::Nothing => {}
            Children::One(branch) => branch.number = number,
            Children::Many(branches) => turn_in(branches, level, number),
        }
    }

    /// Lets a level lead nowhere.
    pub(crate) fn remove(&mut self, level: &str)
        ensures { (l : List ℕ)
            → ways_of self.new l ≡ cond (bytes_eq level.now l) None (ways_of self.old l) }
    {
        match self {
            Children::Nothing => {}
            Children::One(branch) => {
                if branch.level.as_str() == level {
                    *self = Children::Nothing;
                }
            }
            Children::Many(branches) => {
                branches.remove(level);
            }
        }
    }
}

impl Branch {
    /// The number of the node, if the edge begins with a level.
    fn get(&self, level: &str) -> Option<usize>
        ensures { result ≡ only_way self.now level.now }
    {
        if self.level.as_str() == level {
            Some(self.number)
        } else {
            None
        }
    }

    /// A map of the edge and of another one, which goes before it.
    fn with(
        &self,
        alloc: Global,
        level: String,
        number: usize,
    ) -> Result<BTreeMap<String, usize>, TopicFault>
        ensures ok { IfOk result
            (λ both. (l : List ℕ)
            → ways_of (Children.Many both) l
            ≡ cond (bytes_eq (string_bytes level) l) (Some number) (only_way self.now l)) }
        ensures fault { IfErr result (λ e. e ≡ TopicFault.NoMemory) }
    {
        let text = String::from_str(alloc, self.level.as_str())?;
        let mut both = BTreeMap::new(alloc);
        both.insert(text, self.number)?;
        both.insert(level, number)?;
        Ok(both)
    }
}

/// The value of a map, if it has a single one.
fn only_of(branches: &BTreeMap<String, usize>) -> Option<usize>
    ensures one { IfSome result (λ n. HasOne (ways_of (Children.Many branches.now)) n) }
    ensures none { IfNone result
        (HasTwo (ways_of (Children.Many branches.now))
        ⊎ ((l : List ℕ) → ways_of (Children.Many branches.now) l ≡ None)) }
{
    if branches.len() != 1 {
        return None;
    }
    match branches.first_key_value() {
        Some((_, number)) => Some(*number),
        None => None,
    }
}

/// Sets the value of a key that is there.
fn turn_in(branches: &mut BTreeMap<String, usize>, level: &str, number: usize)
    requires { (n : ℕ) × (ways_of (Children.Many branches.old) level.now ≡ Some n) }
    ensures { (l : List ℕ)
        → ways_of (Children.Many branches.new) l
        ≡ cond (bytes_eq level.now l) (Some number) (ways_of (Children.Many branches.old) l) }
{
    if let Some(at) = branches.get_mut(level) {
        *at = number;
    }
}
