//! The edges of single nodes of the tree of levels.
ghost use Rattle.std.specs.Prelude.{◌≡◌, ◌≢◌, ◌<◌, ◌⊎◌, [], ℕ, List, Some, None, IsTrue, IfErr, IfSome, IfNone, OnOk, OnErr, false, slice_get, slice_set, vec_len};
ghost use Rattle.std.specs.String.{string_bytes};
ghost use Rattle.spk_topics.specs.Edges.{DropsChildrenIn, IsJointIn, IsLeafIn, SetsChildIn, SetsNextIn, SetsUpIn, StaysIn};
ghost use Rattle.spk_topics.specs.Nodes.{child_of, edge_of, links_of, next_unused_of, rows_of, up_of};
ghost use Rattle.spk_topics.specs.Rows.{Row};
ghost use Rattle.spk_topics.specs.Whole.{HasGrants, HasTwo};

use crate::fault::TopicFault;
use crate::node::{Branch, Children, Edge};
use crate::nodes::Nodes;
use std::alloc::Global;

impl Nodes {
    /// Lets a level lead from a node to a child.
    pub(crate) fn add_child(
        &mut self,
        alloc: Global,
        number: usize,
        level: &str,
        child: usize,
    ) -> Result<(), TopicFault>
        requires { number < vec_len self.old.list }
        ensures rows { rows_of self.new ≡ rows_of self.old }
        ensures up { up_of self.new ≡ up_of self.old }
        ensures next { next_unused_of self.new ≡ next_unused_of self.old }
        ensures unused { self.new.unused ≡ self.old.unused }
        ensures child { OnOk result (SetsChildIn self.old self.new number level.now (Some child)) }
        ensures len { vec_len self.new.list ≡ vec_len self.old.list }
        ensures fault { IfErr result (λ e. e ≡ TopicFault.NoMemory) }
        ensures err { OnErr result (links_of self.new ≡ links_of self.old) }
    {
        match self.list[number].children.add(alloc, level, child) {
            Ok(()) => Ok(()),
            Err(fault) => Err(fault),
        }
    }

    /// Lets one level alone lead on from a node without children. It takes no memory.
    pub(crate) fn set_only_child(&mut self, number: usize, level: String, child: usize)
        requires within { number < vec_len self.old.list }
        requires none { (l : List ℕ) → child_of self.old number l ≡ None }
        ensures rows { rows_of self.new ≡ rows_of self.old }
        ensures up { up_of self.new ≡ up_of self.old }
        ensures next { next_unused_of self.new ≡ next_unused_of self.old }
        ensures unused { self.new.unused ≡ self.old.unused }
        ensures child { SetsChildIn self.old self.new number (string_bytes level) (Some child) }
        ensures len { vec_len self.new.list ≡ vec_len self.old.list }
    {
        self.list[number].children = Children::One(Branch {
            level,
            number: child,
        });
    }

    /// Lets a level that leads from a node to a child lead to another one. It takes no memory.
    pub(crate) fn turn_child(&mut self, number: usize, level: &str, child: usize)
        requires within { number < vec_len self.old.list }
        requires leads { (n : ℕ) × (child_of self.old number level.now ≡ Some n) }
        ensures rows { rows_of self.new ≡ rows_of self.old }
        ensures up { up_of self.new ≡ up_of self.old }
        ensures next { next_unused_of self.new ≡ next_unused_of self.old }
        ensures unused { self.new.unused ≡ self.old.unused }
        ensures child { SetsChildIn self.old self.new number level.now (Some child) }
        ensures len { vec_len self.new.list ≡ vec_len self.old.list }
    {
        self.list[number].children.turn(level, child);
    }

    /// Lets a level of a node lead nowhere.
    pub(crate) fn drop_child(&mut self, number: usize, level: &str)
        requires { number < vec_len self.old.list }
        ensures rows { rows_of self.new ≡ rows_of self.old }
        ensures up { up_of self.new ≡ up_of self.old }
        ensures next { next_unused_of self.new ≡ next_unused_of self.old }
        ensures unused { self.new.unused ≡ self.old.unused }
        ensures child { SetsChildIn self.old self.new number level.now None }
    {
        self.list[number].children.remove(level);
    }

    /// Gives the first unused node its edge and its path. It isn't unused any more.
    pub(crate) fn hang(&mut self, number: usize, edge: Edge, path: String)
        requires within { number < vec_len self.old.list }
        requires empty { slice_get (rows_of self.old) number ≡ Some ([], []) }
        ensures rows { rows_of self.new
            ≡ slice_set (rows_of self.old) number (string_bytes path, []) }
        ensures child { child_of self.new ≡ child_of self.old }
        ensures up { SetsUpIn self.old self.new number (Some (edge_of edge)) }
        ensures next { SetsNextIn self.old self.new number None }
        ensures first { self.new.unused ≡ next_unused_of self.old number }
        ensures len { vec_len self.new.list ≡ vec_len self.old.list }
    {
        let node = &mut self.list[number];
        node.path = path;
        node.up = Some(edge);
        let next = node.next_unused.take();
        self.unused = next;
    }

    /// Lets another edge lead to a node, and gives back the one that did.
    pub(crate) fn turn_edge(&mut self, number: usize, edge: Edge) -> Option<Edge>
        requires { number < vec_len self.old.list }
        ensures rows { rows_of self.new ≡ rows_of self.old }
        ensures child { child_of self.new ≡ child_of self.old }
        ensures up { SetsUpIn self.old self.new number (Some (edge_of edge)) }
        ensures next { next_unused_of self.new ≡ next_unused_of self.old }
        ensures unused { self.new.unused ≡ self.old.unused }
        ensures len { vec_len self.new.list ≡ vec_len self.old.list }
        ensures some { IfSome result (λ old. up_of self.old number ≡ Some (edge_of old)) }
        ensures none { IfNone result (up_of self.old number ≡ None) }
    {
        let node = &mut self.list[number];
        let old = node.up.take();
        node.up = Some(edge);
        old
    }

    /// Whether a node is there, and has neither grants nor children.
    pub(crate) fn is_leaf(&self, number: usize) -> bool
        ensures within { IsTrue result → number < vec_len self.now.list }
        ensures leaf { IsTrue result → IsLeafIn self.now number }
        ensures stays { result ≡ false → StaysIn self.now number }
    {
        match self.node(number) {
            Some(node) => node.is_bare(),
            None => false,
        }
    }

    /// The child of a node that has no grants, and no other child.
    pub(crate) fn joint(&self, number: usize) -> Option<usize>
        ensures within { IfSome result (λ child. number < vec_len self.now.list) }
        ensures joint { IfSome result (λ child. IsJointIn self.now number child) }
        ensures needed { IfNone result
            (HasGrants (rows_of self.now) number
            ⊎ (HasTwo (child_of self.now number)
            ⊎ ((l : List ℕ) → child_of self.now number l ≡ None))) }
    {
        match self.node(number) {
            Some(node) => node.joint(),
            None => None,
        }
    }

    /// Takes its edges and its path from a node that has no grants. From now on it is the first unused one.
    pub(crate) fn free(&mut self, number: usize) -> Option<Edge>
        requires within { number < vec_len self.old.list }
        requires vacant { (row : Row) → slice_get (rows_of self.old) number ≡ Some row
            → row.1 ≡ [] }
        ensures edge { IfSome result (λ edge. up_of self.old number ≡ Some (edge_of edge)) }
        ensures rows { IfSome result
            (λ edge. rows_of self.new ≡ slice_set (rows_of self.old) number ([], [])) }
        ensures child { IfSome result (λ edge. DropsChildrenIn self.old self.new number) }
        ensures up { IfSome result (λ edge. SetsUpIn self.old self.new number None) }
        ensures next { IfSome result (λ edge. SetsNextIn self.old self.new number self.old.unused) }
        ensures first { IfSome result (λ edge. self.new.unused ≡ Some number) }
        ensures none { IfNone result (up_of self.old number ≡ None) }
        ensures same { IfNone result (rows_of self.new ≡ rows_of self.old) }
        ensures same_links { IfNone result (links_of self.new ≡ links_of self.old) }
        ensures same_unused { IfNone result (self.new.unused ≡ self.old.unused) }
        ensures len { vec_len self.new.list ≡ vec_len self.old.list }
    {
        let first = self.unused;
        let edge = self.list[number].free(first)?;
        self.unused = Some(number);
        Some(edge)
    }
}
