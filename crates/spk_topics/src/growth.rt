//! How the tree of levels grows for a filter, and loses the nodes that carry nothing any more.
ghost use Rattle.std.specs.Prelude.{◌≡◌, ◌≢◌, ◌++◌, ◌∷◌, ◌<◌, ◌≤◌, ◌⊎◌, [], ℕ, List, Some, None, IfOk, IfErr, IfSome, MatchOption, OnErr, OnOk, slice_get, vec_len};
ghost use Rattle.std.specs.Option.{option_map};
ghost use Rattle.std.specs.String.{string_bytes};
ghost use Rattle.spk_topics.specs.Edges.{IsMore, IsSeatIn, IsTreeIn, KeepsIn, StaysIn};
ghost use Rattle.spk_topics.specs.Levels.{levels, levels_left};
ghost use Rattle.spk_topics.specs.Nodes.{IsWhole, IsWholeBut, child_of, edge_of, rows_of, up_of};
ghost use Rattle.spk_topics.specs.Parting.{IsInside, PartsAt, only_to};
ghost use Rattle.spk_topics.specs.Paths.{path};
ghost use Rattle.spk_topics.specs.Walk.{IsOnIn};

use crate::fault::TopicFault;
use crate::levels::{before, cut, part};
use crate::node::Edge;
use crate::nodes::Nodes;
use std::alloc::Global;

impl Nodes {
    /// The node of a filter, with a new edge where its levels lead nowhere yet. Where it fails, the tree is
    /// pruned again.
    pub(crate) fn grow(&mut self, alloc: Global, filter: &str) -> Result<usize, TopicFault>
        requires { IsWhole self.old }
        ensures whole { IfOk result (λ n. IsWholeBut self.new n) }
        ensures err { OnErr result (IsWhole self.new) }
        ensures keeps { KeepsIn self.old self.new }
        ensures seat { IfOk result (λ n. IsSeatIn self.new filter.now n) }
        ensures fault { IfErr result (λ e. e ≡ TopicFault.NoMemory) }
    {
        self.plant(alloc)?;
        let (number, left) = self.walk(filter);
        let Some(text) = left else {
            return Ok(number);
        };
        let (level, rest) = cut(text);
        match self.child(number, level) {
            Some(child) => self.grow_inside(alloc, filter, number, level, rest, child),
            None => self.add_leaf(alloc, filter, number, level),
        }
    }

    /// Makes the root, if it isn't there yet.
    fn plant(&mut self, alloc: Global) -> Result<(), TopicFault>
        requires { IsWhole self.old }
        ensures whole { IsWhole self.new }
        ensures keeps { KeepsIn self.old self.new }
        ensures rooted { OnOk result (0 < vec_len self.new.list) }
        ensures fault { IfErr result (λ e. e ≡ TopicFault.NoMemory) }
    {
        if self.list.is_empty() {
            self.push(alloc)?;
        }
        Ok(())
    }

    /// The first unused node, or a new one.
    fn unused_node(&mut self, alloc: Global) -> Result<usize, TopicFault>
        requires { 0 < vec_len self.old.list }
        ensures whole { (at : ℕ) → IsWholeBut self.old at → IsWholeBut self.new at }
        ensures rows { IsMore (rows_of self.old) (rows_of self.new) }
        ensures child { child_of self.new ≡ child_of self.old }
        ensures up { up_of self.new ≡ up_of self.old }
        ensures first { IfOk result (λ n. self.new.unused ≡ Some n) }
        ensures again { (n : ℕ) → self.old.unused ≡ Some n
            → vec_len self.new.list ≡ vec_len self.old.list }
        ensures longer { vec_len self.old.list ≤ vec_len self.new.list }
        ensures fault { IfErr result (λ e. e ≡ TopicFault.NoMemory) }
    {
        if let Some(number) = self.unused {
            return Ok(number);
        }
        let number = self.list.len();
        self.push(alloc)?;
        self.unused = Some(number);
        Ok(number)
    }

    /// Lets a level that leads nowhere yet lead from a node to the new one of a filter.
    fn add_leaf(
        &mut self,
        alloc: Global,
        filter: &str,
        number: usize,
        level: &str,
    ) -> Result<usize, TopicFault>
        requires whole { IsWholeBut self.old number }
        requires on { IsOnIn self.old number }
        requires rooted { 0 < vec_len self.old.list }
        requires leads_nowhere { child_of self.old number level.now ≡ None }
        requires goes_on { (rest : List (List ℕ))
            × (levels filter.now ≡ path (rows_of self.old) number ++ level.now ∷ rest) }
        requires stays { StaysIn self.old number }
        ensures whole { IfOk result (λ n. IsWholeBut self.new n) }
        ensures err { OnErr result (IsWhole self.new) }
        ensures keeps { KeepsIn self.old self.new }
        ensures seat { IfOk result (λ n. IsSeatIn self.new filter.now n) }
        ensures fault { IfErr result (λ e. e ≡ TopicFault.NoMemory) }
    {
        match self.link(alloc, filter, number, level) {
            Ok(child) => Ok(child),
            Err(fault) => {
                self.prune(number);
                Err(fault)
            }
        }
    }

    /// The same, but where it fails, the node stays as it is.
    fn link(
        &mut self,
        alloc: Global,
        filter: &str,
        number: usize,
        level: &str,
    ) -> Result<usize, TopicFault>
        requires whole { IsWholeBut self.old number }
        requires on { IsOnIn self.old number }
        requires rooted { 0 < vec_len self.old.list }
        requires leads_nowhere { child_of self.old number level.now ≡ None }
        requires goes_on { (rest : List (List ℕ))
            × (levels filter.now ≡ path (rows_of self.old) number ++ level.now ∷ rest) }
        requires stays { StaysIn self.old number }
        ensures whole { IfOk result (λ n. IsWholeBut self.new n) }
        ensures err { OnErr result (IsWholeBut self.new number) }
        ensures keeps { KeepsIn self.old self.new }
        ensures seat { IfOk result (λ n. IsSeatIn self.new filter.now n) }
        ensures fault { IfErr result (λ e. e ≡ TopicFault.NoMemory) }
    {
        let child = self.unused_node(alloc)?;
        let path = String::from_str(alloc, filter)?;
        let text = String::from_str(alloc, level)?;
        self.add_child(alloc, number, level, child)?;
        let edge = Edge {
            parent: number,
            level: text,
        };
        self.hang(child, edge, path);
        Ok(child)
    }

    /// The node of a filter that parts from the edge to a child.
    fn grow_inside(
        &mut self,
        alloc: Global,
        filter: &str,
        number: usize,
        level: &str,
        rest: Option<&str>,
        child: usize,
    ) -> Result<usize, TopicFault>
        requires whole { IsWhole self.old }
        requires on { IsOnIn self.old number }
        requires rooted { 0 < vec_len self.old.list }
        requires leads { child_of self.old number level.now ≡ Some child }
        requires goes_on { levels filter.now ≡ path (rows_of self.old) number
            ++ level.now ∷ levels_left (option_map (λ rest. rest.now) rest) }
        requires stops { (more : List (List ℕ))
            → path (rows_of self.old) child ++ more ≢ levels filter.now }
        ensures whole { IfOk result (λ n. IsWholeBut self.new n) }
        ensures err { OnErr result (IsWhole self.new) }
        ensures keeps { KeepsIn self.old self.new }
        ensures seat { IfOk result (λ n. IsSeatIn self.new filter.now n) }
        ensures fault { IfErr result (λ e. e ≡ TopicFault.NoMemory) }
    {
        let (key, left) = self.parting(alloc, number, level, rest, child)?;
        let place = self.split(alloc, number, level, child, key, before(filter, left))?;
        let Some(text) = left else {
            return Ok(place);
        };
        let (next, _) = cut(text);
        self.add_leaf(alloc, filter, place, next)
    }

    /// The first level of the edge to a child that the rest of a filter doesn't share, and what is left of the
    /// filter there.
    fn parting<'a>(
        &self,
        alloc: Global,
        number: usize,
        level: &str,
        rest: Option<&'a str>,
        child: usize,
    ) -> Result<(String, Option<&'a str>), TopicFault>
        requires tree { IsTreeIn self.now }
        requires leads { child_of self.now number level.now ≡ Some child }
        requires stops { (more : List (List ℕ))
            → path (rows_of self.now) child ++ more
            ≢ path (rows_of self.now) number
            ++ level.now ∷ levels_left (option_map (λ rest. rest.now) rest) }
        ensures parts { IfOk result
            (λ r. PartsAt (path (rows_of self.now) number) level.now
            (path (rows_of self.now) child) (levels_left (option_map (λ rest. rest.now) rest.entry))
            (string_bytes r.0) (levels_left (option_map (λ left. left.now) r.1))) }
        ensures fault { IfErr result (λ e. e ≡ TopicFault.NoMemory) }
    {
        let (own, left) = part(self.left_of(number, level, child), rest);
        let (key, _) = cut(own.unwrap_or(""));
        let key = String::from_str(alloc, key)?;
        Ok((key, left))
    }

    /// Puts a new node into the edge to a child, where a key leads on to the child.
    fn split(
        &mut self,
        alloc: Global,
        number: usize,
        level: &str,
        child: usize,
        key: String,
        upper: &str,
    ) -> Result<usize, TopicFault>
        requires whole { IsWhole self.old }
        requires rooted { 0 < vec_len self.old.list }
        requires leads { child_of self.old number level.now ≡ Some child }
        requires inside { IsInside (path (rows_of self.old) number) level.now
            (path (rows_of self.old) child) (string_bytes key) (levels upper.now) }
        ensures whole { IfOk result (λ n. IsWholeBut self.new n) }
        ensures err { OnErr result (IsWhole self.new) }
        ensures keeps { KeepsIn self.old self.new }
        ensures seat { IfOk result (λ n. IsSeatIn self.new upper.now n) }
        ensures leads { IfOk result
            (λ n. (l : List ℕ)
            → child_of self.new n l ≡ only_to (string_bytes key) child l) }
        ensures rooted { 0 < vec_len self.new.list }
        ensures fault { IfErr result (λ e. e ≡ TopicFault.NoMemory) }
    {
        let place = self.unused_node(alloc)?;
        let path = String::from_str(alloc, upper)?;
        let text = String::from_str(alloc, key.as_str())?;
        let lower = Edge {
            parent: place,
            level: text,
        };
        self.set_between(number, level, child, place, path, key, lower);
        Ok(place)
    }

    /// The same with the first unused node, for which there is all that it needs. It takes no memory.
    fn set_between(
        &mut self,
        number: usize,
        level: &str,
        child: usize,
        place: usize,
        upper: String,
        key: String,
        lower: Edge,
    )
        requires whole { IsWhole self.old }
        requires leads { child_of self.old number level.now ≡ Some child }
        requires inside { IsInside (path (rows_of self.old) number) level.now
            (path (rows_of self.old) child) (string_bytes key) (levels (string_bytes upper)) }
        requires first { self.old.unused ≡ Some place }
        requires lower { edge_of lower ≡ (place, string_bytes key) }
        ensures whole { IsWholeBut self.new place }
        ensures keeps { KeepsIn self.old self.new }
        ensures seat { IsSeatIn self.new (string_bytes upper) place }
        ensures leads { (l : List ℕ)
            → child_of self.new place l ≡ only_to (string_bytes key) child l }
        ensures len { vec_len self.new.list ≡ vec_len self.old.list }
    {
        let Some(edge) = self.turn_edge(child, lower) else {
            return;
        };
        self.set_only_child(place, key, child);
        self.turn_child(number, level, place);
        self.hang(place, edge, upper);
    }

    /// Takes a node off the tree if it carries nothing, and then joins the edges at the one above it if they need
    /// not part there any more; or else those at the node itself. It takes no memory.
    pub(crate) fn prune(&mut self, number: usize)
        requires { IsWholeBut self.old number }
        ensures whole { IsWhole self.new }
        ensures keeps { KeepsIn self.old self.new }
    {
        match self.free_leaf(number) {
            Some(parent) => self.join(parent),
            None => self.join(number),
        }
    }

    /// Takes a node off the tree if it has no grants and no child, and says which one was above it.
    fn free_leaf(&mut self, number: usize) -> Option<usize>
        requires { IsWholeBut self.old number }
        ensures whole { MatchOption result (IsWholeBut self.new number)
            (λ parent. IsWholeBut self.new parent) }
        ensures stays { MatchOption result (StaysIn self.new number)
            (λ parent. StaysIn self.new parent) }
        ensures keeps { KeepsIn self.old self.new }
    {
        if !self.is_leaf(number) {
            return None;
        }
        let edge = self.free(number)?;
        self.drop_child(edge.parent, edge.level.as_str());
        Some(edge.parent)
    }

    /// Takes a node without grants out of its edge if one child alone hangs on it. The child hangs on the node
    /// above then.
    fn join(&mut self, number: usize)
        requires whole { IsWholeBut self.old number }
        requires stays { StaysIn self.old number }
        ensures whole { IsWhole self.new }
        ensures keeps { KeepsIn self.old self.new }
    {
        let Some(child) = self.joint(number) else {
            return;
        };
        let Some(edge) = self.free(number) else {
            return;
        };
        self.turn_child(edge.parent, edge.level.as_str(), child);
        self.turn_edge(child, edge);
    }
}
