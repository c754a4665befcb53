//! How the levels of a filter lead through the tree, edge by edge.
ghost use Rattle.std.specs.Prelude.{◌≡◌, ◌<◌, ◌++◌, ◌∷◌, [], ℕ, List, IfSome, IfNone, Some, slice_get};
ghost use Rattle.std.specs.Option.{option_map};
ghost use Rattle.spk_topics.specs.Edges.{IsSeatIn, IsTreeIn, StopsIn};
ghost use Rattle.spk_topics.specs.Levels.{left_size, levels, levels_left};
ghost use Rattle.spk_topics.specs.Nodes.{IsWhole, child_of, rows_of};
ghost use Rattle.spk_topics.specs.Paths.{path, path_end};
ghost use Rattle.spk_topics.specs.Rows.{Absent};
ghost use Rattle.spk_topics.specs.Walk.{IsOnIn};

use crate::levels::{cut, part};
use crate::nodes::Nodes;

impl Nodes {
    /// Where the levels behind a node's path begin in a path that goes on from it.
    fn end_of(&self, number: usize) -> usize
        ensures { result ≡ path_end (rows_of self.now) number }
    {
        if number == 0 {
            return 0;
        }
        match self.node(number) {
            Some(node) => node.path.len() + 1,
            None => 1,
        }
    }

    /// What is left of the edge to a child behind its first level.
    #[inline(always)]
    pub(crate) fn left_of(&self, number: usize, level: &str, child: usize) -> Option<&str>
        requires tree { IsTreeIn self.now }
        requires leads { child_of self.now number level.now ≡ Some child }
        ensures { path (rows_of self.now) child
            ≡ path (rows_of self.now) number
            ++ level.now ∷ levels_left (option_map (λ left. left.now) result) }
    {
        let path = self.list[child].path.as_str();
        let from = self.end_of(number) + level.len();
        let (_, left) = cut(&path[from..]);
        left
    }

    /// The node as far as which a filter's levels lead along whole edges, and what is left of them there.
    pub(crate) fn walk<'a>(&self, filter: &'a str) -> (usize, Option<&'a str>)
        requires { IsTreeIn self.now }
        ensures on { IsOnIn self.now result.0 }
        ensures path { path (rows_of self.now) result.0
            ++ levels_left (option_map (λ left. left.now) result.1) ≡ levels filter.now }
        ensures stops { StopsIn self.now (levels filter.now) result.0
            (levels_left (option_map (λ left. left.now) result.1)) }
    {
        let mut number = 0;
        let mut left = Some(filter);
        while let Some(text) = left {
            let Some((child, rest)) = self.follow(number, text) else {
                return (number, left);
            };
            number = child;
            left = rest;
        }
        (number, left)
    }

    /// The child to which a text leads along a whole edge, and what is left of the text there.
    fn follow<'a>(&self, number: usize, text: &'a str) -> Option<(usize, Option<&'a str>)>
        requires { IsTreeIn self.now }
        ensures on { IfSome result (λ step. IsOnIn self.now step.0) }
        ensures path { IfSome result
            (λ step. path (rows_of self.now) step.0
            ++ levels_left (option_map (λ left. left.now) step.1)
            ≡ path (rows_of self.now) number ++ levels text.now) }
        ensures stops { IfNone result
            (StopsIn self.now (path (rows_of self.now) number ++ levels text.now) number
            (levels text.now)) }
        ensures shorter { IfSome result
            (λ step. left_size (option_map (λ left. left.now) step.1)
            < left_size (Some text.now)) }
    {
        let (level, rest) = cut(text);
        let child = self.child(number, level)?;
        let (own, left) = part(self.left_of(number, level, child), rest);
        if own.is_some() {
            return None;
        }
        Some((child, left))
    }

    /// The node of a filter's grants, if it has any.
    pub(crate) fn place_of(&self, filter: &str) -> Option<usize>
        requires { IsWhole self.now }
        ensures seat { IfSome result (λ n. IsSeatIn self.now filter.now n) }
        ensures none { IfNone result (Absent (rows_of self.now) filter.now) }
    {
        let (number, left) = self.walk(filter);
        if left.is_some() {
            return None;
        }
        let node = self.node(number)?;
        if node.has_grants() {
            Some(number)
        } else {
            None
        }
    }
}
