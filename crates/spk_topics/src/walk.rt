//! The walk over the levels of a topic, along those branches of the tree alone that fit it.
ghost use Rattle.std.specs.Prelude.{◌≡◌, ◌⊎◌, ◌++◌, ◌∷◌, [], ℕ, List, IsTrue, Some, None, IfOk, IfErr, IfNone, IfSome, OnOk};
ghost use Rattle.std.specs.Option.{option_map};
ghost use Rattle.std.specs.Ordering.{nat_cmp};
ghost use Rattle.std.specs.BTreeMap.{get};
ghost use Rattle.spk_topics.specs.Edges.{IsTreeIn};
ghost use Rattle.spk_topics.specs.Levels.{levels, levels_left};
ghost use Rattle.spk_topics.specs.Nodes.{IsWhole, child_of, rows_of};
ghost use Rattle.spk_topics.specs.Reached.{FindsAll};
ghost use Rattle.spk_topics.specs.Walk.{Begins, Enters, Extends, GainsIn, HasAll, IsAheadOf, IsOnTheWayIn, Passes, Settles, TakenIn, way_of};

use crate::fault::TopicFault;
use crate::found::gather;
use crate::levels::cut;
use crate::matching::{begins_with_dollar, matches_text};
use crate::nodes::Nodes;
use std::alloc::Global;
use std::collections::BTreeMap;
use std::mem;

/// A node to which the topic leads so far.
#[derive(Clone, Copy, Drop)]
pub(crate) struct Ahead<'a> {
    /// Its number.
    pub(crate) number: usize,
    /// What is left of the edge to it.
    pub(crate) left: Option<&'a str>,
}

impl Nodes {
    /// The greatest QoS of each key among the filters that match a topic.
    pub(crate) fn find(&self, alloc: Global, topic: &str) -> Result<BTreeMap<u64, u8>, TopicFault>
        requires { IsWhole self.now }
        ensures ok { IfOk result
            (λ found. FindsAll (rows_of self.now) topic.now (get nat_cmp found)) }
        ensures fault { IfErr result (λ e. e ≡ TopicFault.NoMemory) }
    {
        let mut found = BTreeMap::new(alloc);
        let begun = self.begin(alloc, topic)?;
        let (mut front, mut left) = begun;
        let mut next = Vec::new(alloc);
        while let Some(text) = left {
            // Nothing is ahead any more.
            if front.is_empty() {
                return Ok(found);
            }
            let (level, rest) = cut(text);
            self.pass(&front, level, topic, &mut found, &mut next)?;
            mem::swap(&mut front, &mut next);
            left = rest;
        }
        self.arrive(&front, topic, &mut found)?;
        Ok(found)
    }

    /// The first front, and what is left of the topic then. No wildcard leads on from the root where the
    /// topic begins with `$`.
    fn begin<'a, 'b>(
        &'a self,
        alloc: Global,
        topic: &'b str,
    ) -> Result<(Vec<Ahead<'a>>, Option<&'b str>), TopicFault>
        requires { IsWhole self.now }
        ensures way { IfOk result
            (λ r.
            Begins self.now topic.now r.0.items (levels_left (option_map (λ rest. rest.now) r.1))) }
        ensures fault { IfErr result (λ e. e ≡ TopicFault.NoMemory) }
    {
        let mut front: Vec<Ahead<'a>> = Vec::new(alloc);
        if begins_with_dollar(topic) {
            let (level, rest) = cut(topic);
            if let Some(ahead) = self.ahead(0, level) {
                front.push(ahead)?;
                return Ok((front, rest));
            }
            return Ok((front, rest));
        }
        front.push(self.root())?;
        Ok((front, Some(topic)))
    }

    /// The root, to which no level leads.
    fn root(&self) -> Ahead<'_>
        ensures { way_of result ≡ (0, []) }
    {
        Ahead {
            number: 0,
            left: None,
        }
    }

    /// The nodes to which a level of the topic leads from those of the front, in place of what `next` held, with what `#` there matches.
    fn pass<'a>(
        &'a self,
        front: &[Ahead<'a>],
        level: &str,
        topic: &str,
        found: &mut BTreeMap<u64, u8>,
        next: &mut Vec<Ahead<'a>>,
    ) -> Result<(), TopicFault>
        requires { IsWhole self.now }
        ensures gains { OnOk result (GainsIn self.now topic.now found.old found.new) }
        ensures way { OnOk result
            (Passes self.now topic.now level.now found.old found.new front.now next.new.items) }
        ensures fault { IfErr result (λ e. e ≡ TopicFault.NoMemory) }
    {
        next.clear();
        for ahead in front {
            self.step(ahead, level, topic, found, next)?;
        }
        Ok(())
    }

    /// Goes on by one level of the topic, along the edge to a node or from the node itself.
    fn step<'a>(
        &'a self,
        ahead: &Ahead<'a>,
        level: &str,
        topic: &str,
        found: &mut BTreeMap<u64, u8>,
        next: &mut Vec<Ahead<'a>>,
    ) -> Result<(), TopicFault>
        requires { IsWhole self.now }
        ensures gains { OnOk result (GainsIn self.now topic.now found.old found.new) }
        ensures next { OnOk result (Extends next.old.items next.new.items) }
        ensures settled { OnOk result
            (Settles self.now topic.now level.now found.new next.new.items
            (way_of ahead.now)) }
        ensures fault { IfErr result (λ e. e ≡ TopicFault.NoMemory) }
    {
        match ahead.left {
            Some(text) => self.step_along(ahead.number, text, level, topic, found, next),
            None => self.step_from(ahead.number, level, topic, found, next),
        }
    }

    /// Goes on along the edge to a node by `+` or the level, and gathers what `#` there matches.
    fn step_along<'a>(
        &'a self,
        number: usize,
        text: &'a str,
        level: &str,
        topic: &str,
        found: &mut BTreeMap<u64, u8>,
        next: &mut Vec<Ahead<'a>>,
    ) -> Result<(), TopicFault>
        requires { IsWhole self.now }
        ensures gains { OnOk result (GainsIn self.now topic.now found.old found.new) }
        ensures next { OnOk result (Extends next.old.items next.new.items) }
        ensures settled { OnOk result
            (Settles self.now topic.now level.now found.new next.new.items
            (number, levels text.now)) }
        ensures fault { IfErr result (λ e. e ≡ TopicFault.NoMemory) }
    {
        let (own, rest) = cut(text);
        self.gather_at_hash(number, own, topic, found)?;
        if leads(own, level) {
            next.push(Ahead { number, left: rest })?;
        }
        Ok(())
    }

    // Gathers the grants of a node to which `#` leads, if they match.
    #[inline(always)]
    fn gather_at_hash(
        &self,
        number: usize,
        own: &str,
        topic: &str,
        found: &mut BTreeMap<u64, u8>,
    ) -> Result<(), TopicFault>
        ensures gains { OnOk result (GainsIn self.now topic.now found.old found.new) }
        ensures taken { OnOk result
            (own.now ≡ 35 ∷ [] → TakenIn self.now topic.now found.new (Some number)) }
        ensures fault { IfErr result (λ e. e ≡ TopicFault.NoMemory) }
    {
        if own != "#" {
            return Ok(());
        }
        self.gather_at(number, topic, found)
    }

    /// Goes on from a node by `+` and by the level, and gathers what `#` there matches.
    fn step_from<'a>(
        &'a self,
        number: usize,
        level: &str,
        topic: &str,
        found: &mut BTreeMap<u64, u8>,
        next: &mut Vec<Ahead<'a>>,
    ) -> Result<(), TopicFault>
        requires { IsWhole self.now }
        ensures gains { OnOk result (GainsIn self.now topic.now found.old found.new) }
        ensures next { OnOk result (Extends next.old.items next.new.items) }
        ensures settled { OnOk result
            (Settles self.now topic.now level.now found.new next.new.items (number, [])) }
        ensures fault { IfErr result (λ e. e ≡ TopicFault.NoMemory) }
    {
        self.gather_below(number, "#", topic, found)?;
        self.enter(number, "+", next)?;
        self.enter(number, level, next)
    }

    // The child to which a level leads, and what is left of the edge to it.
    #[inline(always)]
    fn ahead(&self, number: usize, level: &str) -> Option<Ahead<'_>>
        requires { IsTreeIn self.now }
        ensures some { IfSome result
            (λ ahead. IsAheadOf self.now number level.now (way_of ahead)) }
        ensures none { IfNone result (child_of self.now number level.now ≡ None) }
    {
        let child = self.child(number, level)?;
        let left = self.left_of(number, level, child);
        Some(Ahead {
            number: child,
            left,
        })
    }

    // Appends the child to which a level leads, if there is one.
    #[inline(always)]
    fn enter<'a>(
        &'a self,
        number: usize,
        level: &str,
        next: &mut Vec<Ahead<'a>>,
    ) -> Result<(), TopicFault>
        requires { IsTreeIn self.now }
        ensures ok { OnOk result (Enters self.now number level.now next.old.items next.new.items) }
        ensures fault { IfErr result (λ e. e ≡ TopicFault.NoMemory) }
    {
        let Some(ahead) = self.ahead(number, level) else {
            return Ok(());
        };
        next.push(ahead)?;
        Ok(())
    }

    /// Gathers what stands where all levels of the topic lead, and what `#` there matches.
    fn arrive(
        &self,
        front: &[Ahead<'_>],
        topic: &str,
        found: &mut BTreeMap<u64, u8>,
    ) -> Result<(), TopicFault>
        requires { IsWhole self.now }
        ensures gains { OnOk result (GainsIn self.now topic.now found.old found.new) }
        ensures all { OnOk result
            (IsOnTheWayIn self.now topic.now found.old front.now []
            → HasAll self.now topic.now found.new) }
        ensures fault { IfErr result (λ e. e ≡ TopicFault.NoMemory) }
    {
        for ahead in front {
            self.gather_at(ahead.number, topic, found)?;
            self.gather_below(ahead.number, "#", topic, found)?;
        }
        Ok(())
    }

    /// Gathers the grants of the node to which a level leads, if they match.
    fn gather_below(
        &self,
        number: usize,
        level: &str,
        topic: &str,
        found: &mut BTreeMap<u64, u8>,
    ) -> Result<(), TopicFault>
        ensures gains { OnOk result (GainsIn self.now topic.now found.old found.new) }
        ensures taken { OnOk result
            (TakenIn self.now topic.now found.new (child_of self.now number level.now)) }
        ensures fault { IfErr result (λ e. e ≡ TopicFault.NoMemory) }
    {
        match self.child(number, level) {
            Some(child) => self.gather_at(child, topic, found),
            None => Ok(()),
        }
    }

    /// Gathers the grants of a node, if its path matches the topic.
    fn gather_at(
        &self,
        number: usize,
        topic: &str,
        found: &mut BTreeMap<u64, u8>,
    ) -> Result<(), TopicFault>
        ensures gains { OnOk result (GainsIn self.now topic.now found.old found.new) }
        ensures taken { OnOk result (TakenIn self.now topic.now found.new (Some number)) }
        ensures fault { IfErr result (λ e. e ≡ TopicFault.NoMemory) }
    {
        let Some(node) = self.node(number) else {
            return Ok(());
        };
        if matches_text(&node.path, topic) {
            gather(found, &node.grants)?;
        }
        Ok(())
    }
}

// Whether a level of a filter leads on by a level of a topic.
#[inline(always)]
fn leads(own: &str, level: &str) -> bool
    ensures { (own.now ≡ 43 ∷ []) ⊎ (own.now ≡ level.now) → IsTrue result }
{
    own == "+" || own == level
}
