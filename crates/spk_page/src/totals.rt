//! What all nodes come to.
ghost use Rattle.std.specs.Prelude.{◌≡◌};
ghost use Rattle.std.specs.List.{count_by, sum_by};
ghost use Rattle.spk_story.specs.Data.{capped};
ghost use Rattle.spk_page.specs.Looks.{is_same};
ghost use Rattle.spk_page.specs.Totals.{figure_of, looks_of, totals_of};

use crate::look::Look;
use crate::node::Node;

/// How many nodes are shown so.
#[derive(Clone, Copy, Debug, PartialEq, Eq)]
pub struct Looks {
    pub unborn: usize,
    pub current: usize,
    pub silent: usize,
    pub lost: usize,
    pub offline: usize,
    pub away: usize,
}

/// What all nodes come to. Sums stand at the greatest number.
#[derive(Clone, Copy, Debug, PartialEq, Eq)]
pub struct Totals {
    pub nodes: usize,
    pub looks: Looks,
    /// Devices that are offline.
    pub down: u64,
    /// Values, and how many of them are current.
    pub values: u64,
    pub current: u64,
    /// Messages that were used.
    pub used: u64,
    pub gaps: u64,
    pub missing: u64,
    pub unused: u64,
}

/// A figure of a node.
#[derive(Clone, Copy, Debug, PartialEq, Eq)]
pub(crate) enum Figure {
    Down,
    Values,
    Current,
    Used,
    Gaps,
    Missing,
    Unused,
}

/// A figure of a node.
fn figure_of(figure: Figure, node: &Node<'_>) -> u64
    ensures { result ≡ figure_of figure node.now }
{
    match figure {
        Figure::Down => node.down.len() as u64,
        Figure::Values => node.values.all as u64,
        Figure::Current => node.values.current as u64,
        Figure::Used => node.counts.used,
        Figure::Gaps => node.counts.gaps,
        Figure::Missing => node.counts.missing,
        Figure::Unused => node.counts.unused,
    }
}

/// The sum of a figure of all nodes.
fn sum_of(figure: Figure, nodes: &[Node<'_>]) -> u64
    ensures { result ≡ capped (sum_by (figure_of figure) nodes.now) }
{
    let mut sum: u64 = 0;
    for node in nodes {
        sum = sum.saturating_add(figure_of(figure, node));
    }
    sum
}

/// How many nodes are shown so.
fn count_of(look: Look, nodes: &[Node<'_>]) -> usize
    ensures { result ≡ count_by (λ n. is_same look n.look) nodes.now }
{
    let mut count: usize = 0;
    for node in nodes {
        if look.is_same(node.look) {
            count += 1;
        }
    }
    count
}

/// How many nodes are shown in which way.
fn looks_of(nodes: &[Node<'_>]) -> Looks
    ensures { result ≡ looks_of nodes.now }
{
    Looks {
        unborn: count_of(Look::Unborn, nodes),
        current: count_of(Look::Current, nodes),
        silent: count_of(Look::Silent, nodes),
        lost: count_of(Look::Lost, nodes),
        offline: count_of(Look::Offline, nodes),
        away: count_of(Look::Away, nodes),
    }
}

impl Totals {
    /// What these nodes come to.
    pub fn of(nodes: &[Node<'_>]) -> Totals
        ensures { result ≡ totals_of nodes.now }
    {
        Totals {
            nodes: nodes.len(),
            looks: looks_of(nodes),
            down: sum_of(Figure::Down, nodes),
            values: sum_of(Figure::Values, nodes),
            current: sum_of(Figure::Current, nodes),
            used: sum_of(Figure::Used, nodes),
            gaps: sum_of(Figure::Gaps, nodes),
            missing: sum_of(Figure::Missing, nodes),
            unused: sum_of(Figure::Unused, nodes),
        }
    }
}
