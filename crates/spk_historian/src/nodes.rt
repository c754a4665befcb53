//! What a historian keeps of each node.
ghost use Rattle.std.specs.Prelude.{◌≡◌, ◌==◌, ◌<◌, ◌+◌, ◌∷◌, ℕ, List, length, IfSome, OnOk, if◌then◌else◌, vec_len};
ghost use Rattle.spk_historian.specs.Event.{EventData, event_view, node_of, what_view};
ghost use Rattle.spk_historian.specs.Told.{awaited, capped, is_node_birth, kept_at};

use crate::event::{Event, What};
use std::alloc::AllocError;

/// What is kept of a node.
#[derive(Clone, Copy, Debug)]
pub struct Kept {
    /// It was named in this part.
    pub(crate) is_named: bool,
    /// How many messages of it were consumed since its last birth, and that.
    pub(crate) used: u64,
}

/// Of a node that nothing was told of.
const FRESH: Kept = Kept {
    is_named: false,
    used: 0,
};

/// What is kept of the node of a number.
pub(crate) fn kept_of(nodes: &Vec<Kept>, number: u32) -> Kept
    ensures { result ≡ kept_at nodes.now.items number }
{
    match nodes.get(number as usize) {
        Some(kept) => *kept,
        None => FRESH,
    }
}

/// Makes a place for the node of a number: what is kept stays as it is.
pub(crate) fn make_place(nodes: &mut Vec<Kept>, number: u32) -> Result<(), AllocError>
    ensures same { (n : ℕ) → kept_at nodes.new.items n ≡ kept_at nodes.old.items n }
    ensures room { OnOk result (number < vec_len nodes.new) }
{
    let count = number as usize + 1;
    if nodes.len() < count {
        nodes.resize(count, FRESH)?;
    }
    Ok(())
}

/// Keeps this of the node of a number that has a place.
pub(crate) fn keep(nodes: &mut Vec<Kept>, number: u32, kept: Kept)
    requires { number < vec_len nodes.old }
    ensures { (n : ℕ) → kept_at nodes.new.items n
        ≡ (if number == n then kept else kept_at nodes.old.items n) }
{
    nodes[number as usize] = kept;
}

/// How many messages of a node were consumed since its last birth, and that, with this one.
fn used_with(used: u64, what: What<'_>) -> u64
    ensures { result ≡ (if is_node_birth (what_view what.entry) then 1 else capped (used + 1)) }
{
    match what {
        What::NodeBirth { .. } => 1,
        _ => used.saturating_add(1),
    }
}

/// An event is counted, whose node has a place.
pub(crate) fn count(nodes: &mut Vec<Kept>, event: &Event<'_>)
    requires { IfSome (node_of (event_view event.now)) (λ n. n.number < vec_len nodes.old) }
    ensures named { (n : ℕ) → (kept_at nodes.new.items n).is_named
        ≡ (kept_at nodes.old.items n).is_named }
    ensures counts { (es : List EventData)
        → ((n : ℕ) → (kept_at nodes.old.items n).used ≡ awaited n es)
        → (n : ℕ) → (kept_at nodes.new.items n).used ≡ awaited n (event_view event.now ∷ es) }
{
    if let Event::Consumed { node, what, .. } = event {
        let Kept { is_named, used } = kept_of(nodes, node.number);
        let used = used_with(used, *what);
        keep(nodes, node.number, Kept { is_named, used });
    }
}
