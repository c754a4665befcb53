//! What was handed of an edge node, and consumed of it.
ghost use Rattle.std.specs.Prelude.{IfOk};
ghost use Rattle.spk_plant_given.specs.Handed.{IsOfNode};

use crate::book::Book;
use crate::count::Sender;
use spk_ingress::Message;
use spk_plant_host::Given;
use std::alloc::{AllocError, Global};

/// What a host was handed of an edge node, at a moment: how many items its ring had brought by then.
#[derive(Clone, Copy, Debug, PartialEq, Eq)]
pub enum Handed {
    /// The message that the node published at this position, counted from 0.
    Message { position: usize, now: u64 },
    /// The death of this session, counted from 0.
    Death { session: u64, now: u64 },
}

/// What a host was handed of an edge node, and what it consumed of it.
#[derive(Debug, Drop)]
pub struct OfNode {
    /// What it was handed, oldest first. Behind each item of its ring a moment passed.
    pub given: Vec<Handed>,
    /// The positions of the messages that it consumed, oldest first.
    pub consumed: Vec<usize>,
}

/// What the host was handed of the edge node of these names, which is the sender at this place, and what it consumed of it: by the
/// frames that the broker took, the items that the host's ring brought, and how many frames had been taken when the ring took each.
pub fn of_node(
    alloc: Global,
    group: &str,
    name: &str,
    place: usize,
    taken: &[Message],
    accepted: &[usize],
    given: &[Given],
) -> Result<OfNode, AllocError>
    ensures { IfOk result
        (λ o. IsOfNode group.now name.now place taken.now accepted.now given.now o.given.items
        o.consumed.items) }
{
    let sender = Sender { group, name, place };
    let mut book = Book::new(alloc);
    for item in 0..given.len() {
        book.take_in(alloc, sender, taken, accepted, given, item, &given[item])?;
    }
    let Book {
        given,
        consumed,
        count: _count,
    } = book;
    Ok(OfNode { given, consumed })
}
