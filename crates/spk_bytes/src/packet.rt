//! The bytes of a packet, in one piece, or as a head of its own and a body that others share.
ghost use Rattle.std.specs.Prelude.{◌≡◌, ◌≤◌, ◌++◌, IfOk, drop, length, nat_eq, slice_get};
ghost use Rattle.std.specs.Cmp.Lexicographic.{pointwise};
ghost use Rattle.std.specs.Cow.{cow_slice_items};

use crate::piece::Piece;
use std::alloc::{AllocError, Global};
use std::borrow::CowSlice;
use std::marker::Model;
use std::sync::ArcSlice;

/// A head of its own, and the body behind it.
#[derive(Debug, Drop)]
struct Headed {
    head: Vec<u8>,
    body: Piece,
}

/// How the bytes lie. A head and a body stand apart, so that a packet in one piece takes no more room than that piece.
#[derive(Debug, Drop)]
enum Laid {
    Alone(Vec<u8>),
    Together(ArcSlice<u8>),
    Headed(Box<Headed>),
}

/// The bytes of a packet. Contracts see them as a list of numbers, however they lie.
#[derive(Debug, Drop)]
pub struct Bytes {
    laid: Laid,
}

impl Model for Bytes {
    ghost use Rattle.std.specs.Prelude.{ℕ, List};
    ghost use Rattle.spk_bytes.specs.Packet.{laid_items};

    ghost Value = { List ℕ };

    ghost view = { λ b. laid_items b.laid };
}

impl Bytes {
    /// These bytes. It takes no memory.
    pub fn new(bytes: Vec<u8>) -> Bytes
        ensures { result ≡ bytes.items }
    {
        Bytes {
            laid: Laid::Alone(bytes),
        }
    }

    /// These bytes, so that `share` copies none of them.
    pub fn shared(bytes: Vec<u8>) -> Result<Bytes, AllocError>
        ensures { IfOk result (λ b. b ≡ bytes.items) }
    {
        Ok(Bytes {
            laid: Laid::Together(ArcSlice::from_vec(bytes)?),
        })
    }

    /// A head and the body behind it, which others may share. Neither is copied; refused only where memory for the two is.
    pub fn headed(alloc: Global, head: Vec<u8>, body: Piece) -> Result<Bytes, AllocError>
        ensures { IfOk result (λ b. b ≡ head.items ++ body) }
    {
        Ok(Bytes {
            laid: Laid::Headed(Box::new(alloc, Headed { head, body })?),
        })
    }

    /// The same bytes for one more holder. A head is copied, and so is what is of one owner.
    pub fn share(&self) -> Result<Bytes, AllocError>
        ensures { IfOk result (λ b. b ≡ self.now) }
    {
        match &self.laid {
            Laid::Alone(bytes) => Ok(Bytes::new(bytes.clone()?)),
            Laid::Together(bytes) => Ok(Bytes {
                laid: Laid::Together(bytes.clone()?),
            }),
            Laid::Headed(both) => {
                let head = both.head.clone()?;
                Bytes::headed(*head.allocator(), head, both.body.share()?)
            }
        }
    }

    /// The bytes, lent, in two pieces of which the second stands behind the first. Where they lie in one piece the second is empty.
    pub fn parts(&self) -> (&[u8], &[u8])
        ensures { result.0.now ++ result.1.now ≡ self.now }
    {
        match &self.laid {
            Laid::Alone(bytes) => (bytes.as_slice(), &[]),
            Laid::Together(bytes) => (bytes.as_slice(), &[]),
            Laid::Headed(both) => (both.head.as_slice(), both.body.as_slice()),
        }
    }

    /// What stands behind the first so many bytes, lent, in two pieces as they lie. Behind more than there are stands nothing.
    pub fn behind(&self, start: usize) -> (&[u8], &[u8])
        ensures { result.0.now ++ result.1.now ≡ drop start self.now }
    {
        let (head, body) = self.parts();
        if start <= head.len() {
            return (&head[start..], body);
        }
        let past = (start - head.len()).min(body.len());
        (&[], &body[past..])
    }

    /// How many bytes these are.
    pub fn len(&self) -> usize
        ensures { result ≡ length self.now }
    {
        let (head, body) = self.parts();
        head.len() + body.len()
    }

    /// The first byte. None exactly where there are none.
    pub fn first(&self) -> Option<u8>
        ensures { result ≡ slice_get self.now 0 }
    {
        let (head, body) = self.parts();
        match head.first() {
            Some(first) => Some(*first),
            None => body.first().copied(),
        }
    }

    /// The bytes in one piece: lent where they lie so, else copied. Refused only where memory is.
    pub fn joined(&self, alloc: Global) -> Result<CowSlice<'_, u8, Global>, AllocError>
        ensures { IfOk result (λ s. cow_slice_items s ≡ self.now) }
    {
        let (head, body) = self.parts();
        if body.is_empty() {
            return Ok(CowSlice::Borrowed(head));
        }
        let mut whole = Vec::with_capacity(alloc, self.len())?;
        whole.extend_from_slice(head)?;
        whole.extend_from_slice(body)?;
        Ok(CowSlice::Owned(whole))
    }
}

/// Whether these bytes are those of two pieces.
fn is_joined(whole: &[u8], head: &[u8], body: &[u8]) -> bool
    ensures { result ≡ pointwise nat_eq whole.now (head.now ++ body.now) }
{
    if whole.len() < head.len() {
        return false;
    }
    let (front, rest) = whole.split_at(head.len());
    front == head && rest == body
}

/// The same where the first head is no longer than the second.
fn are_same(head: &[u8], body: &[u8], other_head: &[u8], other_body: &[u8]) -> bool
    requires { length head.now ≤ length other_head.now }
    ensures { result ≡ pointwise nat_eq (head.now ++ body.now) (other_head.now ++ other_body.now) }
{
    let (front, rest) = other_head.split_at(head.len());
    head == front && is_joined(body, rest, other_body)
}

impl PartialEq for Bytes {
    ghost use Rattle.std.specs.Prelude.{nat_eq};
    ghost use Rattle.std.specs.Cmp.{partial_equiv_from_equiv};
    ghost use Rattle.std.specs.Cmp.Lexicographic.{nat_list_eq_equiv, pointwise};

    ghost eq = { pointwise nat_eq };

    ghost laws = { partial_equiv_from_equiv nat_list_eq_equiv };

    fn eq(&self, other: &Bytes) -> bool {
        let (head, body) = self.parts();
        let (other_head, other_body) = other.parts();
        if head.len() <= other_head.len() {
            return are_same(head, body, other_head, other_body);
        }
        are_same(other_head, other_body, head, body)
    }
}
