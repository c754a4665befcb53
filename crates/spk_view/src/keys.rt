//! Numbers by which entries are found, each in about one step unless someone picks them so that their chains meet.
ghost use Rattle.std.specs.Prelude.{◌≡◌, ◌<◌, ℕ, [], ◌∷◌, ◌++◌, Some, OnOk, OnErr, IfOk, length, slice_get};
ghost use Rattle.spk_view.specs.Keyed.{IsEnd, IsLastOf, chain_of, key_of_name, spread_of};

use std::alloc::{AllocError, Global};
use std::hash::{FoldHasher, Hasher};
use std::marker::Model;

/// The key of an entry, and how many entries stand up to the one before it in its chain: 0 where there is none.
#[derive(Clone, Copy, Drop)]
struct Link {
    key: u64,
    before: usize,
}

/// Keys in the order in which they were entered, in so many chains. Contracts see a `KeyList`.
#[derive(Drop)]
pub(crate) struct Keys {
    /// Of each chain how many entries stand up to its last: 0 where it has none.
    ends: Vec<usize>,
    links: Vec<Link>,
}

impl Model for Keys {
    ghost use Rattle.std.specs.Prelude.{length, map};
    ghost use Rattle.spk_view.specs.Keyed.{AreChained, KeyList, key_in};

    ghost Value = { KeyList };

    ghost view = { λ a. record { count = length a.ends.items; keys = map key_in a.links.items } };

    ghost invariant = { λ a. AreChained a.ends.items a.links.items };
}

/// The key of a name.
pub(crate) fn key_of_name(name: &str) -> u64
    ensures { result ≡ key_of_name name.now }
{
    let mut hasher = FoldHasher::default();
    hasher.write(name.as_bytes());
    hasher.finish()
}

/// A key's hash, its halves joined, as the kit's maps take places by it.
fn spread_of(key: u64) -> u64
    ensures { result ≡ spread_of key }
{
    let mut hasher = FoldHasher::default();
    hasher.write_u64(key);
    let hash = hasher.finish();
    (hash ^ (hash >> 32)) & 0xffff_ffff
}

/// The chain of a key, of so many.
fn chain_of(count: usize, key: u64) -> usize
    ensures { result ≡ chain_of count key }
{
    let chain = spread_of(key).wrapping_mul(count as u64) >> 32;
    (chain as usize).min(count.saturating_sub(1))
}

impl Keys {
    /// No keys, and no chains. Takes no memory.
    pub(crate) fn new(alloc: Global) -> Keys
        ensures { result.keys ≡ [] }
    {
        Keys {
            ends: Vec::new(alloc),
            links: Vec::new(alloc),
        }
    }

    /// No keys, with room for so many, in as many chains.
    pub(crate) fn with_room(alloc: Global, count: usize) -> Result<Keys, AllocError>
        ensures { IfOk result (λ made. made.keys ≡ []) }
    {
        Ok(Keys {
            ends: Vec::from_elem(alloc, 0, count)?,
            links: Vec::with_capacity(alloc, count)?,
        })
    }

    /// How many keys stand up to the last one of the chain of a key: 0 where it has none.
    fn end(&self, key: u64) -> usize
        ensures { IsEnd self.now.count self.now.keys (length self.now.keys)
            (chain_of self.now.count key) result }
    {
        let chain = chain_of(self.ends.len(), key);
        if chain < self.ends.len() {
            self.ends[chain]
        } else {
            self.links.len()
        }
    }

    /// The last place of a key among the first `count`, from so many on that reach up to the last one of its chain there.
    fn seek(&self, count: usize, key: u64, from: usize) -> Option<usize>
        requires { IsEnd self.now.count self.now.keys count (chain_of self.now.count key) from }
        ensures { IsLastOf self.now.keys count key result }
    {
        let mut end = from;
        while end > 0 {
            let link = self.links[end - 1];
            if link.key == key {
                return Some(end - 1);
            }
            end = link.before;
        }
        None
    }

    /// The last place of a key.
    pub(crate) fn last(&self, key: u64) -> Option<usize>
        ensures { IsLastOf self.now.keys (length self.now.keys) key result }
    {
        self.seek(self.links.len(), key, self.end(key))
    }

    /// The last place of the key at a place, before it.
    pub(crate) fn before(&self, place: usize) -> Option<usize>
        requires { place < length self.now.keys }
        ensures { (key : ℕ) → slice_get self.now.keys place ≡ Some key
            → IsLastOf self.now.keys place key result }
    {
        let link = self.links[place];
        self.seek(place, link.key, link.before)
    }

    /// One more key.
    pub(crate) fn push(&mut self, key: u64) -> Result<(), AllocError>
        ensures ok { OnOk result (self.new.keys ≡ self.old.keys ++ key ∷ []) }
        ensures err { OnErr result (self.new ≡ self.old) }
    {
        let chain = chain_of(self.ends.len(), key);
        let before = self.end(key);
        self.links.push(Link { key, before })?;
        if chain < self.ends.len() {
            self.ends[chain] = self.links.len();
        }
        Ok(())
    }
}
