//! What is to be written of a history that rolls over by size.
ghost use Rattle.std.specs.Prelude.{◌≡◌, ◌≤◌, ◌<◌, ◌^◌, ◌⊎◌, ◌++◌, [], ◌∷◌, ℕ, List, drop, take, length, false, true, IfErr, IfNone, IfOk, IfSome, OnErr, OnOk, vec_capacity, vec_len, ◌+◌};
ghost use Rattle.spk_history.specs.Entry.{EntryData, said};
ghost use Rattle.spk_history.specs.Fault.{IsRefusedFor};
ghost use Rattle.spk_history.specs.File.{records_of};
ghost use Rattle.spk_history.specs.Parts.{AreNamed, IsNotFound, IsNotPut, PartsData, Stands, is_full, is_over, named};
ghost use Rattle.spk_history.specs.Record.{IsEntry, record_of};

use crate::entry::Entry;
use crate::fault::HistoryFault;
use crate::reading::HEAD;
use crate::size::content_size;
use crate::write::{append, put};
use std::alloc::{AllocError, Global};
use std::fmt;
use std::marker::Model;

/// What is to be written behind what stands in the part, and what the next part begins with.
#[derive(Drop)]
pub struct Parts {
    most: usize,
    /// The records of the nodes that were named.
    nodes: Vec<u8>,
    /// What is to be written, behind what was written.
    bytes: Vec<u8>,
    /// How many of those were written.
    done: usize,
    len: usize,
    has_record: bool,
}

impl fmt::Debug for Parts {
    fn fmt<W: fmt::Write>(&self, f: &mut fmt::Formatter<W>) -> fmt::Result {
        f.write_str("Parts { .. }")
    }
}

impl Model for Parts {
    ghost use Rattle.std.specs.Prelude.{◌≤◌, drop, length};
    ghost use Rattle.spk_history.specs.Parts.{PartsData};

    ghost Value = { PartsData };

    ghost view = { λ p. record {
      most = p.most;
      nodes = p.nodes.items;
      unwritten = drop p.done p.bytes.items;
      len = p.len;
      has_record = p.has_record;
    } };

    ghost invariant = { λ p. p.done ≤ length p.bytes.items };
}

/// How many bytes a part has with a record of this size, if it isn't full for that.
fn len_with(len: usize, size: usize, most: usize, has_record: bool) -> Option<usize>
    ensures some { IfSome result (λ n. (n ≡ len + size) × (is_over len size most has_record ≡ false)) }
    ensures none { IfNone result (is_over len size most has_record ≡ true) }
{
    let with = len.checked_add(size)?;
    if has_record && with > most {
        return None;
    }
    Some(with)
}

/// Makes room for the record of an entry, of this size, if it names a node.
#[tactic(auto, using(spk_frames::proofs::Lengths::lengths))]
fn reserve_named(nodes: &mut Vec<u8>, entry: &Entry, size: usize) -> Result<(), AllocError>
    requires { size ≡ length (record_of (said entry.now)) }
    ensures items { nodes.new.items ≡ nodes.old.items }
    ensures room { OnOk result (vec_len nodes.new + length (records_of (named (said entry.now)))
        ≤ vec_capacity nodes.new) }
{
    match entry {
        Entry::Node { .. } => nodes.reserve(size),
        _ => Ok(()),
    }
}

/// Puts the record of an entry behind those of the nodes, if it names one.
fn put_named(nodes: &mut Vec<u8>, entry: &Entry, spelled: &[u8])
    requires is { spelled.now ≡ record_of (said entry.now) }
    requires room { vec_len nodes.old + length (records_of (named (said entry.now)))
        ≤ vec_capacity nodes.old }
    ensures { nodes.new.items ≡ nodes.old.items ++ records_of (named (said entry.now)) }
{
    match entry {
        Entry::Node { .. } => put(nodes, spelled),
        _ => {}
    }
}

/// Appends the record of an entry to those of the nodes, if it names one.
fn append_named(nodes: &mut Vec<u8>, entry: &Entry) -> Result<(), HistoryFault>
    ensures put { OnOk result
        (nodes.new.items ≡ nodes.old.items ++ records_of (named (said entry.now))) }
    ensures refused { IfErr result (λ e. IsRefusedFor (said entry.now) e) }
    ensures err { OnErr result (nodes.new.items ≡ nodes.old.items) }
{
    match entry {
        Entry::Node { .. } => append(entry, nodes),
        _ => Ok(()),
    }
}

impl Parts {
    /// The first part begins, of this many bytes at most: its head is to be written. Refused only where memory is.
    pub fn new(alloc: Global, most: usize) -> Result<Parts, HistoryFault>
        ensures stands { IfOk result (Stands [] []) }
        ensures none { IfOk result (λ p. AreNamed p []) }
        ensures most { IfOk result (λ p. p.most ≡ most) }
        ensures record { IfOk result (λ p. p.has_record ≡ false) }
        ensures refused { IfErr result (λ e. e ≡ HistoryFault.NoMemory) }
    {
        Ok(Parts {
            most,
            nodes: Vec::new(alloc),
            bytes: Vec::from_slice(alloc, HEAD)?,
            done: 0,
            len: HEAD.len(),
            has_record: false,
        })
    }

    /// What is to be written behind what stands in the part.
    pub fn unwritten(&self) -> &[u8]
        ensures { result.now ≡ self.now.unwritten }
    {
        &self.bytes[self.done..]
    }

    /// This many bytes of it stand in the part now: all, where there are fewer.
    pub fn written(&mut self, count: usize)
        ensures rest { self.new ≡ record self.old { unwritten = drop count self.old.unwritten } }
        ensures stands { (part : List ℕ) (entries : List EntryData) → Stands part entries self.old
            → Stands (part ++ take count self.old.unwritten) entries self.new }
    {
        let left = self.bytes.len() - self.done;
        if count < left {
            self.done += count;
        } else {
            self.bytes.clear();
            self.done = 0;
        }
    }

    /// Puts the record of an entry behind what is to be written. Refused as `append` says, and else with FullPart (125) where the part has a record
    /// and would pass its most bytes; then, and where memory is refused, nothing has changed.
    pub fn put(&mut self, entry: &Entry) -> Result<(), HistoryFault>
        ensures stands { OnOk result ((part : List ℕ) (entries : List EntryData)
            → Stands part entries self.old → Stands part (entries ++ said entry.now ∷ []) self.new) }
        ensures named { OnOk result ((nodes : List EntryData) → AreNamed self.old nodes
            → AreNamed self.new (nodes ++ named (said entry.now))) }
        ensures record { OnOk result (self.new.has_record ≡ true) }
        ensures most { OnOk result (self.new.most ≡ self.old.most) }
        ensures fits { OnOk result (IsEntry (said entry.now)) }
        ensures not_full { OnOk result (is_full self.old (said entry.now) ≡ false) }
        ensures refused { IfErr result (λ e. IsNotPut self.old (said entry.now) e) }
        ensures err { OnErr result (self.new ≡ self.old) }
    {
        let size = content_size(entry)? + 8;
        let Some(len) = len_with(self.len, size, self.most, self.has_record) else {
            return Err(HistoryFault::FullPart);
        };
        reserve_named(&mut self.nodes, entry, size)?;
        let before = self.bytes.len();
        append(entry, &mut self.bytes)?;
        put_named(&mut self.nodes, entry, &self.bytes[before..]);
        self.len = len;
        self.has_record = true;
        Ok(())
    }

    /// The record of this entry stands in the part already, behind those before: to go on with a part, each of its entries is told, once its head is
    /// `written`. Refused as `append` says, and else with FullPart (125) where no number counts the part's bytes; then, and where memory is refused,
    /// nothing has changed.
    pub fn found(&mut self, entry: &Entry) -> Result<(), HistoryFault>
        ensures stands { OnOk result ((part : List ℕ) (entries : List EntryData)
            → IsEntry (said entry.now) → self.old.unwritten ≡ [] → Stands part entries self.old
            → Stands (part ++ record_of (said entry.now)) (entries ++ said entry.now ∷ []) self.new) }
        ensures named { OnOk result ((nodes : List EntryData) → IsEntry (said entry.now)
            → AreNamed self.old nodes → AreNamed self.new (nodes ++ named (said entry.now))) }
        ensures record { OnOk result (self.new.has_record ≡ true) }
        ensures most { OnOk result (self.new.most ≡ self.old.most) }
        ensures unwritten { OnOk result (self.new.unwritten ≡ self.old.unwritten) }
        ensures refused { IfErr result (λ e. IsNotFound self.old (said entry.now) e) }
        ensures err { OnErr result (self.new ≡ self.old) }
    {
        let size = content_size(entry)? + 8;
        let Some(all) = len_with(self.len, size, self.most, false) else {
            return Err(HistoryFault::FullPart);
        };
        append_named(&mut self.nodes, entry)?;
        self.len = all;
        self.has_record = true;
        Ok(())
    }

    /// The next part begins: its head and the nodes that were named are to be written. Refused with Unwritten (126) where something is still to be
    /// written of the part before; then, and where memory is refused, nothing has changed.
    pub fn roll(&mut self) -> Result<(), HistoryFault>
        ensures stands { OnOk result ((nodes : List EntryData) → AreNamed self.old nodes
            → Stands [] nodes self.new) }
        ensures named { OnOk result (self.new.nodes ≡ self.old.nodes) }
        ensures record { OnOk result (self.new.has_record ≡ false) }
        ensures most { OnOk result (self.new.most ≡ self.old.most) }
        ensures all { OnOk result (self.old.unwritten ≡ []) }
        ensures refused { IfErr result (λ e. (e ≡ HistoryFault.NoMemory)
            ⊎ ((e ≡ HistoryFault.Unwritten) × (0 < length self.old.unwritten))) }
        ensures err { OnErr result (self.new ≡ self.old) }
    {
        if self.done < self.bytes.len() {
            return Err(HistoryFault::Unwritten);
        }
        self.bytes.clear();
        self.done = 0;
        self.bytes.reserve(HEAD.len() + self.nodes.len())?;
        put(&mut self.bytes, HEAD);
        put(&mut self.bytes, &self.nodes);
        self.len = self.bytes.len();
        self.has_record = false;
        Ok(())
    }
}
