//! Fields, and the iterator over those of a text.

ghost use Rattle.std.specs.Prelude.{◌≡◌, ◌↔◌, ◌++◌, ℕ, map, List, Result, Ok};

use crate::fault::WireFault;
use crate::reading::field_at;

/// The value of a field, by its wire type. It lends the bytes that it was read from.
#[derive(Clone, Copy, Debug, PartialEq, Eq)]
pub enum Wire<'a> {
    /// Wire type 0: a number. Of a longer one the low 64 bits.
    Varint(u64),
    /// Wire type 1: eight bytes, as they stand.
    Eight([u8; 8]),
    /// Wire type 2: as many bytes as their length said.
    Bytes(&'a [u8]),
    /// Wire type 5: four bytes, as they stand.
    Four([u8; 4]),
}

/// A field: its number, from 1 to 2^61 - 1, and its value.
#[derive(Clone, Copy, Debug, PartialEq, Eq)]
pub struct Field<'a> {
    pub number: u64,
    pub wire: Wire<'a>,
}

/// The fields of a text, one after the other. Takes no memory.
///
/// Where the text goes wrong it gives the fault, the first from left to right, and after a fault, as after the
/// last field, `None` for good.
#[derive(Clone, Copy, Debug)]
pub struct Fields<'a> {
    pub(crate) rest: &'a [u8],
}

impl<'a> Fields<'a> {
    ghost use Rattle.spk_protobuf.specs.declared.fault.WireFault.{WireFault};
    ghost use Rattle.spk_protobuf.specs.Grammar.{Entry, FieldList};
    ghost use Rattle.spk_protobuf.specs.Faults.{AreItems};
    ghost use Rattle.spk_protobuf.specs.View.{items_left};

    /// The fields of this text (protobuf encoding, "Message Structure").
    pub fn new(text: &'a [u8]) -> Fields<'a>
        // What it gives are the items of the text: its fields, and then the first fault, if there is one.
        ensures items { AreItems text.now (items_left result) }
        // No other list is that.
        ensures only { (items : List (Result Entry WireFault)) → AreItems text.now items
            → items ≡ items_left result }
        // Without a fault it is the field list of the text, which a text has exactly then.
        ensures fields { (fs : List Entry) → FieldList text.now fs
            ↔ (items_left result ≡ map Ok fs) }
        // The fields of each front of the text come first.
        ensures fronts { (front rest : List ℕ) (fs : List Entry) → text.now ≡ front ++ rest
            → FieldList front fs → (others : _) × (items_left result ≡ map Ok fs ++ others) }
    {
        Fields { rest: text }
    }
}

impl<'a> Iterator for Fields<'a> {
    ghost use Rattle.std.specs.Iterator.{YieldsFirstBy, item_count};
    ghost use Rattle.spk_protobuf.specs.View.{item_of, items_left};

    type Item = Result<Field<'a>, WireFault>;

    ghost next_gives = { YieldsFirstBy item_of items_left };

    ghost remaining = { item_count items_left };

    #[inline(always)]
    fn next(&mut self) -> Option<Result<Field<'a>, WireFault>> {
        if self.rest.is_empty() {
            return None;
        }
        match field_at(self.rest) {
            Ok((field, rest)) => {
                self.rest = rest;
                Some(Ok(field))
            }
            Err(fault) => {
                self.rest = &[];
                Some(Err(fault))
            }
        }
    }
}
