//! What is kept while the items are gone through.
ghost use Rattle.std.specs.Prelude.{[], ◌≡◌, ◌+◌, ◌++◌, ◌<◌, ◌^◌, length, get_or, OnOk, Some};
ghost use Rattle.std.specs.List.{range_with_len, slice_get};
ghost use Rattle.spk_plant_given.specs.Steps.{Follows};
ghost use Rattle.spk_plant_given.specs.Part as parts;
ghost use Rattle.spk_plant_given.specs.declared.part.Part.TheVariants as part;
ghost use Rattle.spk_plant_host.specs.Told.{heard_in};

use crate::count::{Count, Sender};
use crate::handed::Handed;
use crate::part::{Part, part_of};
use spk_ingress::Message;
use spk_plant_host::Given;
use std::alloc::{AllocError, Global};

/// What was handed and consumed of the node so far, and how many of its numbered messages were counted.
#[derive(Drop)]
pub(crate) struct Book {
    pub(crate) given: Vec<Handed>,
    pub(crate) consumed: Vec<usize>,
    pub(crate) count: Count,
}

/// How many frames had been taken when the ring took its item of this place.
fn frames_at(accepted: &[usize], place: usize) -> usize
    ensures { result ≡ get_or accepted.now place 0 }
{
    match accepted.get(place) {
        Some(frames) => *frames,
        None => 0,
    }
}

/// How many messages the host consumed at an item.
fn consumed_at(item: &Given) -> usize
    ensures { result ≡ length item.now.consumed.items }
{
    item.consumed.len()
}

/// So many positions behind those that are there, from this one on.
fn add_run(positions: &mut Vec<usize>, first: usize, count: usize) -> Result<(), AllocError>
    requires { first + count < 2 ^ 64 }
    ensures { OnOk result
        (positions.new.items ≡ positions.old.items ++ range_with_len first count) }
{
    for more in 0..count {
        positions.push(first + more)?;
    }
    Ok(())
}

impl Book {
    /// Of no items.
    pub(crate) fn new(alloc: Global) -> Book
        ensures { (result.given.items ≡ []) × (result.consumed.items ≡ [])
            × (result.count.frames ≡ 0) × (result.count.numbered ≡ 0) }
    {
        Book {
            given: Vec::new(alloc),
            consumed: Vec::new(alloc),
            count: Count {
                frames: 0,
                numbered: 0,
            },
        }
    }

    /// The item of this place is a message of the node.
    fn take_message(
        &mut self,
        alloc: Global,
        sender: Sender<'_>,
        taken: &[Message],
        accepted: &[usize],
        given: &[Given],
        place: usize,
        item: &Given,
    ) -> Result<(), AllocError>
        requires there { slice_get given.now place ≡ Some item.now }
        requires message { parts.part_of sender.group.now sender.name.now (heard_in item.now)
            ≡ part.Message }
        requires follows { Follows sender.group.now sender.name.now sender.place taken.now
            accepted.now given.now place self.old }
        ensures follows { OnOk result (Follows sender.entry.group.now sender.entry.name.now sender.entry.place
            taken.now accepted.now given.now (place + 1) self.new) }
    {
        let frames = frames_at(accepted, place);
        let count = sender.count_to(alloc, taken, self.count, frames)?;
        self.count = count;
        let position = count.numbered.saturating_sub(1);
        self.given.push(Handed::Message {
            position,
            now: (place + 1) as u64,
        })?;
        add_run(&mut self.consumed, position, consumed_at(item))?;
        Ok(())
    }

    /// The item of this place is the node's NDEATH, with this bdSeq.
    fn take_death(
        &mut self,
        sender: Sender<'_>,
        taken: &[Message],
        accepted: &[usize],
        given: &[Given],
        place: usize,
        item: &Given,
        bd: u8,
    ) -> Result<(), AllocError>
        requires there { slice_get given.now place ≡ Some item.now }
        requires death { parts.part_of sender.group.now sender.name.now (heard_in item.now)
            ≡ part.Death bd }
        requires follows { Follows sender.group.now sender.name.now sender.place taken.now
            accepted.now given.now place self.old }
        ensures follows { OnOk result (Follows sender.entry.group.now sender.entry.name.now sender.entry.place
            taken.now accepted.now given.now (place + 1) self.new) }
    {
        self.given.push(Handed::Death {
            session: u64::from(bd),
            now: (place + 1) as u64,
        })?;
        Ok(())
    }

    /// Goes on with the item of this place.
    pub(crate) fn take_in(
        &mut self,
        alloc: Global,
        sender: Sender<'_>,
        taken: &[Message],
        accepted: &[usize],
        given: &[Given],
        place: usize,
        item: &Given,
    ) -> Result<(), AllocError>
        requires there { slice_get given.now place ≡ Some item.now }
        requires follows { Follows sender.group.now sender.name.now sender.place taken.now
            accepted.now given.now place self.old }
        ensures follows { OnOk result (Follows sender.entry.group.now sender.entry.name.now sender.entry.place
            taken.now accepted.now given.now (place + 1) self.new) }
    {
        match part_of(&item.heard, sender.group, sender.name) {
            Part::Message => self.take_message(alloc, sender, taken, accepted, given, place, item),
            Part::Death(bd) => self.take_death(sender, taken, accepted, given, place, item, bd),
            Part::Nothing => Ok(()),
        }
    }
}
