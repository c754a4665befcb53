//! A message with what it will show.
ghost use Rattle.std.specs.Prelude.{◌≡◌, IfOk};
ghost use Rattle.spk_reading.specs.View.{numbered_view};
ghost use Rattle.spk_view.specs.Prepared.{prepared};
ghost use Rattle.spk_host_node.specs.Step.{message_of};

use spk_reading::{Numbered, Subject};
use spk_view::Ready;
use std::alloc::{AllocError, Global};
use std::marker::Model;

#[derive(Drop)]
struct Parts {
    message: Numbered,
    ready: Ready,
}

/// A message of a node, made ready to be shown. Contracts see the message.
#[derive(Drop)]
pub(crate) struct Kept {
    parts: Box<Parts>,
}

impl Model for Kept {
    ghost use Rattle.std.specs.Prelude.{◌≡◌};
    ghost use Rattle.spk_reading.specs.Data.{NumberedData};
    ghost use Rattle.spk_reading.specs.View.{numbered_view};
    ghost use Rattle.spk_view.specs.Prepared.{prepared};
    ghost use Rattle.spk_host_node.specs.Step.{message_of};

    ghost Value = { NumberedData };

    ghost view = { λ k. numbered_view k.parts.value.message };

    ghost invariant = { λ k. k.parts.value.ready
        ≡ prepared (message_of (numbered_view k.parts.value.message)) };
}

/// What a message will show.
pub(crate) fn ready_of(alloc: Global, message: &Numbered) -> Result<Ready, AllocError>
    ensures { IfOk result (λ r. r ≡ prepared (message_of (numbered_view message.now))) }
{
    let metrics = &message.payload.metrics;
    match &message.subject {
        Subject::NodeBirth => Ready::node_birth(alloc, metrics),
        Subject::NodeData => Ready::node_data(alloc, metrics),
        Subject::DeviceBirth(device) => Ready::device_birth(alloc, device.as_str(), metrics),
        Subject::DeviceData(device) => Ready::device_data(alloc, device.as_str(), metrics),
        Subject::DeviceDeath(device) => Ready::device_death(alloc, device.as_str()),
    }
}

impl Kept {
    /// A message, made ready. Refused only where memory is.
    pub(crate) fn new(alloc: Global, message: Numbered) -> Result<Kept, AllocError>
        ensures { IfOk result (λ k. k ≡ numbered_view message) }
    {
        let ready = ready_of(alloc, &message)?;
        let parts = Box::new(alloc, Parts { message, ready })?;
        Ok(Kept { parts })
    }

    /// The message, and what it shows.
    pub(crate) fn open(self) -> (Numbered, Ready)
        ensures message { numbered_view result.0 ≡ self }
        ensures ready { result.1 ≡ prepared (message_of self) }
    {
        let Parts { message, ready } = Box::into_inner(self.parts);
        (message, ready)
    }
}
