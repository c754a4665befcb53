//! What an edge node was told, kept.
ghost use Rattle.std.specs.Prelude.{◌≡◌, IfOk};
ghost use Rattle.std.specs.Option.{option_map};
ghost use Rattle.spk_payload.specs.Typing.{typed_view};
ghost use Rattle.spk_edge.specs.View.{act_view, input_view};
ghost use Rattle.spk_plant_edge.specs.Told.{told_act, told_view};

use spk_device::Alias;
use spk_edge::{Act, Input};
use spk_payload::Value;
use std::alloc::{AllocError, Global};

/// What an edge node was asked to do, or told, as `Act` of `spk_edge` says it, with texts of its own.
#[derive(Debug, PartialEq, Drop)]
pub enum ToldAct {
    /// A connection was to be opened.
    Open,
    /// The server accepted it.
    Accepted,
    /// A metric, by its alias, has a value.
    Change(Alias, Option<Value>),
    /// A device, by its name, is up or down.
    Device(String, bool),
    /// A message on a topic of commands: its topic and its payload.
    Command(String, Vec<u8>),
    /// A message on the topic of the primary host's STATE: its payload.
    State(Vec<u8>),
    /// Kept changes were to be sent.
    Drain,
    /// The session was to be ended in order.
    Stop,
    /// The connection is gone.
    Cut,
    /// The server didn't accept the connection.
    TurnedAway,
    /// A packet that asks for nothing.
    Pass,
}

/// An act at a moment, in milliseconds since 1970, and the identifier of the message that brought it, where that was to be
/// acknowledged. A cut has the moment 0. An input that the node refused stands as well.
#[derive(Debug, PartialEq, Drop)]
pub struct Told {
    pub now: u64,
    pub ack: Option<u16>,
    pub act: ToldAct,
}

/// A copy of a value.
fn copied(alloc: Global, value: &Option<Value>) -> Result<Option<Value>, AllocError>
    ensures { IfOk result (λ v. option_map typed_view v ≡ option_map typed_view value.now) }
{
    match value {
        Some(value) => Ok(Some(value.copy(alloc)?)),
        None => Ok(None),
    }
}

/// A copy of an act.
fn told_of(alloc: Global, act: Act<'_>) -> Result<ToldAct, AllocError>
    ensures { IfOk result (λ t. told_act t ≡ act_view act.entry) }
{
    match act {
        Act::Open => Ok(ToldAct::Open),
        Act::Accepted => Ok(ToldAct::Accepted),
        Act::Change(alias, value) => Ok(ToldAct::Change(alias, copied(alloc, value)?)),
        Act::Device(name, up) => Ok(ToldAct::Device(String::from_str(alloc, name)?, up)),
        Act::Command(topic, payload) => Ok(ToldAct::Command(
            String::from_str(alloc, topic)?,
            Vec::from_slice(alloc, payload)?,
        )),
        Act::State(payload) => Ok(ToldAct::State(Vec::from_slice(alloc, payload)?)),
        Act::Drain => Ok(ToldAct::Drain),
        Act::Stop => Ok(ToldAct::Stop),
        Act::Cut => Ok(ToldAct::Cut),
        Act::TurnedAway => Ok(ToldAct::TurnedAway),
        Act::Pass => Ok(ToldAct::Pass),
    }
}

impl Told {
    /// A copy of an input.
    pub(crate) fn of(alloc: Global, input: Input<'_>) -> Result<Told, AllocError>
        ensures { IfOk result (λ t. told_view t ≡ input_view input.entry) }
    {
        Ok(Told {
            now: input.now,
            ack: input.ack,
            act: told_of(alloc, input.act)?,
        })
    }
}
