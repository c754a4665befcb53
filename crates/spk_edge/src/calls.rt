//! The calls of an edge node: changes, commands and drains are done at once, each other one plans its input and takes the plan up.
ghost use Rattle.std.specs.Prelude.{◌≡◌, ◌⊎◌, IfOk, IfErr, OnErr, OnOk, true, false};
ghost use Rattle.std.specs.Option.{option_map};
ghost use Rattle.spk_payload.specs.Typing.{typed_view};
ghost use Rattle.spk_packets.specs.View.{view};
ghost use Rattle.spk_edge_rules.specs.Arriving.{input_of};
ghost use Rattle.spk_edge_rules.specs.Inputs as inputs;
ghost use Rattle.spk_edge.specs.Patch as patch;
ghost use Rattle.spk_edge.specs.View.{input_view};

use crate::input::{Act, Input};
use crate::message::Out;
use crate::node::EdgeNode;
use crate::plan::{END, Taken};
use spk_device::Alias;
use spk_edge_rules::{EdgeFault, Phase};
use spk_packets::Packet;
use spk_payload::Value;

impl EdgeNode {
    /// Does what an input asks.
    fn tell(&mut self, input: Input<'_>) -> Result<Out, EdgeFault>
        ensures done { IfOk result (patch.IsDone self.old (input_view input.entry) self.new) }
        ensures refused { IfErr result (patch.IsRefusal self.old (input_view input.entry)) }
        ensures memory { IfErr result (patch.IsShort self.old (input_view input.entry)) }
        ensures err { OnErr result (self.new ≡ self.old) }
    {
        if let Act::Command(topic, payload) = input.act {
            return self.commanded(input.now, input.ack, topic, payload);
        }
        let plan = self.planned(input)?;
        Ok(self.take(plan).out)
    }

    /// Opens a connection: CONNECT, with the will of the next session. Taken when Idle.
    pub fn open(&mut self, now: u64) -> Result<Out, EdgeFault>
        ensures done { IfOk result (patch.IsDone self.old
            (patch.plain_input now inputs.Open) self.new) }
        ensures refused { IfErr result (patch.IsRefusal self.old
            (patch.plain_input now inputs.Open)) }
        ensures err { OnErr result (self.new ≡ self.old) }
    {
        self.tell(Input {
            now,
            ack: None,
            act: Act::Open,
        })
    }

    /// The server accepted: SUBSCRIBE, and the births where there is no primary host. Taken when Connecting.
    pub fn accepted(&mut self, now: u64) -> Result<Out, EdgeFault>
        ensures done { IfOk result (patch.IsDone self.old
            (patch.plain_input now inputs.Accepted) self.new) }
        ensures refused { IfErr result (patch.IsRefusal self.old
            (patch.plain_input now inputs.Accepted)) }
        ensures err { OnErr result (self.new ≡ self.old) }
    {
        self.tell(Input {
            now,
            ack: None,
            act: Act::Accepted,
        })
    }

    /// A metric has a value: one NDATA or DDATA when Born, else the change is kept. A value equal to the present one does
    /// nothing and takes no memory, and a change of a device that is down only sets the value. Taken in every phase.
    pub fn change(
        &mut self,
        now: u64,
        alias: Alias,
        value: &Option<Value>,
    ) -> Result<Out, EdgeFault>
        ensures done { IfOk result (patch.IsDone self.old
            (patch.plain_input now (inputs.Change alias
            (option_map typed_view value.now))) self.new) }
        ensures refused { IfErr result (patch.IsRefusal self.old
            (patch.plain_input now (inputs.Change alias (option_map typed_view value.now)))) }
        ensures memory { IfErr result (patch.IsShort self.old
            (patch.plain_input now (inputs.Change alias (option_map typed_view value.now)))) }
        ensures err { OnErr result (self.new ≡ self.old) }
    {
        if now >= END {
            return Err(EdgeFault::ClockEnd);
        }
        self.changed(now, alias, value)
    }

    /// A device is up or down: a DBIRTH or a DDEATH when Born. Nothing where it is so already. Taken in every phase.
    pub fn device(&mut self, now: u64, name: &str, up: bool) -> Result<Out, EdgeFault>
        ensures done { IfOk result (patch.IsDone self.old (patch.plain_input now
            (inputs.Turn name.now up)) self.new) }
        ensures refused { IfErr result (patch.IsRefusal self.old (patch.plain_input now
            (inputs.Turn name.now up))) }
        ensures err { OnErr result (self.new ≡ self.old) }
    {
        self.tell(Input {
            now,
            ack: None,
            act: Act::Device(name, up),
        })
    }

    /// A message on a topic of commands: the values to write, and the births again where a rebirth is asked for of a node
    /// that is Born. Done whole, or refused with BadCommand (62). Taken when Waiting or Born.
    pub fn command(&mut self, now: u64, topic: &str, payload: &[u8]) -> Result<Out, EdgeFault>
        ensures done { IfOk result (patch.IsDone self.old
            (patch.plain_input now (inputs.Command topic.now payload.now)) self.new) }
        ensures refused { IfErr result (patch.IsRefusal self.old
            (patch.plain_input now (inputs.Command topic.now payload.now))) }
        ensures err { OnErr result (self.new ≡ self.old) }
    {
        self.tell(Input {
            now,
            ack: None,
            act: Act::Command(topic, payload),
        })
    }

    /// A STATE of the primary host (Sparkplug 3.0.0, chapter 6), by its payload. Online gives the births of a Waiting
    /// node; offline ends the session of a Born one as `stop` does. One earlier than the last one heard says nothing, and
    /// a node without a primary host hears none. Refused with State (66) where it can't be read. Taken when Waiting or
    /// Born.
    pub fn state(&mut self, now: u64, payload: &[u8]) -> Result<Out, EdgeFault>
        ensures done { IfOk result (patch.IsDone self.old (patch.plain_input now
            (inputs.State payload.now)) self.new) }
        ensures refused { IfErr result (patch.IsRefusal self.old (patch.plain_input now
            (inputs.State payload.now))) }
        ensures err { OnErr result (self.new ≡ self.old) }
    {
        self.tell(Input {
            now,
            ack: None,
            act: Act::State(payload),
        })
    }

    /// Sends kept changes: those at the front that are of one owner, at most 32, as one message of historical metrics,
    /// each with the time of its change. Where one packet can't say all of these it says as many as it can; where not even
    /// the first one, that one is dropped, counts as lost, and nothing is given (own rule). Those of a device that is down
    /// are dropped, and count as lost. So a call takes at least one of the changes kept. Gives nothing where nothing is
    /// kept. Taken when Born. Its refusals are WrongPhase, ClockEnd and NoMemory: it is never TooLarge.
    pub fn drain(&mut self, now: u64) -> Result<Out, EdgeFault>
        ensures done { IfOk result (patch.IsDone self.old
            (patch.plain_input now inputs.Drain) self.new) }
        ensures refused { IfErr result (patch.IsRefusal self.old
            (patch.plain_input now inputs.Drain)) }
        ensures faults { IfErr result (λ e. (e ≡ EdgeFault.NoMemory)
            ⊎ ((e ≡ EdgeFault.WrongPhase) ⊎ (e ≡ EdgeFault.ClockEnd))) }
        ensures memory { IfErr result (patch.IsShort self.old
            (patch.plain_input now inputs.Drain)) }
        ensures err { OnErr result (self.new ≡ self.old) }
    {
        if self.tally.phase != Phase::Born {
            return Err(EdgeFault::WrongPhase);
        }
        if now >= END {
            return Err(EdgeFault::ClockEnd);
        }
        self.drained(now)
    }

    /// A packet of the server: `input_of` says which of the others it is, of which each has its own refusals. A PUBLISH of
    /// QoS 1 is acknowledged by the first packet, and not where it is refused. A CONNACK that doesn't accept closes a
    /// Connecting node. Any other packet is taken and gives nothing. PINGREQ is the caller's to send.
    pub fn packet(&mut self, now: u64, packet: &Packet) -> Result<Out, EdgeFault>
        ensures done { IfOk result (patch.IsDone self.old (input_of self.old.config now
            (view packet.now)) self.new) }
        ensures refused { IfErr result (patch.IsRefusal self.old (input_of self.old.config now
            (view packet.now))) }
        ensures memory { IfErr result (patch.IsShort self.old (input_of self.old.config now
            (view packet.now))) }
        ensures err { OnErr result (self.new ≡ self.old) }
    {
        self.tell(self.input_of(now, packet))
    }

    /// Ends the session in order: NDEATH, DISCONNECT. Taken when Waiting or Born.
    pub fn stop(&mut self, now: u64) -> Result<Out, EdgeFault>
        ensures done { IfOk result (patch.IsDone self.old
            (patch.plain_input now inputs.Stop) self.new) }
        ensures refused { IfErr result (patch.IsRefusal self.old
            (patch.plain_input now inputs.Stop)) }
        ensures err { OnErr result (self.new ≡ self.old) }
    {
        self.tell(Input {
            now,
            ack: None,
            act: Act::Stop,
        })
    }

    /// The connection is gone. Takes no memory.
    pub fn cut(&mut self)
        ensures { self.new ≡ patch.after_cut self.old }
    {
        self.tally.phase = Phase::Idle;
    }
}
