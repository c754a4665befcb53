//! A host application.
ghost use Rattle.std.specs.Prelude.{◌≡◌, ◌⊎◌, ℕ, List, [], ◌∷◌, true, false, All, map, is_some, IfOk, IfErr, OnOk, OnErr, Ok, Err, None, Some, if◌then◌else◌, ◌==◌};
ghost use Rattle.std.specs.List.{find};
ghost use Rattle.std.specs.Option.{option_copied, option_map};
ghost use Rattle.spk_reading.specs.Data.{HeardData};
ghost use Rattle.spk_reading.specs.Meaning.{IsReadFault, Says};
ghost use Rattle.spk_reading.specs.View.{content_view, heard_view, numbered_view};
ghost use Rattle.spk_reading.specs.declared.fault.ReadFault.{ReadFault};
ghost use Rattle.spk_sequence.specs.Calls.{Hand, Death};
ghost use Rattle.spk_sequence.specs.Losses.{Called};
ghost use Rattle.spk_host_session.specs.Answer.{Gives, spelled};
ghost use Rattle.spk_host_session.specs.Data.{is_good};
ghost use Rattle.spk_host_session.specs.Packets.{IsPacket};
ghost use Rattle.spk_host_session.specs.Step as session;
ghost use Rattle.spk_host_session.specs.View.{config_view};
ghost use Rattle.spk_host.specs.Data as plain;
ghost use Rattle.spk_host.specs.Inputs as calls;
ghost use Rattle.spk_host.specs.Losses.{losing, node_loss, packet_loss};
ghost use Rattle.spk_host.specs.Nodes.{is_of, node_or};
ghost use Rattle.spk_host.specs.Step as step;
ghost use Rattle.spk_host.specs.View.{AreWhole, fault_of, out_view};

use crate::entry::Entry;
use crate::messages::acknowledged;
use crate::nodes::Nodes;
use crate::out::Out;
use spk_host_session::{HostConfig, HostFault, HostSession};
use spk_reading::{Content, Heard, Numbered, ReadFault, read};
use spk_sequence::{Loss, Match, Phase};
use spk_view::NodeView;
use std::alloc::{AllocError, Global};
use std::fmt;
use std::marker::Model;

/// A host application (Sparkplug 3.0.0, chapter 5): its session with the server, and what it keeps of each edge node that it heard.
/// Contracts see a `HostData`.
#[derive(Drop)]
pub struct Host {
    alloc: Global,
    session: HostSession,
    nodes: Nodes,
}

impl fmt::Debug for Host {
    fn fmt<W: fmt::Write>(&self, f: &mut fmt::Formatter<W>) -> fmt::Result {
        f.write_str("Host { .. }")
    }
}

impl Model for Host {
    ghost use Rattle.spk_host.specs.Data.{HostData};

    ghost Value = { HostData };

    ghost view = { λ h. record { session = h.session; nodes = h.nodes } };
}

/// Nothing is lost.
const NO_LOSS: Loss = Loss {
    held: 0,
    missing: 0,
};

/// A fault in reading.
fn fault_of(fault: ReadFault) -> HostFault
    ensures { result ≡ fault_of fault }
{
    match fault {
        ReadFault::NoMemory => HostFault::NoMemory,
        ReadFault::NotSparkplug => HostFault::NotSparkplug,
        ReadFault::BadPayload => HostFault::BadPayload,
        ReadFault::NoSeq => HostFault::NoSeq,
        ReadFault::NoStamp => HostFault::NoStamp,
        ReadFault::NoBdSeq => HostFault::NoBdSeq,
    }
}

/// Packets alone.
fn sent(alloc: Global, packets: Vec<Vec<u8>>) -> Out
    ensures said { out_view result
        ≡ record step.nothing { packets = map (λ b. b.items) packets.items } }
    ensures whole { All (λ b. IsPacket b.items) packets.items → AreWhole result }
{
    Out {
        consumed: Vec::new(alloc),
        steps: Vec::new(alloc),
        gaps: Vec::new(alloc),
        death: None,
        rebirths: Vec::new(alloc),
        packets,
    }
}

/// What an NDEATH is answered by.
fn answered_death(alloc: Global, packets: Vec<Vec<u8>>, answer: Match) -> Out
    ensures said { out_view result ≡ record step.nothing {
      death = Some answer;
      packets = map (λ b. b.items) packets.items;
    } }
    ensures whole { All (λ b. IsPacket b.items) packets.items → AreWhole result }
{
    Out {
        consumed: Vec::new(alloc),
        steps: Vec::new(alloc),
        gaps: Vec::new(alloc),
        death: Some(answer),
        rebirths: Vec::new(alloc),
        packets,
    }
}

impl Host {
    /// A host that isn't within a session and heard of no node. Refused with NotSparkplug (70) for a name or a group that can't stand
    /// in a topic or has over 60,000 bytes. Takes no memory.
    pub fn new(alloc: Global, config: HostConfig) -> Result<Host, HostFault>
        ensures made { IfOk result (λ h. h ≡ calls.new_host (config_view config)) }
        ensures good { OnOk result (is_good (config_view config) ≡ true) }
        ensures fault { IfErr result
            (λ e. (e ≡ HostFault.NotSparkplug) × (is_good (config_view config) ≡ false)) }
    {
        let session = HostSession::new(alloc, config)?;
        Ok(Host {
            alloc,
            session,
            nodes: Nodes::new(alloc),
        })
    }

    /// What the host is.
    pub fn config(&self) -> &HostConfig
        ensures { config_view result.now ≡ self.now.session.config }
    {
        self.session.config()
    }

    /// A session begins: CONNECT, whose will is STATE offline with this moment, in milliseconds since 1970, at QoS 1, retained.
    /// Refused with WrongPhase (75) within a session.
    pub fn connected(&mut self, now: u64) -> Result<Out, HostFault>
        ensures said { Gives (λ o. (out_view o).packets) result
            (spelled (session.says self.old.session (session.Connected now))) }
        ensures alone { IfOk result
            (λ o. out_view o ≡ record step.nothing { packets = (out_view o).packets }) }
        ensures whole { IfOk result (λ o. AreWhole o) }
        ensures data { OnOk result (self.new ≡ calls.host_with self.old (calls.Connected now)) }
        ensures unchanged { OnErr result (self.new ≡ self.old) }
    {
        if self.session.is_open() {
            return Err(HostFault::WrongPhase);
        }
        let mut packets = Vec::with_capacity(self.alloc, 1)?;
        packets.push_reserved(self.session.connected(now)?);
        Ok(sent(self.alloc, packets))
    }

    /// What was heard within a session.
    fn hear(&mut self, heard: Heard, now: u64) -> Result<Out, HostFault>
        requires open { is_some self.old.session.began ≡ true }
        ensures out { Gives out_view result (Ok (step.packet_out self.old (heard_view heard) now)) }
        ensures whole { step.HasIdentifier (heard_view heard) → IfOk result (λ o. AreWhole o) }
        ensures data { OnOk result (self.new ≡ step.after_packet self.old (heard_view heard) now) }
        ensures unchanged { OnErr result (self.new ≡ self.old) }
    {
        match heard {
            Heard::Published { ack, content } => Ok(self.hear_content(ack, content, now)?),
            Heard::Answered(code) => self.answered(code),
            Heard::Granted => self.granted(),
            Heard::Other => Ok(sent(self.alloc, Vec::new(self.alloc))),
        }
    }

    /// A PUBLISH came.
    fn hear_content(
        &mut self,
        ack: Option<u16>,
        content: Content,
        now: u64,
    ) -> Result<Out, AllocError>
        ensures out { IfOk result
            (λ o. out_view o ≡ step.published_out self.old ack (content_view content) now) }
        ensures whole { step.IsIdentified ack → IfOk result (λ o. AreWhole o) }
        ensures data { OnOk result
            (self.new ≡ record self.old
            { nodes = step.nodes_after self.old (content_view content) now }) }
        ensures unchanged { OnErr result (self.new ≡ self.old) }
    {
        match content {
            Content::Message(message) => {
                let config = self.session.config();
                let (wait, width) = (config.wait, config.width);
                self.nodes.hear(self.alloc, wait, width, ack, message, now)
            }
            Content::Death { group, node, bd } => {
                let packets = acknowledged(self.alloc, ack)?;
                let answer = self.nodes.hear_death(group.as_str(), node.as_str(), bd);
                Ok(answered_death(self.alloc, packets, answer))
            }
            Content::Nothing => Ok(sent(self.alloc, acknowledged(self.alloc, ack)?)),
        }
    }

    /// CONNACK came.
    fn answered(&mut self, code: u8) -> Result<Out, HostFault>
        requires open { is_some self.old.session.began ≡ true }
        ensures out { Gives out_view result
            (Ok (step.sends
            (step.said_by (session.says self.old.session (session.Answered code))))) }
        ensures whole { IfOk result (λ o. AreWhole o) }
        ensures data { OnOk result (self.new ≡ record {
          session = session.after self.old.session (session.Answered code);
          nodes = if code == 0 then self.old.nodes else map step.over_entry self.old.nodes;
        }) }
        ensures unchanged { OnErr result (self.new ≡ self.old) }
    {
        let packets = self.session.answered(code)?;
        if code != 0 {
            self.nodes.over();
        }
        Ok(sent(self.alloc, packets))
    }

    /// SUBACK came.
    fn granted(&self) -> Result<Out, HostFault>
        requires open { is_some self.now.session.began ≡ true }
        ensures out { Gives out_view result
            (Ok (step.sends (step.said_by (session.says self.now.session session.Granted)))) }
        ensures whole { IfOk result (λ o. AreWhole o) }
    {
        let mut packets = Vec::with_capacity(self.alloc, 1)?;
        packets.push_reserved(self.session.granted()?);
        Ok(sent(self.alloc, packets))
    }

    /// The bytes of a packet came at a moment, in milliseconds. Of what they say (`spk_reading`) a PUBLISH at QoS 1 is acknowledged
    /// first; a message of a node is handed to it, an NDEATH is told it, and the answer says whether it matched; CONNACK 0 is answered by SUBSCRIBE, SUBACK by STATE online;
    /// a CONNACK with another code ends the session.
    ///
    /// Refused with WrongPhase (75) outside a session, and then with what `spk_reading::read` refuses (70 to 74). A packet that is
    /// refused isn't acknowledged, and changes nothing.
    pub fn packet(&mut self, bytes: &[u8], now: u64) -> Result<Out, HostFault>
        ensures outside { self.old.session.began ≡ None → result ≡ Err HostFault.WrongPhase }
        ensures answer { (h : HeardData) → is_some self.old.session.began ≡ true
            → Says bytes.now h
            → Gives out_view result (Ok (step.packet_out self.old h now)) }
        ensures fault { (f : ReadFault) → is_some self.old.session.began ≡ true
            → IsReadFault bytes.now f
            → IfErr result (λ e. (e ≡ HostFault.NoMemory) ⊎ (e ≡ fault_of f)) }
        ensures only { IfErr result (λ e. (e ≡ HostFault.NoMemory) ⊎ ((e ≡ HostFault.WrongPhase)
            × (self.old.session.began ≡ None))
            ⊎ ((f : ReadFault) × IsReadFault bytes.now f × (e ≡ fault_of f))) }
        ensures said { OnOk result ((h : HeardData) × Says bytes.now h) }
        ensures whole { IfOk result (λ o. AreWhole o) }
        ensures data { (h : HeardData) → Says bytes.now h
            → OnOk result (self.new ≡ calls.host_with self.old (calls.Heard h now)) }
        ensures unchanged { OnErr result (self.new ≡ self.old) }
    {
        if !self.session.is_open() {
            return Err(HostFault::WrongPhase);
        }
        match read(self.alloc, bytes) {
            Ok(heard) => self.hear(heard, now),
            Err(fault) => Err(fault_of(fault)),
        }
    }

    /// What the bytes of a packet say came at a moment, in milliseconds: all is done that `packet` does of such bytes. Refused with
    /// WrongPhase (75) outside a session.
    pub fn heard(&mut self, heard: Heard, now: u64) -> Result<Out, HostFault>
        ensures outside { self.old.session.began ≡ None → result ≡ Err HostFault.WrongPhase }
        ensures answer { is_some self.old.session.began ≡ true
            → Gives out_view result (Ok (step.packet_out self.old (heard_view heard) now)) }
        ensures whole { (bytes : List ℕ) → Says bytes (heard_view heard)
            → IfOk result (λ o. AreWhole o) }
        ensures data { OnOk result
            (self.new ≡ calls.host_with self.old (calls.Heard (heard_view heard) now)) }
        ensures unchanged { OnErr result (self.new ≡ self.old) }
    {
        if !self.session.is_open() {
            return Err(HostFault::WrongPhase);
        }
        self.hear(heard, now)
    }

    /// A moment, in milliseconds: a gap at each node of which a held message has waited long enough for one before it, with the
    /// requests for a rebirth that are due, in the order in which the nodes were first heard. `Out::gaps` says which nodes these are.
    /// Refused with WrongPhase (75) outside a session.
    pub fn tick(&mut self, now: u64) -> Result<Out, HostFault>
        ensures outside { self.old.session.began ≡ None → result ≡ Err HostFault.WrongPhase }
        ensures answer { is_some self.old.session.began ≡ true
            → Gives out_view result (Ok (step.tick_out self.old.nodes now)) }
        ensures whole { IfOk result (λ o. AreWhole o) }
        ensures data { OnOk result (self.new ≡ calls.host_with self.old (calls.Ticked now)) }
        ensures unchanged { OnErr result (self.new ≡ self.old) }
    {
        if !self.session.is_open() {
            return Err(HostFault::WrongPhase);
        }
        let out = self.nodes.ask(self.alloc, now)?;
        self.nodes.tick(now);
        Ok(out)
    }

    /// The session ends: STATE offline with this moment, at QoS 1, retained, and DISCONNECT. Refused with WrongPhase (75) outside a
    /// session.
    pub fn stop(&mut self, now: u64) -> Result<Out, HostFault>
        ensures said { Gives (λ o. (out_view o).packets) result
            (spelled (session.says self.old.session (session.Stopped now))) }
        ensures alone { IfOk result
            (λ o. out_view o ≡ record step.nothing { packets = (out_view o).packets }) }
        ensures whole { IfOk result (λ o. AreWhole o) }
        ensures data { OnOk result (self.new ≡ calls.host_with self.old (calls.Stopped now)) }
        ensures unchanged { OnErr result (self.new ≡ self.old) }
    {
        let packets = self.session.stop(now)?;
        self.nodes.over();
        Ok(sent(self.alloc, packets))
    }

    /// The connection is gone, and with it the session, if there was one: each node is offline, and its values are stale. Takes no
    /// memory.
    pub fn ended(&mut self)
        ensures { self.new ≡ calls.host_with self.old calls.Ended }
    {
        self.session.ended();
        self.nodes.over();
    }

    /// The session ends without a farewell, if there was one, and the next begins: CONNECT, as `connected` says. Whole or nothing.
    pub fn renew(&mut self, now: u64) -> Result<Out, AllocError>
        ensures said { IfOk result
            (λ o. spelled (session.says self.old.session (session.Renewed now))
            ≡ Ok (out_view o).packets) }
        ensures alone { IfOk result
            (λ o. out_view o ≡ record step.nothing { packets = (out_view o).packets }) }
        ensures whole { IfOk result (λ o. AreWhole o) }
        ensures data { OnOk result (self.new ≡ calls.host_with self.old (calls.Renewed now)) }
        ensures unchanged { OnErr result (self.new ≡ self.old) }
    {
        let mut packets = Vec::with_capacity(self.alloc, 1)?;
        packets.push_reserved(self.session.renew(now)?);
        self.nodes.over();
        Ok(sent(self.alloc, packets))
    }

    /// The nodes that the host heard, in the order in which they were first heard.
    pub fn nodes(&self) -> &[Entry]
        ensures { result.now ≡ self.now.nodes }
    {
        self.nodes.entries()
    }

    /// What is kept of a node, if it was heard. Takes no memory.
    fn node(&self, group: &str, node: &str) -> Option<&Entry>
        ensures { option_copied result ≡ find (is_of group.now node.now) self.now.nodes }
    {
        match self.nodes.place_of(group, node) {
            Some(place) => self.nodes.entries().get(place),
            None => None,
        }
    }

    /// How the host stands to a node: one that was never heard is Unknown. Takes no memory.
    pub fn phase(&self, group: &str, node: &str) -> Phase
        ensures { result
            ≡ (node_or
            (step.fresh self.now) self.now.nodes group.now node.now).order.standing.phase }
    {
        match self.node(group, node) {
            Some(entry) => entry.kept().phase(),
            None => Phase::Unknown,
        }
    }

    /// What is shown of a node, from its first birth on. Takes no memory.
    pub fn view(&self, group: &str, node: &str) -> Option<&NodeView>
        ensures { option_map (λ v. v.now.view) result
            ≡ (node_or (step.fresh self.now) self.now.nodes group.now node.now).watch.view }
    {
        self.node(group, node)?.kept().view()
    }

    /// What a message of a node would lose.
    fn loss_of_message(&self, message: &Numbered, now: u64) -> Loss
        ensures { let m = numbered_view message.now in
            result ≡ node_loss self.now.nodes m.group m.node (Called (Hand m.number m.kind now)) }
    {
        match self.node(message.group.as_str(), message.node.as_str()) {
            Some(entry) => entry.kept().loss_at_hand(message, now),
            None => NO_LOSS,
        }
    }

    /// What an NDEATH of a node would lose.
    fn loss_of_death(&self, group: &str, node: &str, bd: u8) -> Loss
        ensures { result ≡ node_loss self.now.nodes group.now node.now (Called (Death bd)) }
    {
        match self.node(group, node) {
            Some(entry) => entry.kept().loss_at_death(bd),
            None => NO_LOSS,
        }
    }

    /// What `heard`, and `packet` of bytes that say this, would lose within a session of what is held of its node (`spk_sequence`): how
    /// many messages that came before are dropped, and how many are missing before the nearest of them. A message and an NDEATH may
    /// lose some, and nothing else, nor one of a node that was never heard. Nothing changes, and no memory is taken.
    pub fn loss_at(&self, heard: &Heard, now: u64) -> Loss
        ensures { result ≡ packet_loss self.now.nodes (heard_view heard.now) now }
    {
        match heard {
            Heard::Published {
                content: Content::Message(message),
                ..
            } => self.loss_of_message(message, now),
            Heard::Published {
                content: Content::Death { group, node, bd },
                ..
            } => self.loss_of_death(group.as_str(), node.as_str(), *bd),
            _ => NO_LOSS,
        }
    }

    /// The nodes to be asked what a moment loses of what is held of them (`HostNode::loss_at_tick`): any other loses nothing. Nothing
    /// changes, and no memory is taken.
    pub fn losing(&self, now: u64) -> &[Entry]
        ensures { losing now result.now ≡ losing now self.now.nodes }
    {
        self.nodes.losing(now)
    }
}
