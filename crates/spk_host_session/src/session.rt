//! A host's session with the server.
ghost use Rattle.std.specs.Prelude.{◌≡◌, ◌==◌, ◌∷◌, [], IfOk, IfErr, OnOk, OnErr, Ok, All, map, true, false, None, Some, is_some, nat_le, length};
ghost use Rattle.spk_host_session.specs.Answer.{Gives, spelled};
ghost use Rattle.spk_host_session.specs.Data as plain;
ghost use Rattle.spk_host_session.specs.Packets as spec;
ghost use Rattle.spk_host_session.specs.Step as step;
ghost use Rattle.spk_host_session.specs.View.{config_view};
ghost use Rattle.spk_packets.specs.Spelling.{spelling};
ghost use Rattle.spk_state.specs.Text.{state_text};

use crate::config::HostConfig;
use crate::fault::HostFault;
use crate::names::is_short_name;
use crate::packets::{connect, state_packet, subscribe, written};
use spk_packets::Packet;
use spk_state::State;
use std::alloc::{AllocError, Global};
use std::fmt;
use std::marker::Model;

/// A host application and its session with the server (Sparkplug 3.0.0, chapter 5 on host applications). Contracts see what it
/// is, and the moment at which its session began, if it is within one.
#[derive(Drop)]
pub struct HostSession {
    alloc: Global,
    config: HostConfig,
    began: Option<u64>,
}

impl fmt::Debug for HostSession {
    fn fmt<W: fmt::Write>(&self, f: &mut fmt::Formatter<W>) -> fmt::Result {
        f.write_str("HostSession { .. }")
    }
}

impl Model for HostSession {
    ghost use Rattle.std.specs.Prelude.{◌≡◌, true};
    ghost use Rattle.spk_host_session.specs.Data.{Session, is_good};
    ghost use Rattle.spk_host_session.specs.View.{config_view};

    ghost Value = { Session };

    ghost view = { λ s. record { config = config_view s.config; began = s.began } };

    ghost invariant = { λ s. is_good (config_view s.config) ≡ true };
}

/// Whether the host's name and its group are such names.
fn is_good(config: &HostConfig) -> bool
    ensures { result ≡ plain.is_good (config_view config.now) }
{
    is_short_name(config.name.as_str()) && is_short_name(config.group.as_str())
}

impl HostSession {
    /// A host that isn't within a session. Refused with NotSparkplug (70) for a name or a group that can't stand in a topic or
    /// has over 60,000 bytes. Takes no memory.
    pub fn new(alloc: Global, config: HostConfig) -> Result<HostSession, HostFault>
        ensures made { IfOk result (λ s. s ≡ record { config = config_view config; began = None }) }
        ensures good { OnOk result (plain.is_good (config_view config) ≡ true) }
        ensures fault { IfErr result (λ e. (e ≡ HostFault.NotSparkplug)
            × (plain.is_good (config_view config) ≡ false)) }
    {
        if !is_good(&config) {
            return Err(HostFault::NotSparkplug);
        }
        Ok(HostSession {
            alloc,
            config,
            began: None,
        })
    }

    /// What the host is.
    pub fn config(&self) -> &HostConfig
        ensures { config_view result.now ≡ self.now.config }
    {
        &self.config
    }

    /// Whether it is within a session.
    pub fn is_open(&self) -> bool
        ensures { result ≡ is_some self.now.began }
    {
        self.began.is_some()
    }

    /// CONNECT's bytes.
    fn connect(&self, now: u64) -> Result<Vec<u8>, AllocError>
        ensures said { IfOk result (λ v. v.items ≡ spelling (spec.connect_of self.now.config now)) }
        ensures whole { IfOk result (λ v. spec.IsPacket v.items) }
    {
        let packet = connect(self.alloc, &self.config, now)?;
        written(self.alloc, &packet)
    }

    /// A STATE's bytes.
    fn state(&self, id: u16, online: bool, timestamp: u64) -> Result<Vec<u8>, AllocError>
        requires { (id == 0) ≡ false }
        ensures said { IfOk result (λ v. v.items ≡ spelling (spec.state_of self.now.config id
            (state_text (record { online = online; timestamp = timestamp })))) }
        ensures whole { IfOk result (λ v. spec.IsPacket v.items) }
    {
        let state = State { online, timestamp };
        let packet = state_packet(self.alloc, &self.config, id, state)?;
        written(self.alloc, &packet)
    }

    /// SUBSCRIBE's bytes.
    fn subscribe(&self) -> Result<Vec<u8>, AllocError>
        ensures said { IfOk result (λ v. v.items ≡ spelling (spec.subscribe_of self.now.config)) }
        ensures whole { IfOk result (λ v. spec.IsPacket v.items) }
    {
        let packet = subscribe(self.alloc, &self.config)?;
        written(self.alloc, &packet)
    }

    /// SUBSCRIBE's bytes, alone.
    fn subscription(&self) -> Result<Vec<Vec<u8>>, AllocError>
        ensures said { IfOk result
            (λ v. map (λ b. b.items) v.items
            ≡ map spelling (spec.subscribe_of self.now.config ∷ [])) }
        ensures whole { IfOk result (λ v. All (λ b. spec.IsPacket b.items) v.items) }
    {
        let mut packets = Vec::with_capacity(self.alloc, 1)?;
        packets.push(self.subscribe()?)?;
        Ok(packets)
    }

    /// The bytes of a session's end: STATE offline, and DISCONNECT.
    fn farewell(&self, now: u64) -> Result<Vec<Vec<u8>>, AllocError>
        ensures said { IfOk result
            (λ v. map (λ b. b.items) v.items ≡ map spelling (spec.farewell self.now.config now)) }
        ensures whole { IfOk result (λ v. All (λ b. spec.IsPacket b.items) v.items) }
    {
        let mut packets = Vec::with_capacity(self.alloc, 2)?;
        packets.push(self.state(3, false, now)?)?;
        packets.push(written(self.alloc, &Packet::Disconnect)?)?;
        Ok(packets)
    }

    /// A session begins at a moment, with CONNECT.
    fn begin(&mut self, now: u64) -> Result<Vec<u8>, AllocError>
        ensures packet { IfOk result
            (λ v. v.items ≡ spelling (spec.connect_of self.old.config now)) }
        ensures whole { IfOk result (λ v. spec.IsPacket v.items) }
        ensures ok { OnOk result (self.new ≡ record self.old { began = Some now }) }
        ensures err { OnErr result (self.new ≡ self.old) }
    {
        let packet = self.connect(now)?;
        self.began = Some(now);
        Ok(packet)
    }

    /// The session is over.
    fn close(&mut self)
        ensures { self.new ≡ record self.old { began = None } }
    {
        self.began = None;
    }

    /// A session begins: CONNECT, whose will is STATE offline with this moment, in milliseconds since 1970, at QoS 1, retained.
    /// Refused with WrongPhase (75) within a session.
    pub fn connected(&mut self, now: u64) -> Result<Vec<u8>, HostFault>
        ensures said { Gives (λ v. v.items ∷ []) result
            (spelled (step.says self.old (step.Connected now))) }
        ensures whole { IfOk result (λ v. spec.IsPacket v.items) }
        ensures ok { OnOk result (self.new ≡ step.after self.old (step.Connected now)) }
        ensures err { OnErr result (self.new ≡ self.old) }
    {
        if self.is_open() {
            return Err(HostFault::WrongPhase);
        }
        Ok(self.begin(now)?)
    }

    /// CONNACK came, with its code. Code 0 is answered by SUBSCRIBE to all topics of the group, at QoS 1; any other ends the
    /// session. Refused with WrongPhase (75) outside a session.
    pub fn answered(&mut self, code: u8) -> Result<Vec<Vec<u8>>, HostFault>
        ensures said { Gives (λ v. map (λ b. b.items) v.items) result
            (spelled (step.says self.old (step.Answered code))) }
        ensures whole { IfOk result (λ v. All (λ b. spec.IsPacket b.items) v.items) }
        ensures ok { OnOk result (self.new ≡ step.after self.old (step.Answered code)) }
        ensures err { OnErr result (self.new ≡ self.old) }
    {
        if !self.is_open() {
            return Err(HostFault::WrongPhase);
        }
        if code == 0 {
            return Ok(self.subscription()?);
        }
        self.close();
        Ok(Vec::new(self.alloc))
    }

    /// SUBACK came: STATE online, with the moment that the will says, at QoS 1, retained. Refused with WrongPhase (75) outside a
    /// session.
    pub fn granted(&self) -> Result<Vec<u8>, HostFault>
        ensures said { Gives (λ v. v.items ∷ []) result (spelled (step.says self.now step.Granted)) }
        ensures whole { IfOk result (λ v. spec.IsPacket v.items) }
    {
        let Some(began) = self.began else {
            return Err(HostFault::WrongPhase);
        };
        Ok(self.state(2, true, began)?)
    }

    /// The session ends: STATE offline with this moment, at QoS 1, retained, and DISCONNECT. Refused with WrongPhase (75) outside
    /// a session.
    pub fn stop(&mut self, now: u64) -> Result<Vec<Vec<u8>>, HostFault>
        ensures said { Gives (λ v. map (λ b. b.items) v.items) result
            (spelled (step.says self.old (step.Stopped now))) }
        ensures whole { IfOk result (λ v. All (λ b. spec.IsPacket b.items) v.items) }
        ensures ok { OnOk result (self.new ≡ step.after self.old (step.Stopped now)) }
        ensures err { OnErr result (self.new ≡ self.old) }
    {
        if !self.is_open() {
            return Err(HostFault::WrongPhase);
        }
        let packets = self.farewell(now)?;
        self.close();
        Ok(packets)
    }

    /// The connection is gone, and with it the session, if there was one. Takes no memory.
    pub fn ended(&mut self)
        ensures { self.new ≡ step.after self.old step.Ended }
    {
        self.close();
    }

    /// The session ends without a farewell, if there was one, and the next begins: CONNECT, as `connected` says. Whole or nothing.
    pub fn renew(&mut self, now: u64) -> Result<Vec<u8>, AllocError>
        ensures said { IfOk result
            (λ v. spelled (step.says self.old (step.Renewed now)) ≡ Ok (v.items ∷ [])) }
        ensures whole { IfOk result (λ v. spec.IsPacket v.items) }
        ensures ok { OnOk result (self.new ≡ step.after self.old (step.Renewed now)) }
        ensures err { OnErr result (self.new ≡ self.old) }
    {
        self.begin(now)
    }
}
