//! What the tests ask of a host. They are written over any that answers it, since a function over a type parameter is proved without
//! the parts of a host.
use spk_host::{Host, HostConfig, HostFault, Out};
use spk_host_rules::Shown;
use spk_payload::Value;
use spk_sequence::{Phase, Width};
use std::alloc::AllocError;
use std::process::Abort;

/// A text. Where memory was refused it is made again.
fn text(rt: &(impl Abort + AllocGlobal), words: &str) -> String {
    match String::from_str(rt.alloc(), words) {
        Ok(text) => text,
        Err(_) => String::from_str(rt.alloc(), words).expect(rt, "memory is there again"),
    }
}

fn config(rt: &(impl Abort + AllocGlobal), wait: u64, places: u8) -> HostConfig {
    HostConfig {
        name: text(rt, "H"),
        group: text(rt, "G"),
        wait,
        keep: 0,
        width: Width::new(places).expect(rt, "a width"),
    }
}

/// What the tests ask of a host.
pub(crate) trait Asks {
    fn tell_connected(&mut self, now: u64) -> Result<Out, HostFault>;

    fn tell_packet(&mut self, bytes: &[u8], now: u64) -> Result<Out, HostFault>;

    fn tell_tick(&mut self, now: u64) -> Result<Out, HostFault>;

    fn tell_stop(&mut self, now: u64) -> Result<Out, HostFault>;

    fn tell_renew(&mut self, now: u64) -> Result<Out, AllocError>;

    fn tell_ended(&mut self);

    fn phase_of(&self, group: &str, node: &str) -> Phase;

    /// How many nodes were heard.
    fn count(&self) -> usize;

    /// What is shown of a metric of the node N of the group G.
    fn shown(&self, name: &str) -> Option<&Shown>;
}

impl Asks for Host {
    fn tell_connected(&mut self, now: u64) -> Result<Out, HostFault> {
        self.connected(now)
    }

    fn tell_packet(&mut self, bytes: &[u8], now: u64) -> Result<Out, HostFault> {
        self.packet(bytes, now)
    }

    fn tell_tick(&mut self, now: u64) -> Result<Out, HostFault> {
        self.tick(now)
    }

    fn tell_stop(&mut self, now: u64) -> Result<Out, HostFault> {
        self.stop(now)
    }

    fn tell_renew(&mut self, now: u64) -> Result<Out, AllocError> {
        self.renew(now)
    }

    fn tell_ended(&mut self) {
        self.ended();
    }

    fn phase_of(&self, group: &str, node: &str) -> Phase {
        self.phase(group, node)
    }

    fn count(&self) -> usize {
        self.nodes().len()
    }

    fn shown(&self, name: &str) -> Option<&Shown> {
        let view = self.view("G", "N")?;
        Some(view.metric(name)?.shown())
    }
}

/// What a host is told.
pub(crate) trait Case {
    fn play(&self, rt: &(impl Abort + AllocGlobal), host: &mut impl Asks);
}

/// A host of the group G that was never within a session is told it.
pub(crate) fn play(rt: &(impl Abort + AllocGlobal), wait: u64, places: u8, case: &impl Case) {
    let mut host = Host::new(rt.alloc(), config(rt, wait, places)).expect(rt, "a host");
    case.play(rt, &mut host);
}

/// The number that is shown, if one is.
pub(crate) fn number(shown: Option<&Shown>) -> Option<u64> {
    match shown {
        Some(Shown::Typed(Value::Unsigned(number))) => Some(*number),
        _ => None,
    }
}

/// A session begins. Where memory was refused the call is made again.
pub(crate) fn begin(rt: &impl Abort, host: &mut impl Asks, now: u64) {
    let answer = match host.tell_connected(now) {
        Err(HostFault::NoMemory) => host.tell_connected(now),
        answer => answer,
    };
    assert!(rt; answer.is_ok());
}

/// The answer to a packet. Where memory was refused the call is made again.
pub(crate) fn told(host: &mut impl Asks, bytes: &[u8], now: u64) -> Result<Out, HostFault> {
    match host.tell_packet(bytes, now) {
        Err(HostFault::NoMemory) => host.tell_packet(bytes, now),
        answer => answer,
    }
}

/// The answer to a moment. Where memory was refused the call is made again.
pub(crate) fn ticked(host: &mut impl Asks, now: u64) -> Result<Out, HostFault> {
    match host.tell_tick(now) {
        Err(HostFault::NoMemory) => host.tell_tick(now),
        answer => answer,
    }
}

/// The answer to a session's end in good order. Where memory was refused the call is made again.
pub(crate) fn stopped(host: &mut impl Asks, now: u64) -> Result<Out, HostFault> {
    match host.tell_stop(now) {
        Err(HostFault::NoMemory) => host.tell_stop(now),
        answer => answer,
    }
}

/// The answer to a session that begins anew. Where memory was refused the call is made again.
pub(crate) fn renewed(host: &mut impl Asks, now: u64) -> Result<Out, AllocError> {
    match host.tell_renew(now) {
        Ok(out) => Ok(out),
        Err(_) => host.tell_renew(now),
    }
}

/// What a packet is refused for, if it is. It stands apart since whoever holds an answer is dear to prove.
pub(crate) fn refusal_of(host: &mut impl Asks, bytes: &[u8], now: u64) -> Option<HostFault> {
    told(host, bytes, now).err()
}

/// What a moment and the end of a session are refused for, if they are.
pub(crate) fn refusals_at(host: &mut impl Asks, now: u64) -> [Option<HostFault>; 2] {
    [tick_refusal(host, now), host.tell_stop(now).err()]
}

fn tick_refusal(host: &mut impl Asks, now: u64) -> Option<HostFault> {
    host.tell_tick(now).err()
}

/// What the beginning of a session is refused for, if it is.
pub(crate) fn connect_refusal(host: &mut impl Asks, now: u64) -> Option<HostFault> {
    host.tell_connected(now).err()
}
