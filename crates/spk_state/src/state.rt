//! The payload of a STATE (Sparkplug 3.0.0, chapter 6).
ghost use Rattle.std.specs.Prelude.{◌≡◌, ◌^◌, ◌<◌, ◌⊎◌, Some, option_and_then, string_bytes, IfOk, IfErr};
ghost use Rattle.serde_json.specs.Read.{read};
ghost use Rattle.serde_json.specs.View.{view};

use crate::fault::StateFault;
use serde_json::{Value, json};
use std::alloc::{AllocError, Global};
use std::str;

/// The first timestamp that isn't one: 2^63 (own rule).
const END: u64 = 1 << 63;

/// Whether a host application is online, and since when.
#[derive(Clone, Copy, Debug, PartialEq, Eq)]
pub struct State {
    pub online: bool,
    /// In milliseconds since 1970 (UTC).
    pub timestamp: u64,
}

impl State {
    ghost use Rattle.spk_state.specs.declared.state.State.{State};
    ghost use Rattle.spk_state.specs.Text.{MeansState, state_text, Gives, state_data, state_of, state_at};

    /// Reads the payload of a STATE (Sparkplug 3.0.0, chapter 6): a JSON object with a Boolean `online` and a whole
    /// `timestamp` below 2^63. Other members are ignored. Refused with BadState where it isn't one.
    pub fn decode(alloc: Global, bytes: &[u8]) -> Result<State, StateFault>
        ensures found { IfOk result (MeansState bytes.now) }
        // The same by a function of the bytes (`laws::reading`).
        ensures reads { IfOk result (λ s. state_at bytes.now ≡ Some s) }
        ensures reads_none { IfErr result
            (λ e. (e ≡ StateFault.NoMemory)
            ⊎ ((e ≡ StateFault.BadState) × (state_at bytes.now ≡ None))) }
        // What the bytes mean is answered, unless memory was refused.
        ensures only { (s : State) → MeansState bytes.now s → Gives result s }
        // Bytes that mean nothing are BadState, unless memory was refused, and no others are.
        ensures bad { IfErr result (λ e. (e ≡ StateFault.NoMemory)
            ⊎ ((e ≡ StateFault.BadState) × ((s : State) → MeansState bytes.now s → ⊥))) }
    {
        State::read(alloc, bytes)
    }

    /// Writes the payload of a STATE, as `{"online":true,"timestamp":5}`.
    pub fn encode(&self, alloc: Global) -> Result<String, StateFault>
        ensures text { IfOk result (λ t. string_bytes t ≡ state_text self.now) }
        ensures read_back { IfOk result
            (λ t. self.now.timestamp < 2 ^ 63 → MeansState (string_bytes t) self.now) }
        ensures memory { IfErr result (λ e. e ≡ StateFault.NoMemory) }
    {
        Ok(self.value(alloc)?.to_string(alloc)?)
    }

    /// The JSON value that says it.
    fn value(&self, alloc: Global) -> Result<Value, AllocError>
        ensures { IfOk result (λ v. view v ≡ state_data self.now) }
    {
        json!(in alloc; {"online": self.online, "timestamp": self.timestamp})
    }

    fn read(alloc: Global, bytes: &[u8]) -> Result<State, StateFault>
        ensures ok { IfOk result (λ s. state_at bytes.now ≡ Some s) }
        ensures bad { IfErr result
            (λ e. (e ≡ StateFault.NoMemory)
            ⊎ ((e ≡ StateFault.BadState) × (state_at bytes.now ≡ None))) }
    {
        let text = match str::from_utf8(bytes) {
            Ok(text) => text,
            Err(_) => return Err(StateFault::BadState),
        };
        match Value::from_str(alloc, text) {
            Ok(value) => State::of(&value).ok_or(StateFault::BadState),
            Err(error) if error.is_memory() => Err(StateFault::NoMemory),
            Err(_) => Err(StateFault::BadState),
        }
    }

    /// What a JSON value says.
    fn of(value: &Value) -> Option<State>
        ensures { result ≡ state_of (view value.now) }
    {
        let online = value.get("online")?.as_bool()?;
        let timestamp = value.get("timestamp")?.as_u64()?;
        if timestamp < END {
            Some(State { online, timestamp })
        } else {
            None
        }
    }
}
