//! Setting values, and turning devices up and down. None of these calls takes memory.
ghost use Rattle.std.specs.Prelude.{◌≡◌, true, false, Some, None, OnOk, OnErr, IfOk, IfErr};
ghost use Rattle.std.specs.Option.{option_map};
ghost use Rattle.spk_payload.specs.Typing.{typed_view};
ghost use Rattle.spk_device.specs.Step as step;

use crate::fault::Refusal;
use crate::outcome::Outcome;
use crate::registry::{Alias, Registry};
use crate::values::is_of;
use spk_payload::Value;

impl Registry {
    /// What `set` would answer: Same where that is the metric's value already. Refuses with NoSuch (41) an alias that wasn't
    /// given, with WrongKind (42) a value that isn't of the metric's datatype. Nothing changes. Takes no memory.
    pub fn would_set(&self, alias: Alias, value: &Option<Value>) -> Result<Outcome, Refusal>
        ensures change { IfOk result
            (λ c. c ≡ step.set_change self.now alias (option_map typed_view value.now)) }
        ensures accepted { OnOk result (
            step.set_refusal self.now alias (option_map typed_view value.now) ≡ None) }
        ensures refused { IfErr result (λ r.
            step.set_refusal self.now alias (option_map typed_view value.now) ≡ Some r) }
    {
        match self.metric(alias) {
            Some(gauge) => {
                if is_of(gauge.datatype, value) {
                    Ok(gauge.would_put(value))
                } else {
                    Err(Refusal::WrongKind)
                }
            }
            None => Err(Refusal::NoSuch),
        }
    }

    /// Sets the value of a metric: Same where that is its value already. Refuses what `would_set` says, and nothing has
    /// changed then. Takes no memory.
    pub fn set(&mut self, alias: Alias, value: Option<Value>) -> Result<Outcome, Refusal>
        ensures change { IfOk result
            (λ c. c ≡ step.set_change self.old alias (option_map typed_view value)) }
        ensures done { OnOk result (
            self.new ≡ step.with_value self.old alias (option_map typed_view value)) }
        ensures accepted { OnOk result (
            step.set_refusal self.old alias (option_map typed_view value) ≡ None) }
        ensures refused { IfErr result (λ r.
            step.set_refusal self.old alias (option_map typed_view value) ≡ Some r) }
        ensures err { OnErr result (self.new ≡ self.old) }
    {
        self.would_set(alias, &value)?;
        Ok(self.put(alias, value))
    }

    /// The device is up: Same where it is already. Refuses with NoSuch (41) a name that no device has. Takes no memory.
    pub fn device_up(&mut self, name: &str) -> Result<Outcome, Refusal>
        ensures change { IfOk result (λ c. c ≡ step.turn_change self.old name.now true) }
        ensures done { OnOk result (self.new ≡ step.with_turn self.old name.now true) }
        ensures accepted { OnOk result (step.turn_refusal self.old name.now ≡ None) }
        ensures refused { IfErr result (λ r. step.turn_refusal self.old name.now ≡ Some r) }
        ensures err { OnErr result (self.new ≡ self.old) }
    {
        self.turn(name, true)
    }

    /// The device is down: Same where it is already. Refuses with NoSuch (41) a name that no device has. Takes no memory.
    pub fn device_down(&mut self, name: &str) -> Result<Outcome, Refusal>
        ensures change { IfOk result (λ c. c ≡ step.turn_change self.old name.now false) }
        ensures done { OnOk result (self.new ≡ step.with_turn self.old name.now false) }
        ensures accepted { OnOk result (step.turn_refusal self.old name.now ≡ None) }
        ensures refused { IfErr result (λ r. step.turn_refusal self.old name.now ≡ Some r) }
        ensures err { OnErr result (self.new ≡ self.old) }
    {
        self.turn(name, false)
    }

    /// Sets a value where `set` refuses nothing.
    fn put(&mut self, alias: Alias, value: Option<Value>) -> Outcome
        requires { step.set_refusal self.old alias (option_map typed_view value) ≡ None }
        ensures change { result ≡ step.set_change self.old alias (option_map typed_view value) }
        ensures data { self.new ≡ step.with_value self.old alias (option_map typed_view value) }
    {
        self.gauges[(alias - 1) as usize].put(value)
    }

    fn turn(&mut self, name: &str, up: bool) -> Result<Outcome, Refusal>
        ensures change { IfOk result (λ c. c ≡ step.turn_change self.old name.now up) }
        ensures done { OnOk result (self.new ≡ step.with_turn self.old name.now up) }
        ensures accepted { OnOk result (step.turn_refusal self.old name.now ≡ None) }
        ensures refused { IfErr result (λ r. step.turn_refusal self.old name.now ≡ Some r) }
        ensures err { OnErr result (self.new ≡ self.old) }
    {
        match self.device_number(name) {
            Some(number) => Ok(self.devices[number].turn(up)),
            None => Err(Refusal::NoSuch),
        }
    }
}
