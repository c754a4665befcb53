//! A message that is consumed alone.
ghost use Rattle.std.specs.Prelude.{◌≡◌, ℕ, true, false, IfOk, OnOk, OnErr};
ghost use Rattle.spk_reading.specs.View.{numbered_view};
ghost use Rattle.spk_host_rules.specs.Step as rules;
ghost use Rattle.spk_host_node.specs.Step as spec;

use crate::hearing::show;
use crate::kept::ready_of;
use spk_reading::{Numbered, Subject};
use spk_view::Watch;
use std::alloc::{AllocError, Global};

/// A birth is shown, where it has the names and the aliases of the one before it. Answers whether it is such a birth. Where it isn't,
/// and where memory is refused, nothing has changed.
fn show_rebirth(alloc: Global, watch: &mut Watch, message: &Numbered) -> Result<bool, AllocError>
    ensures asks { (wait now : ℕ) → IfOk result (λ is. is ≡ true
        → rules.asks wait watch.old.watch (spec.consumed_at now (numbered_view message.now))
        ≡ false) }
    ensures watch { (wait now : ℕ) → IfOk result (λ is. is ≡ true → watch.new.watch
        ≡ rules.step wait watch.old.watch (spec.consumed_at now (numbered_view message.now))) }
    ensures other { IfOk result (λ is. is ≡ false → watch.new ≡ watch.old) }
    ensures unchanged { OnErr result (watch.new ≡ watch.old) }
{
    let metrics = &message.payload.metrics;
    match &message.subject {
        Subject::NodeBirth => watch.consume_node_rebirth(alloc, metrics),
        Subject::DeviceBirth(device) => {
            watch.consume_device_rebirth(alloc, device.as_str(), metrics)
        }
        _ => Ok(false),
    }
}

/// A birth or a death is shown. Answers whether a rebirth is asked for. Refused only where memory is, before anything changes.
fn show_other(
    alloc: Global,
    watch: &mut Watch,
    wait: u64,
    message: &Numbered,
    now: u64,
) -> Result<bool, AllocError>
    ensures asks { IfOk result (λ asks. asks
        ≡ rules.asks wait watch.old.watch (spec.consumed_at now (numbered_view message.now))) }
    ensures watch { OnOk result (watch.new.watch
        ≡ rules.step wait watch.old.watch (spec.consumed_at now (numbered_view message.now))) }
    ensures unchanged { OnErr result (watch.new.watch ≡ watch.old.watch) }
{
    let is_rebirth = show_rebirth(alloc, watch, message)?;
    if is_rebirth {
        return Ok(false);
    }
    watch.reserve(1)?;
    let ready = ready_of(alloc, message)?;
    Ok(show(watch, wait, ready, now))
}

/// A message is shown. Answers whether a rebirth is asked for. Refused only where memory is, before anything changes.
pub(crate) fn show_alone(
    alloc: Global,
    watch: &mut Watch,
    wait: u64,
    message: &Numbered,
    now: u64,
) -> Result<bool, AllocError>
    ensures asks { IfOk result (λ asks. asks
        ≡ rules.asks wait watch.old.watch (spec.consumed_at now (numbered_view message.now))) }
    ensures watch { OnOk result (watch.new.watch
        ≡ rules.step wait watch.old.watch (spec.consumed_at now (numbered_view message.now))) }
    ensures unchanged { OnErr result (watch.new.watch ≡ watch.old.watch) }
{
    let metrics = &message.payload.metrics;
    match &message.subject {
        Subject::NodeData => watch.consume_any_node_data(alloc, wait, metrics, now),
        Subject::DeviceData(device) => {
            watch.consume_any_device_data(alloc, wait, device.as_str(), metrics, now)
        }
        _ => show_other(alloc, watch, wait, message, now),
    }
}
