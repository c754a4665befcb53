//! Data without texts, which are shown as they came.
ghost use Rattle.std.specs.Prelude.{◌≡◌, true};
ghost use Rattle.spk_reading.specs.View.{numbered_view};
ghost use Rattle.spk_host_rules.specs.Step as rules;
ghost use Rattle.spk_host_node.specs.Plain.{IsPlain};
ghost use Rattle.spk_host_node.specs.Step as spec;

use spk_reading::{Numbered, Subject};
use spk_view::{Watch, has_texts};

/// Whether a message is data, none of whose values is a text or bytes.
pub(crate) fn is_plain(message: &Numbered) -> bool
    ensures { result ≡ true → IsPlain (numbered_view message.now) }
{
    match &message.subject {
        Subject::NodeData | Subject::DeviceData(_) => !has_texts(&message.payload.metrics),
        _ => false,
    }
}

/// Such a message is shown. Answers whether a rebirth is asked for.
pub(crate) fn show_plain(watch: &mut Watch, wait: u64, message: &Numbered, now: u64) -> bool
    requires { IsPlain (numbered_view message.now) }
    ensures asks { result
        ≡ rules.asks wait watch.old.watch (spec.consumed_at now (numbered_view message.now)) }
    ensures watch { watch.new.watch
        ≡ rules.step wait watch.old.watch (spec.consumed_at now (numbered_view message.now)) }
{
    let metrics = &message.payload.metrics;
    match &message.subject {
        Subject::NodeData => watch.consume_node_data(wait, metrics, now),
        Subject::DeviceData(device) => {
            watch.consume_device_data(wait, device.as_str(), metrics, now)
        }
        _ => unreachable!(),
    }
}
