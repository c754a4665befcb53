//! The event of a word.
ghost use Rattle.std.specs.Prelude.{◌≡◌};
ghost use Rattle.spk_reading.specs.View.{numbered_view};
ghost use Rattle.spk_historian.specs.Event.{event_view, what_view};
ghost use Rattle.spk_host_history.specs.Words.{consumed, what_of};

use spk_historian::{Event, Node, What};
use spk_host::Taken;
use spk_reading::Subject;
use spk_sequence::Kind;

/// What a message is about.
fn what_of(message: &Taken) -> What<'_>
    ensures { what_view result ≡ what_of (numbered_view message.now) }
{
    match &message.subject {
        Subject::NodeBirth => match message.kind {
            Kind::Birth { stamp, bd } => What::NodeBirth { stamp, bd },
            Kind::Other { stamp } => What::NodeBirth {
                stamp: stamp.unwrap_or(0),
                bd: 0,
            },
        },
        Subject::NodeData => What::NodeData,
        Subject::DeviceBirth(device) => What::DeviceBirth(device.as_str()),
        Subject::DeviceData(device) => What::DeviceData(device.as_str()),
        Subject::DeviceDeath(device) => What::DeviceDeath(device.as_str()),
    }
}

/// The event that a message of the node of this number was consumed at this moment.
pub(crate) fn consumed(message: &Taken, number: u32, at: u64) -> Event<'_>
    ensures { event_view result ≡ consumed number at (numbered_view message.now) }
{
    Event::Consumed {
        at,
        node: Node {
            number,
            group: message.group.as_str(),
            name: message.node.as_str(),
        },
        what: what_of(message),
        seq: message.number,
        payload: &message.payload,
    }
}
