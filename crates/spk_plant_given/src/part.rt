//! What an item says of one edge node.
ghost use Rattle.std.specs.Prelude.{◌≡◌};
ghost use Rattle.std.specs.Option.{option_map};
ghost use Rattle.spk_reading.specs.View.{heard_view};
ghost use Rattle.spk_plant_given.specs.Part as plain;
ghost use Rattle.spk_host.specs.Inputs as inputs;

use spk_reading::{Content, Heard};

/// What an item says of an edge node.
#[derive(Clone, Copy, Debug, PartialEq, Eq)]
pub enum Part {
    /// NBIRTH, NDATA, DBIRTH, DDATA or DDEATH.
    Message,
    /// NDEATH, with its bdSeq.
    Death(u8),
    Nothing,
}

/// Whether these are the names of the same edge node.
fn is_same(group: &str, name: &str, other_group: &str, other_name: &str) -> bool
    ensures { result ≡ inputs.is_same group.now name.now other_group.now other_name.now }
{
    group == other_group && name == other_name
}

/// What the host read of the edge node of these names.
pub(crate) fn part_of(heard: &Option<Heard>, group: &str, name: &str) -> Part
    ensures { result ≡ plain.part_of group.now name.now (option_map heard_view heard.now) }
{
    let Some(Heard::Published { content, .. }) = heard else {
        return Part::Nothing;
    };
    match content {
        Content::Message(m) if is_same(group, name, m.group.as_str(), m.node.as_str()) => {
            Part::Message
        }
        Content::Death {
            group: other_group,
            node,
            bd,
        } if is_same(group, name, other_group.as_str(), node.as_str()) => Part::Death(*bd),
        _ => Part::Nothing,
    }
}
