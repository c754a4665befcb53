//! A second one of what was heard, without a second reading.
ghost use Rattle.std.specs.Prelude.{◌≡◌, IfOk};
ghost use Rattle.std.specs.String.{string_bytes};
ghost use Rattle.spk_reading.specs.View.{content_view, heard_view, numbered_view, subject_view};

use crate::said::{Content, Heard, Numbered, Subject};
use std::alloc::{AllocError, Global};

/// The same text.
fn copied(alloc: Global, text: &String) -> Result<String, AllocError>
    ensures { IfOk result (λ t. string_bytes t ≡ string_bytes text.now) }
{
    String::from_str(alloc, text.as_str())
}

impl Subject {
    /// An equal one.
    fn copy(&self, alloc: Global) -> Result<Subject, AllocError>
        ensures { IfOk result (λ s. subject_view s ≡ subject_view self.now) }
    {
        Ok(match self {
            Subject::NodeBirth => Subject::NodeBirth,
            Subject::NodeData => Subject::NodeData,
            Subject::DeviceBirth(device) => Subject::DeviceBirth(copied(alloc, device)?),
            Subject::DeviceData(device) => Subject::DeviceData(copied(alloc, device)?),
            Subject::DeviceDeath(device) => Subject::DeviceDeath(copied(alloc, device)?),
        })
    }
}

impl Numbered {
    /// An equal one.
    fn copy(&self, alloc: Global) -> Result<Numbered, AllocError>
        ensures { IfOk result (λ m. numbered_view m ≡ numbered_view self.now) }
    {
        Ok(Numbered {
            group: copied(alloc, &self.group)?,
            node: copied(alloc, &self.node)?,
            subject: self.subject.copy(alloc)?,
            number: self.number,
            kind: self.kind,
            topic: copied(alloc, &self.topic)?,
            payload: self.payload.copy(alloc)?,
        })
    }
}

impl Content {
    /// An equal one.
    fn copy(&self, alloc: Global) -> Result<Content, AllocError>
        ensures { IfOk result (λ c. content_view c ≡ content_view self.now) }
    {
        match self {
            Content::Message(message) => Ok(Content::Message(message.copy(alloc)?)),
            Content::Death { group, node, bd } => Ok(Content::Death {
                group: copied(alloc, group)?,
                node: copied(alloc, node)?,
                bd: *bd,
            }),
            Content::Nothing => Ok(Content::Nothing),
        }
    }
}

impl Heard {
    /// An equal one.
    pub fn copy(&self, alloc: Global) -> Result<Heard, AllocError>
        ensures { IfOk result (λ h. heard_view h ≡ heard_view self.now) }
    {
        match self {
            Heard::Published { ack, content } => Ok(Heard::Published {
                ack: *ack,
                content: content.copy(alloc)?,
            }),
            Heard::Answered(code) => Ok(Heard::Answered(*code)),
            Heard::Granted => Ok(Heard::Granted),
            Heard::Other => Ok(Heard::Other),
        }
    }
}
