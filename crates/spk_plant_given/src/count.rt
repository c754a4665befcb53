//! How many numbered messages of an edge node are among the frames that the broker took.
ghost use Rattle.std.specs.Prelude.{◌≡◌, ◌≤◌, ◌<◌, ◌+◌, length, min, true, false, IfOk};
ghost use Rattle.spk_packets.specs.View.{view};
ghost use Rattle.spk_topics.specs.Spark.{named};
ghost use Rattle.spk_plant_broker.specs.Data.{Says};
ghost use Rattle.spk_plant_relay.specs.Shown.{is_on};
ghost use Rattle.spk_plant_relay.specs.Topics.{is_numbered_name, is_numbered_topic};
ghost use Rattle.spk_plant_given.specs.Numbered.{IsCount, IsNumberedFrame};

use spk_ingress::{Frame, Message};
use spk_packets::Packet;
use spk_packets::laws::prefix_free;
use spk_topics::{Spark, TopicFault, Verb};
use std::alloc::{AllocError, Global};

/// Of the first frames that were taken, so many, how many are numbered messages.
#[derive(Clone, Copy, Debug)]
pub struct Count {
    pub(crate) frames: usize,
    pub(crate) numbered: usize,
}

/// An edge node by its names, and its place among the senders.
#[derive(Clone, Copy)]
pub(crate) struct Sender<'a> {
    pub(crate) group: &'a str,
    pub(crate) name: &'a str,
    pub(crate) place: usize,
}

/// Whether what has these names is sent with a sequence number, by the node of these.
fn is_numbered_name(names: &Spark, group: &str, name: &str) -> bool
    ensures { result ≡ is_numbered_name group.now name.now (named names.now) }
{
    match names {
        Spark::Node {
            group: other,
            kind,
            node,
        } => match kind {
            Verb::Birth | Verb::Data => other.as_str() == group && node.as_str() == name,
            Verb::Death | Verb::Command => false,
        },
        Spark::Device {
            group: other,
            kind,
            node,
            ..
        } => match kind {
            Verb::Birth | Verb::Data | Verb::Death => {
                other.as_str() == group && node.as_str() == name
            }
            Verb::Command => false,
        },
        Spark::State { .. } => false,
    }
}

impl Sender<'_> {
    /// Whether a topic is one of its numbered messages.
    fn is_topic(self, alloc: Global, topic: &str) -> Result<bool, AllocError>
        ensures { IfOk result (λ b. b ≡ is_numbered_topic self.entry.group.now self.entry.name.now topic.now) }
    {
        match Spark::read(alloc, topic) {
            Ok(names) => Ok(is_numbered_name(&names, self.group, self.name)),
            Err(TopicFault::NotSparkplug) => Ok(false),
            Err(_) => Err(AllocError),
        }
    }

    /// Whether a packet is a PUBLISH of such a topic.
    fn is_said(self, alloc: Global, packet: &Packet) -> Result<bool, AllocError>
        ensures { IfOk result (λ b. b
            ≡ is_on (is_numbered_topic self.entry.group.now self.entry.name.now) (Says (view packet.now))) }
    {
        match packet {
            Packet::Publish { topic, .. } => self.is_topic(alloc, topic.as_str()),
            _ => Ok(false),
        }
    }

    /// Whether a frame is a numbered message of it.
    fn is_numbered(self, alloc: Global, message: &Message) -> Result<bool, AllocError>
        ensures yes { IfOk result (λ b. b ≡ true → IsNumberedFrame
            (is_numbered_topic self.entry.group.now self.entry.name.now) self.entry.place message.now) }
        ensures no { IfOk result (λ b. b ≡ false → IsNumberedFrame
            (is_numbered_topic self.entry.group.now self.entry.name.now) self.entry.place message.now → ⊥) }
    {
        prefix_free();
        if message.sender != self.place {
            return Ok(false);
        }
        let Frame::Packet(whole) = &message.frame else {
            return Ok(false);
        };
        let Ok(packet) = whole.read(alloc) else {
            return Err(AllocError);
        };
        self.is_said(alloc, &packet)
    }

    /// How many of the frames up to this place are numbered messages of it, from what was counted up to an earlier place.
    fn count_on(
        self,
        alloc: Global,
        taken: &[Message],
        before: Count,
        until: usize,
    ) -> Result<Count, AllocError>
        requires counted { IsCount (is_numbered_topic self.group.now self.name.now) self.place
            taken.now before }
        requires further { before.frames ≤ until }
        requires within { until ≤ length taken.now }
        ensures counted { IfOk result (λ c. IsCount
            (is_numbered_topic self.entry.group.now self.entry.name.now) self.entry.place taken.now c) }
        ensures frames { IfOk result (λ c. c.frames ≡ until) }
    {
        let mut numbered = before.numbered;
        for at in before.frames..until {
            if !self.is_numbered(alloc, &taken[at])? {
                continue;
            }
            numbered += 1;
        }
        Ok(Count {
            frames: until,
            numbered,
        })
    }

    /// How many of the first frames, so many, are numbered messages of it.
    pub(crate) fn count_to(
        self,
        alloc: Global,
        taken: &[Message],
        before: Count,
        frames: usize,
    ) -> Result<Count, AllocError>
        requires { IsCount (is_numbered_topic self.group.now self.name.now) self.place
            taken.now before }
        ensures counted { IfOk result (λ c. IsCount
            (is_numbered_topic self.entry.group.now self.entry.name.now) self.entry.place taken.now c) }
        ensures frames { IfOk result (λ c. c.frames ≡ min frames (length taken.now)) }
    {
        let until = frames.min(taken.len());
        if before.frames <= until {
            return self.count_on(alloc, taken, before, until);
        }
        let none = Count {
            frames: 0,
            numbered: 0,
        };
        self.count_on(alloc, taken, none, until)
    }
}
