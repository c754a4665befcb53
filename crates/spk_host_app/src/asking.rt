//! Requests for a rebirth that whoever runs the program asks for, beside those of the rules.
ghost use Rattle.std.specs.Prelude.{◌≡◌, ◌∷◌, [], map, true, false, IfOk, OnErr, if◌then◌else◌};
ghost use Rattle.spk_host_app.specs.Data.{Requested, Whole};
ghost use Rattle.spk_host_app.specs.Log.{IsAnswered, IsRequested};
ghost use Rattle.spk_host_app.specs.Step.{after, answered, may_request, request_words};
ghost use Rattle.spk_host_app.specs.View.{word};

use crate::app::HostApp;
use crate::fault::HostAppFault;
use crate::said::Said;
use spk_host::HostFault;
use spk_host_session::rebirth;
use spk_topics::{Spark, Verb};
use std::alloc::{AllocError, Global};

/// What is said of a request to a node.
fn asked(alloc: Global, group: &str, node: &str) -> Result<Vec<Said>, AllocError>
    ensures { IfOk result (λ v. map word v.items ≡ request_words group.now node.now) }
{
    let topic = Spark::Node {
        group: String::from_str(alloc, group)?,
        kind: Verb::Command,
        node: String::from_str(alloc, node)?,
    };
    let mut words = Vec::new(alloc);
    words.push(Said::Asked(topic))?;
    Ok(words)
}

impl HostApp {
    /// Asks a node for a rebirth, whatever the rules ask for: an NCMD whose one metric is `Node Control/Rebirth`, true, waits to be written (Sparkplug 3.0.0,
    /// chapter 6), and that it was asked for is said. To be called once the subscription is granted, so that the births come.
    ///
    /// Answers whether it was asked. It isn't where there is no connection or it is to be closed, where 1,024 words or more wait to be printed, and where the
    /// names can't stand in the topic; nothing has changed then. Fails with NoMemory (1), and then the connection is to be closed.
    pub fn ask(&mut self, group: &str, node: &str, now: u64) -> Result<bool, HostAppFault>
        ensures asked { IfOk result (λ asked. asked ≡ may_request group.now node.now self.old) }
        ensures done { IfOk result (λ asked. self.new ≡ (if asked then
            after (Requested group.now node.now now Whole) self.old else self.old)) }
        ensures failed { OnErr result ((self.new.closing ≡ true)
            × IsRequested group.now node.now now self.old self.new) }
    {
        if self.closing || self.is_full() || !self.connection.is_open() {
            return Ok(false);
        }
        let bytes = match rebirth(self.alloc, group, node, now) {
            Ok(bytes) => bytes,
            Err(HostFault::NotSparkplug) => return Ok(false),
            Err(_) => return Err(self.give_up(HostAppFault::NoMemory)),
        };
        let Ok(words) = asked(self.alloc, group, node) else {
            return Err(self.give_up(HostAppFault::NoMemory));
        };
        self.answer(words, bytes.as_slice())?;
        Ok(true)
    }
}
