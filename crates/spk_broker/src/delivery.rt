//! A message on its way to all who get it.
ghost use Rattle.std.specs.Prelude.{◌≡◌, IfOk, None, false};
ghost use Rattle.spk_packets.specs.Spelling.{spelling};
ghost use Rattle.spk_broker.specs.Deliveries.{as_plain};
ghost use Rattle.spk_broker.specs.Parts.{app_message_view};

use crate::app_message::AppMessage;
use crate::out::spelled_publish;
use spk_bytes::Bytes;
use std::alloc::{AllocError, Global};
use std::marker::Model;

/// A message on its way. Where it goes with QoS 0 it is encoded once, and who gets it so shares the bytes.
#[derive(Debug, Drop)]
pub(crate) struct Delivery<'a> {
    app_message: &'a AppMessage,
    /// Encoded, with QoS 0 and without RETAIN.
    plain: Option<Bytes>,
}

impl<'a> Model for Delivery<'a> {
    ghost use Rattle.std.specs.Prelude.{◌≡◌, IfSome};
    ghost use Rattle.spk_packets.specs.Spelling.{spelling};
    ghost use Rattle.spk_broker_rules.specs.Data as parts;
    ghost use Rattle.spk_broker.specs.Deliveries.{as_plain};
    ghost use Rattle.spk_broker.specs.Parts.{app_message_view};

    ghost Value = { parts.AppMessage };

    ghost view = { λ l. app_message_view l.app_message.now };

    ghost invariant = { λ l. IfSome l.plain (λ b. b ≡ spelling (as_plain (app_message_view l.app_message.now))) };
}

impl<'a> Delivery<'a> {
    /// A message that goes to nobody yet.
    pub(crate) fn new(app_message: &'a AppMessage) -> Delivery<'a>
        ensures { result ≡ app_message_view app_message.now }
    {
        Delivery {
            app_message,
            plain: None,
        }
    }

    /// The message.
    pub(crate) fn app_message(&self) -> &'a AppMessage
        ensures { app_message_view result.now ≡ self.now }
    {
        self.app_message
    }

    /// Its bytes with QoS 0 and without RETAIN: encoded at the first call, shared at the others.
    pub(crate) fn plain(&mut self, alloc: Global) -> Result<Bytes, AllocError>
        ensures bytes { IfOk result (λ b. b ≡ spelling (as_plain self.old)) }
        ensures same { self.new ≡ self.old }
    {
        if let Some(bytes) = &self.plain {
            return bytes.share();
        }
        let publish = self.app_message.as_publish(false, 0, false, None);
        let bytes = Bytes::shared(spelled_publish(alloc, &publish)?)?;
        let first = bytes.share()?;
        self.plain = Some(bytes);
        Ok(first)
    }
}
