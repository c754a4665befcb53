//! A message for one session, with its QoS and RETAIN as they are sent.
ghost use Rattle.std.specs.Prelude.{Bool, ◌≡◌, OnOk};
ghost use Rattle.spk_packets.specs.Spelling.{spelling};
ghost use Rattle.spk_broker_rules.specs.Data as plain;
ghost use Rattle.spk_broker_rules.specs.Step.{hand};
ghost use Rattle.spk_broker_rules.specs.Words.{option_list, plain_packet, sent_as};
ghost use Rattle.spk_broker.specs.Drafts.{draft_view, left_by, served_by};
ghost use Rattle.spk_broker.specs.Encoded.{IsGiven};
ghost use Rattle.spk_broker.specs.Parts.{app_message_view};

use crate::app_message::AppMessage;
use crate::out::Draft;
use crate::retained_delivery::Given;
use crate::session::Session;
use spk_bytes::Bytes;
use spk_session::Sort;
use std::alloc::AllocError;

impl Session {
    /// The message goes to the session.
    fn hand(&mut self, draft: &mut Draft, app_message: &AppMessage) -> Result<(), AllocError>
        ensures was { self.new.was ≡ self.old.was }
        ensures left { OnOk result (
            option_list self.new.now ≡ left_by (hand (app_message_view app_message.now)) self.old.now) }
        ensures drafted { OnOk result (draft_view draft.new
            ≡ served_by (hand (app_message_view app_message.now)) self.old.now (draft_view draft.old)) }
    {
        if app_message.qos == 0 {
            return self.hand_plain(draft, app_message, app_message.retain);
        }
        self.hand_numbered(draft, app_message, app_message.qos, app_message.retain)
    }

    /// The bytes of a message of QoS 0 go to its connection, where it has one.
    fn hand_bytes(&mut self, draft: &mut Draft, bytes: Bytes) -> Result<(), AllocError>
        ensures was { self.new.was ≡ self.old.was }
        ensures left { OnOk result ((m : plain.AppMessage) (retain : Bool)
            → option_list self.new.now ≡ left_by (hand (sent_as m 0 retain)) self.old.now) }
        ensures drafted { OnOk result ((m : plain.AppMessage) (retain : Bool)
            → bytes ≡ spelling (plain_packet (sent_as m 0 retain))
            → draft_view draft.new
            ≡ served_by (hand (sent_as m 0 retain)) self.old.now (draft_view draft.old)) }
    {
        if self.ended {
            return Ok(());
        }
        if let Some(connection) = &self.here {
            draft.send(connection.conn, Sort::QosZero, bytes)?;
        }
        Ok(())
    }

    /// What is given of a retained message goes to the session.
    pub(crate) fn hand_given(&mut self, draft: &mut Draft, given: Given) -> Result<(), AllocError>
        ensures was { self.new.was ≡ self.old.was }
        ensures left { OnOk result ((p : plain.AppMessage) → IsGiven given p
            → option_list self.new.now ≡ left_by (hand p) self.old.now) }
        ensures drafted { OnOk result ((p : plain.AppMessage) → IsGiven given p
            → draft_view draft.new ≡ served_by (hand p) self.old.now (draft_view draft.old)) }
    {
        match given {
            Given::Plain(bytes) => {
                self.hand_bytes(draft, bytes)?;
                Ok(())
            }
            Given::Numbered(app_message) => {
                self.hand(draft, &app_message)?;
                Ok(())
            }
        }
    }
}
