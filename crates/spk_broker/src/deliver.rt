//! What one message does to one session.
ghost use Rattle.std.specs.Prelude.{◌≡◌, ◌≤◌, OnOk, IfOk, IfSome, Some, None, false};
ghost use Rattle.spk_broker_rules.specs.Step.{bursts, hand, hand_at, serve};
ghost use Rattle.spk_broker_rules.specs.Words.{best as rules_best, option_list, sent_as};
ghost use Rattle.spk_broker.specs.Drafts.{draft_view, hand_some, left_by, served_by};
ghost use Rattle.spk_broker.specs.Parts.{in_flight_view, app_message_view};

use crate::app_message::AppMessage;
use crate::delivery::Delivery;
use crate::granted_qos::{best, level};
use crate::out::Draft;
use crate::session::{InFlight, Session};
use spk_session::Sort;
use std::alloc::AllocError;

/// What a kept session keeps of a message of QoS 1.
fn copied(
    app_message: &AppMessage,
    id: u16,
    qos: u8,
    retain: bool,
    handed: bool,
) -> Result<InFlight, AllocError>
    requires id { 1 ≤ id }
    requires one { qos ≡ 1 }
    requires full { app_message.now.qos ≡ 1 }
    ensures { IfOk result
        (λ c. in_flight_view c
        ≡ record { id = id; app_message = sent_as (app_message_view app_message.now) qos retain; handed = handed }) }
{
    Ok(InFlight {
        id,
        app_message: app_message.copied(qos, retain)?,
        handed,
    })
}

impl Session {
    /// The session ends, and its connection with it; its will waits (own rule).
    fn burst(&mut self, draft: &mut Draft) -> Result<(), AllocError>
        ensures was { self.new.was ≡ self.old.was }
        ensures left { OnOk result (option_list self.new.now ≡ left_by bursts self.old.now) }
        ensures drafted { OnOk result (draft_view draft.new
            ≡ served_by bursts self.old.now (draft_view draft.old)) }
    {
        if self.ended {
            return Ok(());
        }
        if let Some(connection) = &self.here {
            draft.tell(connection.conn)?;
            if let Some(will) = &connection.will {
                draft.queue(will.copied(will.qos, will.retain)?)?;
            }
        }
        self.ended = true;
        Ok(())
    }

    /// A message of QoS 0 goes to its connection, where it has one.
    pub(crate) fn hand_plain(
        &mut self,
        draft: &mut Draft,
        app_message: &AppMessage,
        retain: bool,
    ) -> Result<(), AllocError>
        ensures was { self.new.was ≡ self.old.was }
        ensures left { OnOk result (option_list self.new.now
            ≡ left_by (hand (sent_as (app_message_view app_message.now) 0 retain)) self.old.now) }
        ensures drafted { OnOk result (draft_view draft.new
            ≡ served_by (hand (sent_as (app_message_view app_message.now) 0 retain)) self.old.now
            (draft_view draft.old)) }
    {
        if self.ended {
            return Ok(());
        }
        if let Some(connection) = &self.here {
            let bytes = app_message.spelled(draft.alloc, false, 0, retain, None)?;
            draft.send(connection.conn, Sort::QosZero, bytes)?;
        }
        Ok(())
    }

    /// A message of QoS 0 without RETAIN goes to its connection, where it has one: all who get it so share the bytes.
    fn hand_delivery(
        &mut self,
        draft: &mut Draft,
        delivery: &mut Delivery<'_>,
    ) -> Result<(), AllocError>
        ensures was { self.new.was ≡ self.old.was }
        ensures left { OnOk result (option_list self.new.now
            ≡ left_by (hand (sent_as delivery.old 0 false)) self.old.now) }
        ensures drafted { OnOk result (draft_view draft.new
            ≡ served_by (hand (sent_as delivery.old 0 false)) self.old.now (draft_view draft.old)) }
        ensures delivery { delivery.new ≡ delivery.old }
    {
        if self.ended {
            return Ok(());
        }
        if let Some(connection) = &self.here {
            let bytes = delivery.plain(draft.alloc)?;
            draft.send(connection.conn, Sort::QosZero, bytes)?;
        }
        Ok(())
    }

    /// A message of QoS 1 gets the next identifier, and a kept session keeps it in flight; one that may have no further
    /// message ends.
    pub(crate) fn hand_numbered(
        &mut self,
        draft: &mut Draft,
        app_message: &AppMessage,
        qos: u8,
        retain: bool,
    ) -> Result<(), AllocError>
        requires one { qos ≡ 1 }
        requires full { app_message.now.qos ≡ 1 }
        ensures was { self.new.was ≡ self.old.was }
        ensures left { OnOk result (option_list self.new.now
            ≡ left_by (hand_some (sent_as (app_message_view app_message.now) qos retain)) self.old.now) }
        ensures drafted { OnOk result (draft_view draft.new
            ≡ served_by (hand_some (sent_as (app_message_view app_message.now) qos retain)) self.old.now
            (draft_view draft.old)) }
    {
        if self.ended {
            return Ok(());
        }
        let Ok(id) = self.ids.sent() else {
            return self.burst(draft);
        };
        if self.kept {
            let message = copied(app_message, id, qos, retain, self.here.is_some())?;
            self.in_flight.push(message)?;
        }
        if let Some(connection) = &self.here {
            let bytes = app_message.spelled(draft.alloc, false, 1, retain, Some(id))?;
            draft.send(connection.conn, Sort::Other, bytes)?;
        }
        Ok(())
    }

    /// What a routed message does to the session: it goes to it with the lesser of its QoS and the greatest one
    /// granted for its topic, without RETAIN (sections 3.3.1.3 and 3.8.4).
    pub(crate) fn serve(
        &mut self,
        draft: &mut Draft,
        delivery: &mut Delivery<'_>,
    ) -> Result<(), AllocError>
        ensures was { self.new.was ≡ self.old.was }
        ensures left { OnOk result (option_list self.new.now
            ≡ left_by (serve delivery.old) self.old.now) }
        ensures drafted { OnOk result (draft_view draft.new
            ≡ served_by (serve delivery.old) self.old.now (draft_view draft.old)) }
        ensures delivery { delivery.new ≡ delivery.old }
    {
        if self.ended {
            return Ok(());
        }
        let app_message = delivery.app_message();
        match level(app_message.qos, self.best(app_message.topic.as_str())) {
            None => Ok(()),
            Some(0) => self.hand_delivery(draft, delivery),
            Some(qos) => self.hand_numbered(draft, app_message, qos, false),
        }
    }

    /// The greatest QoS granted for a topic.
    fn best(&self, topic: &str) -> Option<u8>
        ensures { IfSome self.now.now (λ s. result ≡ rules_best topic.now s.grants) }
    {
        match &self.regrant {
            Some(grants) => best(grants, topic),
            None => best(&self.grants, topic),
        }
    }
}
