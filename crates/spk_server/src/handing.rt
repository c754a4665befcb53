//! What the broker answers: packets to clients, and ends.
ghost use Rattle.std.specs.Prelude.{◌≡◌, ◌⊎◌, ◌++◌, ◌∷◌, [], ℕ, List, Option, Some, None, map, IfOk, OnOk, Ok, false, true};
ghost use Rattle.spk_broker.specs.Sent.{sent_view};
ghost use Rattle.spk_broker_rules.specs.Plan as event;
ghost use Rattle.spk_clients.specs.declared.cause.Cause.TheVariants as Cause;
ghost use Rattle.spk_clients.specs.Data.{AreNoted, IsSettled};
ghost use Rattle.spk_server.specs.Data.{Close, Offer, Slow};
ghost use Rattle.spk_server.specs.Step.{called_on, cause_for, changed, closes_of, grace, later, left, offer_of};
ghost use Rattle.spk_server.specs.Log.{Reaches, follows};
ghost use Rattle.spk_server.specs.Rooms.{amid, closes_in, offers_in, offers_of, pressed, room_of};
ghost use Rattle.spk_clients.specs.Client.{leaves};

use crate::answers::{closed_on, refused_on};
use crate::fault::ServerFault;
use crate::server::Server;
use crate::tally::is_message;
use spk_broker::{Conn, Out, Outgoing};
use spk_clients::Cause;
use spk_session::Sort;

/// How long a client whose end came may read what is left, in milliseconds (own rule).
const GRACE: u64 = 5_000;

/// Why one whom the broker closes is closed: where it is another one than that whose bytes came, for the cause beside that one.
fn cause_for(own: Option<(Conn, Cause)>, why: Cause, conn: Conn) -> Cause
    ensures { result ≡ cause_for own why conn }
{
    match own {
        Some((sender, other)) if conn != sender => other,
        _ => why,
    }
}

impl Server {
    /// Puts a packet behind those that wait for its client, or notes that it was refused. The client where many wait for it by
    /// now, else who was slow before.
    fn offer(&mut self, send: Outgoing, slow: Option<Conn>) -> Result<Option<Conn>, ServerFault>
        ensures hands { IfOk result (λ r. (by : Option ℕ) (rest : List Offer) (closes : List Close)
            (before : Option Slow) → Reaches follows
            (amid self.old (offer_of by (sent_view send) ∷ rest) closes (pressed by slow before))
            (amid self.new rest closes (pressed by r before))) }
        ensures noted { OnOk result (AreNoted self.old.clients → AreNoted self.new.clients) }
    {
        let Outgoing { conn, sort, bytes } = send;
        let message = is_message(&bytes);
        let answer = self.clients.offer(conn, sort, bytes)?;
        self.tally.hand(answer.0, message);
        let has_many = answer.1;
        if has_many {
            return Ok(Some(conn));
        }
        Ok(slow)
    }

    /// A client's end came, for this cause. Its socket is shut once all is written, at once or within five seconds.
    pub(crate) fn over(&mut self, conn: Conn, cause: Cause) -> Result<(), ServerFault>
        ensures ended { OnOk result (room_of self.new
            ≡ changed (leaves (later grace self.old.now) cause) conn (room_of self.old)) }
        ensures noted { OnOk result (AreNoted self.old.clients → AreNoted self.new.clients) }
    {
        let until = self.now.saturating_add(GRACE);
        self.clients.end(conn, until, cause)?;
        Ok(())
    }

    /// Offers these packets, in order. The last client among theirs for whom many wait.
    fn offer_all(&mut self, sends: Vec<Outgoing>) -> Result<Option<Conn>, ServerFault>
        ensures hands { IfOk result (λ r. (by : Option ℕ) (closes : List Close) (before : Option Slow)
            → Reaches follows (amid self.old (offers_of by sends.items) closes before)
            (amid self.new [] closes (pressed by r before))) }
        ensures noted { OnOk result (AreNoted self.old.clients → AreNoted self.new.clients) }
    {
        let mut slow = None;
        for send in sends {
            slow = self.offer(send, slow)?;
        }
        Ok(slow)
    }

    /// The end of one whom the broker closes came.
    fn close(
        &mut self,
        conn: Conn,
        own: Option<(Conn, Cause)>,
        why: Cause,
    ) -> Result<(), ServerFault>
        ensures ended { OnOk result (room_of self.new
            ≡ changed (leaves (later grace self.old.now) (cause_for own why conn)) conn (room_of self.old)) }
        ensures noted { OnOk result (AreNoted self.old.clients → AreNoted self.new.clients) }
    {
        let cause = cause_for(own, why, conn);
        self.over(conn, cause)?;
        Ok(())
    }

    /// The ends of these clients came, whom the broker closes for this cause; at a packet of one of them each other was taken over.
    fn end_all(
        &mut self,
        closes: Vec<Conn>,
        own: Option<(Conn, Cause)>,
        why: Cause,
    ) -> Result<(), ServerFault>
        ensures hands { OnOk result ((more : List Close) (slow : Option Slow)
            → Reaches follows (amid self.old [] (closes_of own why closes.items ++ more) slow)
            (amid self.new [] more slow)) }
        ensures noted { OnOk result (AreNoted self.old.clients → AreNoted self.new.clients) }
    {
        for conn in closes {
            self.close(conn, own, why)?;
        }
        Ok(())
    }

    /// Offers what a call answered, in order, and then ends those whom it closes. The last client among those it sends to for
    /// whom many wait.
    fn hand_out(
        &mut self,
        out: Out,
        own: Option<(Conn, Cause)>,
        why: Cause,
    ) -> Result<Option<Conn>, ServerFault>
        ensures hands { IfOk result (λ r. (by : Option ℕ) (more : List Close) (before : Option Slow)
            → Reaches follows
            (amid self.old (offers_of by out.sends.items) (closes_of own why out.closes.items ++ more) before)
            (amid self.new [] more (pressed by r before))) }
        ensures noted { OnOk result (AreNoted self.old.clients → AreNoted self.new.clients) }
    {
        let Out { sends, closes } = out;
        let slow = self.offer_all(sends)?;
        self.end_all(closes, own, why)?;
        Ok(slow)
    }

    /// The same, where there is an answer.
    pub(crate) fn hand_on(
        &mut self,
        answer: Option<Out>,
        own: Option<(Conn, Cause)>,
        why: Cause,
    ) -> Result<Option<Conn>, ServerFault>
        ensures hands { IfOk result (λ r. (by : Option ℕ) (more : List Close) (before : Option Slow)
            → Reaches follows
            (amid self.old (offers_in by answer) (closes_in own why answer ++ more) before)
            (amid self.new [] more (pressed by r before))) }
        ensures noted { OnOk result (AreNoted self.old.clients → AreNoted self.new.clients) }
    {
        let Some(out) = answer else {
            return Ok(None);
        };
        let slow = self.hand_out(out, own, why)?;
        Ok(slow)
    }

    /// Ends a client's connection without its packet, for this cause: its will is routed.
    pub(crate) fn end(&mut self, conn: Conn, cause: Cause) -> Result<(), ServerFault>
        ensures ends { OnOk result ((before : Option Slow)
            → Reaches follows (left conn cause (amid self.old [] [] before))
            (amid self.new [] [] before)) }
        ensures noted { OnOk result (AreNoted self.old.clients → AreNoted self.new.clients) }
    {
        self.over(conn, cause)?;
        let left = closed_on(&mut self.noted, conn, self.now)?;
        self.hand_on(left, None, Cause::Slow)?;
        Ok(())
    }

    /// A refused packet comes to the broker. Where memory is refused its client is ended.
    fn come_refused(&mut self, conn: Conn, sort: Sort) -> Result<(), ServerFault>
        ensures tells { OnOk result ((before : Option Slow)
            → Reaches follows
            (called_on None conn (event.Refused conn sort self.old.now) (amid self.old [] [] before))
            (amid self.new [] [] before)
            ⊎ Reaches follows (left conn Cause.Memory (amid self.old [] [] before))
            (amid self.new [] [] before)) }
        ensures noted { OnOk result (AreNoted self.old.clients → AreNoted self.new.clients) }
    {
        let Ok(answer) = refused_on(&mut self.noted, conn, sort, self.now) else {
            self.end(conn, Cause::Memory)?;
            return Ok(());
        };
        self.hand_on(answer, None, Cause::Slow)?;
        Ok(())
    }

    /// Tells the broker of the next refused packet. Whether there was one.
    fn tell(&mut self) -> Result<bool, ServerFault>
        ensures tells { OnOk result ((before : Option Slow)
            → Reaches follows (amid self.old [] [] before) (amid self.new [] [] before)) }
        ensures noted { OnOk result (AreNoted self.old.clients → AreNoted self.new.clients) }
        ensures told { result ≡ Ok false → AreNoted self.old.clients → IsSettled self.new.clients }
    {
        let Some((conn, sort)) = self.clients.next_to_tell() else {
            return Ok(false);
        };
        let Some(sort) = sort else {
            return Ok(true);
        };
        self.come_refused(conn, sort)?;
        Ok(true)
    }

    /// Tells the broker of all refused packets.
    pub(crate) fn tell_all(&mut self) -> Result<(), ServerFault>
        ensures tells { OnOk result ((before : Option Slow)
            → Reaches follows (amid self.old [] [] before) (amid self.new [] [] before)) }
        ensures settled { OnOk result (AreNoted self.old.clients → IsSettled self.new.clients) }
    {
        for _ in 0..u64::MAX {
            if !self.tell()? {
                return Ok(());
            }
        }
        Err(ServerFault::NoMemory)
    }
}
