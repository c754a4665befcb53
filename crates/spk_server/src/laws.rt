//! What holds of each list of calls, and of each run of deeds.

ghost use Rattle.std.specs.Prelude.{◌≡◌, ◌<◌, ◌≤◌, ◌++◌, ◌∷◌, [], List, Some, None, ℕ, min, not, true, false, Contains};
ghost use Rattle.std.specs.List.{list_all};
ghost use Rattle.std.specs.Option.{IfSome};
ghost use Rattle.spk_packets.specs.Message.{Message};
ghost use Rattle.spk_packets.specs.Stream as stream;
ghost use Rattle.spk_outbox.specs.Calls as outbox;
ghost use Rattle.spk_outbox.specs.Data.{fresh_outbox, waiting};
ghost use Rattle.spk_clients.specs.declared.cause.Cause.{Cause};
ghost use Rattle.spk_clients.specs.Client.{is_done, is_over, most_number};
ghost use Rattle.spk_clients.specs.Data.{IsSettled, NobodyIsDue};
ghost use Rattle.spk_clients.specs.declared.client.Client.{Client};
ghost use Rattle.spk_server.specs.declared.server.Server.{Server};
ghost use Rattle.spk_server.specs.Data.{Begun, Deed, Room, Wrote};
ghost use Rattle.spk_broker_notes.specs.Noted.{Noted, bytes_of, records};
ghost use Rattle.spk_broker_replay.specs.Replay.{journal, restored, run};
ghost use Rattle.spk_server.specs.Calls.{AreDone, Call, LogOf, room_with, shut_calls};
ghost use Rattle.spk_server.specs.Log.{IsRested, IsRun, any_deed, is_open};
ghost use Rattle.spk_server.specs.Past.{IsEndedBy, begins_anew, comes_from, drops, handed_of, hears, hears_publish, how_many, joins, kept_of, outbox_of, sends_from, sends_publish, stalls_from, stream_of};
ghost use Rattle.spk_server.specs.Rooms.{IsCalm, due_of, room_of};
ghost use Rattle.spk_server.specs.Step.{after, awaits, grace, is_among, later};

/// Whatever calls were done, one after the other, from a server without clients on: there is one run of deeds that is all that they did, call by
/// call, and it leads to what the server holds.
pub fn calls_are_deeds()
    ensures log { (x : Noted) (calls : List Call) (r : Room) → AreDone (room_with x) calls r
        → (log : List Deed) × LogOf calls log × IsRun any_deed (room_with x) log r }
    ensures rested { (s : Server) → IsSettled s.clients → IsRested (room_of s) }
{}

/// For each client: its packets that came are, in order, those which the bytes spell that were taken in since it came; what is left
/// waits to be whole packets. Whatever other pieces the same bytes, and maybe more, are fed in: the packets that come of them begin
/// with these.
pub fn packets_are_spelled()
    ensures stream { (x : Noted) (log : List Deed) (r : Room) (k : ℕ) (c : Client)
        → IsRun any_deed (room_with x) log r → r.clients k ≡ Some c
        → stream.IsRun [] (stream_of k log) c.feed }
    ensures first { (x : Noted) (log : List Deed) (r : Room) (k : ℕ) (c : Client) (others : List stream.Event)
        (more y : List ℕ) → IsRun any_deed (room_with x) log r → r.clients k ≡ Some c
        → stream.IsRun [] others y → stream.fed (stream_of k log) ++ more ≡ stream.fed others
        → stream.HasNoPacket y → (later : List Message)
        × (stream.given others ≡ stream.given (stream_of k log) ++ later) }
{
    spk_packets::laws::any_pieces();
}

/// What the broker's rules send for the events of a run is offered to its clients, all of it and in order, once nothing is left to
/// be offered.
pub fn sends_are_offered()
    ensures { (x : Noted) (log : List Deed) (r : Room) → IsRun any_deed (room_with x) log r → r.pending ≡ []
        → handed_of log ≡ sends_from (room_with x) log }
{}

/// For each client: what was written to it since it came and what waits for it are together the sends that it was offered and that
/// were taken, byte for byte and in order.
pub fn written_and_waiting_are_owed()
    ensures { (x : Noted) (log : List Deed) (r : Room) (k : ℕ) (c : Client) → IsRun any_deed (room_with x) log r
        → r.clients k ≡ Some c
        → outbox.sent (outbox_of k log) fresh_outbox ++ waiting c.outbox
        ≡ outbox.owed (outbox_of k log) }
{
    spk_outbox::laws::written_and_waiting_are_owed();
}

/// Whoever waits for another, so that nothing of it is read, is among those whom `go_on` looks at.
pub fn who_waits_is_looked_at()
    ensures { (x : Noted) (log : List Deed) (r : Room) (k : ℕ) → IsRun any_deed (room_with x) log r
        → awaits r.clients k ≡ true → is_among k r.held ≡ true }
{}

/// Behind a client's end, or where it isn't here, nothing that it sends is taken in or comes of it, as long as it doesn't come anew.
pub fn nothing_comes_behind_an_end()
    ensures { (log : List Deed) (r s : Room) (k : ℕ) → IsRun any_deed r log s → is_open r k ≡ false
        → list_all (λ d. not (joins k d)) log ≡ true → list_all (λ d. not (hears k d)) log ≡ true }
{}

/// Of two causes the first counts: a client whose end came keeps the cause with which it did, as long as it doesn't come anew.
pub fn first_cause_stays()
    ensures { (log : List Deed) (r s : Room) (k : ℕ) (why : Cause) → IsRun any_deed r log s
        → list_all (λ d. not (joins k d)) log ≡ true
        → IfSome (r.clients k) (IsEndedBy why) → IfSome (s.clients k) (IsEndedBy why) }
{}

/// A client whose end came is shut by the next calls of `next_to_shut`, until it answers None: it is among the answers, with the cause of
/// its end, and isn't here any more. So it is once nothing waits for it or its socket takes no more; and where its end had come five
/// seconds ago and `moment` was called, so that nobody's moment has come, whatever waits.
pub fn who_is_closed_is_shut()
    ensures done { (x : Noted) (log : List Deed) (r s : Room) (k : ℕ) (c : Client) (shut : List (ℕ × Cause))
        → IsRun any_deed (room_with x) log r → r.clients k ≡ Some c → is_over c ≡ true → is_done c ≡ true
        → AreDone r (shut_calls shut) s → Contains shut (k, c.cause) × (s.clients k ≡ None) }
    ensures late { (x : Noted) (before behind : List Deed) (q r s : Room) (k : ℕ) (c : Client)
        (shut : List (ℕ × Cause)) → IsRun any_deed (room_with x) before q
        → IfSome (q.clients k) (λ b. is_over b ≡ true) → IsRun any_deed q behind r
        → list_all (λ d. not (joins k d)) behind ≡ true → r.clients k ≡ Some c
        → NobodyIsDue r.now r.clients → later grace q.now ≤ r.now
        → AreDone r (shut_calls shut) s → Contains shut (k, c.cause) × (s.clients k ≡ None) }
{}

/// Before the moment that `due` says nothing is to be done: nobody's moment has come, whoever waits for another waits still, and the
/// broker was told of the time less than a second ago.
pub fn nothing_is_due_before()
    ensures { (s : Server) (m now : ℕ) → IsSettled s.clients → due_of s ≡ Some m → now < m → IsCalm now s }
{}

/// Each count is the number of such deeds since the server began: PUBLISH packets of clients that were taken, PUBLISH packets for clients
/// that were put among what waits to be written, packets for clients that were refused, and waits that a publisher began. It stands at
/// the greatest number.
pub fn counts_are_of_the_log()
    ensures heard { (x : Noted) (log : List Deed) (r : Room) → IsRun any_deed (room_with x) log r
        → r.tally.heard ≡ min (how_many hears_publish log) most_number }
    ensures sent { (x : Noted) (log : List Deed) (r : Room) → IsRun any_deed (room_with x) log r
        → r.tally.sent ≡ min (how_many sends_publish log) most_number }
    ensures dropped { (x : Noted) (log : List Deed) (r : Room) → IsRun any_deed (room_with x) log r
        → r.tally.dropped ≡ min (how_many drops log) most_number }
    ensures stalls { (x : Noted) (log : List Deed) (r : Room) → IsRun any_deed (room_with x) log r
        → r.tally.stalls ≡ min (stalls_from (room_with x) log) most_number }
{}

/// What comes to the broker in a run leads it where its rules say. Since notes began, what was kept and what waits to be kept are together the records of
/// all that `spk_broker_replay` notes of what came since, in order: behind what the broker kept when they began they are the journal that
/// `spk_broker_restart` speaks of. Where nothing is noted that stays so until notes begin.
pub fn notes_are_of_the_log()
    ensures broker { (log : List Deed) (r s : Room) → IsRun any_deed r log s
        → s.noted.broker ≡ run r.noted.broker (comes_from r log) }
    ensures notes { (limit : ℕ) (log : List Deed) (r s : Room) → IsRun any_deed (after Begun r) log s
        → list_all (λ d. not (begins_anew d)) log ≡ true
        → kept_of log ++ bytes_of s.noted.notes
        ≡ records (journal r.noted.broker (restored limit r.noted.broker) (comes_from (after Begun r) log)) }
    ensures none { (log : List Deed) (r s : Room) → IsRun any_deed r log s
        → list_all (λ d. not (begins_anew d)) log ≡ true → r.noted.notes ≡ None → s.noted.notes ≡ None }
{
    spk_broker_notes::laws::noted();
}

/// Bytes go to a client only once all is kept that came to the broker until then: what was kept is the journal of all of it.
pub fn written_once_kept()
    ensures { (limit : ℕ) (before behind : List Deed) (r s : Room) (conn count : ℕ)
        → IsRun any_deed (after Begun r) (before ++ Wrote conn count ∷ behind) s
        → list_all (λ d. not (begins_anew d)) before ≡ true
        → kept_of before
        ≡ records (journal r.noted.broker (restored limit r.noted.broker) (comes_from (after Begun r) before)) }
{
    notes_are_of_the_log();
}
