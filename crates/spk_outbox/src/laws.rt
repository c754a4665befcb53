//! What holds of each list of calls.

ghost use Rattle.std.specs.Prelude.{◌≡◌, ◌+◌, ◌-◌, ◌<◌, ◌≤◌, ◌++◌, ℕ, List, Some, None, true, false};
ghost use Rattle.spk_outbox.specs.Data.{fresh_outbox, waiting};
ghost use Rattle.spk_outbox.specs.Calls.{Call, after, owed, sent};
ghost use Rattle.spk_outbox.specs.Waits.{Waits, began, ended, lasts, last_moment, most_at_once, most_waited, until};

/// What was written and what waits are together the packets that were taken, byte for byte and in order.
pub fn written_and_waiting_are_owed()
    ensures { (calls : List Call)
        → sent calls fresh_outbox ++ waiting (after calls fresh_outbox) ≡ owed calls }
{}

/// Nobody waits for ever: a wait lasts less than 200 milliseconds, one that was as long uses up its second, and where a second is
/// used up none begins before it is over.
pub fn waits_are_bounded()
    ensures ends { (w : Waits) (now since : ℕ) → w.since ≡ Some since → since + most_at_once ≤ now
        → lasts now w ≡ false }
    ensures spent { (w : Waits) (now : ℕ) → most_waited ≤ w.used → now < w.second + 1000
        → lasts now (began now w) ≡ false }
    ensures counted { (w : Waits) (now since : ℕ) → w.since ≡ Some since
        → since + most_at_once ≤ now → most_waited ≤ (ended now w).used }
    ensures added { (w : Waits) (now since : ℕ) → w.since ≡ Some since → lasts now w ≡ true
        → (ended now w).used ≡ w.used + (now - since) }
    ensures over { (w : Waits) (now last : ℕ) → until w ≡ Some last → last ≤ now → now < last_moment
        → lasts now w ≡ false }
{}
