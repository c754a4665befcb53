//! Laws of the definitions.
ghost use Rattle.std.specs.Prelude.{◌≡◌, ◌+◌, ◌&&◌, ℕ, Bool, List, Option, Some, false, length, true};
ghost use Rattle.std.specs.List.{fold, list_any};
ghost use Rattle.std.specs.Prelude.{count_by};
ghost use Rattle.spk_quota.specs.Calls.{Call, HoldsAtMost, HoldsGiven, HoldsLess, HoldsWithin, is_by, is_clear, is_resume, limits_of, step};
ghost use Rattle.spk_quota.specs.Data.{QuotaData, fresh};
ghost use Rattle.spk_quota.specs.Held.{held};
ghost use Rattle.spk_quota.specs.Step.{cleared, connected, discarded, has_conn, is_filter, is_retained, is_retained_on, is_session, is_will_of, published, resumed, without_session};
ghost use Rattle.spk_quota.specs.declared.limits.Limits.{Limits};

/// Behind any list of calls no user holds more of anything than its limit; one who isn't known holds nothing. From any data on, as behind the sessions that stood at
/// the start, no user comes to hold more of anything than the greater of its limit and what it held. A session that stood at the start gives no more than itself and
/// its filters.
pub fn bounded()
    ensures fresh { (limits : List Limits) (calls : List Call) (user : ℕ)
        → list_any is_resume calls ≡ false
        → HoldsAtMost (limits_of limits user) (held (fold step (fresh limits) calls) user) }
    ensures behind { (d : QuotaData) (calls : List Call) (user : ℕ)
        → list_any is_resume calls ≡ false
        → HoldsWithin (limits_of d.limits user) (held d user) (held (fold step d calls) user) }
    ensures given { (d : QuotaData) (user : ℕ) (client : List ℕ) (filters : List (List ℕ)) (now : ℕ)
        → HoldsGiven (length filters) (held d user) (held (resumed d user client filters now) user) }
{}

/// A call changes nothing of what a user holds whose call it isn't, whose session it doesn't name, and whose will it doesn't end. A PUBLISH that clears a topic takes
/// away alone.
pub fn others_are_untouched()
    ensures same { (d : QuotaData) (call : Call) (user : ℕ) → is_clear call ≡ false
        → is_by d call user ≡ false → held (step d call) user ≡ held d user }
    ensures clear { (d : QuotaData) (topic : List ℕ) (user : ℕ)
        → HoldsLess (held (cleared d topic) user) (held d user) }
{}

/// What is let in counts: behind a CONNECT a session of its user and client has its connection, its will counts as one more retained message of so many bytes, and of
/// what a user publishes on a topic exactly one message.
pub fn what_is_let_in_counts()
    ensures connection { (d : QuotaData) (user conn : ℕ) (client : List ℕ) (clean : Bool) (will : Option (List ℕ × ℕ))
        → list_any (λ s. is_session user client s && has_conn s.conn conn)
        (connected d user conn client clean will).sessions ≡ true }
    ensures will { (d : QuotaData) (user conn : ℕ) (client : List ℕ) (clean : Bool) (will : List ℕ × ℕ)
        → (held (connected d user conn client clean (Some will)) user).retained ≡ (held d user).retained + 1 }
    ensures bytes { (d : QuotaData) (user conn : ℕ) (client : List ℕ) (clean : Bool) (will : List ℕ × ℕ)
        → (held (connected d user conn client clean (Some will)) user).bytes ≡ (held d user).bytes + will.1 }
    ensures published { (d : QuotaData) (user : ℕ) (topic : List ℕ) (bytes : ℕ)
        → count_by (is_retained user topic) (published d user topic bytes).messages ≡ 1 }
{}

/// What is gone counts no more: a session that ended and its filters, what was retained on a topic that was cleared, and a will that was discarded.
pub fn what_is_gone_counts_no_more()
    ensures session { (d : QuotaData) (user : ℕ) (client : List ℕ)
        → count_by (is_session user client) (without_session user client d).sessions ≡ 0 }
    ensures filters { (d : QuotaData) (user : ℕ) (client : List ℕ)
        → count_by (is_filter user client) (without_session user client d).filters ≡ 0 }
    ensures retained { (d : QuotaData) (topic : List ℕ)
        → count_by (is_retained_on topic) (cleared d topic).messages ≡ 0 }
    ensures will { (d : QuotaData) (conn : ℕ)
        → count_by (is_will_of conn) (discarded d conn).messages ≡ 0 }
{}
