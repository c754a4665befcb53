//! Laws of the definitions alone: functions that do nothing, whose contracts speak of definitions.
ghost use Rattle.std.specs.Prelude.{◌≡◌, ℕ, ◌<◌, ◌≤◌, List, [], ◌++◌};
ghost use Rattle.spk_sequence.specs.Calls as call;
ghost use Rattle.spk_sequence.specs.Claims.{IsLawful};
ghost use Rattle.spk_sequence.specs.HostRecord.{Input, MessageComes, DeathComes, TickComes, consumed_of, done_at, record_of, standing_of};
ghost use Rattle.spk_sequence.specs.Step as sequence;
ghost use Rattle.spk_reading.specs.Data.{NumberedData};
ghost use Rattle.spk_host_node.specs.Inputs as node;
ghost use Rattle.spk_host_node.specs.Inputs.{Dies, order_after};
ghost use Rattle.spk_host_node.specs.Step.{step_of, taken_of};
ghost use Rattle.spk_edge_rules.specs.Config.{Setup};
ghost use Rattle.spk_edge_rules.specs.Run.{Message};
ghost use Rattle.spk_tie.specs.Tie.{IsMessageAt, host_setting};
ghost use Rattle.spk_heard.specs.Read.{AreMessagesAt, AreRead, HandsOutFronts, IsRead, all_taken};

/// Of one host session of a node that published these messages, in both numberings, for every wait: where each thing that the host
/// was told is what is read at an input of the order (`AreRead`), the host's order steps as that of the positions, and what it hands
/// out is what was published at the positions consumed, one by one, in their order. A window has 1 to 96 numbers.
pub fn consumption()
    // the order stands as that of the positions
    ensures standing { (s : Setup) (published : List Message) (wait width : ℕ) (is : List Input)
        (js : List node.Input) → AreRead s published is js
        → (order_after wait width js).standing
        ≡ standing_of (host_setting s published wait width) is }

    // the next message's step is that of its position
    ensures steps { (s : Setup) (published : List Message) (wait width : ℕ) (is : List Input)
        (js : List node.Input) (p now : ℕ) (m : Message) (read : NumberedData)
        → let setting = host_setting s published wait width in AreRead s published is js
        → IsMessageAt s published p m read
        → call.Stepped (step_of (order_after wait width js) read now)
        ≡ (done_at setting (record_of setting is) (standing_of setting is)
        (MessageComes p now)).reply }

    // the next death matches as that of its session
    ensures deaths { (s : Setup) (published : List Message) (wait width : ℕ) (is : List Input)
        (js : List node.Input) (session now bd : ℕ)
        → let setting = host_setting s published wait width in AreRead s published is js
        → IsRead s published (DeathComes session now) (Dies bd)
        → call.Told (sequence.match_of (order_after wait width js).standing bd)
        ≡ (done_at setting (record_of setting is) (standing_of setting is)
        (DeathComes session now)).reply }

    // at the next moment there is a gap where there is one by positions
    ensures ticks { (s : Setup) (published : List Message) (wait width : ℕ) (is : List Input)
        (js : List node.Input) (now : ℕ)
        → let setting = host_setting s published wait width in AreRead s published is js
        → call.Ticked (sequence.is_over (order_after wait width js).standing now)
        ≡ (done_at setting (record_of setting is) (standing_of setting is) (TickComes now)).reply }

    // at the next message what is handed out is what was published at the positions consumed
    ensures consumed { (s : Setup) (published : List Message) (wait width : ℕ) (is : List Input)
        (js : List node.Input) (p now : ℕ) (m : Message) (read : NumberedData)
        → let setting = host_setting s published wait width in 0 < width → width ≤ 96
        → AreRead s published is js → IsMessageAt s published p m read
        → AreMessagesAt s published
        (done_at setting (record_of setting is) (standing_of setting is)
        (MessageComes p now)).consumed
        (taken_of (order_after wait width js) read now) }

    // so is all that the session hands out, in the order of time
    ensures session { (s : Setup) (published : List Message) (wait width : ℕ) (is : List Input)
        (js : List node.Input) → let setting = host_setting s published wait width in 0 < width
        → width ≤ 96 → AreRead s published is js
        → AreMessagesAt s published (consumed_of (record_of setting is)) (all_taken wait width js) }

    // and where the inputs are lawful, it is birth by birth the first messages of that birth
    ensures births { (s : Setup) (published : List Message) (wait width : ℕ) (is : List Input)
        (js : List node.Input) → IsLawful (host_setting s published wait width) is
        → AreRead s published is js → HandsOutFronts s published (all_taken wait width js) }
{
    spk_sequence::laws::numbers();
    spk_sequence::laws::positions();
    spk_sequence::laws::records();
}

/// What was read, and what was handed out, stays so when the node publishes more.
pub fn grows()
    ensures message { (s : Setup) (published more : List Message) (p : ℕ) (m : Message)
        (read : NumberedData) → IsMessageAt s published p m read
        → IsMessageAt s (published ++ more) p m read }

    ensures messages { (s : Setup) (published more : List Message) (ps : List ℕ)
        (reads : List NumberedData) → AreMessagesAt s published ps reads
        → AreMessagesAt s (published ++ more) ps reads }

    ensures inputs { (s : Setup) (published more : List Message) (is : List Input)
        (js : List node.Input) → AreRead s published is js
        → AreRead s (published ++ more) is js }

    // a session begins with nothing read
    ensures nothing { (s : Setup) (published : List Message) → AreRead s published [] [] }
{
    spk_sequence::laws::records();
}
