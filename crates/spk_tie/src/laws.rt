//! Laws on bytes and positions: functions that do nothing, whose contracts speak of definitions alone.
ghost use Rattle.std.specs.Prelude.{◌≡◌, ℕ, ◌^◌, ◌-◌, ◌<◌, List, ◌∷◌, ◌++◌, slice_get, Bool, Option, Some, None, Ok};
ghost use Rattle.spk_packets.specs.Grammar.{Spells};
ghost use Rattle.spk_packets.specs.Message as packets;
ghost use Rattle.spk_edge_rules.specs.Answers.{Answer};
ghost use Rattle.spk_edge_rules.specs.Claims.{HasNames, IsUnreserved, IsWhole};
ghost use Rattle.spk_edge_rules.specs.Config.{Setup};
ghost use Rattle.spk_edge_rules.specs.Inputs.{Input, Open};
ghost use Rattle.spk_edge_rules.specs.Packets.{farewell};
ghost use Rattle.spk_edge_rules.specs.Run.{Message, asked_of, number_at, opened, published, right_at, run_of};
ghost use Rattle.spk_tie.specs.Tie.{GivesWill, IsDeathOf, ReadsDeath, ReadsMessage, ack_of};

/// Of each message that a node published, in both numberings, whatever the node begins with and for every list of inputs, newest
/// first: whoever reads bytes of it, now or after any later inputs, reads the message of its position.
///
/// The names of the node and its registry can stand in topics, and no metric of the registry is named as the node's own:
/// `EdgeNode::new` and every registry see to it.
pub fn messages()
    ensures { (s : Setup) (later is : List Input) (p : ℕ) (m : Message) (bytes : List ℕ)
        → HasNames s → IsUnreserved s → slice_get (published (run_of s is)) p ≡ Some m
        → IsWhole bytes s.config (number_at s (published (run_of s is)) p) m.draft
        → ReadsMessage s (published (run_of s (later ++ is))) p m bytes }
{
    spk_edge_rules::laws::any_list();
    spk_edge_rules::laws::published();
    spk_edge_rules::laws::messages();
    spk_sequence::laws::records();
    spk_topics::laws::reading();
    spk_payload::laws::reading();
}

/// Of the NDEATH of each session: the will of its CONNECT, published by the server at whatever QoS, and the one that the node
/// publishes itself where it ends a session in order. Whoever reads bytes of it reads the death of that session.
pub fn deaths()
    // the NDEATH of a session that was opened at a moment
    ensures read { (s : Setup) (session time qos : ℕ) (dup retain : Bool) (id : Option ℕ)
        (bytes : List ℕ) → HasNames s → time < 2 ^ 63
        → IsDeathOf s session time dup qos retain id bytes
        → ReadsDeath s session (ack_of qos id) bytes }

    // an Open gives a CONNECT with the will of the session that it opens
    ensures wills { (s : Setup) (is : List Input) (i : Input) (answer : Answer) → HasNames s
        → i.act ≡ Open → i.ack ≡ None → right_at s (run_of s is) i ≡ Ok answer
        → GivesWill s (opened (run_of s is)) answer.packets }

    // a node that ends its session in order sends the NDEATH of the session opened last
    ensures farewells { (s : Setup) (is : List Input) (first : packets.Message)
        (rest : List packets.Message) (bytes : List ℕ) → HasNames s
        → farewell s.config (asked_of s (run_of s is)).will_bd (asked_of s (run_of s is)).will_time
        ≡ first ∷ rest → Spells bytes first
        → ReadsDeath s (opened (run_of s is) - 1) (Some 2) bytes }
{
    spk_edge_rules::laws::published();
    spk_edge_rules::laws::messages();
    spk_topics::laws::reading();
    spk_payload::laws::reading();
    spk_packets::laws::prefix_free();
}
