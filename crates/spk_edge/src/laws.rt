//! Laws on lists of inputs: functions that do nothing, whose contracts speak of definitions alone.
ghost use Rattle.std.specs.Prelude.{◌≡◌, ◌⊎◌, ℕ, ◌+◌, ◌-◌, List, [], ◌∷◌, ◌++◌, length, map, slice_get, Ok, Err};
ghost use Rattle.std.specs.Option.{option_map};
ghost use Rattle.spk_packets.specs.Spelling.{spelling};
ghost use Rattle.spk_device.specs.Book.{Book};
ghost use Rattle.spk_edge_rules.specs.declared.fault.EdgeFault.{EdgeFault};
ghost use Rattle.spk_edge_rules.specs.declared.fault.EdgeFault.TheVariants.{NoMemory};
ghost use Rattle.spk_edge_rules.specs.Answers.{Answer};
ghost use Rattle.spk_edge_rules.specs.Config.{Config, Setup};
ghost use Rattle.spk_edge_rules.specs.Inputs.{Cut, Input};
ghost use Rattle.spk_edge_rules.specs.Run.{Message, published, right_at, run_of, wires_at};
ghost use Rattle.spk_edge_rules.specs.Step.{Record, standing_of};
ghost use Rattle.spk_edge.specs.Along.{AllWhole, IsPlanned, IsStepped, message_at, messages_from, node_of};
ghost use Rattle.spk_edge.specs.Calls.{AreNumberedOnce, AreTakenUp, Call, IsAfterCalls, bytes_out, inputs_by, messages_out, packets_in};
ghost use Rattle.spk_edge.specs.Patch.{IsDone, IsPlan, IsRefusal, after_cut, made, plain_input, setup_of};
ghost use Rattle.spk_edge.specs.Sealing.{AreWhole, bytes_of, numbered, wire_of};
ghost use Rattle.spk_edge.specs.View.{NodeData, message_view, unnumbered};
ghost use Rattle.spk_edge.specs.declared.message.Out.{Out};
ghost use Rattle.spk_edge.specs.declared.plan.Plan.{Plan};

pub use spk_edge_rules::laws::{any_list, messages, published};

/// For every node and every list of inputs, newest first: what the contracts of its calls come to
/// along the list. Whatever the node begins with.
pub fn along()
    // a node as it is made is the node of no input
    ensures made { (c : Config) (capacity : ℕ) (r : Record) (b : Book)
        → made c capacity r b ≡ node_of (setup_of c capacity r b) [] }

    // a plan answers what is right behind the list, hands out the messages that its input publishes,
    // each under the number of its position, and makes the node that of the longer list
    ensures planned { (s : Setup) (is : List Input) (i : Input) (p : Plan)
        → IsPlan (node_of s is) i p → IsPlanned s is i p }

    // and so does an input that was done
    ensures done { (s : Setup) (is : List Input) (i : Input) (after : NodeData) (out : Out)
        → IsDone (node_of s is) i after out → IsStepped s is i after out }

    // each message published can be written: there is none at first, and then those of each input
    ensures none_whole { (s : Setup) → AllWhole s (published (run_of s [])) }
    ensures whole { (s : Setup) (is : List Input) (i : Input) (p : Plan)
        → IsPlan (node_of s is) i p
        → AllWhole s (published (run_of s is)) → AllWhole s (published (run_of s (i ∷ is))) }
    ensures done_whole { (s : Setup) (is : List Input) (i : Input) (after : NodeData)
        (out : Out) → IsDone (node_of s is) i after out
        → AllWhole s (published (run_of s is)) → AllWhole s (published (run_of s (i ∷ is))) }

    // a refusal is for memory, or right behind the list
    ensures refused { (s : Setup) (is : List Input) (i : Input) (fault : EdgeFault)
        → IsRefusal (node_of s is) i fault
        → (fault ≡ NoMemory) ⊎ (right_at s (run_of s is) i ≡ Err fault) }

    // a cut is an input that is never refused
    ensures cut { (s : Setup) (is : List Input)
        → after_cut (node_of s is) ≡ node_of s (plain_input 0 Cut ∷ is) }
    ensures cut_done { (s : Setup) (is : List Input)
        → (answer : Answer) × (right_at s (run_of s is) (plain_input 0 Cut) ≡ Ok answer) }

    // so it is of the messages that the rules number, whatever plans them
    ensures numbered { (s : Setup) (is : List Input) (i : Input) (answer : Answer)
        → right_at s (run_of s is) i ≡ Ok answer
        → numbered s.config.numbering (standing_of s is).seq
        (map (unnumbered s.config) answer.given.drafts)
        ≡ messages_from s (published (run_of s (i ∷ is))) (length (published (run_of s is))) }
    ensures numbered_whole { (s : Setup) (is : List Input) (i : Input) (answer : Answer)
        → right_at s (run_of s is) i ≡ Ok answer
        → AreWhole (numbered s.config.numbering (standing_of s is).seq
        (map (unnumbered s.config) answer.given.drafts))
        → AllWhole s (published (run_of s is)) → AllWhole s (published (run_of s (i ∷ is))) }

    // the packets of an answer end with those of the messages that its input publishes, each under
    // the number of its position
    ensures alone { (s : Setup) (is : List Input) (i : Input) (answer : Answer)
        → right_at s (run_of s is) i ≡ Ok answer
        → answer.packets ≡ answer.given.plain ++ wires_at s (published (run_of s (i ∷ is)))
        (length (published (run_of s is))) answer.given.drafts }
    ensures wires { (s : Setup) (is : List Input) (i : Input) (answer : Answer)
        → right_at s (run_of s is) i ≡ Ok answer
        → answer.packets ≡ answer.given.plain ++ map wire_of
        (messages_from s (published (run_of s (i ∷ is))) (length (published (run_of s is)))) }

    // so the bytes handed out end with those of the messages handed out
    ensures bytes { (s : Setup) (is : List Input) (i : Input) (p : Plan)
        → IsPlan (node_of s is) i p → (answer : Answer)
        × (right_at s (run_of s is) i ≡ Ok answer) × (map bytes_of p.out.packets.items
        ≡ map spelling (answer.given.plain ++ map wire_of (map message_view p.messages.items))) }

    // and what was published grows by these
    ensures lengths { (s : Setup) (is : List Input) (i : Input) (answer : Answer)
        → right_at s (run_of s is) i ≡ Ok answer
        → length (published (run_of s (i ∷ is)))
        ≡ length (published (run_of s is)) + length answer.given.drafts }
{
    spk_edge_rules::laws::any_list();
    spk_edge_rules::laws::published();
    spk_sequence::laws::records();
}

/// Of the messages of positions, for every node.
pub fn positions()
    // each stands at its position, and there are no others
    ensures at { (s : Setup) (messages : List Message) (p k : ℕ)
        → slice_get (messages_from s messages p) k
        ≡ option_map (message_at s messages (p + k)) (slice_get messages (p + k)) }
    ensures counts { (s : Setup) (messages : List Message) (p : ℕ)
        → length (messages_from s messages p) ≡ length messages - p }

    // and stays as it is when more is published
    ensures grows { (s : Setup) (messages more : List Message)
        → messages_from s (messages ++ more) 0
        ≡ messages_from s messages 0 ++ messages_from s (messages ++ more) (length messages) }
{
    spk_sequence::laws::records();
}

/// For every node and every list of calls, newest first: plans taken up, inputs done, and cuts.
pub fn calls()
    // each input was done, and the data are those of the rules
    ensures done { (s : Setup) (calls : List Call) (n : NodeData) → IsAfterCalls s calls n
        → map (λ e. e.input) (run_of s (inputs_by calls)) ≡ inputs_by calls }
    ensures data { (s : Setup) (calls : List Call) (n : NodeData) → IsAfterCalls s calls n
        → n ≡ node_of s (inputs_by calls) }

    // all bytes handed out are the packets that are right, one after the other, each message of them
    // under the number of its position
    ensures bytes { (s : Setup) (calls : List Call) (n : NodeData) → IsAfterCalls s calls n
        → bytes_out calls ≡ map spelling (packets_in s (run_of s (inputs_by calls))) }

    // all messages handed out are those published, each under the number of its position
    ensures messages { (s : Setup) (calls : List Call) (n : NodeData) → IsAfterCalls s calls n
        → AreTakenUp calls
        → messages_out calls ≡ messages_from s (published (run_of s (inputs_by calls))) 0 }

    // so no number comes twice in 256 messages in a row, unless an NBIRTH between starts the numbers again
    ensures once { (s : Setup) (calls : List Call) (n : NodeData) → IsAfterCalls s calls n
        → AreTakenUp calls → AreNumberedOnce s.config.numbering (messages_out calls) }

    // and each message published can be written
    ensures whole { (s : Setup) (calls : List Call) (n : NodeData) → IsAfterCalls s calls n
        → AllWhole s (published (run_of s (inputs_by calls))) }
{
    along();
    positions();
    spk_edge_rules::laws::any_list();
    spk_sequence::laws::records();
}
