//! A law of the definitions alone: a function that does nothing, whose contract speaks of definitions.
ghost use Rattle.std.specs.Prelude.{◌≡◌, ℕ, List};
ghost use Rattle.spk_host_rules.specs.Showing.{IsShown};
ghost use Rattle.spk_host_rules.specs.Step.{after};
ghost use Rattle.spk_reading.specs.Data.{NumberedData};
ghost use Rattle.spk_host_node.specs.Inputs.{Input, asked_in, events_of, gap_asked, node_after, order_after, since_end};
ghost use Rattle.spk_host_node.specs.Step.{heard_of, requests_of, tick_asks};

use spk_host_rules::laws::shows;

/// What is kept of a node, after any list of calls in all sessions of the host, newest first.
pub fn any_list()
    // the order is that of the host's present session alone, stepped along its calls
    ensures order { (wait width : ℕ) (inputs : List Input)
        → (node_after wait width inputs).order ≡ order_after wait width (since_end inputs) }

    // the view, and what was asked for, are those of all that was heard in all sessions
    ensures watch { (wait width : ℕ) (inputs : List Input)
        → (node_after wait width inputs).watch ≡ after wait (events_of wait width inputs) }

    // so the view shows the values at the last message consumed
    ensures shows { (wait width : ℕ) (inputs : List Input)
        → IsShown (events_of wait width inputs) (node_after wait width inputs).watch.view }

    // and at a message as many rebirths are asked for as are due at what is heard by it
    ensures requests { (wait width : ℕ) (inputs : List Input) (m : NumberedData) (now : ℕ)
        → requests_of (node_after wait width inputs) m now
        ≡ asked_in wait (events_of wait width inputs)
        (heard_of (order_after wait width (since_end inputs)) m now) }

    // and at a moment exactly where the order has a gap, and one is due at it
    ensures ticks { (wait width : ℕ) (inputs : List Input) (now : ℕ)
        → tick_asks (node_after wait width inputs) now ≡ gap_asked wait width inputs now }
{
    shows();
}
