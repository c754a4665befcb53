//! Laws of the definitions alone: functions that do nothing, whose contracts speak of definitions.
ghost use Rattle.std.specs.Prelude.{◌≡◌, ◌↔◌, ℕ, true, List, ◌∷◌, map, reverse, Option, option_map};
ghost use Rattle.spk_payload.specs.Meaning.{MetricData, whole_metric};
ghost use Rattle.spk_host_rules.specs.Asking.{IsAsked};
ghost use Rattle.spk_host_rules.specs.Births.{table_by};
ghost use Rattle.spk_host_rules.specs.Choice.{whole_event, whole_shown, whole_view};
ghost use Rattle.spk_host_rules.specs.Data.{Consumed, Device, Event, Message, NodeBirth, View};
ghost use Rattle.spk_host_rules.specs.Foreign.{is_foreign};
ghost use Rattle.spk_host_rules.specs.Order.{device_names};
ghost use Rattle.spk_host_rules.specs.Showing.{IsShown, Shows};
ghost use Rattle.spk_host_rules.specs.Step.{after, asked_at, devices_of, is_unknown, node_born, view_after};
ghost use Rattle.spk_host_rules.specs.Table.{shown_of, table_of};
ghost use Rattle.spk_host_rules.specs.Values.{consumed_of, last_part};

/// A birth's table, made metric by metric, is what queries on its metrics say: each name once, where it first came, as
/// its last metric has it, with that metric's alias unless a later one took it for another name.
pub fn tables()
    ensures { (metrics : List MetricData) → table_of metrics ≡ table_by (reverse metrics) }
{}

/// What a view shows, after any list of what was heard of a node, newest first.
pub fn shows()
    // there is a view exactly where a birth was taken; it shows the values at the last message consumed, of the node and of
    // each device, and who is online and whose metrics are stale
    ensures any_list { (wait : ℕ) (events : List Event) → IsShown events (after wait events).view }

    // the devices stand in the order of their first births
    ensures order { (wait : ℕ) (events : List Event)
        → map (λ (d : Device). d.name) (devices_of (after wait events).view)
        ≡ device_names (consumed_of events) }

    // a birth shows its values, whatever devices were named before
    ensures birth { (events : List Event) (now : ℕ) (metrics : List MetricData)
        → (devices : List Device)
        → Shows (Consumed (NodeBirth metrics) now ∷ events) (node_born metrics devices) }

    // and each event keeps it
    ensures keeps { (events : List Event) (e : Event) (view : Option View)
        → IsShown events view → IsShown (e ∷ events) (view_after view e) }
{}

/// When a rebirth is asked for, along any list of what was heard of a node, newest first.
pub fn asked()
    // exactly at a cause where none had been asked for less than `wait` before, or where a birth was taken between
    ensures exactly { (wait : ℕ) (before : List Event) (e : Event)
        → (asked_at wait before e ≡ true) ↔ IsAsked wait before e }

    // what the view doesn't know is what the births of this part didn't give
    ensures unknown { (events : List Event) (view : Option View) (m : Message)
        → IsShown events view → is_unknown view m ≡ is_foreign (last_part (consumed_of events)) m }
{}

/// By whole values alone (`Values::Whole`) a view shows, after any list of what was heard of a node, what the view of a host shows
/// that reads whole values alone; and both ask for rebirths at the same events.
pub fn choices()
    ensures value { (datatype : Option ℕ) (m : MetricData) → whole_shown (shown_of datatype m)
        ≡ shown_of datatype (whole_metric m) }
    ensures view { (wait : ℕ) (events : List Event) → (after wait (map whole_event events)).view
        ≡ option_map whole_view (after wait events).view }
    ensures asked { (wait : ℕ) (before : List Event) (e : Event)
        → asked_at wait (map whole_event before) (whole_event e) ≡ asked_at wait before e }
{}
