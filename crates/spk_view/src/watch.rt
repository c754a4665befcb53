//! What a host keeps of one node.
ghost use Rattle.std.specs.Prelude.{◌≡◌, ℕ, ◌+◌, ◌<◌, ◌≤◌, ◌||◌, true, false, map, IfOk, IfErr, OnOk, OnErr, Some, if◌then◌else◌};
ghost use Rattle.std.specs.Option.{option_map};
ghost use Rattle.spk_payload.specs.View.{content_of, metric_view};
ghost use Rattle.spk_host_rules.specs.Data.{unheard, Message, NodeBirth, NodeData, DeviceBirth, DeviceData, DeviceDeath, Consumed, Gap, NotLive, Over};
ghost use Rattle.spk_host_rules.specs.Step as rules;
ghost use Rattle.spk_view.specs.Data.{NodeChanges, DeviceChanges};
ghost use Rattle.spk_view.specs.Plain.{has_texts, texts_in};
ghost use Rattle.spk_view.specs.Prepared.{asks_by, is_birth_by, is_unknown_by, kept_after, prepared, takes_room, view_by};

use crate::node::NodeView;
use crate::plain::texts_of;
use crate::ready::{Body, Ready};
use spk_host_rules::may_ask;
use spk_payload::{Metric, Raw};
use std::alloc::{AllocError, Global};
use std::marker::Model;

/// What a host keeps of one node: its view from the first birth on, and when a rebirth was last asked for. It outlives the
/// sessions of the host. Contracts see a `Keeping`: the `Watch`, and for how many more devices there is room.
#[derive(Debug, Drop)]
pub struct Watch {
    node: NodeView,
    /// A birth was taken.
    is_shown: bool,
    asked: Option<u64>,
    born_since: bool,
}

impl Model for Watch {
    ghost use Rattle.std.specs.Prelude.{◌≡◌, false, [], Some, None, if◌then◌else◌};
    ghost use Rattle.spk_view.specs.Data.{Keeping};

    ghost Value = { Keeping };

    ghost view = { λ a. record {
      watch = record {
        view = if a.is_shown then Some a.node.view else None;
        asked = a.asked;
        born_since = a.born_since;
      };
      room = a.node.room;
    } };

    ghost invariant = { λ a. a.is_shown ≡ false
        → (a.node.view.rows ≡ []) × (a.node.view.devices ≡ []) };
}

impl Watch {
    /// A node of which nothing was heard. Takes no memory.
    pub fn new(alloc: Global) -> Watch
        ensures { result.watch ≡ unheard }
    {
        Watch {
            node: NodeView::new(alloc),
            is_shown: false,
            asked: None,
            born_since: false,
        }
    }

    /// What is shown of the node, from its first birth on.
    pub fn view(&self) -> Option<&NodeView>
        ensures { option_map (λ v. v.now.view) result ≡ self.now.watch.view }
    {
        if self.is_shown {
            Some(&self.node)
        } else {
            None
        }
    }

    /// Makes room for so many more devices. Refused only where memory is.
    pub fn reserve(&mut self, count: usize) -> Result<(), AllocError>
        ensures room { OnOk result (count ≤ self.new.room) }
        ensures more { self.old.room ≤ self.new.room }
        ensures watch { self.new.watch ≡ self.old.watch }
        ensures unchanged { OnErr result (self.new ≡ self.old) }
    {
        self.node.reserve(count)
    }

    /// A message of the node is consumed at `now`. Answers whether a rebirth is asked for: the message names a device or an alias
    /// that the births didn't give, and none was asked for less than `wait` before (milliseconds) without a birth between.
    ///
    /// It takes no memory. The message comes back, and nothing has changed, exactly where it is the birth of a device
    /// that isn't in the view and there is no room for one more.
    pub fn consume(&mut self, wait: u64, ready: Ready, now: u64) -> Result<bool, Ready>
        ensures asks { (m : Message) → prepared m ≡ ready
            → IfOk result (λ asks. asks ≡ rules.asks wait self.old.watch (Consumed m now)) }
        ensures watch { (m : Message) → prepared m ≡ ready
            → OnOk result (self.new.watch ≡ rules.step wait self.old.watch (Consumed m now)) }
        ensures room { OnOk result
            (self.new.room + (if takes_room self.old.watch.view ready then 1 else 0)
            ≡ self.old.room) }
        ensures full { OnErr result
            ((takes_room self.old.watch.view ready ≡ true) × (self.old.room ≡ 0)) }
        ensures returned { IfErr result (λ r. r ≡ ready) }
        ensures unchanged { OnErr result (self.new ≡ self.old) }
    {
        if self.is_full_for(&ready) {
            return Err(ready);
        }
        let is_unknown = self.is_unknown(&ready);
        let is_birth = self.take(ready);
        Ok(self.ask(wait, is_unknown, is_birth, now))
    }

    /// An NDATA with these metrics is consumed at `now`, none of whose values is a text or bytes: what `consume` does with it made
    /// ready, without making it ready. Answers whether a rebirth is asked for. It takes no memory.
    pub fn consume_node_data(&mut self, wait: u64, metrics: &[Metric], now: u64) -> bool
        requires { has_texts (map metric_view metrics.now) ≡ false }
        ensures asks { result ≡ rules.asks wait self.old.watch
            (Consumed (NodeData (map metric_view metrics.now)) now) }
        ensures watch { self.new.watch ≡ rules.step wait self.old.watch
            (Consumed (NodeData (map metric_view metrics.now)) now) }
        ensures room { self.new.room ≡ self.old.room }
    {
        let is_unknown = self.show_node_data(metrics, &mut []);
        self.ask(wait, is_unknown, false, now)
    }

    /// The same of a DDATA of a device.
    pub fn consume_device_data(
        &mut self,
        wait: u64,
        name: &str,
        metrics: &[Metric],
        now: u64,
    ) -> bool
        requires { has_texts (map metric_view metrics.now) ≡ false }
        ensures asks { result ≡ rules.asks wait self.old.watch
            (Consumed (DeviceData name.now (map metric_view metrics.now)) now) }
        ensures watch { self.new.watch ≡ rules.step wait self.old.watch
            (Consumed (DeviceData name.now (map metric_view metrics.now)) now) }
        ensures room { self.new.room ≡ self.old.room }
    {
        let is_unknown = self.show_device_data(name, metrics, &mut []);
        self.ask(wait, is_unknown, false, now)
    }

    /// An NDATA with these metrics is consumed at `now`, whatever its values are: what `consume` does with it made ready, with copies of
    /// its texts and bytes alone. Answers whether a rebirth is asked for. Refused only where memory is, before anything changes.
    pub fn consume_any_node_data(
        &mut self,
        alloc: Global,
        wait: u64,
        metrics: &[Metric],
        now: u64,
    ) -> Result<bool, AllocError>
        ensures asks { IfOk result (λ asks. asks ≡ rules.asks wait self.old.watch
            (Consumed (NodeData (map metric_view metrics.now)) now)) }
        ensures watch { OnOk result (self.new.watch ≡ rules.step wait self.old.watch
            (Consumed (NodeData (map metric_view metrics.now)) now)) }
        ensures room { self.new.room ≡ self.old.room }
        ensures unchanged { OnErr result (self.new ≡ self.old) }
    {
        let mut texts = texts_of(alloc, metrics)?;
        let is_unknown = self.show_node_data(metrics, &mut texts);
        Ok(self.ask(wait, is_unknown, false, now))
    }

    /// The same of a DDATA of a device.
    pub fn consume_any_device_data(
        &mut self,
        alloc: Global,
        wait: u64,
        name: &str,
        metrics: &[Metric],
        now: u64,
    ) -> Result<bool, AllocError>
        ensures asks { IfOk result (λ asks. asks ≡ rules.asks wait self.old.watch
            (Consumed (DeviceData name.now (map metric_view metrics.now)) now)) }
        ensures watch { OnOk result (self.new.watch ≡ rules.step wait self.old.watch
            (Consumed (DeviceData name.now (map metric_view metrics.now)) now)) }
        ensures room { self.new.room ≡ self.old.room }
        ensures unchanged { OnErr result (self.new ≡ self.old) }
    {
        let mut texts = texts_of(alloc, metrics)?;
        let is_unknown = self.show_device_data(name, metrics, &mut texts);
        Ok(self.ask(wait, is_unknown, false, now))
    }

    /// An NBIRTH with these metrics is consumed, where they have the names and the aliases of the node's metrics that are shown, in the
    /// same order: what `consume` does with it made ready, but the metrics stay and their values are set. No rebirth is asked for.
    ///
    /// Answers whether they have them. Where they haven't, and where memory is refused, nothing has changed.
    pub fn consume_node_rebirth(
        &mut self,
        alloc: Global,
        metrics: &[Metric],
    ) -> Result<bool, AllocError>
        ensures watch { (wait now : ℕ) → IfOk result (λ is. is ≡ true → self.new.watch
            ≡ rules.step wait self.old.watch
            (Consumed (NodeBirth (map metric_view metrics.now)) now)) }
        ensures room { self.new.room ≡ self.old.room }
        ensures other { IfOk result (λ is. is ≡ false → self.new ≡ self.old) }
        ensures unchanged { OnErr result (self.new ≡ self.old) }
    {
        let is_born = self.node.bear_again(alloc, metrics)?;
        if is_born {
            self.is_shown = true;
            self.born_since = true;
        }
        Ok(is_born)
    }

    /// The same of a DBIRTH of a device that is shown, by the device's metrics.
    pub fn consume_device_rebirth(
        &mut self,
        alloc: Global,
        name: &str,
        metrics: &[Metric],
    ) -> Result<bool, AllocError>
        ensures watch { (wait now : ℕ) → IfOk result (λ is. is ≡ true → self.new.watch
            ≡ rules.step wait self.old.watch
            (Consumed (DeviceBirth name.now (map metric_view metrics.now)) now)) }
        ensures room { self.new.room ≡ self.old.room }
        ensures other { IfOk result (λ is. is ≡ false → self.new ≡ self.old) }
        ensures unchanged { OnErr result (self.new ≡ self.old) }
    {
        if !self.is_shown {
            return Ok(false);
        }
        self.node.bear_device_again(alloc, name, metrics)
    }

    /// A gap in the node's order at `now`: its values are stale. Answers whether a rebirth is asked for, as `consume` does. Takes
    /// no memory.
    pub fn gap(&mut self, wait: u64, now: u64) -> bool
        ensures asks { result ≡ rules.asks wait self.old.watch (Gap now) }
        ensures watch { self.new.watch ≡ rules.step wait self.old.watch (Gap now) }
        ensures room { self.new.room ≡ self.old.room }
    {
        self.node.lose();
        self.ask(wait, true, false, now)
    }

    /// Whether a rebirth would be asked for at a gap at `now`: what `gap` would answer. Nothing changes.
    pub fn asks_at_gap(&self, wait: u64, now: u64) -> bool
        ensures { result ≡ rules.asks wait self.now.watch (Gap now) }
    {
        may_ask(wait, now, self.asked, self.born_since)
    }

    /// Whether a rebirth would be asked for at an NDATA with these metrics, consumed at `now`: what `consume` would answer. Nothing
    /// changes, and no memory is taken.
    pub fn asks_at_node_data(&self, wait: u64, metrics: &[Metric], now: u64) -> bool
        ensures { result ≡ rules.asks wait self.now.watch
            (Consumed (NodeData (map metric_view metrics.now)) now) }
    {
        self.asks_at_gap(wait, now) && self.node.is_lacking(metrics)
    }

    /// The same of a DDATA of a device.
    pub fn asks_at_device_data(&self, wait: u64, name: &str, metrics: &[Metric], now: u64) -> bool
        ensures { result ≡ rules.asks wait self.now.watch
            (Consumed (DeviceData name.now (map metric_view metrics.now)) now) }
    {
        self.asks_at_gap(wait, now) && self.node.is_device_lacking(name, metrics)
    }

    /// The same of a DDEATH of a device.
    pub fn asks_at_device_death(&self, wait: u64, name: &str, now: u64) -> bool
        ensures { result ≡ rules.asks wait self.now.watch (Consumed (DeviceDeath name.now) now) }
    {
        self.asks_at_gap(wait, now) && self.node.is_device_lacking(name, &[])
    }

    /// A message came at `now` while the node wasn't followed. Answers whether a rebirth is asked for, as `consume` does. Takes
    /// no memory.
    pub fn not_live(&mut self, wait: u64, now: u64) -> bool
        ensures asks { result ≡ rules.asks wait self.old.watch (NotLive now) }
        ensures watch { self.new.watch ≡ rules.step wait self.old.watch (NotLive now) }
        ensures room { self.new.room ≡ self.old.room }
    {
        let is_cause = true;
        self.ask(wait, is_cause, false, now)
    }

    /// The node's session or the host's is over: the node is offline, and its values are stale. No rebirth is asked for. Takes no
    /// memory.
    pub fn over(&mut self)
        ensures watch { (wait : ℕ) → self.new.watch ≡ rules.step wait self.old.watch Over }
        ensures room { self.new.room ≡ self.old.room }
    {
        self.node.end();
    }

    /// Whether a message is the birth of a device for which there is no room.
    fn is_full_for(&self, ready: &Ready) -> bool
        ensures full { result ≡ true
            → (takes_room self.now.watch.view ready.now ≡ true) × (self.now.room ≡ 0) }
        ensures not_full { result ≡ false → takes_room self.now.watch.view ready.now ≡ true
            → 0 < self.now.room }
    {
        match &ready.body {
            Body::DeviceBirth(name, _) => self.is_shown && self.node.is_full_for(name.as_str()),
            _ => false,
        }
    }

    /// Whether a message names a device or an alias that the births didn't give.
    fn is_unknown(&self, ready: &Ready) -> bool
        ensures { result ≡ is_unknown_by self.now.watch.view ready.now }
    {
        match &ready.body {
            Body::NodeBirth(_) | Body::DeviceBirth(_, _) => false,
            Body::NodeData(metrics) => self.node.is_lacking(metrics),
            Body::DeviceData(name, metrics) => self.node.is_device_lacking(name.as_str(), metrics),
            Body::DeviceDeath(name) => self.node.is_device_lacking(name.as_str(), &[]),
        }
    }

    /// A message is shown. Answers whether it is a birth of the node.
    fn take(&mut self, ready: Ready) -> bool
        requires { takes_room self.old.watch.view ready ≡ true → 0 < self.old.room }
        ensures birth { result ≡ is_birth_by ready }
        ensures watch { self.new.watch
            ≡ record self.old.watch { view = view_by self.old.watch.view ready } }
        ensures room { self.new.room + (if takes_room self.old.watch.view ready then 1 else 0)
            ≡ self.old.room }
    {
        let is_birth = matches!(&ready.body, Body::NodeBirth(_));
        if is_birth || self.is_shown {
            let Ready { body } = ready;
            self.node.take(body);
            self.is_shown = true;
        }
        is_birth
    }

    /// Data are shown with these texts and bytes, their own. Answers whether a metric names an alias that the birth didn't give.
    fn show_node_data(&mut self, metrics: &[Metric], texts: &mut [Option<Raw>]) -> bool
        requires { map (option_map content_of) texts.old ≡ texts_in (map metric_view metrics.now) }
        ensures unknown { result
            ≡ is_unknown_by self.old.watch.view (NodeChanges (map metric_view metrics.now)) }
        ensures watch { self.new.watch ≡ record self.old.watch
            { view = view_by self.old.watch.view (NodeChanges (map metric_view metrics.now)) } }
        ensures room { self.new.room ≡ self.old.room }
    {
        if !self.is_shown {
            return self.node.is_lacking(metrics);
        }
        self.node.show_each(metrics, texts)
    }

    /// The same of data of a device. Answers whether the births didn't give the device or an alias.
    fn show_device_data(
        &mut self,
        name: &str,
        metrics: &[Metric],
        texts: &mut [Option<Raw>],
    ) -> bool
        requires { map (option_map content_of) texts.old ≡ texts_in (map metric_view metrics.now) }
        ensures unknown { result ≡ is_unknown_by self.old.watch.view
            (DeviceChanges name.now (map metric_view metrics.now)) }
        ensures watch { self.new.watch ≡ record self.old.watch {
          view = view_by
              self.old.watch.view (DeviceChanges name.now (map metric_view metrics.now));
        } }
        ensures room { self.new.room ≡ self.old.room }
    {
        !self.is_shown || self.node.show_each_of(name, metrics, texts)
    }

    /// Whether a rebirth is asked for at an event, and what is kept of that.
    fn ask(&mut self, wait: u64, is_cause: bool, is_birth: bool, now: u64) -> bool
        ensures asks { result ≡ asks_by wait self.old.watch is_cause now }
        ensures watch { self.new.watch
            ≡ kept_after wait self.old.watch self.old.watch.view is_cause is_birth now }
        ensures room { self.new.room ≡ self.old.room }
    {
        let asks = is_cause && may_ask(wait, now, self.asked, self.born_since);
        if asks {
            self.asked = Some(now);
            self.born_since = false;
        } else {
            self.born_since = is_birth || self.born_since;
        }
        asks
    }
}
