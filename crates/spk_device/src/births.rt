//! What a birth lists.
ghost use Rattle.std.specs.Prelude.{◌≡◌, map, None, OnOk, IfOk, IfErr};
ghost use Rattle.spk_payload.specs.View.{metric_view};
ghost use Rattle.spk_device.specs.Book as book;
ghost use Rattle.spk_device.specs.Fault.{IsDue};
ghost use Rattle.spk_device.specs.Step as step;

use crate::fault::{DeviceFault, Refusal};
use crate::names::at;
use crate::owner::Owner;
use crate::registry::Registry;
use spk_payload::Metric;

impl Registry {
    /// The metrics of an owner as its birth lists them (Sparkplug 3.0.0, chapter 6, NBIRTH and DBIRTH), in order of adding: name, alias,
    /// datatype, and the value as it is written, or null. They have no timestamp. The cost is that of the owner's metrics.
    ///
    /// Refuses with NoSuch (41) a device that isn't there.
    pub fn births(&self, owner: Owner) -> Result<Vec<Metric>, DeviceFault>
        ensures births { IfOk result
            (λ metrics. map metric_view metrics.items ≡ book.births_of self.now owner) }
        ensures accepted { OnOk result (step.births_refusal self.now owner ≡ None) }
        ensures fault { IfErr result (IsDue (step.births_refusal self.now owner)) }
    {
        let Some(table) = self.table(owner) else {
            return Err(DeviceFault::Refused(Refusal::NoSuch));
        };
        let mut metrics = Vec::with_capacity(self.alloc, table.len())?;
        for i in 0..table.len() {
            let place = at(table, i);
            metrics.push(self.gauges[place].birth(self.alloc, place)?)?;
        }
        Ok(metrics)
    }
}
