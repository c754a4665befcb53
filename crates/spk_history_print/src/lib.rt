//! The walk over the rows of a history with what its payloads say, and what is printed of it: the values of a metric as CSV, the holes, a summary (own
//! rules).
#![tactic(auto)]

mod called;
mod count;
mod disk;
mod fault;
mod hole;
mod holes;
mod listing;
mod metrics;
mod plan;
mod printing;
mod shown;
mod walk;

pub use called::Called;
pub use count::Counts;
pub use disk::PartsOnDisk;
pub use fault::ExportFault;
pub use hole::{Hole, ending};
pub use metrics::{MetricKey, Metrics};
pub use plan::{PartFiles, Plan, Print, Window};
pub use printing::print;
pub use shown::value_of;
pub use walk::{Takes, walk_over};
