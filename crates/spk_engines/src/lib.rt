//! The two engines between a connection and the broker: one reads the packets of a stream (MQTT 3.1.1, chapter 2) and puts
//! them as frames, one writes what a ring holds. Each is generic over its reader or writer.
#![tactic(auto)]

mod counted;
mod device;
mod fault;
mod reading;
mod writing;

pub use counted::Counted;
pub use device::Failures;
pub use fault::EngineFault;
pub use reading::read_frames;
pub use writing::write_items;
