//! The journal of a broker over a small trait of its disk (own rules): what is read at a start, what is put behind it, when it is synced, and when it begins anew.
#![tactic(auto)]

mod disk;
mod fault;
mod opening;
mod putting;
mod store;
#[cfg(test)]
mod tests;

pub use disk::{Disk, NoDisk};
pub use fault::StoreFault;
pub use opening::{Kept, Restart, broker_of, open};
pub use store::Store;
