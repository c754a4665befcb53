//! Tests of the broker, and of the broker over TCP, over public calls alone. They stand apart since a crate with tests is proved twice.
#![tactic(auto)]

#[cfg(test)]
mod again;
#[cfg(test)]
mod behind_door;
#[cfg(test)]
mod beside_twin;
#[cfg(test)]
mod broker;
#[cfg(test)]
mod causes;
#[cfg(test)]
mod hostile;
#[cfg(test)]
mod indexed;
#[cfg(test)]
mod kept;
#[cfg(test)]
mod limits;
#[cfg(test)]
mod page;
#[cfg(test)]
mod ports;
#[cfg(test)]
mod pressure;
#[cfg(test)]
mod serve;
#[cfg(test)]
mod sharing;
#[cfg(test)]
mod sockets;
#[cfg(test)]
mod status;
#[cfg(test)]
mod stored;
#[cfg(test)]
mod twin;
#[cfg(test)]
mod unfriendly;
