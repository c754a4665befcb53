//! Tests of the edge node, over public calls alone. They stand apart since a crate with tests is proved twice.
#![tactic(auto)]

#[cfg(test)]
mod command;
#[cfg(test)]
mod datatype;
#[cfg(test)]
mod floats;
#[cfg(test)]
mod history;
#[cfg(test)]
mod host;
#[cfg(test)]
mod node;
#[cfg(test)]
mod packet;
#[cfg(test)]
mod plans;
#[cfg(test)]
mod refusal;
#[cfg(test)]
mod run;
#[cfg(test)]
mod several;
#[cfg(test)]
mod twin;
#[cfg(test)]
mod which;
