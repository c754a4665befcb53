//! Tests of topics, filters and the tree of grants, over public calls alone. They stand apart since a crate with tests is proved twice.
#![tactic(auto)]

#[cfg(test)]
mod plain_list;
#[cfg(test)]
mod topics;
#[cfg(test)]
mod tree;
