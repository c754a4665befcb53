//! Calls that take no memory, each made where no more is to be had: `tools/fail-alloc spk_no_memory_tests --from` refuses all
//! allocations from each one on. Only what a test begins with asks for memory; where that is refused, it has nothing to look at.
#![tactic(auto)]

#[cfg(test)]
mod leaves;
#[cfg(test)]
mod members;
