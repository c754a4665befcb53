//! The tests that play on a node. Each is a word that `play_on` takes, so that one function alone holds a node.
use crate::{command, host, node, packet, plans, refusal, run, several, twin};
use node::Plays;
use spk_edge::Numbering;
use std::process::Abort;

/// A test, and what it is told of the node.
#[derive(Clone, Copy)]
pub(crate) enum Test<'a> {
    BornTwice,
    DeviceComesAndGoes,
    Overwrites,
    Packets,
    NotAccepted,
    NameTooLong,
    KeptChanges,
    HearsItsHost,
    HearsNoHost,
    OneOwner,
    DeviceDown,
    Phases,
    Refusals,
    LastStamp,
    NotBornAgain,
    HostTooLong,
    DeviceTooLong(&'a str),
    BirthTooLong(&'a str),
    Run(Numbering),
    Keeps4096,
    Commands,
    LongRun,
    Several,
    Plans,
}

impl<'a> Test<'a> {
    /// Plays on a node.
    pub(crate) fn play(self, rt: &(impl Abort + AllocGlobal), node: &mut impl Plays) {
        match self {
            Test::BornTwice => node::is_born_twice(rt, node),
            Test::DeviceComesAndGoes => node::has_a_device_that_comes_and_goes(rt, node),
            Test::Overwrites => node::overwrites_kept_changes(rt, node),
            Test::Packets => packet::takes_packets(rt, node),
            Test::NotAccepted => packet::closes_if_not_accepted(rt, node),
            Test::NameTooLong => packet::has_a_name_too_long(rt, node),
            Test::KeptChanges => host::sends_kept_changes(rt, node),
            Test::HearsItsHost => host::hears_its_host(rt, node),
            Test::HearsNoHost => host::hears_no_host(rt, node),
            Test::OneOwner => host::sends_changes_of_one_owner(rt, node),
            Test::DeviceDown => host::drops_changes_of_a_device_that_is_down(rt, node),
            Test::Phases => host::takes_acts_in_their_phases(rt, node),
            Test::Refusals => refusal::refuses_in_each_phase(rt, node),
            Test::LastStamp => refusal::waits_behind_the_last_stamp(rt, node),
            Test::NotBornAgain => refusal::is_not_born_again(rt, node),
            Test::HostTooLong => refusal::has_a_host_too_long(rt, node),
            Test::DeviceTooLong(name) => refusal::has_a_device_too_long(rt, node, name),
            Test::BirthTooLong(name) => refusal::has_a_birth_too_long(rt, node, name),
            Test::Run(numbering) => run::run(rt, node, numbering),
            Test::Keeps4096 => run::keeps_the_last_4096(rt, node),
            Test::Commands => command::does_commands(rt, node),
            Test::LongRun => twin::plays_long(rt, node),
            Test::Several => several::says_several_at_once(rt, node),
            Test::Plans => plans::numbers_what_is_taken_up(rt, node),
        }
    }
}
