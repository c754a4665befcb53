//! The rule of the channel: what each pass knows of what was put and taken.

use crate::frame::Frame;
use crossbeam_channel::protocol::{Join, Lesson, Outcome, Protocol, Split};
use std::collections::LinkedList;

/// A frame on its way, and the sender that put it, counted from 0.
#[derive(Debug, Drop)]
pub struct Message {
    pub sender: usize,
    pub frame: Frame,
}

/// A sender whose pass was given back, and the frames that were put through it.
pub struct Ended {
    pub sender: usize,
    pub put: LinkedList<Frame>,
}

/// What a pass knows. No value of it is made.
pub enum View {
    /// of a sender: the frames put through it
    Puts(usize, LinkedList<Frame>),
    /// of the taker: how many senders were made, the frames taken, and the senders that are ended
    Takes(usize, LinkedList<Message>, LinkedList<Ended>),
    Spent,
}

pub(crate) struct Lanes;

impl Protocol<Message, View> for Lanes {
    ghost use Rattle.std.specs.Prelude.{[]};
    ghost use Rattle.spk_ingress.specs.Lanes.{Carries};
    ghost use Rattle.spk_ingress.specs.declared.rule.View.TheVariants.{Takes};

    ghost holds = { Carries };

    ghost first = { Takes 0 [] [] };
}

/// A sender's pass is made.
pub(crate) struct NewSender;

impl Split<View> for NewSender {
    ghost use Rattle.spk_ingress.specs.Lanes.{with_sender, new_sender};

    ghost left = { with_sender };

    ghost right = { new_sender };
}

/// A frame is put, or isn't.
pub(crate) struct Puts;

impl Outcome<Message, View> for Puts {
    ghost use Rattle.std.specs.Prelude.{◌≡◌};
    ghost use Rattle.spk_ingress.specs.Lanes.{after_put};

    ghost then = { λ v x w. w ≡ after_put v x };
}

impl Lesson<Message, View> for Puts {
    ghost fact = { λ v items. Unit {0} };
}

/// A frame is taken, or isn't.
pub(crate) struct Takes;

impl Outcome<Message, View> for Takes {
    ghost use Rattle.spk_ingress.specs.Lanes.{IsTaken};

    ghost then = { IsTaken };
}

impl Lesson<Message, View> for Takes {
    ghost fact = { λ v items. Unit {0} };
}

/// What is on its way, of the senders that are ended.
pub(crate) struct Known;

impl Lesson<Message, View> for Known {
    ghost use Rattle.spk_ingress.specs.Lanes.{AreOnTheWay};

    ghost fact = { AreOnTheWay };
}

/// A sender's pass is given back.
pub(crate) struct Settles;

impl Join<View> for Settles {
    ghost use Rattle.spk_ingress.specs.Lanes.{with_ended};
    ghost use Rattle.spk_ingress.specs.declared.rule.View.TheVariants.{Spent};

    ghost both = { with_ended };

    ghost spent = { Spent };
}
