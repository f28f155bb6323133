//! The rule of the channel between a feed and its drain, and what each step tells the side that makes it.

ghost use Rattle.std.specs.Prelude.{◌≡◌, ◌++◌, [], ◌∷◌, true, false, Option, Some, None, ⊤};
ghost use Rattle.flow_buffer.specs.Channel.{Buffers, Sends, Overwrites, Takes, Looks, Agree};
ghost use Rattle.flow_buffer.specs.Channel.{at_first, fresh_side, feed_side, drain_side, spare_side, missed_side, joined_side};

use crate::side::Side;
use cold_flow::Event;
use crossbeam_channel::protocol::{Join, Lesson, Outcome, Protocol, Split};
use std::marker::{Brand, PhantomData};

/// The rule itself.
pub struct Buffering;

impl<T, E> Protocol<Event<T, E>, Side<T, E>> for Buffering {
    ghost holds = { λ items views. Buffers items views };

    ghost first = { fresh_side };
}

/// The feed sends.
pub struct Sending;

impl<T, E> Outcome<Event<T, E>, Side<T, E>> for Sending {
    ghost then = { Sends };
}

impl<T, E> Lesson<Event<T, E>, Side<T, E>> for Sending {
    ghost fact = { Looks };
}

/// The feed takes the oldest value out itself.
pub struct Overwriting;

impl<T, E> Outcome<Event<T, E>, Side<T, E>> for Overwriting {
    ghost then = { Overwrites };
}

impl<T, E> Lesson<Event<T, E>, Side<T, E>> for Overwriting {
    ghost fact = { λ v items. ⊤ };
}

/// The drain receives.
pub struct Taking;

impl<T, E> Outcome<Event<T, E>, Side<T, E>> for Taking {
    ghost then = { Takes };
}

impl<T, E> Lesson<Event<T, E>, Side<T, E>> for Taking {
    ghost fact = { λ v items. ⊤ };
}

/// The first pass becomes the feed's and the drain's, where no value may be dropped.
pub struct Lossless;

impl<T, E> Split<Side<T, E>> for Lossless {
    ghost left = { λ v. feed_side false None [] at_first };

    ghost right = { λ v. drain_side false None [] [] 0 };
}

/// The same, where values may be dropped.
pub struct Lossy;

impl<T, E> Split<Side<T, E>> for Lossy {
    ghost left = { λ v. feed_side true None [] at_first };

    ghost right = { λ v. drain_side true None [] [] 0 };
}

/// The value that a full channel had no room for, which the proof of a call picks.
pub trait Missed<T> {
    ghost value: { Option T };
}

impl<T> Missed<T> for Brand {
    ghost value = { None };
}

/// The feed notes that it dropped a new value.
pub struct Missing<W> {
    of: PhantomData<W>,
}

impl<T, E, W: Missed<T>> Split<Side<T, E>> for Missing<W> {
    ghost left = { missed_side W.value };

    ghost right = { λ v. spare_side };
}

/// One pass is the feed's and the drain's again.
pub struct Together;

impl<T, E> Join<Side<T, E>> for Together {
    ghost both = { joined_side };

    ghost spent = { spare_side };
}

/// What a pass of both sides learns.
pub struct Agreeing;

impl<T, E> Lesson<Event<T, E>, Side<T, E>> for Agreeing {
    ghost fact = { λ v items. Agree v.produced v.sent v.taken v.got v.history };
}
