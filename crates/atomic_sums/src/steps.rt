//! The rule of the table, and the names of its steps.
ghost use Rattle.atomic_sums.specs.{Rule.{Keeps}, Views.{Draws, Learns, Posts, first_view, joined_view, left_view, right_view, spent_view}};

use atomic_table::{Join, Play, Split, TableRule};
use piece_claim::Sizes;
use std::marker::Model;

// What a seat knows. No value of it is made.
pub(crate) struct View(());

impl Model for View {
    ghost use Rattle.atomic_sums.specs.Views.{SeatView, spent_view};

    ghost Value = { SeatView };

    ghost view = { λ _. spent_view };
}

pub(crate) struct Order;

impl TableRule<(), View, Sizes> for Order {
    ghost holds = { Keeps };

    ghost first = { first_view };
}

pub(crate) struct Draw;

impl Play<(), View> for Draw {
    ghost then = { Draws };
}

pub(crate) struct Post;

impl Play<(), View> for Post {
    ghost then = { Posts };
}

// A load that changes nothing.
pub(crate) struct Learn;

impl Play<(), View> for Learn {
    ghost then = { Learns };
}

pub(crate) struct OneShare;

impl Split<View> for OneShare {
    ghost left = { left_view };

    ghost right = { right_view };
}

pub(crate) struct Both;

impl Join<View> for Both {
    ghost both = { joined_view };

    ghost spent = { spent_view };
}
