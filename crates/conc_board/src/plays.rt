// The rule of the board, and what each step leaves.
ghost use Rattle.std.specs.Prelude.{List, []};
ghost use Rattle.conc_types.specs.declared.event.PlaceId.{PlaceId};
ghost use Rattle.conc_pool_seats.specs.Rule.{first_view, Keep, nobody};
ghost use Rattle.conc_pool_seats.specs.Steps.{back_leaves, claim_leaves, clear_leaves, given, go_leaves, got_leaves, joined, let_out_leaves, look_leaves, poll_leaves, post_leaves, see_switch_leaves, stop_leaves, switch_leaves, warn_leaves, with_places_off};

use atomic_table::{Join, Play, Split, TableRule};
use conc_pool_seats::{Posted, View};
use conc_types::Plan;
use std::marker::{Brand, PhantomData};

/// The rule that holds between any two steps on a board.
pub struct BoardRule;

impl TableRule<Option<Posted>, View, Plan> for BoardRule {
    ghost holds = { Keep };

    ghost first = { first_view };
}

// ---- the lead's steps

pub(crate) struct LetsOut;

impl Play<Option<Posted>, View> for LetsOut {
    ghost then = { let_out_leaves };
}

pub(crate) struct Looks;

impl Play<Option<Posted>, View> for Looks {
    ghost then = { look_leaves };
}

pub(crate) struct Goes;

impl Play<Option<Posted>, View> for Goes {
    ghost then = { go_leaves };
}

pub(crate) struct Withdraws;

impl Play<Option<Posted>, View> for Withdraws {
    ghost then = { back_leaves };
}

pub(crate) struct Stops;

impl Play<Option<Posted>, View> for Stops {
    ghost then = { stop_leaves };
}

pub(crate) struct Gets;

impl Play<Option<Posted>, View> for Gets {
    ghost then = { got_leaves };
}

pub(crate) struct Clears;

impl Play<Option<Posted>, View> for Clears {
    ghost then = { clear_leaves };
}

pub(crate) struct Switches;

impl Play<Option<Posted>, View> for Switches {
    ghost then = { switch_leaves };
}

// ---- a hand's steps

pub(crate) struct Claims;

impl Play<Option<Posted>, View> for Claims {
    ghost then = { claim_leaves };
}

pub(crate) struct Polls;

impl Play<Option<Posted>, View> for Polls {
    ghost then = { poll_leaves };
}

pub(crate) struct SeesStop;

impl Play<Option<Posted>, View> for SeesStop {
    ghost then = { warn_leaves };
}

pub(crate) struct Posts;

impl Play<Option<Posted>, View> for Posts {
    ghost then = { post_leaves };
}

pub(crate) struct SeesSwitch;

impl Play<Option<Posted>, View> for SeesSwitch {
    ghost then = { see_switch_leaves };
}

// ---- seats that are split off and taken in

/// The places that pass from the lead to a hand. Each split picks them.
pub trait Passing {
    ghost passes: { List PlaceId };
}

impl Passing for Brand {
    ghost passes = { [] };
}

pub(crate) struct SplitsOff<J: Passing> {
    of: PhantomData<J>,
}

impl<J: Passing> Split<View> for SplitsOff<J> {
    ghost left = { with_places_off J.passes };

    ghost right = { given J.passes };
}

pub(crate) struct TakesIn;

impl Join<View> for TakesIn {
    ghost both = { joined };

    ghost spent = { nobody };
}
