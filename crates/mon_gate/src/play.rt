//! The rule of the table, and the names of its kinds of step.
ghost use Rattle.mon_gate.specs.Rule.{Kept, starting, spent};
ghost use Rattle.mon_gate.specs.Plays.{claimed, looked, entered, dropped, polled, observed, counted, asked, released, loaded, found_global, found_callbacks, disabled, retired, read, stored, rewritten, noted, settled, cut_left, cut_right, joined};

use crate::view::{Plan, View};
use atomic_table::{Join, Play, Split, TableRule};

/// The rule that every step on the words of a gate keeps.
pub struct GateRule;

impl TableRule<(), View, Plan> for GateRule {
    ghost holds = { Kept };

    ghost first = { starting };
}

pub struct Claim;

impl Play<(), View> for Claim {
    ghost then = { claimed };
}

pub struct Look;

impl Play<(), View> for Look {
    ghost then = { looked };
}

pub struct Enter;

impl Play<(), View> for Enter {
    ghost then = { entered };
}

pub struct Leave;

impl Play<(), View> for Leave {
    ghost then = { dropped };
}

pub struct Poll;

impl Play<(), View> for Poll {
    ghost then = { polled };
}

pub struct Observe;

impl Play<(), View> for Observe {
    ghost then = { observed };
}

pub struct Count;

impl Play<(), View> for Count {
    ghost then = { counted };
}

pub struct Ask;

impl Play<(), View> for Ask {
    ghost then = { asked };
}

pub struct Release;

impl Play<(), View> for Release {
    ghost then = { released };
}

pub struct Load;

impl Play<(), View> for Load {
    ghost then = { loaded };
}

pub struct LoadGlobal;

impl Play<(), View> for LoadGlobal {
    ghost then = { found_global };
}

pub struct LoadCallbacks;

impl Play<(), View> for LoadCallbacks {
    ghost then = { found_callbacks };
}

pub struct Disable;

impl Play<(), View> for Disable {
    ghost then = { disabled };
}

pub struct Retire;

impl Play<(), View> for Retire {
    ghost then = { retired };
}

pub struct Read;

impl Play<(), View> for Read {
    ghost then = { read };
}

pub struct Store;

impl Play<(), View> for Store {
    ghost then = { stored };
}

pub struct Rewrite;

impl Play<(), View> for Rewrite {
    ghost then = { rewritten };
}

pub struct Note;

impl Play<(), View> for Note {
    ghost then = { noted };
}

pub struct Settle;

impl Play<(), View> for Settle {
    ghost then = { settled };
}

pub struct Cut;

impl Split<View> for Cut {
    ghost left = { cut_left };

    ghost right = { cut_right };
}

pub struct Both;

impl Join<View> for Both {
    ghost both = { joined };

    ghost spent = { spent };
}
