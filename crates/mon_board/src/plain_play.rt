//! The rule of a plain board, and the names of its kinds of step.
ghost use Rattle.mon_board.specs.Plain.{PlainKept, starting, turned_to, entered, polled, loaded, loaded_globally, loaded_for_tool, read, disabled, retired, counted, noted, stored, rewritten, released};

use crate::plain_view::{PlainPlan, PlainView};
use atomic_table::{Play, TableRule};

pub struct PlainRule;

impl TableRule<(), PlainView, PlainPlan> for PlainRule {
    ghost holds = { PlainKept };

    ghost first = { starting };
}

pub struct Turn;

impl Play<(), PlainView> for Turn {
    ghost then = { turned_to };
}

pub struct Enter;

impl Play<(), PlainView> for Enter {
    ghost then = { entered };
}

pub struct Poll;

impl Play<(), PlainView> for Poll {
    ghost then = { polled };
}

pub struct Load;

impl Play<(), PlainView> for Load {
    ghost then = { loaded };
}

pub struct LoadGlobal;

impl Play<(), PlainView> for LoadGlobal {
    ghost then = { loaded_globally };
}

pub struct LoadCallbacks;

impl Play<(), PlainView> for LoadCallbacks {
    ghost then = { loaded_for_tool };
}

pub struct Read;

impl Play<(), PlainView> for Read {
    ghost then = { read };
}

pub struct Disable;

impl Play<(), PlainView> for Disable {
    ghost then = { disabled };
}

pub struct Retire;

impl Play<(), PlainView> for Retire {
    ghost then = { retired };
}

pub struct Count;

impl Play<(), PlainView> for Count {
    ghost then = { counted };
}

pub struct Note;

impl Play<(), PlainView> for Note {
    ghost then = { noted };
}

pub struct Store;

impl Play<(), PlainView> for Store {
    ghost then = { stored };
}

pub struct Rewrite;

impl Play<(), PlainView> for Rewrite {
    ghost then = { rewritten };
}

pub struct Release;

impl Play<(), PlainView> for Release {
    ghost then = { released };
}
