//! Open labels become indexes.

ghost use Rattle.std.specs.Prelude.{◌≡◌, ◌≤◌, length};
ghost use Rattle.mon_compile.specs.Moved as moves;
ghost use Rattle.mon_compile.specs.Open as opened;

use crate::assembly::{Argument, Handler, Instruction, Label};

fn settled(label: Label, unknown: Label, done: u32) -> Label
    ensures { result ≡ opened.settle_label unknown done label }
{
    match (unknown, label) {
        (Label::EndOf(d), Label::EndOf(e)) => { if e == d { Label::At(done) } else { label } }
        (Label::HandlerOf(d), Label::HandlerOf(e)) => {
            if e == d { Label::At(done) } else { label }
        }
        _ => label,
    }
}

fn settled_handler(handler: Option<Handler>, unknown: Label, done: u32) -> Option<Handler>
    ensures { result ≡ moves.moved_handler (opened.settle_label unknown done) handler }
{
    match handler {
        None => None,
        Some(handler) => Some(Handler {
            to: settled(handler.to, unknown, done),
            ..handler
        }),
    }
}

fn settle_one(instruction: &mut Instruction, unknown: Label, done: u32)
    ensures { instruction.new ≡ opened.settled unknown done instruction.old }
{
    if let Argument::Destination(label) = instruction.argument {
        instruction.argument = Argument::Destination(settled(label, unknown, done));
    }
    instruction.spot.handler = settled_handler(instruction.spot.handler, unknown, done);
}

/// Writes an index for an open label, in the instructions from an index on.
#[tactic(auto, using(crate::proofs::Settled::change_one, crate::proofs::Settled::changed_end))]
pub fn settle(code: &mut Vec<Instruction>, from: usize, unknown: Label, done: u32)
    requires { from ≤ length code.old.items }
    ensures { code.new.items ≡ opened.changed_from (opened.settled unknown done) from code.old.items }
{
    for i in from..code.len() {
        settle_one(&mut code[i], unknown, done);
    }
}
