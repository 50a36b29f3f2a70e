ghost use Rattle.std.specs.Prelude.{◌≡◌, OnOk, OnErr};
ghost use Rattle.mon_frames.specs.Generators as spec;
ghost use Rattle.mon_frames.specs.Generators.{waiting_with, waiting_frame, with_value};
ghost use Rattle.mon_frames.specs.Views.{after_leaving};

use crate::call::{Call, Origin};
use crate::frame::Frame;
use mon_values::value::Value;
use std::alloc::AllocError;
use std::mem;

/// Where a generator stands. Its frame is on the call stack while it is running.
#[derive(Debug, Drop)]
pub enum Generator {
    /// It was made, and has not been resumed.
    NotStarted(Frame),
    /// It has yielded a value, and waits behind its `yield`.
    Suspended(Frame),
    /// It was resumed, and has not yielded or ended since.
    Running,
    /// It has returned or raised.
    Finished,
}

/// What a close did.
#[derive(Clone, Copy, Debug, PartialEq, Eq)]
pub enum Closing {
    /// The generator is finished.
    Closed,
    /// Its frame is on the call stack, for an exception that is thrown into it.
    Entered,
}

/// A generator whose frame leaves the call stack without being suspended is finished.
pub(crate) fn finish(generators: &mut Vec<Generator>, origin: Origin)
    ensures { generators.new.items ≡ after_leaving origin generators.old.items }
{
    match origin {
        Origin::Plain => {}
        Origin::Generator(number, _) => {
            if let Some(generator) = generators.get_mut(number as usize) {
                *generator = Generator::Finished;
            }
        }
    }
}

/// The generator of a frame that leaves the call stack waits with it.
pub(crate) fn wait(generators: &mut Vec<Generator>, call: Call)
    ensures { generators.new.items ≡ waiting_with call.frame call.origin generators.old.items }
{
    match call.origin {
        Origin::Plain => {}
        Origin::Generator(number, _) => {
            if let Some(generator) = generators.get_mut(number as usize) {
                *generator = Generator::Suspended(call.frame);
            }
        }
    }
}

/// Whether a value is the one that a generator takes which is not started.
pub(crate) fn is_none(value: &Value) -> bool
    ensures { result ≡ spec.is_none value.now }
{
    matches!(value, Value::None)
}

/// Puts a value onto the stack of a generator that waits.
pub(crate) fn send(generator: &mut Generator, value: Value) -> Result<(), AllocError>
    ensures ok { OnOk result (generator.new ≡ with_value value generator.old) }
    ensures err { OnErr result (generator.new ≡ generator.old) }
{
    match generator {
        Generator::NotStarted(frame) => Ok(frame.stack.push(value)?),
        Generator::Suspended(frame) => Ok(frame.stack.push(value)?),
        _ => Ok(()),
    }
}

/// The frame of a generator that waits, which then runs.
pub(crate) fn take_frame(generator: &mut Generator) -> Option<Frame>
    ensures frame { result ≡ waiting_frame generator.old }
    ensures runs { generator.new ≡ Generator.Running }
{
    match mem::replace(generator, Generator::Running) {
        Generator::NotStarted(frame) => Some(frame),
        Generator::Suspended(frame) => Some(frame),
        _ => None,
    }
}
