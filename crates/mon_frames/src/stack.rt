ghost use Rattle.std.specs.Prelude.{◌≡◌, ◌<◌, ◌≤◌, [], length, reverse, nat_lt, Some, OnOk, OnErr};
ghost use Rattle.std.specs.Option.{option_copied};
ghost use Rattle.std.specs.Borrow.{sem};
ghost use Rattle.mon_frames.specs.Lending.{LendsTop};
ghost use Rattle.mon_frames.specs.Calls.{called, handler_due};
ghost use Rattle.mon_frames.specs.Views as spec;
ghost use Rattle.mon_frames.specs.Iterating as iterating;
ghost use Rattle.mon_frames.specs.Iterating.{iterated, next_of};
ghost use Rattle.mon_frames.specs.Generators.{parked, suspended, resumed, entered, closed};
ghost use Rattle.mon_frames.specs.Answers.{AnswersPush, AnswersIter, AnswersNext, AnswersPark, AnswersResume, AnswersClose, Adds};

use crate::call::{By, Call, Origin};
use crate::fault::{FrameFault, IterFault, ResumeFault};
use crate::frame::Frame;
use crate::generator::{Closing, Generator, finish, is_none, send, take_frame, wait};
use crate::iteration::Iteration;
use mon_code::{Code, Handler, Program};
use mon_values::fault::Trouble;
use mon_values::value::{Exc, Value};
use std::alloc::{AllocError, Global};
use std::marker::Model;

/// The builtin that closes a generator.
const CLOSE: u8 = 13;

/// The greatest number of frames on the call stack.
pub const MAX_FRAMES: usize = 1000;

/// The call stack of a thread, and its pools of generators and iterators, each numbered from 0 as made.
#[derive(Debug, Drop)]
pub struct Frames {
    alloc: Global,
    // the innermost last
    calls: Vec<Call>,
    generators: Vec<Generator>,
    iterators: Vec<Iteration>,
}

impl Model for Frames {
    ghost use Rattle.std.specs.Prelude.{reverse, length, ◌≤◌};
    ghost use Rattle.mon_frames.specs.Views.{FramesView, view_code, most_frames};

    ghost Value = { FramesView };

    ghost coded = { view_code };

    ghost view = { λ f. record { calls = reverse f.calls.items; generators = f.generators.items; iterators = f.iterators.items } };

    ghost invariant = { λ f. length f.calls.items ≤ most_frames };
}

impl Frames {
    ghost use Rattle.std.specs.Prelude.{◌≡◌, ◌<◌, ◌≤◌, [], length, Some, slice_get, OnOk, OnErr};
    ghost use Rattle.std.specs.Option.{option_copied};
    ghost use Rattle.mon_frames.specs.Views as spec;

    /// No frames, generators and iterators.
    pub fn new(alloc: Global) -> Frames
        ensures { result ≡ record { calls = []; generators = []; iterators = [] } }
    {
        Frames {
            alloc,
            calls: Vec::new(alloc),
            generators: Vec::new(alloc),
            iterators: Vec::new(alloc),
        }
    }

    /// The number of frames on the call stack.
    pub fn depth(&self) -> u32
        ensures count { result ≡ length self.now.calls }
        ensures few { length self.now.calls ≤ spec.most_frames }
    {
        self.calls.len() as u32
    }

    /// The innermost frame.
    pub fn top(&self) -> &Frame
        requires { 0 < length self.now.calls }
        ensures { spec.top_of self.now.calls ≡ Some result.now }
    {
        &self.calls[self.calls.len() - 1].frame
    }

    /// The innermost frame, to be changed.
    pub fn top_mut(&mut self) -> &mut Frame
        requires { 0 < length self.old.calls }
        ensures* writes_back { sem 𝓛 (LendsTop self.entry result) }
        ensures value { spec.top_of self.old.calls ≡ Some result.now }
    {
        let at = self.calls.len() - 1;
        &mut self.calls[at].frame
    }

    /// How the innermost frame came onto the stack.
    pub fn origin(&self) -> Origin
        requires { 0 < length self.now.calls }
        ensures { spec.origin_of self.now.calls ≡ Some result }
    {
        self.calls[self.calls.len() - 1].origin
    }

    /// The generator of this number, if there is one.
    pub fn generator(&self, number: u32) -> Option<&Generator>
        ensures { option_copied result ≡ slice_get self.now.generators number }
    {
        self.generators.get(number as usize)
    }

    /// The last exception on the handling list of the innermost frame that has one there.
    pub fn handled(&self) -> Option<&Exc>
        ensures { option_copied result ≡ spec.handled_in self.now.calls }
    {
        last_handled(self.calls.as_slice())
    }

    /// Pushes the frame of a call of a function, by the number of its code.
    pub fn push_call(
        &mut self,
        program: &Program,
        function: u16,
        args: Vec<Value>,
    ) -> Result<(), FrameFault>
        requires { spec.Takes program.now function args.items }
        ensures { AnswersPush result (spec.pushed self.old program.now function args.items) self.old self.new }
    {
        if !has_room(self.calls.as_slice()) {
            return Err(FrameFault::Full);
        }
        match program.code(function) {
            None => unreachable!(),
            Some(code) => Ok(self.enter(code, function, args)?),
        }
    }

    /// Pushes the frame of a plain call of a code with this number.
    pub fn enter(&mut self, code: &Code, number: u16, args: Vec<Value>) -> Result<(), AllocError>
        requires { length self.old.calls < spec.most_frames }
        ensures ok { OnOk result (self.new ≡ spec.on_top self.old (called code.now number args.items) Origin.Plain) }
        ensures err { OnErr result (self.new ≡ self.old) }
    {
        let frame = Frame::called(self.alloc, code, number, args)?;
        self.calls.push(Call {
            frame,
            origin: Origin::Plain,
        })?;
        Ok(())
    }

    /// Takes the innermost frame off. A generator whose frame it was is finished.
    pub fn pop(&mut self) -> Frame
        requires { 0 < length self.old.calls }
        ensures frame { spec.top_of self.old.calls ≡ Some result }
        ensures rest { self.new ≡ spec.without_top self.old }
    {
        match self.calls.pop() {
            None => unreachable!(),
            Some(call) => {
                finish(&mut self.generators, call.origin);
                call.frame
            }
        }
    }

    /// Takes the innermost frame off as a new generator, which is not started, and gives its number.
    pub fn park(&mut self) -> Result<u32, AllocError>
        requires { spec.origin_of self.old.calls ≡ Some Origin.Plain }
        ensures { AnswersPark result (parked self.old) self.old self.new }
    {
        let Ok(number) = u32::try_from(self.generators.len()) else {
            return Err(AllocError);
        };
        self.generators.reserve(1)?;
        match self.calls.pop() {
            None => unreachable!(),
            Some(call) => {
                self.generators
                    .push_reserved(Generator::NotStarted(call.frame));
                Ok(number)
            }
        }
    }

    /// Takes the innermost frame off. Its generator is suspended.
    pub fn suspend(&mut self)
        requires { 0 < length self.old.calls }
        ensures { self.new ≡ suspended self.old }
    {
        match self.calls.pop() {
            None => unreachable!(),
            Some(call) => wait(&mut self.generators, call),
        }
    }

    /// Lets a generator go on with a value, which has to be None where it is not started.
    pub fn resume(&mut self, generator: u32, sent: Value, by: By) -> Result<(), ResumeFault>
        requires { generator < length self.old.generators }
        ensures { AnswersResume result (resumed self.old generator sent by) self.old self.new }
    {
        match &self.generators[generator as usize] {
            Generator::Running => return Err(ResumeFault::Running),
            Generator::Finished => return Err(ResumeFault::Finished),
            Generator::NotStarted(_) => {
                if !is_none(&sent) {
                    return Err(ResumeFault::NotNone);
                }
            }
            Generator::Suspended(_) => {}
        }
        if !has_room(self.calls.as_slice()) {
            return Err(ResumeFault::Full);
        }
        self.calls.reserve(1)?;
        send(&mut self.generators[generator as usize], sent)?;
        let Some(frame) = take_frame(&mut self.generators[generator as usize]) else {
            unreachable!()
        };
        let origin = Origin::Generator(generator, by);
        self.calls.push_reserved(Call { frame, origin });
        Ok(())
    }

    /// Puts the frame of a generator on top, for an exception that is thrown into it.
    pub fn throw_into(&mut self, generator: u32, by: By) -> Result<(), ResumeFault>
        requires { generator < length self.old.generators }
        ensures { AnswersResume result (entered self.old generator by) self.old self.new }
    {
        match &self.generators[generator as usize] {
            Generator::Running => return Err(ResumeFault::Running),
            Generator::Finished => return Err(ResumeFault::Finished),
            _ => {}
        }
        if !has_room(self.calls.as_slice()) {
            return Err(ResumeFault::Full);
        }
        self.calls.reserve(1)?;
        let Some(frame) = take_frame(&mut self.generators[generator as usize]) else {
            unreachable!()
        };
        let origin = Origin::Generator(generator, by);
        self.calls.push_reserved(Call { frame, origin });
        Ok(())
    }

    /// Closes a generator. One that is suspended is entered, for a GeneratorExit that is thrown into it.
    pub fn close(&mut self, generator: u32) -> Result<Closing, ResumeFault>
        requires { generator < length self.old.generators }
        ensures { AnswersClose result (closed self.old generator) self.old self.new }
    {
        match &self.generators[generator as usize] {
            Generator::Running => Err(ResumeFault::Running),
            Generator::Finished => Ok(Closing::Closed),
            Generator::NotStarted(_) => {
                self.generators[generator as usize] = Generator::Finished;
                Ok(Closing::Closed)
            }
            Generator::Suspended(_) => {
                self.throw_into(generator, By::Call(CLOSE))?;
                Ok(Closing::Entered)
            }
        }
    }

    /// What a value is gone over with: a new iterator of a text, a tuple or a range; a generator or an iterator itself.
    pub fn iterate(&mut self, v: Value) -> Result<Value, IterFault>
        ensures { AnswersIter result (iterated self.old v) self.old self.new }
    {
        match v {
            Value::Gen(number) => Ok(Value::Gen(number)),
            Value::Iter(number) => Ok(Value::Iter(number)),
            over => match Iteration::over(over) {
                None => Err(IterFault::Trouble(Trouble::NOT_ITERABLE)),
                Some(iteration) => Ok(self.add_iterator(iteration)?),
            },
        }
    }

    fn add_iterator(&mut self, iteration: Iteration) -> Result<Value, AllocError>
        ensures { Adds result iteration self.old self.new }
    {
        let Ok(number) = u32::try_from(self.iterators.len()) else {
            return Err(AllocError);
        };
        self.iterators.push(iteration)?;
        Ok(Value::Iter(number))
    }

    /// The next value of an iterator; none where none is left.
    pub fn next_item(&mut self, iterator: u32) -> Result<Option<Value>, AllocError>
        ensures { AnswersNext result (next_of self.old iterator) self.old self.new }
    {
        next_in(self.alloc, &mut self.iterators, iterator as usize)
    }
}

/// Whether one more frame may stand on these.
fn has_room(calls: &[Call]) -> bool
    ensures { result ≡ nat_lt (length calls.now) spec.most_frames }
{
    calls.len() < MAX_FRAMES
}

/// The last exception of the last of these calls that handles one.
fn last_handled(calls: &[Call]) -> Option<&Exc>
    ensures { option_copied result ≡ spec.handled_in (reverse calls.now) }
{
    let mut at = calls.len();
    while at > 0 {
        at -= 1;
        if let Some(exc) = calls[at].frame.handling.last() {
            return Some(exc);
        }
    }
    None
}

/// The next value of the iterator at a place, if one stands there and has one left.
fn next_in(
    alloc: Global,
    iterators: &mut Vec<Iteration>,
    at: usize,
) -> Result<Option<Value>, AllocError>
    ensures { AnswersNext result (iterating.next_in iterators.old.items at) iterators.old.items iterators.new.items }
{
    match iterators.get_mut(at) {
        None => Ok(None),
        Some(iteration) => iteration.next(alloc),
    }
}

/// Where an exception of the instruction at an index goes, as its code records it.
pub fn handler_of(program: &Program, code: u16, index: u32) -> Option<Handler>
    ensures { result ≡ handler_due program.now code index }
{
    program
        .code(code)?
        .locations
        .as_slice()
        .get(index as usize)?
        .handler
}
