//! The interpreter's steps.

ghost use Rattle.std.specs.Prelude.{◌≡◌, ◌++◌, IsTrue, OnOk};
ghost use Rattle.mon_words.specs.Told.{Owns};
ghost use Rattle.mon_machine.specs.Run as run;
ghost use Rattle.mon_machine.specs.declared.mode.Mode.TheVariants.{Run as Running};
ghost use Rattle.mon_interp.specs.Machines.{PolledDue};
ghost use Rattle.mon_interp.specs.Moving.{texts};

use crate::done::Done;
use crate::events::{Place, push_answer};
use crate::listen::{hear_line, load_answered, load_raised};
use crate::perform::perform;
use crate::settle::{finish, settle, unwind};
use crate::step::{act, instruct_in_place, list_events, list_plain, look};
use crate::thread::Stop;
use mon_code::{Code, Location, Program};
use mon_events::{Op, Slot, op_of_number};
use mon_frames::Frames;
use mon_hear::{asks_slot, hear_asked, hear_unwinding_asked, load_global, retire_due};
use mon_machine::{Answer, Mode};
use mon_recorders::{Disabled, Happening, Outcome, Records, ThreadReport};
use mon_values::text::Text;
use mon_values::value::Exc;
use mon_words::{Handle, unpack};
use sqlite_items::Items;
use std::alloc::{AllocError, Global};
use std::mem;

/// A thread's frames and mode, what it has printed, and what was recorded of it.
#[derive(Drop)]
pub struct Machine {
    pub alloc: Global,
    pub frames: Frames,
    pub mode: Mode,
    pub printed: Items<Text>,
    pub records: Records,
    pub disables: Items<Disabled>,
    pub steps: u64,
    // The events of a step that are asked for, while it is done.
    pub events: Vec<Happening>,
}

// Adds a text, if there is one, to those that were printed.
fn add_text(printed: &mut Items<Text>, text: Option<Text>) -> Result<(), AllocError>
    ensures { OnOk result (printed.new ≡ printed.old ++ texts text) }
{
    if let Some(text) = text {
        printed.push(text)?;
    }
    Ok(())
}

// Puts a value in the place of another.
fn put<T: Drop>(place: &mut T, value: T)
    ensures { place.new ≡ value }
{
    *place = value;
}

// Goes on in a mode. A machine that runs on is left as it is.
fn turn(place: &mut Mode, mode: Mode)
    requires { place.old ≡ Running }
    ensures { place.new ≡ mode }
{
    if !matches!(mode, Mode::Run) {
        *place = mode;
    }
}

// Polls where a thread may be stopped; whether it is asked to.
fn poll_due<H: Handle>(handle: &mut H, is_safe: bool) -> bool
    requires attached { IsTrue (H.told handle.old).attached }
    requires owns { Owns (H.told handle.old) }
    ensures polled { PolledDue is_safe result (H.told handle.old) (H.told handle.new) }
    ensures rest { H.rest handle.new ≡ H.rest handle.old }
{
    if !is_safe {
        return false;
    }
    handle.poll()
}

impl Machine {
    ghost use Rattle.std.specs.Prelude.{◌≡◌, ◌+◌, ◌++◌, ◌<◌, ◌≤◌, ◌^◌, Some, None, map, true, false, length, ℕ, List, IsTrue, OnOk, IfOk, []};
    ghost use Rattle.mon_events.specs.declared.event.Slot.TheVariants as slot_of;
    ghost use Rattle.mon_words.specs.Words.{cell_of};
    ghost use Rattle.mon_words.specs.History.{after, cell_at, base_in};
    ghost use Rattle.mon_words.specs.Told.{Grows, Owns};
    ghost use Rattle.mon_words.specs.declared.history.Mark.{Mark as MarkOf};
    ghost use Rattle.mon_frames.specs.declared.frame.Frame.{Frame as FrameOf};
    ghost use Rattle.mon_frames.specs.Views.{top_of};
    ghost use Rattle.mon_machine.specs.State.{goes};
    ghost use Rattle.mon_machine.specs.Step.{executed, after_ending};
    ghost use Rattle.mon_machine.specs.Advances.{Advanced, Stays, is_asked};
    ghost use Rattle.mon_machine.specs.declared.mode.Mode.TheVariants.{Run, Stuck};
    ghost use Rattle.mon_interp.specs.Machines.{progress_of, state_of, finishing, answered_at, HeardStep, StandsHere, DoneStep, StepOrStop, RanUnwinding};
    ghost use Rattle.mon_interp.specs.Retires.{Retired};
    ghost use Rattle.mon_interp.specs.Asking.{asks_for};
    ghost use Rattle.mon_interp.specs.Moving.{Stands, texts};
    ghost use Rattle.mon_interp.specs.Places.{IsAt};
    ghost use Rattle.mon_interp.specs.Threads.{reported, stop_due};

    /// Whether it goes on.
    pub fn goes(&self) -> bool
        ensures { result ≡ goes self.now.mode }
    {
        matches!(self.mode, Mode::Run | Mode::Unwind(_) | Mode::Finish(_))
    }

    /// Goes on after an instruction that was done so.
    fn go_on(&mut self, program: &Program, done: Done) -> Result<(), AllocError>
        requires runs { self.old.mode ≡ Run }
        ensures after { OnOk result (after_ending program.now self.old.frames done.ending ≡ state_of self.new) }
        ensures printed { OnOk result (self.new.printed ≡ self.old.printed ++ texts done.printed) }
        ensures records { (self.new.records ≡ self.old.records) × (self.new.disables ≡ self.old.disables) }
        ensures steps { self.new.steps ≡ self.old.steps }
        ensures events { self.new.events.items ≡ self.old.events.items }
    {
        let mode = settle(self.alloc, program, &mut self.frames, done.ending)?;
        turn(&mut self.mode, mode);
        add_text(&mut self.printed, done.printed)
    }

    /// One instruction, at a location whose word asks for no event of a slot but LINE.
    #[tactic(auto, using(crate::proofs::Standing::one_stands))]
    fn plain_step<H: Handle>(
        &mut self,
        program: &Program,
        code: &Code,
        handle: &mut H,
        place: Place,
        word: u64,
        op: Op,
        location: Location,
    ) -> Result<(), AllocError>
        requires attached { IsTrue (H.told handle.old).attached }
        requires within { place.location < length (H.told handle.old).first.cells }
        requires loaded { cell_of word ≡ cell_at (after (H.told handle.old).first (H.told handle.old).seen) place.location }
        requires plain { (asks_for word slot_of.Instruction ≡ false) × (asks_for word slot_of.Main ≡ false) }
        requires stands { Stands self.old.frames.calls }
        requires runs { self.old.mode ≡ Run }
        requires counted { self.old.steps < 2 ^ 63 }
        ensures step { OnOk result ((f : FrameOf) → top_of self.old.frames.calls ≡ Some f → IsAt place f → place.location ≡ code.now.first + f.index → HeardStep (executed program.now code.now op location f self.old.frames) place.location word (H.told handle.old) (H.told handle.new) (progress_of self.old) (progress_of self.new)) }
        ensures counted { (self.old.steps ≤ self.new.steps) × (self.new.steps ≤ self.old.steps + 1) }
        ensures stays { (m : List MarkOf) × Grows (H.told handle.old) (H.told handle.new) m }
        ensures rest { H.rest handle.new ≡ H.rest handle.old }
    {
        let line = location.line;
        let last = self.frames.top().line;
        if instruct_in_place(program, code, &mut self.frames, op, location) {
            hear_line(
                handle,
                place,
                word,
                self.steps,
                line,
                last,
                &mut self.events,
                &mut self.records,
                &mut self.disables,
            )?;
            self.steps += 1;
            return Ok(());
        }
        let argument = location.argument;
        let done = perform(self.alloc, program, code, &mut self.frames, op, argument)?;
        let global = load_raised(handle, &self.frames, &done.ending);
        self.events.clear();
        list_plain(
            self.alloc,
            program,
            &self.frames,
            &mut self.events,
            word,
            global,
            place,
            line,
            last,
            &done.ending,
        )?;
        self.go_on(program, done)?;
        hear_asked(
            handle,
            place.location,
            word,
            global,
            self.steps,
            self.events.as_slice(),
            &mut self.records,
            &mut self.disables,
        )?;
        self.steps += 1;
        Ok(())
    }

    /// One instruction, at a location with any word.
    #[tactic(auto, using(crate::proofs::Standing::one_stands))]
    fn loud_step<H: Handle>(
        &mut self,
        program: &Program,
        code: &Code,
        handle: &mut H,
        number: u32,
        word: u64,
        op: Op,
        location: Location,
    ) -> Result<(), AllocError>
        requires attached { IsTrue (H.told handle.old).attached }
        requires within { number < length (H.told handle.old).first.cells }
        requires loaded { cell_of word ≡ cell_at (after (H.told handle.old).first (H.told handle.old).seen) number }
        requires stands { Stands self.old.frames.calls }
        requires runs { self.old.mode ≡ Run }
        requires counted { self.old.steps < 2 ^ 63 }
        ensures step { OnOk result ((f : FrameOf) → top_of self.old.frames.calls ≡ Some f → number ≡ code.now.first + f.index → HeardStep (executed program.now code.now op location f self.old.frames) number word (H.told handle.old) (H.told handle.new) (progress_of self.old) (progress_of self.new)) }
        ensures counted { (self.old.steps ≤ self.new.steps) × (self.new.steps ≤ self.old.steps + 1) }
        ensures stays { (m : List MarkOf) × Grows (H.told handle.old) (H.told handle.new) m }
        ensures rest { H.rest handle.new ≡ H.rest handle.old }
    {
        let argument = location.argument;
        let frame = self.frames.top();
        let before = look(self.alloc, program, frame, number, word, op, argument)?;
        let done = act(self.alloc, program, code, &mut self.frames, op, location)?;
        let global = load_raised(handle, &self.frames, &done.ending);
        self.events.clear();
        list_events(
            self.alloc,
            program,
            &self.frames,
            &mut self.events,
            word,
            global,
            &before,
            op,
            location,
            &done,
        )?;
        self.go_on(program, done)?;
        hear_asked(
            handle,
            number,
            word,
            global,
            self.steps,
            self.events.as_slice(),
            &mut self.records,
            &mut self.disables,
        )?;
        self.steps += 1;
        Ok(())
    }

    /// One instruction, at a location with this word, which was loaded just now.
    fn step_at<H: Handle>(
        &mut self,
        program: &Program,
        code: &Code,
        handle: &mut H,
        place: Place,
        word: u64,
        op: Op,
        location: Location,
    ) -> Result<(), AllocError>
        requires attached { IsTrue (H.told handle.old).attached }
        requires within { place.location < length (H.told handle.old).first.cells }
        requires loaded { cell_of word ≡ cell_at (after (H.told handle.old).first (H.told handle.old).seen) place.location }
        requires stands { Stands self.old.frames.calls }
        requires runs { self.old.mode ≡ Run }
        requires counted { self.old.steps < 2 ^ 63 }
        ensures step { OnOk result ((f : FrameOf) → top_of self.old.frames.calls ≡ Some f → IsAt place f → place.location ≡ code.now.first + f.index → HeardStep (executed program.now code.now op location f self.old.frames) place.location word (H.told handle.old) (H.told handle.new) (progress_of self.old) (progress_of self.new)) }
        ensures counted { (self.old.steps ≤ self.new.steps) × (self.new.steps ≤ self.old.steps + 1) }
        ensures stays { (m : List MarkOf) × Grows (H.told handle.old) (H.told handle.new) m }
        ensures rest { H.rest handle.new ≡ H.rest handle.old }
    {
        if asks_slot(word, Slot::Instruction) {
            return self.loud_step(program, code, handle, place.location, word, op, location);
        }
        if asks_slot(word, Slot::Main) {
            return self.loud_step(program, code, handle, place.location, word, op, location);
        }
        self.plain_step(program, code, handle, place, word, op, location)
    }

    fn get_stuck(&mut self)
        requires { self.old.steps < 2 ^ 63 }
        ensures { progress_of self.new ≡ record (progress_of self.old) { state = record { frames = self.old.frames; mode = Stuck }; steps = self.old.steps + 1 } }
    {
        put(&mut self.mode, Mode::Stuck);
        self.steps += 1;
    }

    /// One instruction of a code, where the innermost frame stands at this location.
    fn load_step<H: Handle>(
        &mut self,
        program: &Program,
        code: &Code,
        handle: &mut H,
        place: Place,
        location: Location,
    ) -> Result<(), AllocError>
        requires attached { IsTrue (H.told handle.old).attached }
        requires owns { Owns (H.told handle.old) }
        requires bases { map base_in (H.told handle.old).first.cells ≡ program.now.bases }
        requires within { place.location < length (H.told handle.old).first.cells }
        requires counted { self.old.steps < 2 ^ 63 }
        requires runs { self.old.mode ≡ Run }
        requires stands { StandsHere program.now code.now location place (state_of self.old) }
        ensures step { OnOk result (DoneStep program.now (H.told handle.old) (H.told handle.new) (progress_of self.old) (progress_of self.new)) }
        ensures counted { (self.old.steps ≤ self.new.steps) × (self.new.steps ≤ self.old.steps + 1) }
        ensures stays { (m : List MarkOf) × Grows (H.told handle.old) (H.told handle.new) m }
        ensures rest { H.rest handle.new ≡ H.rest handle.old }
    {
        let word = handle.load(place.location);
        match op_of_number(unpack(word).base) {
            None => {
                retire_due(handle, place.location, word);
                self.get_stuck();
                Ok(())
            }
            Some(op) => self.step_at(program, code, handle, place, word, op, location),
        }
    }

    /// One instruction of a code, behind the poll that is due before it; false, where the thread is asked to stop.
    fn poll_and_step<H: Handle>(
        &mut self,
        program: &Program,
        code: &Code,
        handle: &mut H,
        place: Place,
        location: Location,
    ) -> Result<bool, AllocError>
        requires attached { IsTrue (H.told handle.old).attached }
        requires owns { Owns (H.told handle.old) }
        requires bases { map base_in (H.told handle.old).first.cells ≡ program.now.bases }
        requires within { place.location < length (H.told handle.old).first.cells }
        requires counted { self.old.steps < 2 ^ 63 }
        requires runs { self.old.mode ≡ Run }
        requires stands { StandsHere program.now code.now location place (state_of self.old) }
        ensures step { IfOk result (λ done. StepOrStop done program.now (H.told handle.old) (H.told handle.new) (progress_of self.old) (progress_of self.new)) }
        ensures counted { (self.old.steps ≤ self.new.steps) × (self.new.steps ≤ self.old.steps + 1) }
        ensures stays { Stays (H.told handle.old) (H.told handle.new) }
        ensures rest { H.rest handle.new ≡ H.rest handle.old }
    {
        if poll_due(handle, location.is_safe) {
            return Ok(false);
        }
        self.load_step(program, code, handle, place, location)?;
        Ok(true)
    }

    /// One instruction, whatever stands at the location of the innermost frame; false, where the thread is asked to stop
    /// before it.
    fn run_step<H: Handle>(&mut self, program: &Program, handle: &mut H) -> Result<bool, AllocError>
        requires attached { IsTrue (H.told handle.old).attached }
        requires owns { Owns (H.told handle.old) }
        requires bases { map base_in (H.told handle.old).first.cells ≡ program.now.bases }
        requires counted { self.old.steps < 2 ^ 63 }
        requires runs { self.old.mode ≡ Run }
        ensures step { IfOk result (λ done. StepOrStop done program.now (H.told handle.old) (H.told handle.new) (progress_of self.old) (progress_of self.new)) }
        ensures counted { (self.old.steps ≤ self.new.steps) × (self.new.steps ≤ self.old.steps + 1) }
        ensures stays { Stays (H.told handle.old) (H.told handle.new) }
        ensures rest { H.rest handle.new ≡ H.rest handle.old }
    {
        if self.frames.depth() == 0 {
            self.get_stuck();
            return Ok(true);
        }
        let frame = self.frames.top();
        let number = frame.code;
        let at = frame.index;
        match program.code(number) {
            None => {
                self.get_stuck();
                Ok(true)
            }
            Some(code) => match code.locations.get(at as usize) {
                None => {
                    self.get_stuck();
                    Ok(true)
                }
                Some(location) => {
                    let place = Place {
                        code: number,
                        index: at,
                        location: code.first + at,
                    };
                    self.poll_and_step(program, code, handle, place, *location)
                }
            },
        }
    }

    /// One step of the search for a handler of an exception.
    fn unwind_step<H: Handle>(
        &mut self,
        program: &Program,
        handle: &mut H,
        exc: Exc,
    ) -> Result<(), AllocError>
        requires attached { IsTrue (H.told handle.old).attached }
        requires owns { Owns (H.told handle.old) }
        requires counted { self.old.steps < 2 ^ 63 }
        ensures step { OnOk result (RanUnwinding program.now exc (H.told handle.old) (H.told handle.new) (progress_of self.old) (progress_of self.new)) }
        ensures counted { (self.old.steps ≤ self.new.steps) × (self.new.steps ≤ self.old.steps + 1) }
        ensures grows { Grows (H.told handle.old) (H.told handle.new) [] }
        ensures rest { H.rest handle.new ≡ H.rest handle.old }
    {
        if self.frames.depth() == 0 {
            self.get_stuck();
            return Ok(());
        }
        let global = load_global(handle);
        self.events.clear();
        let mode = unwind(
            self.alloc,
            program,
            &mut self.frames,
            exc,
            global,
            &mut self.events,
        )?;
        put(&mut self.mode, mode);
        hear_unwinding_asked(
            handle,
            global,
            self.steps,
            self.events.as_slice(),
            &mut self.records,
        )?;
        self.steps += 1;
        Ok(())
    }

    /// The end of a call that resumed a generator, at a location with this word, which was loaded just now.
    fn finish_at<H: Handle>(
        &mut self,
        program: &Program,
        handle: &mut H,
        place: Place,
        word: u64,
        answer: Answer,
    ) -> Result<(), AllocError>
        requires attached { IsTrue (H.told handle.old).attached }
        requires within { place.location < length (H.told handle.old).first.cells }
        requires loaded { cell_of word ≡ cell_at (after (H.told handle.old).first (H.told handle.old).seen) place.location }
        requires stands { Stands self.old.frames.calls }
        requires counted { self.old.steps < 2 ^ 63 }
        ensures step { OnOk result ((f : FrameOf) → top_of self.old.frames.calls ≡ Some f → IsAt place f → HeardStep (answered_at program.now answer place.location f self.old.frames) place.location word (H.told handle.old) (H.told handle.new) (progress_of self.old) (progress_of self.new)) }
        ensures counted { (self.old.steps ≤ self.new.steps) × (self.new.steps ≤ self.old.steps + 1) }
        ensures stays { (m : List MarkOf) × Grows (H.told handle.old) (H.told handle.new) m }
        ensures rest { H.rest handle.new ≡ H.rest handle.old }
    {
        let global = load_answered(handle, &answer.result);
        self.events.clear();
        push_answer(
            self.alloc,
            program,
            &mut self.events,
            word,
            global,
            place,
            &answer,
        )?;
        let mode = finish(&mut self.frames, answer.result)?;
        put(&mut self.mode, mode);
        hear_asked(
            handle,
            place.location,
            word,
            global,
            self.steps,
            self.events.as_slice(),
            &mut self.records,
            &mut self.disables,
        )?;
        self.steps += 1;
        Ok(())
    }

    /// The end of a call that resumed a generator, where the innermost frame stands at this location, which is loaded again.
    fn load_and_finish<H: Handle>(
        &mut self,
        program: &Program,
        code: &Code,
        handle: &mut H,
        place: Place,
        location: Location,
        answer: Answer,
    ) -> Result<(), AllocError>
        requires attached { IsTrue (H.told handle.old).attached }
        requires owns { Owns (H.told handle.old) }
        requires within { place.location < length (H.told handle.old).first.cells }
        requires counted { self.old.steps < 2 ^ 63 }
        requires stands { StandsHere program.now code.now location place (state_of self.old) }
        ensures step { OnOk result (DoneStep program.now (H.told handle.old) (H.told handle.new) (finishing answer (progress_of self.old)) (progress_of self.new)) }
        ensures counted { (self.old.steps ≤ self.new.steps) × (self.new.steps ≤ self.old.steps + 1) }
        ensures stays { (m : List MarkOf) × Grows (H.told handle.old) (H.told handle.new) m }
        ensures rest { H.rest handle.new ≡ H.rest handle.old }
    {
        let again = handle.load(place.location);
        self.finish_at(program, handle, place, again, answer)
    }

    /// The end of a call that resumed a generator, whatever stands at the location of the innermost frame.
    fn finish_step<H: Handle>(
        &mut self,
        program: &Program,
        handle: &mut H,
        answer: Answer,
    ) -> Result<(), AllocError>
        requires attached { IsTrue (H.told handle.old).attached }
        requires owns { Owns (H.told handle.old) }
        requires bases { map base_in (H.told handle.old).first.cells ≡ program.now.bases }
        requires counted { self.old.steps < 2 ^ 63 }
        ensures step { OnOk result (DoneStep program.now (H.told handle.old) (H.told handle.new) (finishing answer (progress_of self.old)) (progress_of self.new)) }
        ensures counted { (self.old.steps ≤ self.new.steps) × (self.new.steps ≤ self.old.steps + 1) }
        ensures stays { (m : List MarkOf) × Grows (H.told handle.old) (H.told handle.new) m }
        ensures rest { H.rest handle.new ≡ H.rest handle.old }
    {
        if self.frames.depth() == 0 {
            self.get_stuck();
            return Ok(());
        }
        let frame = self.frames.top();
        let number = frame.code;
        let at = frame.index;
        match program.code(number) {
            None => {
                self.get_stuck();
                Ok(())
            }
            Some(code) => match code.locations.get(at as usize) {
                None => {
                    self.get_stuck();
                    Ok(())
                }
                Some(location) => {
                    let place = Place {
                        code: number,
                        index: at,
                        location: code.first + at,
                    };
                    self.load_and_finish(program, code, handle, place, *location, answer)
                }
            },
        }
    }

    /// One step, in a mode that goes on; false, where the thread is asked to stop before it.
    fn one_step<H: Handle>(&mut self, program: &Program, handle: &mut H) -> Result<bool, AllocError>
        requires attached { IsTrue (H.told handle.old).attached }
        requires owns { Owns (H.told handle.old) }
        requires bases { map base_in (H.told handle.old).first.cells ≡ program.now.bases }
        requires counted { self.old.steps < 2 ^ 63 }
        requires goes { goes self.old.mode ≡ true }
        ensures step { IfOk result (λ done. StepOrStop done program.now (H.told handle.old) (H.told handle.new) (progress_of self.old) (progress_of self.new)) }
        ensures counted { (self.old.steps ≤ self.new.steps) × (self.new.steps ≤ self.old.steps + 1) }
        ensures stays { Stays (H.told handle.old) (H.told handle.new) }
        ensures rest { H.rest handle.new ≡ H.rest handle.old }
    {
        if matches!(self.mode, Mode::Run) {
            return self.run_step(program, handle);
        }
        let mode = mem::replace(&mut self.mode, Mode::Run);
        match mode {
            Mode::Unwind(exc) => {
                self.unwind_step(program, handle, exc)?;
                Ok(true)
            }
            Mode::Finish(answer) => {
                self.finish_step(program, handle, answer)?;
                Ok(true)
            }
            Mode::Run | Mode::Ended(_) | Mode::Stuck => unreachable!(),
        }
    }

    /// At most `steps` steps; where it stopped.
    pub fn advance<H: Handle>(
        &mut self,
        program: &Program,
        handle: &mut H,
        steps: u64,
    ) -> Result<Stop, AllocError>
        requires attached { IsTrue (H.told handle.old).attached }
        requires owns { Owns (H.told handle.old) }
        requires bases { map base_in (H.told handle.old).first.cells ≡ program.now.bases }
        requires counted { self.old.steps + steps ≤ 200000 }
        ensures run { OnOk result (Advanced program.now steps (H.told handle.old) (H.told handle.new) (progress_of self.old) (progress_of self.new)) }
        ensures retired { OnOk result (Retired program.now (H.told handle.old) (H.told handle.new) (progress_of self.old) (progress_of self.new)) }
        ensures stop { IfOk result (λ stop. stop ≡ stop_due (is_asked (H.told handle.old) (H.told handle.new)) self.new.mode) }
        ensures counted { (self.old.steps ≤ self.new.steps) × (self.new.steps ≤ self.old.steps + steps) }
        ensures stays { Stays (H.told handle.old) (H.told handle.new) }
        ensures rest { H.rest handle.new ≡ H.rest handle.old }
    {
        for _turn in 0..steps {
            if !self.goes() {
                return Ok(Stop::Ended);
            }
            let done = self.one_step(program, handle)?;
            if !done {
                return Ok(Stop::Asked);
            }
        }
        if self.goes() {
            Ok(Stop::Spent)
        } else {
            Ok(Stop::Ended)
        }
    }

    /// What is reported of the thread.
    pub fn report(self) -> ThreadReport
        ensures { result ≡ reported (progress_of self) }
    {
        let Machine {
            alloc: _,
            frames: _,
            mode,
            printed,
            records,
            disables,
            steps,
            events: _,
        } = self;
        ThreadReport {
            printed,
            records,
            disables,
            steps,
            outcome: outcome_of(mode),
        }
    }
}

// How a thread in this mode has ended.
fn outcome_of(mode: Mode) -> Outcome
    ensures { result ≡ run.outcome_of mode }
{
    match mode {
        Mode::Ended(outcome) => outcome,
        Mode::Run | Mode::Unwind(_) | Mode::Finish(_) | Mode::Stuck => Outcome::Limit,
    }
}
