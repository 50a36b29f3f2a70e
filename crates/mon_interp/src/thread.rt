ghost use Rattle.std.specs.Prelude.{◌≡◌};
ghost use Rattle.mon_interp.specs.declared.thread.AdvanceFault.TheVariants as advance_fault;
ghost use Rattle.mon_interp.specs.declared.thread.EntryFault.TheVariants as entry_fault;

use crate::machine::Machine;
use mon_code::{Code, Program};
use mon_frames::Frames;
use mon_machine::Mode;
use mon_recorders::{Records, ThreadReport};
use mon_values::value::{Value, copies_of};
use mon_words::Handle;
use sqlite_items::Items;
use std::alloc::{AllocError, Global};
use std::marker::Model;
use thiserror::Error;

/// Why a thread was not made.
#[derive(Clone, Copy, Debug, PartialEq, Eq, Error)]
pub enum EntryFault {
    /// No `def` has the name.
    #[error("no function has this name")]
    NoFunction,
    /// The function has so many parameters, and another count of arguments was given.
    #[error("the function takes {0} arguments")]
    WrongCount(u16),
    #[error("out of memory")]
    Memory,
}

impl From<AllocError> for EntryFault {
    ghost from_gives = { λ _ e. e ≡ entry_fault.Memory };

    fn from(_: AllocError) -> EntryFault {
        EntryFault::Memory
    }
}

/// Why a thread did not advance.
#[derive(Clone, Copy, Debug, PartialEq, Eq, Error)]
pub enum AdvanceFault {
    #[error("out of memory")]
    Memory,
}

impl From<AllocError> for AdvanceFault {
    ghost from_gives = { λ _ e. e ≡ advance_fault.Memory };

    fn from(_: AllocError) -> AdvanceFault {
        AdvanceFault::Memory
    }
}

/// Where an advance stopped.
#[derive(Clone, Copy, Debug, PartialEq, Eq)]
pub enum Stop {
    /// All steps were done, and the thread has not ended.
    Spent,
    /// The thread has ended.
    Ended,
    /// The world is asked to stop, and the next instruction was not done.
    Asked,
}

/// A thread of the interpreter. Contracts see where the plain machine stands, what it printed, the records and the
/// disables, the number of steps, and whether memory was short.
#[derive(Drop)]
pub struct Thread {
    machine: Machine,
    failed: bool,
}

impl Model for Thread {
    ghost use Rattle.std.specs.Prelude.{ℕ, List, Bool, refl};
    ghost use Rattle.std.specs.Coded.{code_by, coded×, coded_list, coded_ℕ, coded_bool};
    ghost use Rattle.mon_frames.specs.Views.{FramesView, view_code};
    ghost use Rattle.mon_machine.specs.declared.mode.Mode.{Mode as ModeOf};
    ghost use Rattle.mon_machine.specs.contracts.mode.Mode as mode;
    ghost use Rattle.mon_recorders.specs.declared.record.Record.{Record as RecordOf};
    ghost use Rattle.mon_recorders.specs.declared.record.Disabled.{Disabled as DisabledOf};
    ghost use Rattle.mon_recorders.specs.contracts.record.Record as a_record;
    ghost use Rattle.mon_recorders.specs.contracts.record.Disabled as a_disable;
    ghost use Rattle.mon_interp.specs.Machines.{progress_of};
    ghost use Rattle.mon_interp.specs.Threads.{ThreadView};

    ghost Value = { ThreadView };

    ghost coded = { code_by ((FramesView × ModeOf) × (List (List ℕ) × (List RecordOf × (List DisabledOf × (ℕ × Bool))))) (coded× (coded× view_code mode.the_row.coded) (coded× (coded_list (coded_list coded_ℕ)) (coded× (coded_list a_record.the_row.coded) (coded× (coded_list a_disable.the_row.coded) (coded× coded_ℕ coded_bool))))) (λ t. ((t.progress.state.frames, t.progress.state.mode), (t.progress.printed, (t.progress.records, (t.progress.disables, (t.progress.steps, t.failed)))))) (λ p. record { progress = record { state = record { frames = p.0.0; mode = p.0.1 }; printed = p.1.0; records = p.1.1.0; disables = p.1.1.1.0; steps = p.1.1.1.1.0 }; failed = p.1.1.1.1.1 }) (λ _. refl) };

    ghost view = { λ t. record { progress = progress_of t.machine; failed = t.failed } };
}

impl Thread {
    ghost use Rattle.std.specs.Prelude.{◌≡◌, ◌+◌, ◌≤◌, map, true, false, not, IsTrue, OnOk, OnErr, IfOk, Err};
    ghost use Rattle.mon_words.specs.History.{after, base_in};
    ghost use Rattle.mon_words.specs.Told.{Owns};
    ghost use Rattle.mon_machine.specs.State.{goes};
    ghost use Rattle.mon_machine.specs.Bare.{IsBare};
    ghost use Rattle.mon_machine.specs.Advances.{Advanced, Stays, is_asked, plain_after};
    ghost use Rattle.mon_interp.specs.Retires.{Retired};
    ghost use Rattle.mon_interp.specs.Threads.{beginning, entry_due, reported, stop_due, AnswersEntry};

    /// A thread that calls a code, which has this number in its program, with these arguments.
    pub fn begin(
        alloc: Global,
        code: &Code,
        number: u16,
        args: &[Value],
    ) -> Result<Thread, AllocError>
        ensures { IfOk result (λ t. t ≡ beginning code.now number args.now) }
    {
        let mut frames = Frames::new(alloc);
        frames.enter(code, number, copies_of(alloc, args)?)?;
        let machine = Machine {
            alloc,
            frames,
            mode: Mode::Run,
            printed: Items::new(alloc),
            records: Records::new(alloc),
            disables: Items::new(alloc),
            steps: 0,
            events: Vec::new(alloc),
        };
        Ok(Thread {
            machine,
            failed: false,
        })
    }

    /// A thread that calls the function of this name with these arguments.
    pub fn new(
        alloc: Global,
        program: &Program,
        entry: &str,
        args: &[Value],
    ) -> Result<Thread, EntryFault>
        ensures { AnswersEntry result (entry_due program.now entry.now args.now) }
    {
        let Some(number) = program.code_named(entry) else {
            return Err(EntryFault::NoFunction);
        };
        let Some(code) = program.code(number) else {
            return Err(EntryFault::NoFunction);
        };
        if args.len() != code.parameters as usize {
            return Err(EntryFault::WrongCount(code.parameters));
        }
        Ok(Thread::begin(alloc, code, number, args)?)
    }

    /// Does at most `steps` steps over the handle's words. Of each step's events those are recorded that the words let
    /// through, and what its callbacks disable is disabled. Before an instruction at which a thread may be stopped it polls,
    /// and stops where the world is asked to stop. After want of memory every later call answers it too.
    pub fn advance<H: Handle>(
        &mut self,
        program: &Program,
        handle: &mut H,
        steps: u64,
    ) -> Result<Stop, AdvanceFault>
        requires attached { IsTrue (H.told handle.old).attached }
        requires owns { Owns (H.told handle.old) }
        requires bases { map base_in (H.told handle.old).first.cells ≡ program.now.bases }
        requires counted { self.old.progress.steps + steps ≤ 200000 }

        // the plain machine's steps, each heard at its position in the history, and the polls before them
        ensures run { OnOk result (Advanced program.now steps (H.told handle.old) (H.told handle.new) self.old.progress self.new.progress) }

        // of the words that its steps loaded those are retired, once each, whose opcode in place is more than is needed
        ensures retired { OnOk result (Retired program.now (H.told handle.old) (H.told handle.new) self.old.progress self.new.progress) }

        // where nothing is wanted nothing is recorded, and a thread that is not asked to stop goes as far as the plain run does
        ensures bare { IsBare (after (H.told handle.old).first (H.told handle.old).seen) → is_asked (H.told handle.old) (H.told handle.new) ≡ false → OnOk result (self.new.progress ≡ plain_after program.now steps self.old.progress) }

        ensures stop { IfOk result (λ stop. stop ≡ stop_due (is_asked (H.told handle.old) (H.told handle.new)) self.new.progress.state.mode) }

        // want of memory
        ensures before { IsTrue self.old.failed → result ≡ Err AdvanceFault.Memory }
        ensures memory { OnErr result (self.new.failed ≡ true) }
        ensures counted { (self.old.progress.steps ≤ self.new.progress.steps) × (self.new.progress.steps ≤ self.old.progress.steps + steps) }

        // the handle, after every answer: it is still attached, and no board was added to what is seen
        ensures stays { Stays (H.told handle.old) (H.told handle.new) }
        ensures rest { H.rest handle.new ≡ H.rest handle.old }
    {
        if self.failed {
            return Err(AdvanceFault::Memory);
        }
        match self.machine.advance(program, handle, steps) {
            Ok(stop) => Ok(stop),
            Err(_) => {
                self.failed = true;
                Err(AdvanceFault::Memory)
            }
        }
    }

    /// The number of steps that were done.
    pub fn steps(&self) -> u64
        ensures { result ≡ self.now.progress.steps }
    {
        self.machine.steps
    }

    /// Whether the thread has ended.
    pub fn ended(&self) -> bool
        ensures { result ≡ not (goes self.now.progress.state.mode) }
    {
        !self.machine.goes()
    }

    /// What is reported of the thread.
    pub fn finish(self) -> ThreadReport
        ensures { result ≡ reported self.progress }
    {
        self.machine.report()
    }
}
