ghost use Rattle.std.specs.Prelude.{◌≡◌, ◌<◌, ℕ, true, length, slice_index, IfOk, IsTrue};
ghost use Rattle.mon_board.specs.Plain.{first_plain};
ghost use Rattle.mon_code.specs.Sites.{sites_of};
ghost use Rattle.mon_control.specs.View.{NamesCode, Commits};
ghost use Rattle.mon_control_tests.specs.Ready.{IsReady};
ghost use Rattle.mon_history.specs.Journal.{replay};
ghost use Rattle.mon_history.specs.Registry as registry;
ghost use Rattle.mon_history.specs.Stands.{StandsFor};
ghost use Rattle.mon_words.specs.History.{after};
ghost use Rattle.mon_words.specs.Standing.{board_of};
ghost use Rattle.mon_words.specs.Words.{first_words};

use super::made::{Made, Touched};
use mon_board::PlainBoard;
use mon_code::Program;
use mon_compile::compile;
use mon_control::{Control, Prepared, Ready};
use mon_history::{ControlCall, Journal, Who};
use mon_lexer::items;
use mon_parser::parse;
use mon_words::{Halted, first_words};
use std::alloc::Global;
use std::test::Fail;

/// What calls on a counted board leave as it was. No value of it is made when a test runs.
pub struct CountedRest<R> {
    pub borrow: u64,
    pub rest: R,
}

/// A halted board, with the count of what is done on it.
struct Counted<'a, H> {
    inner: &'a mut H,
    counts: Touched,
}

impl<H: Halted> Halted for Counted<'_, H> {
    type Rest = CountedRest<H::Rest>;

    ghost halt = { λ h. H.halt h.inner.now };

    ghost rest = { λ h. record { borrow = h.inner.ghost_name; rest = H.rest h.inner.now } };

    fn read(&mut self, location: u32) -> u64 {
        let word = self.inner.read(location);
        self.counts.reads = self.counts.reads.saturating_add(1);
        if location < 64 && word >> 16 & 0xff_ffff != 0 {
            self.counts.wanted |= 1 << location;
        }
        word
    }

    fn rewrite(&mut self, location: u32, word: u64) {
        self.counts.rewrites = self.counts.rewrites.saturating_add(1);
        self.inner.rewrite(location, word);
    }

    fn set_global(&mut self, word: u64) {
        self.counts.stores = self.counts.stores.saturating_add(1);
        self.inner.set_global(word);
    }

    fn set_callbacks(&mut self, tool: u8, word: u64) {
        self.counts.stores = self.counts.stores.saturating_add(1);
        self.inner.set_callbacks(tool, word);
    }

    fn steps(&mut self, thread: u8) -> u64 {
        self.inner.steps(thread)
    }
}

// Makes a call in a stopped world.
fn commit_on<H: Halted>(
    control: &mut Control,
    program: &Program,
    halted: &mut H,
    ready: Ready,
) -> Made
    requires stops { registry.stops (replay control.old.journal) ready.call ≡ true }
    requires room { 0 < control.old.room }
    requires few { length control.old.journal < 256 }
    requires counts { length ready.counts ≡ control.old.threads }
    requires code { NamesCode control.old.codes ready.call }
    requires codes { length program.now.codes ≡ control.old.codes }
    requires threads { (H.halt halted.old).threads ≡ control.old.threads }
    requires stands { StandsFor (sites_of program.now) control.old.journal (H.halt halted.old).first (H.halt halted.old).seen }
    requires board { (H.halt halted.old).board ≡ after (H.halt halted.old).first (H.halt halted.old).seen }
    ensures threads { control.new.threads ≡ control.old.threads }
    ensures codes { control.new.codes ≡ control.old.codes }
    ensures commits { Commits program.now control.old.threads control.old.journal ready.who ready.call (H.halt halted.old) (H.halt halted.new) control.new.journal }
    ensures rest { H.rest halted.new ≡ H.rest halted.old }
{
    let mut counted = Counted {
        inner: halted,
        counts: Touched::NOTHING,
    };
    let reply = control.commit(ready, program, &mut counted);
    let Counted { inner: _, counts } = counted;
    Made { reply, counts }
}

// Makes a call on the halted board.
fn commit(control: &mut Control, program: &Program, board: &mut PlainBoard, ready: Ready) -> Made
    requires ready { IsReady program.now control.old board.old.chair.me.0 }
    requires stops { registry.stops (replay control.old.journal) ready.call ≡ true }
    requires room { 0 < control.old.room }
    requires few { length control.old.journal < 256 }
    requires counts { length ready.counts ≡ control.old.threads }
    requires code { NamesCode control.old.codes ready.call }
    ensures { IsReady program.now control.new board.new.chair.me.0 }
{
    let mut halted = board.halted();
    let made = commit_on(control, program, &mut halted, ready);
    halted.release();
    made
}

// Whether a code that the call names is one of so many.
fn names_code(call: &ControlCall, codes: usize) -> bool
    ensures { IsTrue result → NamesCode codes call.now }
{
    match call {
        ControlCall::SetLocalEvents { code, .. } => (*code as usize) < codes,
        ControlCall::GetLocalEvents { code, .. } => (*code as usize) < codes,
        ControlCall::UseToolId { .. } => true,
        ControlCall::FreeToolId { .. } => true,
        ControlCall::GetTool { .. } => true,
        ControlCall::SetEvents { .. } => true,
        ControlCall::GetEvents { .. } => true,
        ControlCall::RegisterCallback { .. } => true,
        ControlCall::RestartEvents => true,
    }
}

// Makes a call, the board halted for it where that is due.
fn make(
    control: &mut Control,
    program: &Program,
    board: &mut PlainBoard,
    call: &ControlCall,
) -> Option<Made>
    requires { IsReady program.now control.old board.old.chair.me.0 }
    ensures { IsReady program.now control.new board.new.chair.me.0 }
{
    if control.calls() >= 256 || !names_code(call, program.codes.len()) {
        return None;
    }
    match control.prepare(Who::Before, call) {
        Err(_) => None,
        Ok(Prepared::Answered(reply)) => Some(Made {
            reply,
            counts: Touched::NOTHING,
        }),
        Ok(Prepared::Stop(ready)) => Some(commit(control, program, board, ready)),
    }
}

fn compiled(alloc: Global, text: &str) -> Result<(Program, Vec<u8>), Fail>
    ensures { IfOk result (λ made. made.1.items ≡ made.0.bases) }
{
    let items = items(alloc, text.as_bytes())?;
    let module = parse(alloc, items.as_slice())?;
    Ok(compile(alloc, &module)?)
}

// The board of a program's first words.
fn first_board(alloc: Global, threads: u8, bases: &[u8]) -> Result<PlainBoard, Fail>
    ensures view { IfOk result (λ b. b.chair.me.0 ≡ first_plain threads (board_of (first_words bases.now))) }
    ensures bytes { (l : ℕ) → slice_index bases.now l < 256 }
{
    let words = first_words(alloc, bases)?;
    Ok(PlainBoard::new(alloc, threads, words.as_slice())?)
}

/// A program, the registry, and a board of the program's words.
#[derive(Drop)]
pub struct World {
    program: Program,
    control: Control,
    board: PlainBoard,
    ghost ready: { IsReady program control board.chair.me.0 },
}

impl World {
    /// The program of a text. No call was made.
    pub fn new(alloc: Global, text: &str, threads: u8) -> Result<World, Fail> {
        let (program, bases) = compiled(alloc, text)?;
        let control = Control::new(alloc, &program, threads)?;
        let board = first_board(alloc, threads, bases.as_slice())?;
        Ok(World {
            program,
            control,
            board,
        })
    }

    /// Makes a call. Where that is refused for want of memory, which leaves as many calls, it is made again.
    pub fn make_again(&mut self, call: &ControlCall) -> Option<Made> {
        let calls = self.control.calls();
        match make(&mut self.control, &self.program, &mut self.board, call) {
            Some(made) => Some(made),
            None => {
                if self.control.calls() == calls {
                    make(&mut self.control, &self.program, &mut self.board, call)
                } else {
                    None
                }
            }
        }
    }

    /// The calls that were made.
    pub fn into_journal(self) -> Journal {
        self.control.into_journal()
    }
}
