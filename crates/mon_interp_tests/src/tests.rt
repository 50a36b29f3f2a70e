ghost use Rattle.std.specs.Prelude.{◌≡◌, ℕ, Bool, true, false, [], ◌∷◌, ◌++◌, map, pos, Option, Some, None, IfOk};
ghost use Rattle.mon_code.specs.declared.program.Location.{Location as LocationOf};
ghost use Rattle.mon_values.specs.declared.value.Value.TheVariants.{Int, None as NoneValue};
ghost use Rattle.mon_words.specs.History.{base_in};
ghost use Rattle.mon_words.specs.Words.{cell_of};

use mon_code::{Code, Location, Program};
use mon_events::Event;
use mon_interp::{Stop, Thread};
use mon_recorders::Records;
use mon_values::text::Text;
use mon_values::value::Value;
use mon_words::{Handle, WorldStopped};
use sqlite_items::Items;
use std::alloc::{AllocError, Global};
use std::process::Abort;
use std::test::Fail;

/// A load of the word of a location, or of the callback word of a tool.
#[derive(Clone, Copy)]
struct Loaded {
    is_location: bool,
    number: usize,
}

/// Words that nobody changes, of which each load of a location answers the most instrumented opcode in place. It keeps the
/// loads, as far as there is room, and counts the polls, which are at most a hundred. The poll of the number `asking`, counted
/// from 1, is answered by yes. Any other call ends the test.
#[derive(Drop)]
struct LoudWords<'a, R: Abort> {
    rt: &'a R,
    words: Vec<u64>,
    callbacks: [u64; 6],
    attached: bool,
    loads: Vec<Loaded>,
    polls: u64,
    asking: u64,
    is_asked: bool,
}

fn note(rt: &impl Abort, loads: &mut Vec<Loaded>, loaded: Loaded)
    ensures { loads.new.items ≡ loads.old.items ++ loaded ∷ [] }
{
    if loads.len() == loads.capacity() {
        unimplemented!(rt)
    }
    loads.push_reserved(loaded);
}

impl<R: Abort> Handle for LoudWords<'_, R> {
    ghost use Rattle.std.specs.Prelude.{map, cond, []};
    ghost use Rattle.mon_words.specs.Tallies.{no_tally};
    ghost use Rattle.mon_words.specs.Words.{cell_of};
    ghost use Rattle.mon_words.specs.declared.tally.Load.TheVariants.{Location as LoadOf, Callbacks};

    type Rest = ();

    ghost told = { λ w. record { number = 0; first = record { global = 0; callbacks = w.callbacks; cells = map cell_of w.words.items }; seen = []; own = []; attached = w.attached; count = 0; tally = record no_tally { polls = w.polls; polled = cond w.is_asked 1 0; loads = map (λ l. cond l.is_location (LoadOf l.number 0) (Callbacks l.number)) w.loads.items } } };

    ghost rest = { λ w. tt };

    fn load(&mut self, location: u32) -> u64 {
        let loaded = Loaded {
            is_location: true,
            number: location as usize,
        };
        note(self.rt, &mut self.loads, loaded);
        let word = self.words[location as usize];
        word - word % 256 + 128
    }

    fn disable(&mut self, _location: u32, _mask: u64) -> u64 {
        unimplemented!(self.rt)
    }

    fn retire(&mut self, _location: u32, _old: u64) -> bool {
        unimplemented!(self.rt)
    }

    fn global(&mut self) -> u64 {
        unimplemented!(self.rt)
    }

    fn callbacks(&mut self, tool: u8) -> u64 {
        let loaded = Loaded {
            is_location: false,
            number: tool as usize,
        };
        note(self.rt, &mut self.loads, loaded);
        self.callbacks[tool as usize]
    }

    fn poll(&mut self) -> bool {
        if self.is_asked || self.polls >= 100 {
            unimplemented!(self.rt)
        }
        self.polls += 1;
        self.is_asked = self.polls == self.asking;
        self.is_asked
    }

    fn try_enter(&mut self) -> Result<(), WorldStopped> {
        unimplemented!(self.rt)
    }

    fn leave(&mut self, _steps: u64) {
        unimplemented!(self.rt)
    }
}

/// `def g(n):`, `    while n: n -= 1`, `    return n`: its base opcodes.
const BASES: [u8; 12] = [1, 3, 22, 3, 2, 8, 4, 21, 3, 29, 2, 29];

/// A word for each: LINE is wanted for each tool, INSTRUCTION for tool 3, and the event of the opcode for the tools 0 and 5.
/// All is live, except that LINE for tool 2 is so at the last line alone.
const WORDS: [u64; 12] = [
    0xffff_fb02_123f_0101,
    0xffff_fb02_123f_0303,
    0xffff_fb02_123f_1616,
    0xffff_fb02_123f_0303,
    0xffff_fb02_123f_0202,
    0xffff_fb02_123f_0808,
    0xffff_fb02_123f_0404,
    0xffff_fb02_123f_1515,
    0xffff_ff02_123f_0303,
    0xffff_fb02_123f_1d1d,
    0xffff_fb02_123f_0202,
    0xffff_fb02_123f_1d1d,
];

fn at(argument: u32, line: Option<u32>, is_marked: bool, is_safe: bool, stack: u32) -> Location
    ensures { result ≡ record { argument = argument; line = line; is_marked = is_marked; is_safe = is_safe; handler = None; stack = stack; handling = 0 } }
{
    Location {
        argument,
        line,
        is_marked,
        is_safe,
        handler: None,
        stack,
        handling: 0,
    }
}

fn locations(alloc: Global) -> Result<Items<Location>, AllocError>
    ensures { IfOk result (λ all. let location : ℕ → Option ℕ → Bool → Bool → ℕ → LocationOf = λ argument line is_marked is_safe stack. record { argument = argument; line = line; is_marked = is_marked; is_safe = is_safe; handler = None; stack = stack; handling = 0 } in
        all ≡ location 0 None false true 0
        ∷ location 0 (Some 2) true false 0
        ∷ location 8 (Some 2) false false 1
        ∷ location 0 (Some 2) false false 0
        ∷ location 0 (Some 2) false false 1
        ∷ location 1 (Some 2) false false 2
        ∷ location 0 (Some 2) false false 1
        ∷ location 1 None false true 0
        ∷ location 0 (Some 3) true false 0
        ∷ location 0 (Some 3) false false 1
        ∷ location 1 None false false 0
        ∷ location 0 None false false 1
        ∷ []) }
{
    let locations = [
        at(0, None, false, true, 0),
        at(0, Some(2), true, false, 0),
        at(8, Some(2), false, false, 1),
        at(0, Some(2), false, false, 0),
        at(0, Some(2), false, false, 1),
        at(1, Some(2), false, false, 2),
        at(0, Some(2), false, false, 1),
        at(1, None, false, true, 0),
        at(0, Some(3), true, false, 0),
        at(0, Some(3), false, false, 1),
        at(1, None, false, false, 0),
        at(0, None, false, false, 1),
    ];
    Items::from_slice(alloc, &locations)
}

fn constants(alloc: Global) -> Result<Items<Value>, AllocError>
    ensures { IfOk result (λ all. all ≡ Int (pos 1) ∷ NoneValue ∷ []) }
{
    let mut constants = Items::new(alloc);
    constants.push(Value::Int(1))?;
    constants.push(Value::None)?;
    Ok(constants)
}

fn one_text(alloc: Global, text: &str) -> Result<Items<Text>, AllocError>
    ensures { IfOk result (λ all. all ≡ text.now ∷ []) }
{
    let mut texts = Items::new(alloc);
    texts.push(Text::from_ascii(alloc, text)?)?;
    Ok(texts)
}

fn one_name(alloc: Global) -> Result<Items<Text>, AllocError>
    ensures { IfOk result (λ all. all ≡ (960 ∷ []) ∷ []) }
{
    let mut texts = Items::new(alloc);
    texts.push(Text::from_chars(alloc, &['π'])?)?;
    Ok(texts)
}

fn program(alloc: Global) -> Result<Program, AllocError>
    ensures { IfOk result (λ p. p.bases ≡ 1 ∷ 3 ∷ 22 ∷ 3 ∷ 2 ∷ 8 ∷ 4 ∷ 21 ∷ 3 ∷ 29 ∷ 2 ∷ 29 ∷ []) }
{
    let globals = Items::new(alloc);
    let code = Code {
        parameters: 1,
        locals: one_text(alloc, "n")?,
        globals,
        constants: constants(alloc)?,
        first: 0,
        locations: locations(alloc)?,
    };
    let mut codes = Items::new(alloc);
    codes.push(code)?;
    let names = one_name(alloc)?;
    let named = Items::new(alloc);
    let bases = Items::from_slice(alloc, &BASES)?;
    Ok(Program::new(names, named, codes, bases))
}

fn loud_words<'a, R: Abort>(
    rt: &'a R,
    alloc: Global,
    callbacks: [u64; 6],
    asking: u64,
) -> Result<LoudWords<'a, R>, AllocError>
    ensures bases { IfOk result (λ w. map base_in (map cell_of w.words.items) ≡ 1 ∷ 3 ∷ 22 ∷ 3 ∷ 2 ∷ 8 ∷ 4 ∷ 21 ∷ 3 ∷ 29 ∷ 2 ∷ 29 ∷ []) }
    ensures attached { IfOk result (λ w. w.attached ≡ true) }
{
    Ok(LoudWords {
        rt,
        words: Vec::from_slice(alloc, &WORDS)?,
        callbacks,
        attached: true,
        loads: Vec::with_capacity(alloc, 200)?,
        polls: 0,
        asking,
        is_asked: false,
    })
}

/// A record's step, tool, event, line or offset, offset that is gone to, and first value.
type Heard<'a> = (u64, u8, Event, u32, u32, &'a [char]);

/// A countdown from a number: the callback words, the poll that is answered by yes, counted from 1, and the most steps; then
/// where it stops, the steps that were done, the polls, and the records.
#[derive(Clone, Copy)]
struct Case<'a> {
    from: i64,
    callbacks: [u64; 6],
    asking: u64,
    most: u64,
    stop: Stop,
    steps: u64,
    polls: u64,
    want: &'a [Heard<'a>],
}

fn are_heard(records: &Records, want: &[Heard]) -> bool {
    for (index, (step, tool, event, at, dest, first)) in want.iter().enumerate() {
        let Some(delivery) = records.get(index) else {
            return false;
        };
        if delivery.step() != *step || delivery.tool() != *tool || delivery.event() != *event {
            return false;
        }
        if delivery.at() != *at || delivery.dest() != *dest || delivery.first() != *first {
            return false;
        }
    }
    records.len() == want.len()
}

/// How many words of locations were loaded.
fn location_loads(loads: &[Loaded]) -> usize {
    loads.iter().filter(|loaded| loaded.is_location).count()
}

/// Whether a countdown goes so, with a load of a location's word for each step.
fn goes_so(rt: &impl Abort, alloc: Global, case: &Case) -> Result<bool, AllocError> {
    let program = program(alloc)?;
    let mut words = loud_words(rt, alloc, case.callbacks, case.asking)?;
    let Ok(mut thread) = Thread::new(alloc, &program, "π", &[Value::Int(case.from)]) else {
        return Ok(false);
    };
    if thread.steps() > 0 {
        return Ok(false);
    }
    let stopped = thread.advance(&program, &mut words, case.most.min(100));
    let report = thread.finish();
    Ok(
        stopped == Ok(case.stop)
            && report.steps == case.steps
            && words.polls == case.polls
            && location_loads(words.loads.as_slice()) as u64 == case.steps
            && are_heard(&report.records, case.want),
    )
}

/// A callback word that keeps LINE.
const LINE: u64 = 1 << 14;

#[test]
fn other_words_give_the_same_records(rt: HostRuntime) -> Result<(), Fail> {
    let callbacks = [0, LINE, 0, 0, LINE, 0];
    let lines: [Heard; 4] = [
        (1, 1, Event::Line, 2, 0, &[]),
        (1, 4, Event::Line, 2, 0, &[]),
        (17, 1, Event::Line, 3, 0, &[]),
        (17, 4, Event::Line, 3, 0, &[]),
    ];
    let whole = Case {
        from: 2,
        callbacks,
        asking: 0,
        most: 100,
        stop: Stop::Ended,
        steps: 19,
        polls: 3,
        want: &lines,
    };
    let spent = Case {
        most: 17,
        stop: Stop::Spent,
        steps: 17,
        want: &lines[..2],
        ..whole
    };
    let asked = Case {
        from: 3,
        callbacks,
        asking: 4,
        most: 100,
        stop: Stop::Asked,
        steps: 21,
        polls: 4,
        want: &lines[..2],
    };
    assert!(rt; goes_so(&rt, rt.alloc(), &whole)?);
    assert!(rt; goes_so(&rt, rt.alloc(), &spent)?);
    assert!(rt; goes_so(&rt, rt.alloc(), &asked)?);
    Ok(())
}

/// A callback word that keeps INSTRUCTION.
const INSTRUCTION: u64 = 1 << 10;

/// A callback word that keeps BRANCH, JUMP, PY_RETURN and PY_START.
const OTHERS: u64 = 1 + (1 << 12) + (1 << 18) + (1 << 20);

#[test]
fn tools_hear_what_they_keep_in_order(rt: HostRuntime) -> Result<(), Fail> {
    let six: [Heard; 11] = [
        (1, 0, Event::Line, 2, 0, &[]),
        (1, 1, Event::Line, 2, 0, &[]),
        (1, 3, Event::Line, 2, 0, &[]),
        (1, 4, Event::Line, 2, 0, &[]),
        (1, 5, Event::Line, 2, 0, &[]),
        (3, 0, Event::Line, 3, 0, &[]),
        (3, 1, Event::Line, 3, 0, &[]),
        (3, 2, Event::Line, 3, 0, &[]),
        (3, 3, Event::Line, 3, 0, &[]),
        (3, 4, Event::Line, 3, 0, &[]),
        (3, 5, Event::Line, 3, 0, &[]),
    ];
    let six_tools = Case {
        from: 0,
        callbacks: [LINE; 6],
        asking: 0,
        most: 100,
        stop: Stop::Ended,
        steps: 5,
        polls: 1,
        want: &six,
    };
    let three: [Heard; 10] = [
        (0, 3, Event::Instruction, 0, 0, &[]),
        (0, 0, Event::PyStart, 0, 0, &[]),
        (1, 5, Event::Line, 2, 0, &[]),
        (1, 3, Event::Instruction, 2, 0, &[]),
        (2, 3, Event::Instruction, 4, 0, &[]),
        (2, 0, Event::Branch, 4, 16, &[]),
        (3, 5, Event::Line, 3, 0, &[]),
        (3, 3, Event::Instruction, 16, 0, &[]),
        (4, 3, Event::Instruction, 18, 0, &[]),
        (4, 0, Event::PyReturn, 18, 0, &['0']),
    ];
    let each_event = Case {
        callbacks: [OTHERS, 0, 0, INSTRUCTION, 0, LINE],
        want: &three,
        ..six_tools
    };
    let others: [Heard; 6] = [
        (0, 0, Event::PyStart, 0, 0, &[]),
        (2, 0, Event::Branch, 4, 6, &[]),
        (7, 0, Event::Jump, 14, 2, &[]),
        (9, 0, Event::Branch, 4, 16, &[]),
        (11, 0, Event::PyReturn, 18, 0, &['0']),
        (11, 5, Event::PyReturn, 18, 0, &['0']),
    ];
    let jump = Case {
        from: 1,
        callbacks: [OTHERS, 0, 0, 0, 0, 1 << 18],
        steps: 12,
        polls: 2,
        want: &others,
        ..six_tools
    };
    for case in [six_tools, each_event, jump] {
        assert!(rt; goes_so(&rt, rt.alloc(), &case)?);
    }
    Ok(())
}
