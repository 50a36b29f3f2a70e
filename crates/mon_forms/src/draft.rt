ghost use Rattle.mon_forms.specs.declared.draft.LineFault.TheVariants as line_fault;
ghost use Rattle.mon_forms.specs.declared.plan.PlanKind.TheVariants as plan_kind;
ghost use Rattle.std.specs.Prelude.{◌≡◌, ◌<◌, ◌≤◌, ◌++◌, ◌∷◌, [], true, drop, length, option_map};
ghost use Rattle.mon_code.specs.Programs.{code_named};
ghost use Rattle.mon_forms.specs.Answers.{Answers, Leaves};
ghost use Rattle.mon_forms.specs.Calls as call_spec;
ghost use Rattle.mon_forms.specs.Lines.{words_of, word_at, is_plain_line};
ghost use Rattle.mon_forms.specs.Operands as operand_spec;
ghost use Rattle.mon_forms.specs.Plans as spec;

use crate::calls::{CallKind, CallParts, Operand};
use crate::heads::{Head, Section, head_of};
use crate::limits::{
    MAX_ALL_STEPS, MAX_CALLS, MAX_MOVES, MAX_REPORTS, MAX_SCRIPTS, MAX_STEPS, MAX_THREADS, TOOLS,
};
use crate::lines::{
    behind_word, count_words, first_word, is_plain_line, is_skipped, next_word, second_word,
};
use crate::operands::{
    has_long_text, integer_of, is_tool_name, number_below, policy_of, quoted, report_of, set_of,
    text_of,
};
use crate::plan::{Move, Plan, PlanKind, ReportLine, Start, Workload};
use mon_code::Program;
use mon_history::ControlCall;
use mon_values::value::Value;
use sqlite_items::Items;
use std::alloc::{AllocError, Global};

/// Why a line was not taken in.
#[derive(Clone, Copy, Debug, PartialEq, Eq)]
pub enum LineFault {
    /// The first of its kinds of fault.
    Faulty(PlanKind),
    Memory,
}

impl From<AllocError> for LineFault {
    ghost from_gives = { λ _ e. e ≡ line_fault.Memory };

    fn from(_: AllocError) -> LineFault {
        LineFault::Memory
    }
}

impl From<PlanKind> for LineFault {
    ghost from_gives = { λ kind e. e ≡ line_fault.Faulty kind };

    fn from(kind: PlanKind) -> LineFault {
        LineFault::Faulty(kind)
    }
}

/// What the lines before have said.
#[derive(Debug, Drop)]
pub struct Draft {
    /// The section that is open.
    pub section: Section,
    /// The control calls of all sections.
    pub calls: usize,
    pub steps: u64,
    pub threads: Items<Start>,
    pub before: Items<ControlCall>,
    pub scripts: Items<Items<ControlCall>>,
    pub schedule: Items<Move>,
    pub reports: Items<ReportLine>,
}

/// The value of an argument: an integer, or a text in single quotes.
fn argument_of(alloc: Global, word: &[u8]) -> Result<Value, LineFault>
    ensures { Answers result (spec.or_fault plan_kind.Number (operand_spec.argument_of word.now)) }
{
    if let Some(n) = integer_of(word) {
        return Ok(Value::Int(n));
    }
    let text = quoted(word).ok_or(PlanKind::Number)?;
    Ok(Value::Text(text_of(alloc, text)?))
}

/// The arguments that a line's words are.
fn arguments_of(alloc: Global, line: &[u8]) -> Result<Items<Value>, LineFault>
    ensures { Answers result (spec.or_fault plan_kind.Number (operand_spec.arguments_of (words_of line.now))) }
{
    let mut args = Items::new(alloc);
    let mut rest = line;
    while let Some((word, more)) = next_word(rest) {
        args.push(argument_of(alloc, word)?)?;
        rest = more;
    }
    Ok(args)
}

/// The number of the code with this name.
fn code_of(alloc: Global, program: &Program, name: &[u8]) -> Result<u16, LineFault>
    ensures { Answers result (spec.or_fault plan_kind.Name (code_named program.now name.now)) }
{
    let name = text_of(alloc, name)?;
    Ok(program.code_called(&name).ok_or(PlanKind::Name)?)
}

/// The thread that calls the code of this name.
fn start_of(
    alloc: Global,
    program: &Program,
    name: &[u8],
    args: Items<Value>,
) -> Result<Start, LineFault>
    ensures { Answers result (spec.start_named program.now name.now args) }
{
    let code = code_of(alloc, program, name)?;
    let found = program.codes.get(code as usize).ok_or(PlanKind::Name)?;
    if found.parameters as usize != args.len() {
        return Err(LineFault::Faulty(PlanKind::Number));
    }
    Ok(Start { code, args })
}

impl CallParts {
    ghost use Rattle.mon_forms.specs.Answers.{Leaves};

    /// Takes in the operand that a word is.
    fn take(
        &mut self,
        alloc: Global,
        program: &Program,
        operand: Operand,
        word: &[u8],
    ) -> Result<(), LineFault>
        requires { is_plain_line word.now ≡ true }
        ensures { Leaves result self.new (call_spec.with_operand program.now operand word.now self.old) }
    {
        match operand {
            Operand::Id => self.id = integer_of(word).ok_or(PlanKind::Number)?,
            Operand::Name => {
                if !is_tool_name(word) {
                    return Err(LineFault::Faulty(PlanKind::Name));
                }
                self.name = text_of(alloc, word)?;
            }
            Operand::Code => self.code = code_of(alloc, program, word)?,
            Operand::Set => self.set = set_of(word).ok_or(PlanKind::Name)?,
            Operand::Policy => self.policy = policy_of(word).ok_or(PlanKind::Name)?,
        }
        Ok(())
    }
}

/// The control call of this name with a line's words.
fn call_of(
    alloc: Global,
    program: &Program,
    kind: CallKind,
    line: &[u8],
) -> Result<ControlCall, LineFault>
    requires { is_plain_line line.now ≡ true }
    ensures { Answers result (call_spec.call_of program.now kind (words_of line.now)) }
{
    let mut parts = CallParts::new();
    let mut rest = line;
    for operand in kind.operands() {
        let Some((word, more)) = next_word(rest) else {
            return Err(LineFault::Faulty(PlanKind::Word));
        };
        parts.take(alloc, program, *operand, word)?;
        rest = more;
    }
    Ok(kind.call(parts))
}

impl Draft {
    ghost use Rattle.std.specs.Prelude.{◌≡◌, ◌+◌, ◌<◌, ◌≤◌, true, false, drop, length, OnOk};
    ghost use Rattle.mon_forms.specs.Answers.{Leaves};
    ghost use Rattle.mon_forms.specs.Fits.{KeepsLimits};
    ghost use Rattle.mon_forms.specs.Lines.{words_of, word_at, is_plain_line};
    ghost use Rattle.mon_forms.specs.Operands as operand_spec;
    ghost use Rattle.mon_forms.specs.Calls as call_spec;
    ghost use Rattle.mon_forms.specs.Plans as spec;
    ghost use Rattle.mon_forms.specs.declared.heads.Head.TheVariants as head_is;

    /// Before the first line.
    pub fn new(alloc: Global) -> Draft
        ensures { result ≡ spec.no_lines }
    {
        Draft {
            section: Section::Nothing,
            calls: 0,
            steps: 0,
            threads: Items::new(alloc),
            before: Items::new(alloc),
            scripts: Items::new(alloc),
            schedule: Items::new(alloc),
            reports: Items::new(alloc),
        }
    }

    /// The plan that the lines are.
    pub fn into_plan(self) -> Plan
        ensures { result ≡ spec.plan_in self }
    {
        Plan {
            workload: Workload {
                steps: self.steps,
                threads: self.threads,
                before: self.before,
                scripts: self.scripts,
            },
            schedule: self.schedule,
            reports: self.reports,
        }
    }

    /// Whether one thread more passes a limit.
    fn has_all_threads(&self) -> bool
        requires { self.now.steps ≤ MAX_STEPS }
        ensures { result ≡ spec.has_all_threads self.now }
    {
        let count = self.threads.len();
        count >= MAX_THREADS || self.steps * (count as u64 + 1) > MAX_ALL_STEPS
    }

    /// Whether one line more, of this head and these words behind it, passes a limit.
    fn passes_limit(&self, head: Head, operands: &[u8]) -> bool
        requires { self.now.steps ≤ MAX_STEPS }
        ensures { result ≡ spec.passes_limit self.now head (words_of operands.now) }
    {
        match head {
            Head::Thread => self.has_all_threads() || has_long_text(behind_word(operands)),
            Head::Script => self.scripts.len() >= MAX_SCRIPTS,
            Head::Turn | Head::Call => self.schedule.len() >= MAX_MOVES,
            Head::Report => self.reports.len() >= MAX_REPORTS,
            Head::Control(_) => self.calls >= MAX_CALLS,
            Head::Steps | Head::Before | Head::Schedule => false,
        }
    }

    /// `steps N`
    fn take_steps(&mut self, operands: &[u8]) -> Result<(), LineFault>
        ensures { Leaves result self.new (spec.with_steps self.old (operand_spec.number_below (MAX_STEPS + 1) (word_at 0 (words_of operands.now)))) }
    {
        self.steps = number_below(MAX_STEPS + 1, first_word(operands)).ok_or(PlanKind::Number)?;
        self.section = Section::Steps;
        Ok(())
    }

    /// `thread NAME ARG ..`
    fn take_thread(
        &mut self,
        alloc: Global,
        program: &Program,
        operands: &[u8],
    ) -> Result<(), LineFault>
        ensures { Leaves result self.new (spec.with_line program.now self.old head_is.Thread (words_of operands.now)) }
    {
        let args = arguments_of(alloc, behind_word(operands))?;
        let start = start_of(alloc, program, first_word(operands), args)?;
        self.threads.push(start)?;
        self.section = Section::Threads;
        Ok(())
    }

    /// `script`
    fn take_script(&mut self, alloc: Global) -> Result<(), LineFault>
        ensures { Leaves result self.new (Ok (spec.with_script self.old)) }
    {
        self.scripts.push(Items::new(alloc))?;
        self.section = Section::Scripts;
        Ok(())
    }

    /// `turn T K`
    fn take_turn(&mut self, operands: &[u8]) -> Result<(), LineFault>
        requires { length self.old.threads ≤ MAX_THREADS }
        ensures { Leaves result self.new (spec.with_move self.old (spec.turn_of (operand_spec.number_below (length self.old.threads) (word_at 0 (words_of operands.now))) (operand_spec.number_below (MAX_STEPS + 1) (word_at 1 (words_of operands.now))))) }
    {
        let count = self.threads.len() as u64;
        let thread = number_below(count, first_word(operands)).ok_or(PlanKind::Number)?;
        let steps = number_below(MAX_STEPS + 1, second_word(operands)).ok_or(PlanKind::Number)?;
        self.schedule.push(Move::Turn(thread as u8, steps))?;
        Ok(())
    }

    /// `call S`
    fn take_script_call(&mut self, operands: &[u8]) -> Result<(), LineFault>
        requires { length self.old.scripts ≤ MAX_SCRIPTS }
        ensures { Leaves result self.new (spec.with_move self.old (spec.call_move (operand_spec.number_below (length self.old.scripts) (word_at 0 (words_of operands.now))))) }
    {
        let count = self.scripts.len() as u64;
        let script = number_below(count, first_word(operands)).ok_or(PlanKind::Number)?;
        self.schedule.push(Move::Call(script as u8))?;
        Ok(())
    }

    /// `report KIND TOOL`
    fn take_report(&mut self, operands: &[u8]) -> Result<(), LineFault>
        ensures { Leaves result self.new (spec.with_report self.old (operand_spec.number_below TOOLS (word_at 1 (words_of operands.now))) (operand_spec.report_of (word_at 0 (words_of operands.now)))) }
    {
        let tool = number_below(TOOLS, second_word(operands)).ok_or(PlanKind::Number)?;
        let kind = report_of(first_word(operands)).ok_or(PlanKind::Name)?;
        self.reports.push(ReportLine {
            kind,
            tool: tool as u8,
        })?;
        self.section = Section::Reports;
        Ok(())
    }

    /// Adds a call at the end of the last script.
    fn push_to_script(&mut self, call: ControlCall) -> Result<(), AllocError>
        ensures { OnOk result (self.new ≡ spec.onto_script self.old call) }
    {
        if let Some(mut script) = self.scripts.pop() {
            script.push(call)?;
            self.scripts.push(script)?;
        }
        Ok(())
    }

    /// A control call.
    fn take_call(
        &mut self,
        alloc: Global,
        program: &Program,
        kind: CallKind,
        operands: &[u8],
    ) -> Result<(), LineFault>
        requires count { self.old.calls < MAX_CALLS }
        requires plain { is_plain_line operands.now ≡ true }
        ensures { Leaves result self.new (spec.with_call self.old (call_spec.call_of program.now kind (words_of operands.now))) }
    {
        let call = call_of(alloc, program, kind, operands)?;
        match self.section {
            Section::Before => self.before.push(call)?,
            _ => self.push_to_script(call)?,
        }
        self.calls += 1;
        Ok(())
    }

    /// A line of this head, with these words behind it.
    fn take_headed(
        &mut self,
        alloc: Global,
        program: &Program,
        head: Head,
        operands: &[u8],
    ) -> Result<(), LineFault>
        requires threads { length self.old.threads ≤ MAX_THREADS }
        requires scripts { length self.old.scripts ≤ MAX_SCRIPTS }
        requires limits { spec.passes_limit self.old head (words_of operands.now) ≡ false }
        requires plain { is_plain_line operands.now ≡ true }
        ensures { Leaves result self.new (spec.with_line program.now self.old head (words_of operands.now)) }
    {
        match head {
            Head::Steps => self.take_steps(operands)?,
            Head::Thread => self.take_thread(alloc, program, operands)?,
            Head::Before => self.section = Section::Before,
            Head::Script => self.take_script(alloc)?,
            Head::Schedule => self.section = Section::Schedule,
            Head::Turn => self.take_turn(operands)?,
            Head::Call => self.take_script_call(operands)?,
            Head::Report => self.take_report(operands)?,
            Head::Control(kind) => self.take_call(alloc, program, kind, operands)?,
        }
        Ok(())
    }

    /// Takes in one line more. After an error the draft is not to be used.
    pub fn take_line(
        &mut self,
        alloc: Global,
        program: &Program,
        line: &[u8],
    ) -> Result<(), LineFault>
        requires { KeepsLimits program.now self.old }
        ensures fits { OnOk result (KeepsLimits program.now self.new) }
        ensures line { Leaves result self.new (spec.add_line program.now self.old line.now) }
    {
        // a program has a code for each name
        prove!(program.names.len() == program.codes.len());
        if is_skipped(line) {
            return Ok(());
        }
        if !is_plain_line(line) {
            return Err(LineFault::Faulty(PlanKind::Word));
        }
        let head = head_of(first_word(line)).ok_or(PlanKind::Word)?;
        let operands = behind_word(line);
        if !head.has_form(count_words(operands)) {
            return Err(LineFault::Faulty(PlanKind::Word));
        }
        if !head.may_follow(self.section) {
            return Err(LineFault::Faulty(PlanKind::Order));
        }
        if self.passes_limit(head, operands) {
            return Err(LineFault::Faulty(PlanKind::TooMany));
        }
        self.take_headed(alloc, program, head, operands)
    }
}
