ghost use Rattle.std.specs.Prelude.{◌≡◌, ◌≤◌, ℕ, List, [], Some, IfOk, IfErr};
ghost use Rattle.std.specs.Option.{option_map};
ghost use Rattle.mon_code.specs.Programs.{Parts};
ghost use Rattle.mon_forms.specs.Plans.{plan_of};
ghost use Rattle.mon_main.specs.Answers as spec;
ghost use Rattle.mon_main.specs.Commands as request;
ghost use Rattle.mon_main.specs.Commands.{asked, serial_request, texts};
ghost use Rattle.mon_main.specs.declared.command.TheConstants.{MAX_NUMBER};
ghost use Rattle.mon_main.specs.Replies.{answer_of, IsProgram, ReplyCause};
ghost use Rattle.mon_outside.specs.Outside.{ReadsAll};
ghost use Rattle.mon_parser.specs.Texts.{Reading};
ghost use Rattle.mon_trees.specs.declared.tree.Module.{Module};

use crate::command::{Request, requested, usage};
use crate::fault::ReplyFault;
use crate::source::{module, plan_line, source_line, uncompiled_line};
use crate::status::Status;
use mon_code::Program;
use mon_compile::{CompileFault, compile};
use mon_forms::{PlanFault, print_dis, print_report, read_plan};
use mon_gen::{generated_module, generated_plan, print_summary};
use mon_outside::Store;
use mon_run::serial;
use mon_trees::tree::Module;
use std::alloc::{AllocError, Global};

/// What is said to a request.
#[derive(Debug, Drop)]
pub enum Reply {
    /// The forms of all commands.
    Usage,
    /// The line that names FILE's first fault.
    Source(String),
    /// The line that names PLAN's first faulty line.
    Plan(String),
    /// What was asked for.
    Text(Vec<u8>),
}

impl Reply {
    pub fn status(&self) -> Status
        ensures { result ≡ (answer_of self.now).status }
    {
        match self {
            Reply::Usage => Status::Usage,
            Reply::Source(_) => Status::Source,
            Reply::Plan(_) => Status::Plan,
            Reply::Text(_) => Status::Done,
        }
    }

    pub fn text(&self) -> &[u8]
        ensures { result.now ≡ (answer_of self.now).text }
    {
        match self {
            Reply::Usage => usage().as_bytes(),
            Reply::Source(line) | Reply::Plan(line) => line.as_bytes(),
            Reply::Text(text) => text.as_slice(),
        }
    }
}

/// A program with the base opcodes of its locations.
#[derive(Debug, Drop)]
pub struct Compiled {
    pub program: Program,
    pub bases: Vec<u8>,
}

/// What is said to words, where a request of threads is none.
pub fn reply_to<S: Store>(
    alloc: Global,
    words: &[String],
    store: &mut S,
) -> Result<Reply, ReplyFault>
    ensures kept { (n : List ℕ) → S.holds store.new n ≡ S.holds store.old n }
    ensures due { (reading : Reading) (plan : List ℕ) → spec.Tells (serial_request (texts words.now)) (S.holds store.old) reading plan → IfOk result (λ r. spec.Answers (serial_request (texts words.now)) reading plan (answer_of r).status (answer_of r).text) }
    ensures cause { ReplyCause (serial_request (texts words.now)) (S.holds store.old) (S.faults store.old) (S.faults store.new) (S.last_failed store.old) (S.last_failed store.new) result }
{
    match requested(words) {
        None | Some(Request::Run { .. }) => Ok(Reply::Usage),
        Some(Request::Replay { file, plan }) => replay(alloc, file, plan, store),
        Some(Request::Dis { file }) => dis(alloc, file, store),
        Some(Request::Gen { number }) => generate(alloc, number),
    }
}

// The replay of FILE by PLAN, which is read only where FILE has a program.
pub fn replay<S: Store>(
    alloc: Global,
    file: &str,
    plan: &str,
    store: &mut S,
) -> Result<Reply, ReplyFault>
    ensures kept { (n : List ℕ) → S.holds store.new n ≡ S.holds store.old n }
    ensures due { (reading : Reading) (p : List ℕ) → spec.Tells (Some (request.Replay file.now plan.now)) (S.holds store.old) reading p → IfOk result (λ r. spec.RunsBy spec.Serially (spec.program_in reading) p (answer_of r).status (answer_of r).text) }
    ensures cause { ReplyCause (Some (request.Replay file.now plan.now)) (S.holds store.old) (S.faults store.old) (S.faults store.new) (S.last_failed store.old) (S.last_failed store.new) result }
{
    match program_of(alloc, file, store)? {
        Err(reply) => Ok(reply),
        Ok(compiled) => {
            let text = contents(alloc, plan, store)?;
            replayed(
                alloc,
                &compiled.program,
                compiled.bases.as_slice(),
                text.as_slice(),
            )
        }
    }
}

// The listing of FILE.
pub fn dis<S: Store>(alloc: Global, file: &str, store: &mut S) -> Result<Reply, ReplyFault>
    ensures kept { (n : List ℕ) → S.holds store.new n ≡ S.holds store.old n }
    ensures due { (reading : Reading) (p : List ℕ) → spec.Tells (Some (request.Dis file.now)) (S.holds store.old) reading p → IfOk result (λ r. spec.Lists (spec.program_in reading) (answer_of r).status (answer_of r).text) }
    ensures cause { ReplyCause (Some (request.Dis file.now)) (S.holds store.old) (S.faults store.old) (S.faults store.new) (S.last_failed store.old) (S.last_failed store.new) result }
{
    match program_of(alloc, file, store)? {
        Err(reply) => Ok(reply),
        Ok(compiled) => Ok(Reply::Text(print_dis(
            alloc,
            &compiled.program,
            compiled.bases.as_slice(),
        )?)),
    }
}

// The program of FILE, or what is said to its fault.
pub fn program_of<S: Store>(
    alloc: Global,
    file: &str,
    store: &mut S,
) -> Result<Result<Compiled, Reply>, ReplyFault>
    ensures kept { (n : List ℕ) → S.holds store.new n ≡ S.holds store.old n }
    ensures due { (reading : Reading) → spec.TellsFile (S.holds store.old file.now) reading → IfOk result (IsProgram (spec.program_in reading)) }
    ensures bases { IfOk result (λ r. IfOk r (λ c. c.bases.items ≡ c.program.bases)) }
    ensures found { IfOk result (λ r. IfOk r (λ c. spec.HasProgram (S.holds store.old file.now))) }
    ensures cause { ReplyCause (Some (request.Dis file.now)) (S.holds store.old) (S.faults store.old) (S.faults store.new) (S.last_failed store.old) (S.last_failed store.new) result }
{
    let text = contents(alloc, file, store)?;
    match module(alloc, text.as_slice()) {
        Ok(tree) => compile_module(alloc, &tree),
        Err(fault) => Ok(Err(Reply::Source(source_line(alloc, fault)?))),
    }
}

// The program of a module, or what is said to its fault.
fn compile_module(alloc: Global, tree: &Module) -> Result<Result<Compiled, Reply>, ReplyFault>
    ensures due { IfOk result (IsProgram (spec.program_of tree.now)) }
    ensures bases { IfOk result (λ r. IfOk r (λ c. c.bases.items ≡ c.program.bases)) }
    ensures fault { IfErr result (λ f. f ≡ ReplyFault.Memory) }
{
    match compile(alloc, tree) {
        Ok((program, bases)) => Ok(Ok(Compiled { program, bases })),
        Err(CompileFault::Memory) => Err(ReplyFault::Memory),
        Err(fault) => Ok(Err(Reply::Source(uncompiled_line(alloc, fault)?))),
    }
}

// What a name stands for.
pub fn contents<S: Store>(alloc: Global, name: &str, store: &mut S) -> Result<Vec<u8>, ReplyFault>
    ensures kept { (n : List ℕ) → S.holds store.new n ≡ S.holds store.old n }
    ensures bytes { IfOk result (λ v. ReadsAll (S.holds store.old name.now) [] v.items) }
    ensures cause { ReplyCause (Some (request.Dis name.now)) (S.holds store.old) (S.faults store.old) (S.faults store.new) (S.last_failed store.old) (S.last_failed store.new) result }
{
    let mut bytes = Vec::new(alloc);
    store.read(alloc, name, &mut bytes)?;
    Ok(bytes)
}

// The run of a program by the text of a plan.
fn replayed(
    alloc: Global,
    program: &Program,
    bases: &[u8],
    text: &[u8],
) -> Result<Reply, ReplyFault>
    requires bases { bases.now ≡ program.now.bases }
    ensures due { IfOk result (λ r. spec.ByPlan spec.Serially program.now (plan_of program.now text.now) (answer_of r).status (answer_of r).text) }
    ensures fault { IfErr result (λ f. f ≡ ReplyFault.Memory) }
{
    match read_plan(alloc, text, program) {
        Ok(plan) => {
            let report = serial(alloc, program, bases, &plan)?;
            Ok(Reply::Text(print_report(alloc, program, &plan, &report)?))
        }
        Err(PlanFault::Faulty(line, kind)) => Ok(Reply::Plan(plan_line(alloc, line, kind)?)),
        Err(PlanFault::Memory) => Err(ReplyFault::Memory),
    }
}

// The summary of the generated program's run by its plan.
pub fn generate(alloc: Global, loops: u16) -> Result<Reply, ReplyFault>
    requires few { loops ≤ MAX_NUMBER }
    ensures due { IfOk result (λ r. spec.Generates loops (answer_of r).status (answer_of r).text) }
    ensures fault { IfErr result (λ f. f ≡ ReplyFault.Memory) }
{
    let tree = generated_module(alloc, loops)?;
    match compile_module(alloc, &tree)? {
        Err(_) => unreachable!(),
        Ok(compiled) => {
            let plan = generated_plan(alloc, loops)?;
            let bases = compiled.bases.as_slice();
            let report = serial(alloc, &compiled.program, bases, &plan)?;
            let threads = report.threads.as_slice();
            let text = print_summary(alloc, &compiled.program, threads)?;
            Ok(Reply::Text(text.into_bytes()))
        }
    }
}
