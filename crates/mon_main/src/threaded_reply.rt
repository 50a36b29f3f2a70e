ghost use Rattle.std.specs.Prelude.{◌≡◌, ℕ, List, Some, IfOk, IfErr};
ghost use Rattle.mon_forms.specs.Plans.{plan_of};
ghost use Rattle.mon_main.specs.Answers as spec;
ghost use Rattle.mon_main.specs.Commands as request;
ghost use Rattle.mon_main.specs.Commands.{request_of, texts};
ghost use Rattle.mon_main.specs.Replies.{answer_of, ReplyCause};
ghost use Rattle.mon_parser.specs.Texts.{Reading};

use crate::command::{Request, requested};
use crate::fault::ReplyFault;
use crate::reply::{Reply, contents, dis, generate, program_of, replay};
use crate::source::plan_line;
use mon_code::Program;
use mon_forms::{PlanFault, print_report, read_plan};
use mon_outside::Store;
use mon_run::{Beat, threads};
use std::alloc::Global;
use std::sync::Wait;
use std::thread::Threads;

/// What is said to words, by threads where they ask for them.
pub fn reply_over_threads<R: Threads + Wait + Sync, S: Store, B: Beat + Sync>(
    rt: &R,
    alloc: Global,
    words: &[String],
    store: &mut S,
    beat: &B,
) -> Result<Reply, ReplyFault>
    ensures kept { (n : List ℕ) → S.holds store.new n ≡ S.holds store.old n }
    ensures due { (reading : Reading) (plan : List ℕ) → spec.Tells (request_of (texts words.now)) (S.holds store.old) reading plan → IfOk result (λ r. spec.Answers (request_of (texts words.now)) reading plan (answer_of r).status (answer_of r).text) }
    ensures cause { ReplyCause (request_of (texts words.now)) (S.holds store.old) (S.faults store.old) (S.faults store.new) (S.last_failed store.old) (S.last_failed store.new) result }
{
    match requested(words) {
        None => Ok(Reply::Usage),
        Some(Request::Run { file, plan }) => run(rt, alloc, file, plan, store, beat),
        Some(Request::Replay { file, plan }) => replay(alloc, file, plan, store),
        Some(Request::Dis { file }) => dis(alloc, file, store),
        Some(Request::Gen { number }) => generate(alloc, number),
    }
}

// The run of FILE by PLAN over threads. PLAN is read only where FILE has a program.
fn run<R: Threads + Wait + Sync, S: Store, B: Beat + Sync>(
    rt: &R,
    alloc: Global,
    file: &str,
    plan: &str,
    store: &mut S,
    beat: &B,
) -> Result<Reply, ReplyFault>
    ensures kept { (n : List ℕ) → S.holds store.new n ≡ S.holds store.old n }
    ensures due { (reading : Reading) (p : List ℕ) → spec.Tells (Some (request.Run file.now plan.now)) (S.holds store.old) reading p → IfOk result (λ r. spec.RunsBy spec.Legally (spec.program_in reading) p (answer_of r).status (answer_of r).text) }
    ensures cause { ReplyCause (Some (request.Run file.now plan.now)) (S.holds store.old) (S.faults store.old) (S.faults store.new) (S.last_failed store.old) (S.last_failed store.new) result }
{
    match program_of(alloc, file, store)? {
        Err(reply) => Ok(reply),
        Ok(compiled) => {
            let text = contents(alloc, plan, store)?;
            run_over_threads(
                rt,
                alloc,
                &compiled.program,
                compiled.bases.as_slice(),
                text.as_slice(),
                beat,
            )
        }
    }
}

// The run of a program over threads by the text of a plan.
fn run_over_threads<R: Threads + Wait + Sync, B: Beat + Sync>(
    rt: &R,
    alloc: Global,
    program: &Program,
    bases: &[u8],
    text: &[u8],
    beat: &B,
) -> Result<Reply, ReplyFault>
    requires bases { bases.now ≡ program.now.bases }
    ensures due { IfOk result (λ r. spec.ByPlan spec.Legally program.now (plan_of program.now text.now) (answer_of r).status (answer_of r).text) }
    ensures fault { IfErr result (λ f. f ≡ ReplyFault.Memory) }
{
    match read_plan(alloc, text, program) {
        Ok(plan) => {
            let report = threads(rt, alloc, program, bases, &plan, beat)?;
            Ok(Reply::Text(print_report(alloc, program, &plan, &report)?))
        }
        Err(PlanFault::Faulty(line, kind)) => Ok(Reply::Plan(plan_line(alloc, line, kind)?)),
        Err(PlanFault::Memory) => Err(ReplyFault::Memory),
    }
}
