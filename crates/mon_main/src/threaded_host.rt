ghost use Rattle.std.specs.Prelude.{◌≡◌, ◌⊎◌, ℕ, List, true};
ghost use Rattle.mon_main.specs.Answers.{Answers, FailedRead, WhereTold};
ghost use Rattle.mon_main.specs.Commands.{request_of, texts};
ghost use Rattle.mon_main.specs.Hosts.{Gives, GivesPart};
ghost use Rattle.mon_main.specs.Statuses.{is_answer};
ghost use Rattle.mon_outside.specs.Outside.{Rose};

use crate::fault::ReplyFault;
use crate::status::Status;
use crate::threaded_reply::reply_over_threads;
use mon_outside::{Sink, Store, write_all};
use mon_run::Beat;
use std::alloc::Global;
use std::sync::Wait;
use std::thread::Threads;

/// A beat that holds no thread.
#[derive(Clone, Copy, Debug)]
pub struct Unheld;

impl Beat for Unheld {
    fn polled(&self, _thread: u8) {}

    fn called(&self, _script: u8) {}
}

/// Does what the words behind the program's name ask for, as [`host_serial`] does, and `run FILE PLAN` too: its answer is the
/// report of FILE's run by PLAN, each thread on one of the system's, beside the controller. The beat is told of each poll and each call of a script; no promise depends on it.
///
/// If the call returns and neither the store nor the sink failed, the status is that of each answer, or `Memory`.
pub fn host<R: Threads + Wait + Sync, S: Store, K: Sink, B: Beat + Sync>(
    rt: &R,
    alloc: Global,
    words: &[String],
    store: &mut S,
    out: &mut K,
    beat: &B,
) -> Status
    // an answer is written whole
    ensures answers { WhereTold (request_of (texts words.now)) (S.holds store.old) (λ reading plan. is_answer result ≡ true →
        Gives (request_of (texts words.now)) reading plan result (K.written out.old) (K.written out.new)) }

    // each fault has its cause
    ensures read { result ≡ Status.ReadFault →
        Rose (S.faults store.old) (S.faults store.new)
        × FailedRead (request_of (texts words.now)) (S.holds store.old) (S.last_failed store.new)
        × (K.written out.new ≡ K.written out.old) }
    ensures write { result ≡ Status.WriteFault → Rose (K.faults out.old) (K.faults out.new) }
    ensures prefix { WhereTold (request_of (texts words.now)) (S.holds store.old) (λ reading plan. result ≡ Status.WriteFault →
        GivesPart (request_of (texts words.now)) reading plan (K.written out.old) (K.written out.new)) }
    ensures memory { result ≡ Status.Memory → K.written out.new ≡ K.written out.old }

    // what is not at fault is as before
    ensures kept { (n : List ℕ) → S.holds store.new n ≡ S.holds store.old n }
    ensures quiet_store { ¬ (result ≡ Status.ReadFault) →
        (S.faults store.new ≡ S.faults store.old) × (S.last_failed store.new ≡ S.last_failed store.old) }
    ensures quiet_sink { ¬ (result ≡ Status.WriteFault) → K.faults out.new ≡ K.faults out.old }

    // where no fault came, the status is the due one, or there was no memory
    ensures complete { WhereTold (request_of (texts words.now)) (S.holds store.old) (λ reading plan. ¬ Rose (S.faults store.old) (S.faults store.new) → ¬ Rose (K.faults out.old) (K.faults out.new) →
        (status : Status) (text : List ℕ) → Answers (request_of (texts words.now)) reading plan status text → (result ≡ status) ⊎ (result ≡ Status.Memory)) }
{
    match reply_over_threads(rt, alloc, words, store, beat) {
        Ok(reply) => match write_all(out, reply.text()) {
            Ok(()) => reply.status(),
            Err(_) => Status::WriteFault,
        },
        Err(ReplyFault::Read) => Status::ReadFault,
        Err(ReplyFault::Memory) => Status::Memory,
    }
}
