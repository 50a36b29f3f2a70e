ghost use Rattle.std.specs.Prelude.{◌≡◌, ◌⊎◌, ℕ, List, true};
ghost use Rattle.mon_main.specs.Answers.{Answers, FailedRead, WhereTold};
ghost use Rattle.mon_main.specs.Commands.{serial_request, texts};
ghost use Rattle.mon_main.specs.Hosts.{Gives, GivesPart};
ghost use Rattle.mon_main.specs.Statuses.{is_answer};
ghost use Rattle.mon_outside.specs.Outside.{Rose};

use crate::fault::ReplyFault;
use crate::reply::reply_to;
use crate::status::Status;
use mon_outside::{Sink, Store, write_all};
use std::alloc::Global;

/// Does what the words behind the program's name ask for, and writes its answer: `replay FILE PLAN` the report of FILE's run by
/// PLAN on one thread, `dis FILE` the listing of its code, `gen NUMBER` the sums of a generated run. A fault of FILE, and then
/// of PLAN, is the answer. Other words, and those that ask for threads, are answered by the forms of the commands.
///
/// Each text is made whole before it is written, so that a request that finds no memory has written nothing.
pub fn host_serial<S: Store, K: Sink>(
    alloc: Global,
    words: &[String],
    store: &mut S,
    out: &mut K,
) -> Status
    // an answer is written whole
    ensures answers { WhereTold (serial_request (texts words.now)) (S.holds store.old) (λ reading plan. is_answer result ≡ true →
        Gives (serial_request (texts words.now)) reading plan result (K.written out.old) (K.written out.new)) }

    // each fault has its cause
    ensures read { result ≡ Status.ReadFault →
        Rose (S.faults store.old) (S.faults store.new)
        × FailedRead (serial_request (texts words.now)) (S.holds store.old) (S.last_failed store.new)
        × (K.written out.new ≡ K.written out.old) }
    ensures write { result ≡ Status.WriteFault → Rose (K.faults out.old) (K.faults out.new) }
    ensures prefix { WhereTold (serial_request (texts words.now)) (S.holds store.old) (λ reading plan. result ≡ Status.WriteFault →
        GivesPart (serial_request (texts words.now)) reading plan (K.written out.old) (K.written out.new)) }
    ensures memory { result ≡ Status.Memory → K.written out.new ≡ K.written out.old }

    // what is not at fault is as before
    ensures kept { (n : List ℕ) → S.holds store.new n ≡ S.holds store.old n }
    ensures quiet_store { ¬ (result ≡ Status.ReadFault) →
        (S.faults store.new ≡ S.faults store.old) × (S.last_failed store.new ≡ S.last_failed store.old) }
    ensures quiet_sink { ¬ (result ≡ Status.WriteFault) → K.faults out.new ≡ K.faults out.old }

    // where no fault came, the status is the due one, or there was no memory
    ensures complete { WhereTold (serial_request (texts words.now)) (S.holds store.old) (λ reading plan. ¬ Rose (S.faults store.old) (S.faults store.new) → ¬ Rose (K.faults out.old) (K.faults out.new) →
        (status : Status) (text : List ℕ) → Answers (serial_request (texts words.now)) reading plan status text → (result ≡ status) ⊎ (result ≡ Status.Memory)) }
{
    match reply_to(alloc, words, store) {
        Ok(reply) => match write_all(out, reply.text()) {
            Ok(()) => reply.status(),
            Err(_) => Status::WriteFault,
        },
        Err(ReplyFault::Read) => Status::ReadFault,
        Err(ReplyFault::Memory) => Status::Memory,
    }
}
