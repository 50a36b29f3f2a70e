//! Threads and the controller run beside one another.

use super::*;
use crossbeam_utils::Backoff;
use std::sync::atomic::{AtomicU64, Ordering};

const TRIAL: Trial = Trial {
    program: "def f(n):
    i = 0
    while i < n:
        i = i + 1
    return i
",
    plan: "steps 200000
thread f 20000
thread f 20000
before
use_tool_id 1 t
script
set_events 1 LINE
set_events 1 LINE
",
};

const TURNS: u32 = 1_000_000;

/// A beat that holds thread 0 at its first, second and fifth poll and the script at its first call, each until another has
/// gone on. It counts the polls of thread 0, those of the others, the calls, and the waits that were given up.
#[derive(Drop)]
struct Held {
    first: AtomicU64,
    others: AtomicU64,
    calls: AtomicU64,
    late: AtomicU64,
}

impl Held {
    fn new() -> Held {
        Held {
            first: AtomicU64::new(0),
            others: AtomicU64::new(0),
            calls: AtomicU64::new(0),
            late: AtomicU64::new(0),
        }
    }

    fn wait_for(&self, count: &AtomicU64, least: u64) {
        let backoff = Backoff::new();
        for _ in 0..TURNS {
            if count.load(Ordering::SeqCst) >= least {
                return;
            }
            backoff.snooze();
        }
        self.late.fetch_add(1, Ordering::SeqCst);
    }
}

impl Beat for Held {
    fn polled(&self, thread: u8) {
        if thread != 0 {
            self.others.fetch_add(1, Ordering::SeqCst);
            return;
        }
        match self.first.fetch_add(1, Ordering::SeqCst) {
            0 => self.wait_for(&self.others, 1),
            1 => self.wait_for(&self.calls, 1),
            4 => self.wait_for(&self.calls, 2),
            _ => {}
        }
    }

    fn called(&self, _script: u8) {
        if self.calls.fetch_add(1, Ordering::SeqCst) == 0 {
            self.wait_for(&self.first, 4);
        }
    }
}

/// The step count of thread 0 at which the script's call of this number stopped the world.
fn count_at(report: &str, call: usize) -> Option<u64> {
    let line = report
        .lines()
        .filter(|line| line.starts_with("journal script 0 "))
        .nth(call)?;
    let (_reply, counts) = line.split_once(" at ")?;
    counts.split_whitespace().next()?.parse().ok()
}

#[test]
fn threads_and_calls_take_turns_that_one_thread_could_not(rt: HostRuntime) -> Result<(), Fail> {
    let beat = Held::new();
    let ending = end_of(&rt, rt.alloc(), &TRIAL, &beat, &[], &[])?;
    assert_eq!(rt; ending.status, Status::Done);
    assert_eq!(rt; beat.late.load(Ordering::SeqCst), 0);
    assert!(rt; beat.first.load(Ordering::SeqCst) >= 5);
    assert!(rt; beat.others.load(Ordering::SeqCst) >= 1);
    assert_eq!(rt; beat.calls.load(Ordering::SeqCst), 2);
    let Some(count) = count_at(ending.text(), 1) else {
        panic!(rt; "the second call of the script did not stop the world")
    };
    assert!(rt; (1..=1024).contains(&count), "it stopped at {count}");
    Ok(())
}
