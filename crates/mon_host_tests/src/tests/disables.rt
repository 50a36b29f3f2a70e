//! Two threads whose callbacks disable what the other is about to hear.

use super::*;

const TRIAL: Trial = Trial {
    program: "def x(n):
    return n
def y(n):
    return n
def a(n):
    return x(n) + y(n)
def b(n):
    return y(n) + x(n)
",
    plan: "steps 100
thread a 1
thread b 1
before
use_tool_id 1 t
register_callback 1 PY_START once
set_local_events 1 x PY_START
set_local_events 1 y PY_START
",
};

const RUNS: u32 = 200;

// Each function is heard, and no order of the disables lets both threads hear both.
#[test]
fn no_order_of_the_disables_lets_both_hear_both(rt: HostRuntime) -> Result<(), Fail> {
    for _ in 0..RUNS {
        let ending = end_of(&rt, rt.alloc(), &TRIAL, &Unheld, &[], &[])?;
        assert_eq!(rt; ending.status, Status::Done);
        let records = ending
            .text()
            .lines()
            .filter(|line| line.starts_with("rec "))
            .count();
        assert!(rt; records == 2 || records == 3, "{records} records");
    }
    Ok(())
}
