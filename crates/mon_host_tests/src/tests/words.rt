//! A file of some functions and a generator, on four threads.

use super::*;

pub(super) const TRIAL: Trial = Trial {
    program: "\"\"\"Word counter.\"\"\"
SIZES = (1, 2, 4)

def fib(n):
    a, b = 0, 1
    for i in range(n):
        a, b = b, a + b
    return a

def words(text):
    word = \"\"
    for c in text:
        if c == \" \":
            if word:
                yield word
            word = \"\"
        else:
            word += c
    if word:
        yield word

def count(text, size):
    n = 0
    for w in words(text):
        if len(w) >= size:
            n += 1
    return n

def main(k):
    total = 0
    for size in SIZES:
        try:
            total += count(\"the cat sat on the mat\", size) // (k - size)
        except ZeroDivisionError as e:
            print(\"skip\", size, e)
    return total, fib(k)
",
    plan: "steps 20000
thread main 2
thread main 4
thread main 5
thread main 0
before
use_tool_id 1 coverage
register_callback 1 LINE once
set_events 1 LINE
use_tool_id 2 calls
register_callback 2 CALL keep
set_events 2 CALL
report coverage 1
report calls 2
",
};

/// What each thread prints and how it ends.
const ENDS: &str = "thread 0 main
out 'skip 2 division by zero'
returned (6, 1)
thread 1 main
out 'skip 4 division by zero'
returned (5, 3)
thread 2 main
returned (3, 5)
thread 3 main
returned (-9, 0)
";

const ROWS: &str = "coverage 1 fib 5 6 7 8
coverage 1 words 11 12 13 14 15 16 18 19 20
coverage 1 count 23 24 25 26 27
coverage 1 main 30 31 32 33 34 35 36
calls 2 fib <built-in range> 4
calls 2 count <built-in len> 72
calls 2 count <function words> 12
calls 2 main <built-in print> 2
calls 2 main <function count> 12
calls 2 main <function fib> 4
";

/// What a line says that is the same in every report: a thread, a print, or an end without its step count.
fn fixed_part(line: &str) -> Option<&str> {
    if line.starts_with("thread ") || line.starts_with("out ") {
        return Some(line);
    }
    let (_steps, outcome) = line.strip_prefix("end ")?.split_once(' ')?;
    Some(outcome)
}

#[test]
fn each_thread_counts_words_as_alone(rt: HostRuntime) -> Result<(), Fail> {
    let alloc = rt.alloc();
    let ending = end_of(&rt, alloc, &TRIAL, &Unheld, &[], &[])?;
    assert_eq!(rt; ending.status, Status::Done);
    let mut fixed = String::new(alloc);
    for part in ending.text().lines().filter_map(fixed_part) {
        fixed.push_str(part)?;
        fixed.push('\n')?;
    }
    assert_eq!(rt; fixed.as_str(), ENDS);
    assert!(rt; ending.text().ends_with(ROWS));
    Ok(())
}
