//! The faults of modules.

use super::{filled, verdict};
use std::alloc::Global;
use std::process::Abort;
use std::test::Fail;

/// A text, and its fault as it is printed, or `built`.
type Row = (&'static [u8], &'static str);

const DUPLICATE: [Row; 9] = [
    (
        b"def f():\n    pass\ndef f():\n    pass\n",
        "DuplicateName 3",
    ),
    (b"def f(a, b, a): pass\n", "DuplicateName 1"),
    (
        b"def f(a): pass\ndef g(\n a,\n a): pass\n",
        "DuplicateName 2",
    ),
    (b"f = 1\ndef f(): pass\n", "DuplicateName 2"),
    (b"def f(): pass\nf = 1\n", "DuplicateName 2"),
    (b"a = 1\nb = 1\na = 1\nb = 1\n", "DuplicateName 3"),
    (b"a = 1\naa = 1\ndef b(): pass\ndef bb(): pass\n", "built"),
    (b"'a'\n'a'\na = 'a'\n", "built"),
    (b"def f(a): pass\ndef g(f): a = f\na = 1\n", "built"),
];

const MISPLACED: [Row; 11] = [
    (b"def f():\n    break\n", "Misplaced 2"),
    (b"def f():\n    continue\n", "Misplaced 2"),
    (b"def f(a):\n    while a: pass\n    break\n", "Misplaced 3"),
    (
        b"def f(a):\n    for b in a: pass\n    continue\n",
        "Misplaced 3",
    ),
    (b"def f(a):\n    if a:\n        continue\n", "Misplaced 3"),
    (
        b"def f(a):\n    if a: pass\n    else: break\n",
        "Misplaced 3",
    ),
    (
        b"def f():\n    try: pass\n    except: break\n",
        "Misplaced 3",
    ),
    (
        b"def f():\n    try: break\n    except: pass\n",
        "Misplaced 2",
    ),
    (
        b"def f():\n    continue\ndef g():\n    break\n",
        "Misplaced 2",
    ),
    (
        b"def f(a):\n    for b in a:\n        if b: break\n        else: continue\n",
        "built",
    ),
    (
        b"def f(a):\n    while a:\n        try: break\n        except: continue\n",
        "built",
    ),
];

fn check(rt: &impl Abort, alloc: Global, rows: &[Row]) -> Result<(), Fail> {
    for (text, wanted) in rows {
        let out = verdict(alloc, text)?;
        assert_eq!(rt; out.as_str(), *wanted, "of {text:?}");
    }
    Ok(())
}

#[test]
fn a_name_is_bound_once(rt: HostRuntime) -> Result<(), Fail> {
    check(&rt, rt.alloc(), DUPLICATE.as_slice())
}

#[test]
fn jumps_out_of_loops_stand_in_loops(rt: HostRuntime) -> Result<(), Fail> {
    check(&rt, rt.alloc(), MISPLACED.as_slice())
}

/// The first lines of a module in which each line has a fault that is tried before those of the lines above it.
fn fault_of_lines(alloc: Global, count: usize) -> Result<String, Fail> {
    let large = filled(alloc, "b = '", "x", 4_097, "'\n")?;
    let many = filled(alloc, "def a(): return ", "0,", 65_532, "\n")?;
    let lines = [
        many.as_str(),
        large.as_str(),
        "def d(): break\n",
        "def d(): pass\n",
    ];
    let mut text = String::new(alloc);
    for line in lines.iter().take(count) {
        text.push_str(line)?;
    }
    verdict(alloc, text.as_bytes())
}

const ORDER: [(usize, &str); 4] = [
    (1, "TooManyLocations"),
    (2, "TooLarge 2"),
    (3, "Misplaced 3"),
    (4, "DuplicateName 4"),
];

#[test]
fn faults_have_an_order(rt: HostRuntime) -> Result<(), Fail> {
    for (count, wanted) in &ORDER {
        let out = fault_of_lines(rt.alloc(), *count)?;
        assert_eq!(rt; out.as_str(), *wanted);
    }
    Ok(())
}
