//! The greatest modules that are built.

use super::{filled, verdict};
use std::alloc::Global;
use std::fmt::Write;
use std::process::Abort;
use std::test::Fail;

/// What stands round so many equal pieces, and what is answered then.
type Row = (
    &'static str,
    &'static str,
    usize,
    &'static str,
    &'static str,
);

const CONSTANTS: [Row; 16] = [
    ("def f():\n return '", "x", 4_096, "'\n", "built"),
    ("def f():\n return '", "x", 4_097, "'\n", "TooLarge 2"),
    ("def f():\n '", "x", 4_097, "'\n", "built"),
    ("def f():\n ('", "x", 4_097, "')\n", "built"),
    ("def f():\n '", "x", 4_097, "',\n", "TooLarge 2"),
    ("def f(a):\n a = (a,\n '", "x", 4_097, "')\n", "TooLarge 2"),
    (
        "def f(a):\n if a: pass\n elif a == '",
        "x",
        4_097,
        "': pass\n",
        "TooLarge 3",
    ),
    (
        "def f(a):\n try: pass\n except '",
        "x",
        4_097,
        "': pass\n",
        "TooLarge 3",
    ),
    (
        "def f(a):\n while a:\n  for b in '",
        "x",
        4_097,
        "': pass\n",
        "TooLarge 3",
    ),
    ("\na = '", "x", 4_096, "'\n", "built"),
    ("\na = '", "x", 4_097, "'\n", "TooLarge 2"),
    ("\na = '", "x", 4_095, "',\n", "built"),
    ("\na = '", "x", 4_096, "',\n", "TooLarge 2"),
    ("\na = ", "1,", 4_095, "\n", "built"),
    ("\na = ", "1,", 4_096, "\n", "TooLarge 2"),
    ("'", "x", 4_097, "'\n", "built"),
];

const LOCATIONS: [Row; 4] = [
    ("def f(): return ", "0,", 65_531, "\n", "built"),
    ("def f(): return ", "0,", 65_532, "\n", "TooManyLocations"),
    (
        "def f(): return ",
        "0,",
        65_527,
        "\ndef g(): pass\n",
        "built",
    ),
    (
        "def f(): return ",
        "0,",
        65_528,
        "\ndef g(): pass\n",
        "TooManyLocations",
    ),
];

fn check(rt: &impl Abort, alloc: Global, rows: &[Row]) -> Result<(), Fail> {
    for (before, piece, count, behind, wanted) in rows {
        let text = filled(alloc, before, piece, *count, behind)?;
        let out = verdict(alloc, text.as_bytes())?;
        drop(text);
        assert_eq!(rt; out.as_str(), *wanted, "of {count} in {before:?}");
    }
    Ok(())
}

#[test]
fn a_constant_has_a_greatest_weight(rt: HostRuntime) -> Result<(), Fail> {
    check(&rt, rt.alloc(), CONSTANTS.as_slice())
}

#[test]
fn a_program_has_up_to_65536_locations(rt: HostRuntime) -> Result<(), Fail> {
    check(&rt, rt.alloc(), LOCATIONS.as_slice())
}

/// What is answered to a constant of this depth on line 2.
fn verdict_of_depth(alloc: Global, depth: usize) -> Result<String, Fail> {
    let before = filled(alloc, "'a text'\na = ", "(", depth, ")")?;
    let text = filled(alloc, before.as_str(), ",)", depth.saturating_sub(1), "\n")?;
    verdict(alloc, text.as_bytes())
}

#[test]
fn a_constant_has_a_greatest_depth(rt: HostRuntime) -> Result<(), Fail> {
    for (depth, wanted) in [(64, "built"), (65, "TooLarge 2")] {
        let out = verdict_of_depth(rt.alloc(), depth)?;
        assert_eq!(rt; out.as_str(), wanted);
    }
    Ok(())
}

/// What is answered to a function on line 2 with so many parameters and one more local.
fn verdict_of_locals(alloc: Global, parameters: usize) -> Result<String, Fail> {
    let mut text = String::new(alloc);
    write!(text, "'a text'\ndef f(")?;
    for k in 0..parameters {
        write!(text, "a{k}, ")?;
    }
    write!(text, "):\n b = 1\n b = 2\n a0 = b\n")?;
    verdict(alloc, text.as_bytes())
}

#[test]
fn a_function_has_up_to_255_locals(rt: HostRuntime) -> Result<(), Fail> {
    for (parameters, wanted) in [(254, "built"), (255, "Misplaced 2")] {
        let out = verdict_of_locals(rt.alloc(), parameters)?;
        assert_eq!(rt; out.as_str(), wanted);
    }
    Ok(())
}
