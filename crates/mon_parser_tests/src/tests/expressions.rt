//! Trees of expressions.

use super::{Row, check};
use std::test::Fail;

fn reads_arithmetic_rows() -> &'static [Row] {
    &[
        (
            b"def f(): return a - b - c\n",
            "def@1 f() {return@1 (Subtract (Subtract a b) c)};",
        ),
        (
            b"def f(): return a - (b - c)\n",
            "def@1 f() {return@1 (Subtract a (Subtract b c))};",
        ),
        (
            b"def f(): return a + b * c\n",
            "def@1 f() {return@1 (Add a (Multiply b c))};",
        ),
        (
            b"def f(): return a * b + c\n",
            "def@1 f() {return@1 (Add (Multiply a b) c)};",
        ),
        (
            b"def f(): return a // b % c * d\n",
            "def@1 f() {return@1 (Multiply (Remainder (FloorDivide a b) c) d)};",
        ),
        (
            b"def f(): return - a * b\n",
            "def@1 f() {return@1 (Multiply (- a) b)};",
        ),
        (
            b"def f(): return - - a\n",
            "def@1 f() {return@1 (- (- a))};",
        ),
        (
            b"def f(): return a * - b\n",
            "def@1 f() {return@1 (Multiply a (- b))};",
        ),
        (
            b"def f(): return a - b + c - d\n",
            "def@1 f() {return@1 (Subtract (Add (Subtract a b) c) d)};",
        ),
    ]
}

#[test]
fn reads_arithmetic(rt: HostRuntime) -> Result<(), Fail> {
    check(&rt, rt.alloc(), reads_arithmetic_rows())
}

fn reads_comparisons_rows() -> &'static [Row] {
    &[
        (
            b"def f(): return a == b\n",
            "def@1 f() {return@1 (Equal a b)};",
        ),
        (
            b"def f(): return a != b\n",
            "def@1 f() {return@1 (NotEqual a b)};",
        ),
        (
            b"def f(): return a < b\n",
            "def@1 f() {return@1 (Less a b)};",
        ),
        (
            b"def f(): return a <= b\n",
            "def@1 f() {return@1 (LessEqual a b)};",
        ),
        (
            b"def f(): return a > b\n",
            "def@1 f() {return@1 (Greater a b)};",
        ),
        (
            b"def f(): return a >= b\n",
            "def@1 f() {return@1 (GreaterEqual a b)};",
        ),
        (
            b"def f(): return a in b\n",
            "def@1 f() {return@1 (In a b)};",
        ),
        (
            b"def f(): return a not in b\n",
            "def@1 f() {return@1 (NotIn a b)};",
        ),
        (
            b"def f(): return a is None\n",
            "def@1 f() {return@1 (is None a)};",
        ),
        (
            b"def f(): return a is not True\n",
            "def@1 f() {return@1 (is not True a)};",
        ),
        (
            b"def f(): return a + b < c - d\n",
            "def@1 f() {return@1 (Less (Add a b) (Subtract c d))};",
        ),
    ]
}

#[test]
fn reads_comparisons(rt: HostRuntime) -> Result<(), Fail> {
    check(&rt, rt.alloc(), reads_comparisons_rows())
}

fn reads_choices_rows() -> &'static [Row] {
    &[
        (
            b"def f(): return not a == b\n",
            "def@1 f() {return@1 (not (Equal a b))};",
        ),
        (
            b"def f(): return not not a\n",
            "def@1 f() {return@1 (not (not a))};",
        ),
        (
            b"def f(): return a and b or c and d\n",
            "def@1 f() {return@1 (or (and a b) (and c d))};",
        ),
        (
            b"def f(): return a or b or c\n",
            "def@1 f() {return@1 (or (or a b) c)};",
        ),
        (
            b"def f(): return a if b else c\n",
            "def@1 f() {return@1 (if b a c)};",
        ),
        (
            b"def f(): return a if b else c if d else e\n",
            "def@1 f() {return@1 (if b a (if d c e))};",
        ),
        (
            b"def f(): return (a if b else c) if d else e\n",
            "def@1 f() {return@1 (if d (if b a c) e)};",
        ),
        (
            b"def f(): return not a and not b\n",
            "def@1 f() {return@1 (and (not a) (not b))};",
        ),
        (
            b"def f(): return a and b if c or d else not e\n",
            "def@1 f() {return@1 (if (or c d) (and a b) (not e))};",
        ),
        (
            b"def f(): return (not a) == b\n",
            "def@1 f() {return@1 (Equal (not a) b)};",
        ),
        (
            b"def f(): return a or b and not c in d\n",
            "def@1 f() {return@1 (or a (and b (not (In c d))))};",
        ),
        (
            b"def f(): return a is False and b is not False\n",
            "def@1 f() {return@1 (and (is False a) (is not False b))};",
        ),
    ]
}

#[test]
fn reads_choices(rt: HostRuntime) -> Result<(), Fail> {
    check(&rt, rt.alloc(), reads_choices_rows())
}

fn reads_atoms_rows() -> &'static [Row] {
    &[
        (b"def f(): return a\n", "def@1 f() {return@1 a};"),
        (b"def f(): return 7\n", "def@1 f() {return@1 7};"),
        (
            b"def f(): return \"t\" \"u\" \"v\"\n",
            "def@1 f() {return@1 'tuv'};",
        ),
        (b"def f(): return None\n", "def@1 f() {return@1 None};"),
        (b"def f(): return True\n", "def@1 f() {return@1 True};"),
        (b"def f(): return False\n", "def@1 f() {return@1 False};"),
        (b"def f(): return ()\n", "def@1 f() {return@1 ()};"),
        (b"def f(): return (a)\n", "def@1 f() {return@1 a};"),
        (
            b"def f(): return ((a, b))\n",
            "def@1 f() {return@1 (, a b)};",
        ),
        (b"def f(): return (a,)\n", "def@1 f() {return@1 (, a)};"),
        (b"def f(): return a,\n", "def@1 f() {return@1 (, a)};"),
        (b"def f(): return a, b\n", "def@1 f() {return@1 (, a b)};"),
        (b"def f(): return a, b,\n", "def@1 f() {return@1 (, a b)};"),
        (
            b"def f(): return (yield)\n",
            "def@1 f() {return@1 (yield@1)};",
        ),
        (
            b"def f(): return (yield a)\n",
            "def@1 f() {return@1 (yield@1 a)};",
        ),
        (
            b"def f(): return (yield a, b)\n",
            "def@1 f() {return@1 (yield@1 (, a b))};",
        ),
        (
            b"def f(): return (a, (b, c), ())\n",
            "def@1 f() {return@1 (, a (, b c) ())};",
        ),
        (
            b"def f(): return (\n  yield\n)\n",
            "def@1 f() {return@1 (yield@2)};",
        ),
    ]
}

#[test]
fn reads_atoms(rt: HostRuntime) -> Result<(), Fail> {
    check(&rt, rt.alloc(), reads_atoms_rows())
}

fn reads_calls_rows() -> &'static [Row] {
    &[
        (b"def f(): return f()\n", "def@1 f() {return@1 (call f)};"),
        (
            b"def f(): return f(a)\n",
            "def@1 f() {return@1 (call f a)};",
        ),
        (
            b"def f(): return f(a,)\n",
            "def@1 f() {return@1 (call f a)};",
        ),
        (
            b"def f(): return f(a, b)\n",
            "def@1 f() {return@1 (call f a b)};",
        ),
        (
            b"def f(): return f(a, b,)\n",
            "def@1 f() {return@1 (call f a b)};",
        ),
        (b"def f(): return a[b]\n", "def@1 f() {return@1 (at a b)};"),
        (
            b"def f(): return a[b][c]\n",
            "def@1 f() {return@1 (at (at a b) c)};",
        ),
        (
            b"def f(): return f(a)(b)[c]\n",
            "def@1 f() {return@1 (at (call (call f a) b) c)};",
        ),
        (
            b"def f(): return a.send(b)\n",
            "def@1 f() {return@1 (Send a b)};",
        ),
        (
            b"def f(): return a.throw(b, c)\n",
            "def@1 f() {return@1 (Throw a b c)};",
        ),
        (
            b"def f(): return a.close()\n",
            "def@1 f() {return@1 (Close a)};",
        ),
        (
            b"def f(): return - a[b]\n",
            "def@1 f() {return@1 (- (at a b))};",
        ),
        (
            b"def f(): return f((a, b))\n",
            "def@1 f() {return@1 (call f (, a b))};",
        ),
        (
            b"def f(): return f((yield a))\n",
            "def@1 f() {return@1 (call f (yield@1 a))};",
        ),
        (
            b"def f(): return a[b if c else d]\n",
            "def@1 f() {return@1 (at a (if c b d))};",
        ),
        (
            b"def f(): return a.send()\n",
            "def@1 f() {return@1 (Send a)};",
        ),
        (
            b"def f(): return 'a'.send(b,).close()[c]\n",
            "def@1 f() {return@1 (at (Close (Send 'a' b)) c)};",
        ),
    ]
}

#[test]
fn reads_calls(rt: HostRuntime) -> Result<(), Fail> {
    check(&rt, rt.alloc(), reads_calls_rows())
}
