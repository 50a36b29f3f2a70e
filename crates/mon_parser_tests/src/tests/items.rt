//! Trees of items, and the line of the first item that has none.

use super::{Row, check};
use std::test::Fail;

fn reads_items_rows() -> &'static [Row] {
    &[
        (b"", ""),
        (b"a = 1\n", "a@1 1;"),
        (b"a = - 7, 2\n", "a@1 (, -7 2);"),
        (b"a = ()\n", "a@1 ();"),
        (b"a = (\"t\" \"u\",),\n", "a@1 (, (, 'tu'));"),
        (b"a = (((None)))\n", "a@1 None;"),
        (
            b"a = (1,), True, False, 'x',\n",
            "a@1 (, (, 1) True False 'x');",
        ),
        (b"a = 1,\n", "a@1 (, 1);"),
        (b"\"t\"\n", "'t';"),
        (b"\"t\" \"u\"\n", "'tu';"),
        (b"def f(): pass\n", "def@1 f() {pass@1};"),
        (b"def f(a): pass\n", "def@1 f(a) {pass@1};"),
        (b"def f(a, b,): pass\n", "def@1 f(a b) {pass@1};"),
        (
            b"def f():\n  pass\n  break\n  continue\n",
            "def@1 f() {pass@2 break@3 continue@4};",
        ),
        (
            b"a = 1\ndef f(): return\n\"u\"\nb = 2\n",
            "a@1 1; def@2 f() {return@2}; 'u'; b@4 2;",
        ),
    ]
}

#[test]
fn reads_items(rt: HostRuntime) -> Result<(), Fail> {
    check(&rt, rt.alloc(), reads_items_rows())
}

fn tells_the_first_item_without_a_tree_rows() -> &'static [Row] {
    &[
        (b"\n\na = 1\nb\nc\n", "Syntax 4"),
        (b"a = 1\n\n# x\ndef f():\n  pass\n  a b\nc =\n", "Syntax 4"),
        (b"def f(\n  a,\n  b b): pass\n", "Syntax 1"),
    ]
}

#[test]
fn tells_the_first_item_without_a_tree(rt: HostRuntime) -> Result<(), Fail> {
    check(&rt, rt.alloc(), tells_the_first_item_without_a_tree_rows())
}
