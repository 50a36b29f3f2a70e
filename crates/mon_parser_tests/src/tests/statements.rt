//! Trees of statements.

use super::{Row, check};
use std::test::Fail;

fn reads_statements_rows() -> &'static [Row] {
    &[
        (
            b"def f():\n  a = 1\n  a, b = b, a\n  a, = b\n  a = b,\n  a = yield\n  a = yield b\n  a += 1\n  a -= b, c\n  a *= yield\n  a //= 2\n  a %= 3\n",
            "def@1 f() {set@2 a 1 set@3 (, a b) (, b a) set@4 (, a) b set@5 a (, b) set@6 a (yield@6) set@7 a (yield@7 b) Add@8 a 1 Subtract@9 a (, b c) Multiply@10 a (yield@10) FloorDivide@11 a 2 Remainder@12 a 3};",
        ),
        (
            b"def f():\n  yield\n  yield a,\n  a\n  a, b\n  (\"t\")\n  return\n  return a, b\n  raise\n  raise a\n",
            "def@1 f() {value@2 (yield@2) value@3 (yield@3 (, a)) value@4 a value@5 (, a b) value@6 't' return@7 return@8 (, a b) raise@9 raise@10 a};",
        ),
        (
            b"def f():\n  if a: pass\n  if a: pass\n  else: pass\n",
            "def@1 f() {if@2 a {pass@2} {} if@3 a {pass@3} {pass@4}};",
        ),
        (
            b"def f():\n  if a:\n    pass\n    break\n  elif b: pass\n  elif c:\n    pass\n  else:\n    pass\n",
            "def@1 f() {if@2 a {pass@3 break@4} {if@5 b {pass@5} {if@6 c {pass@7} {pass@9}}}};",
        ),
        (
            b"def f():\n  while a: pass\n  for b in c: pass\n  for b, c in d, e:\n    pass\n  for b, in (c): continue\n",
            "def@1 f() {while@2 a {pass@2} for@3 b c {pass@3} for@4 (, b c) (, d e) {pass@5} for@6 (, b) c {continue@6}};",
        ),
        (
            b"def f():\n  try: pass\n  except a: pass\n  try:\n    pass\n  except a as b: pass\n  except (c, d): pass\n  except: pass\n  finally: pass\n  try: pass\n  finally: pass\n  try: pass\n  except:\n    raise\n",
            "def@1 f() {try@2 {pass@2} except@3 a {pass@3} {} try@4 {pass@5} except@6 a as b {pass@6} except@7 (, c d) {pass@7} except@8 {pass@8} {pass@9} try@10 {pass@10} {pass@11} try@12 {pass@12} except@13 {raise@14} {}};",
        ),
        (
            b"def f():\n  if a:\n    while b:\n      for c in d:\n        try: pass\n        finally:\n          return\n    pass\n  pass\n",
            "def@1 f() {if@2 a {while@3 b {for@4 c d {try@5 {pass@5} {return@7}}} pass@8} {} pass@9};",
        ),
    ]
}

#[test]
fn reads_statements(rt: HostRuntime) -> Result<(), Fail> {
    check(&rt, rt.alloc(), reads_statements_rows())
}
