//! What derives no tree.

use mon_parser::{SyntaxFault, parse};
use std::alloc::Global;
use std::process::Abort;
use std::test::Fail;

/// Whether an item that begins on this line is the first one without a tree.
fn refuses(alloc: Global, text: &[u8], line: u32) -> Result<bool, Fail> {
    let items = mon_lexer::items(alloc, text)?;
    match parse(alloc, items.as_slice()) {
        Err(SyntaxFault::Syntax(at)) => Ok(at == line),
        _ => Ok(false),
    }
}

fn check_refused(rt: &impl Abort, alloc: Global, texts: &[&'static [u8]]) -> Result<(), Fail> {
    for text in texts {
        assert!(rt; refuses(alloc, text, 1)?, "of {text:?}");
    }
    Ok(())
}

fn items_left_out() -> &'static [&'static [u8]] {
    &[
        b"if __name__ == \"__main__\":\n    pass",
        b"a\n",
        b"a()\n",
        b"pass\n",
        b"return\n",
        b"class A: pass\n",
        b"import a\n",
        b"from a import b\n",
        b"async def f(): pass\n",
        b"\"t\", \"u\"\n",
        b"\"t\" = 1\n",
        b"f(): pass\n",
        b"a +=\n",
        b"a += 1\n",
        b"a: b = 1\n",
        b"a, b = 1\n",
        b"a = b = 1\n",
    ]
}

fn constants_left_out() -> &'static [&'static [u8]] {
    &[
        b"a =\n",
        b"a = b\n",
        b"a = - - 1\n",
        b"a = + 1\n",
        b"a = - ()\n",
        b"a = -\"t\"\n",
        b"a = -(1)\n",
        b"a = -\n",
        b"a = 1 + 2\n",
        b"a = not True\n",
        b"a = (1\n",
        b"a = 1)\n",
        b"a = (1]\n",
        b"a = 1 2\n",
        b"a = 1,,\n",
        b"a = ,\n",
        b"a = (,)\n",
        b"a = []\n",
        b"a = f()\n",
        b"a = yield\n",
    ]
}

fn functions_left_out() -> &'static [&'static [u8]] {
    &[
        b"def f(n):\n    return (n",
        b"def f\n",
        b"def f: pass\n",
        b"def (): pass\n",
        b"def f()\n",
        b"def f():\n",
        b"def f() pass\n",
        b"def f(: pass\n",
        b"def f(,): pass\n",
        b"def f(a,,): pass\n",
        b"def f(a b): pass\n",
        b"def f(1): pass\n",
        b"def f(a=1): pass\n",
        b"def f(a: b): pass\n",
        b"def f(*a): pass\n",
        b"def f(**a): pass\n",
        b"def f(a, *, b): pass\n",
        b"def f((a, b)): pass\n",
        b"def f() -> a: pass\n",
        b"def f(): pass\n  pass\n",
        b"def f(): def g(): pass\n",
        b"def f():\n  def g():\n    pass\n",
    ]
}

#[test]
fn refuses_items(rt: HostRuntime) -> Result<(), Fail> {
    check_refused(&rt, rt.alloc(), items_left_out())?;
    check_refused(&rt, rt.alloc(), constants_left_out())?;
    check_refused(&rt, rt.alloc(), functions_left_out())
}

fn operators_left_out() -> &'static [&'static [u8]] {
    &[
        b"def f(): return a < b < c\n",
        b"def f(): return a == b in c\n",
        b"def f(): return a is None is None\n",
        b"def f(): return a is None == b\n",
        b"def f(): return a is\n",
        b"def f(): return a is 1\n",
        b"def f(): return a is not b\n",
        b"def f(): return a is not not None\n",
        b"def f(): return a not b\n",
        b"def f(): return a not not in b\n",
        b"def f(): return not\n",
        b"def f(): return a + not b\n",
        b"def f(): return a == not b\n",
        b"def f(): return + a\n",
        b"def f(): return -\n",
        b"def f(): return a *\n",
        b"def f(): return a ** b\n",
        b"def f(): return * a\n",
        b"def f(): return a <> b\n",
        b"def f(): return a and\n",
        b"def f(): return or a\n",
        b"def f(): return a if b\n",
        b"def f(): return a if b else\n",
        b"def f(): return a if b if c else d else e\n",
        b"def f(): return a if not b else yield\n",
        b"def f(): lambda: a\n",
        b"def f(): return lambda: a\n",
        b"def f(): return await a\n",
    ]
}

fn operands_left_out() -> &'static [&'static [u8]] {
    &[
        b"def f(): return a b\n",
        b"def f(): return a 1\n",
        b"def f(): return 'a' b\n",
        b"def f(): return a, , b\n",
        b"def f(): return ,\n",
        b"def f(): return (,)\n",
        b"def f(): return (a\n",
        b"def f(): return (a]\n",
        b"def f(): return a)\n",
        b"def f(): return [a]\n",
        b"def f(): return []\n",
        b"def f(): return (a := b)\n",
        b"def f(): return (a for a in b)\n",
        b"def f(): return yield\n",
        b"def f(): return a, yield\n",
        b"def f(): return yield from a\n",
        b"def f(): return (yield from a)\n",
        b"def f(): yield from a\n",
        b"def f(): a = yield from b\n",
    ]
}

fn calls_left_out() -> &'static [&'static [u8]] {
    &[
        b"def f(): return f(,)\n",
        b"def f(): return f(a,,)\n",
        b"def f(): return f(a b)\n",
        b"def f(): return f(*a)\n",
        b"def f(): return f(**a)\n",
        b"def f(): return f(a=b)\n",
        b"def f(): return f(yield)\n",
        b"def f(): return f(a for a in b)\n",
        b"def f(): return f(a\n",
        b"def f(): return a.b\n",
        b"def f(): return a.b()\n",
        b"def f(): return a.pop()\n",
        b"def f(): return a.send\n",
        b"def f(): return a.send.close()\n",
        b"def f(): return a.()\n",
        b"def f(): return a[]\n",
        b"def f(): return a[b, c]\n",
        b"def f(): return a[b,]\n",
        b"def f(): return a[b:c]\n",
        b"def f(): return a[:]\n",
        b"def f(): return a[yield]\n",
        b"def f(): return a[b)\n",
    ]
}

#[test]
fn refuses_expressions(rt: HostRuntime) -> Result<(), Fail> {
    check_refused(&rt, rt.alloc(), operators_left_out())?;
    check_refused(&rt, rt.alloc(), operands_left_out())?;
    check_refused(&rt, rt.alloc(), calls_left_out())
}

fn statements_left_out() -> &'static [&'static [u8]] {
    &[
        b"def f(): (a) = 1\n",
        b"def f(): (a, b) = 1\n",
        b"def f(): a, b, = c = 1\n",
        b"def f(): a = b = 1\n",
        b"def f(): a =\n",
        b"def f(): , = a\n",
        b"def f(): a, *b = c\n",
        b"def f(): a, 1 = b\n",
        b"def f(): a, b += 1\n",
        b"def f(): (a) += 1\n",
        b"def f(): a += b += c\n",
        b"def f(): a += b = c\n",
        b"def f(): a[b] = 1\n",
        b"def f(): a[b] += 1\n",
        b"def f(): f() = 1\n",
        b"def f(): 1 = a\n",
        b"def f(): None = a\n",
        b"def f(): yield = 1\n",
        b"def f(): a: b = 1\n",
        b"def f(): pass pass\n",
        b"def f(): pass a\n",
        b"def f(): break a\n",
        b"def f(): raise a, b\n",
        b"def f(): raise a from b\n",
        b"def f(): raise yield\n",
        b"def f(): del a\n",
        b"def f(): global a\n",
        b"def f():\n  nonlocal a\n",
        b"def f(): assert a\n",
        b"def f(): import a\n",
        b"def f():\n  class A: pass\n",
    ]
}

fn blocks_left_out() -> &'static [&'static [u8]] {
    &[
        b"def f():\n  while a: pass\n  else: pass\n",
        b"def f():\n  for a in b: pass\n  else: pass\n",
        b"def f(): if a: pass\n",
        b"def f():\n  if a: if b: pass\n",
        b"def f():\n  if a pass\n",
        b"def f():\n  if a:\n  pass\n",
        b"def f():\n  if a, b: pass\n",
        b"def f():\n  if a: pass\n  else: pass\n  else: pass\n",
        b"def f():\n  if a: pass\n  else: pass\n  elif b: pass\n",
        b"def f():\n  if a:\n    pass\n  pass\n  elif b: pass\n",
        b"def f():\n  if a: pass\n  else if b: pass\n",
        b"def f():\n  elif a: pass\n",
        b"def f():\n  else: pass\n",
        b"def f():\n  while: pass\n",
        b"def f():\n  while a, b: pass\n",
        b"def f():\n  for a: pass\n",
        b"def f():\n  for in b: pass\n",
        b"def f():\n  for (a, b) in c: pass\n",
        b"def f():\n  for a[b] in c: pass\n",
        b"def f():\n  for a in yield: pass\n",
        b"def f():\n  with a: pass\n",
        b"def f():\n  a\n    b\n",
    ]
}

fn handlers_left_out() -> &'static [&'static [u8]] {
    &[
        b"def f():\n  try: pass\n",
        b"def f():\n  try: pass\n  else: pass\n  finally: pass\n",
        b"def f():\n  try: pass\n  except a: pass\n  else: pass\n",
        b"def f():\n  try: pass\n  except: pass\n  except a: pass\n",
        b"def f():\n  try: pass\n  except: pass\n  except: pass\n",
        b"def f():\n  try: pass\n  finally: pass\n  except: pass\n",
        b"def f():\n  try: pass\n  finally: pass\n  finally: pass\n",
        b"def f():\n  try: pass\n  except a, b: pass\n",
        b"def f():\n  try: pass\n  except * a: pass\n",
        b"def f():\n  try: pass\n  except a as 1: pass\n",
        b"def f():\n  try: pass\n  except a as (b): pass\n",
        b"def f():\n  try: pass\n  except as a: pass\n",
        b"def f():\n  except: pass\n",
        b"def f():\n  finally: pass\n",
        b"def f():\n  try a: pass\n  finally: pass\n",
    ]
}

#[test]
fn refuses_statements(rt: HostRuntime) -> Result<(), Fail> {
    check_refused(&rt, rt.alloc(), statements_left_out())?;
    check_refused(&rt, rt.alloc(), blocks_left_out())?;
    check_refused(&rt, rt.alloc(), handlers_left_out())
}
