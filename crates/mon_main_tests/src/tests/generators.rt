//! Reports of programs with generators and last parts.

use super::worked::{Example, first_other};
use std::test::Fail;

/// A generator that a loop goes over.
const LOOPED: Example = Example {
    program: "def g(n):
    yield n
def f(n):
    for v in g(n):
        print(v)
    return 0
",
    plan: "steps 200
thread f 7
before
use_tool_id 1 t
register_callback 1 PY_START keep
register_callback 1 PY_RESUME keep
register_callback 1 PY_YIELD keep
register_callback 1 PY_RETURN keep
register_callback 1 STOP_ITERATION keep
register_callback 1 RAISE keep
set_events 1 PY_START|PY_RESUME|PY_YIELD|PY_RETURN|STOP_ITERATION|RAISE
",
    report: "journal before use_tool_id 1 t = None
journal before register_callback 1 PY_START keep = None at 0
journal before register_callback 1 PY_RESUME keep = None at 0
journal before register_callback 1 PY_YIELD keep = None at 0
journal before register_callback 1 PY_RETURN keep = None at 0
journal before register_callback 1 STOP_ITERATION keep = None at 0
journal before register_callback 1 RAISE keep = None at 0
journal before set_events 1 PY_RESUME|PY_RETURN|PY_START|PY_YIELD|RAISE|STOP_ITERATION = None at 0
thread 0 f
out '7'
rec 0 1 PY_START f 0
rec 8 1 PY_START g 4
rec 10 1 PY_YIELD g 8 7
rec 19 1 PY_RESUME g 10
rec 22 1 PY_RETURN g 16 None
rec 24 1 STOP_ITERATION f 26 StopIteration()
rec 26 1 PY_RETURN f 30 0
end 27 returned 0
",
};

/// StopIteration that leaves a generator.
const STOPPED: Example = Example {
    program: "def g():
    raise StopIteration
    yield 0
def f():
    return next(g())
",
    plan: "steps 200
thread f
before
use_tool_id 1 t
register_callback 1 C_RAISE keep
register_callback 1 RAISE keep
register_callback 1 PY_UNWIND keep
set_events 1 CALL|RAISE|PY_UNWIND
",
    report: "journal before use_tool_id 1 t = None
journal before register_callback 1 C_RAISE keep = None at 0
journal before register_callback 1 RAISE keep = None at 0
journal before register_callback 1 PY_UNWIND keep = None at 0
journal before set_events 1 CALL|PY_UNWIND|RAISE = None at 0
thread 0 f
rec 9 1 RAISE g 8 StopIteration()
rec 10 1 PY_UNWIND g 8 StopIteration()
rec 11 1 C_RAISE f 8 <built-in next> <generator 0>
rec 11 1 RAISE f 8 RuntimeError('generator raised StopItera
rec 12 1 PY_UNWIND f 8 RuntimeError('generator raised StopItera
end 13 raised RuntimeError('generator raised StopIteration')
",
};

/// An exception thrown into a `try` with a last part.
const THROWN: Example = Example {
    program: "def g():
    try:
        yield 1
    finally:
        print(\"bye\")
def f():
    h = g()
    next(h)
    h.throw(ValueError(\"x\"))
",
    plan: "steps 200
thread f
before
use_tool_id 1 t
register_callback 1 RAISE keep
register_callback 1 RERAISE keep
register_callback 1 EXCEPTION_HANDLED keep
register_callback 1 PY_UNWIND keep
register_callback 1 PY_THROW keep
set_events 1 RAISE|RERAISE|EXCEPTION_HANDLED|PY_UNWIND|PY_THROW
",
    report: "journal before use_tool_id 1 t = None
journal before register_callback 1 RAISE keep = None at 0
journal before register_callback 1 RERAISE keep = None at 0
journal before register_callback 1 EXCEPTION_HANDLED keep = None at 0
journal before register_callback 1 PY_UNWIND keep = None at 0
journal before register_callback 1 PY_THROW keep = None at 0
journal before set_events 1 EXCEPTION_HANDLED|PY_THROW|PY_UNWIND|RAISE|RERAISE = None at 0
thread 0 f
out 'bye'
rec 20 1 PY_THROW g 12 ValueError('x')
rec 20 1 RAISE g 12 ValueError('x')
rec 21 1 EXCEPTION_HANDLED g 26 ValueError('x')
rec 27 1 RERAISE g 36 ValueError('x')
rec 28 1 PY_UNWIND g 36 ValueError('x')
rec 29 1 RAISE f 26 ValueError('x')
rec 30 1 PY_UNWIND f 26 ValueError('x')
end 31 raised ValueError('x')
",
};

/// Values that are sent, and the value that a generator returns.
const SENT: Example = Example {
    program: "def g():
    x = yield 1
    y = yield x + 1
    return y
def f():
    h = g()
    a = h.send(None)
    b = h.send(20)
    try:
        h.send(300)
    except StopIteration as e:
        return a, b, e
",
    plan: "steps 200
thread f
before
use_tool_id 1 t
register_callback 1 PY_RESUME keep
register_callback 1 PY_YIELD keep
register_callback 1 C_RETURN keep
register_callback 1 C_RAISE keep
register_callback 1 STOP_ITERATION keep
set_events 1 PY_RESUME|PY_YIELD|CALL|STOP_ITERATION
",
    report: "journal before use_tool_id 1 t = None
journal before register_callback 1 PY_RESUME keep = None at 0
journal before register_callback 1 PY_YIELD keep = None at 0
journal before register_callback 1 C_RETURN keep = None at 0
journal before register_callback 1 C_RAISE keep = None at 0
journal before register_callback 1 STOP_ITERATION keep = None at 0
journal before set_events 1 CALL|PY_RESUME|PY_YIELD|STOP_ITERATION = None at 0
thread 0 f
rec 12 1 PY_YIELD g 8 1
rec 13 1 C_RETURN f 14 <built-in send> <generator 0>
rec 19 1 PY_RESUME g 10
rec 24 1 PY_YIELD g 20 21
rec 25 1 C_RETURN f 24 <built-in send> <generator 0>
rec 32 1 PY_RESUME g 22
rec 36 1 C_RAISE f 36 <built-in send> <generator 0>
end 50 returned (1, 21, StopIteration(300))
",
};

/// A generator that catches its close.
const CLOSED: Example = Example {
    program: "def g():
    try:
        yield 1
    except GeneratorExit:
        return 5
def f():
    h = g()
    next(h)
    return h.close()
",
    plan: "steps 200
thread f
before
use_tool_id 1 t
register_callback 1 PY_YIELD keep
register_callback 1 PY_RETURN keep
register_callback 1 PY_THROW keep
register_callback 1 EXCEPTION_HANDLED keep
set_events 1 PY_YIELD|PY_RETURN|PY_THROW|EXCEPTION_HANDLED
",
    report: "journal before use_tool_id 1 t = None
journal before register_callback 1 PY_YIELD keep = None at 0
journal before register_callback 1 PY_RETURN keep = None at 0
journal before register_callback 1 PY_THROW keep = None at 0
journal before register_callback 1 EXCEPTION_HANDLED keep = None at 0
journal before set_events 1 EXCEPTION_HANDLED|PY_RETURN|PY_THROW|PY_YIELD = None at 0
thread 0 f
rec 12 1 PY_YIELD g 10 1
rec 17 1 PY_THROW g 12 GeneratorExit()
rec 18 1 EXCEPTION_HANDLED g 18 GeneratorExit()
rec 26 1 PY_RETURN g 32 5
rec 28 1 PY_RETURN f 22 5
end 29 returned 5
",
};

/// A generator closed before it began.
const CLOSED_UNBEGUN: Example = Example {
    program: "def g():
    yield 1
def f():
    h = g()
    return h.close()
",
    plan: "steps 200
thread f
before
use_tool_id 1 t
register_callback 1 PY_START keep
register_callback 1 PY_THROW keep
register_callback 1 PY_UNWIND keep
set_events 1 PY_START|PY_THROW|PY_UNWIND
",
    report: "journal before use_tool_id 1 t = None
journal before register_callback 1 PY_START keep = None at 0
journal before register_callback 1 PY_THROW keep = None at 0
journal before register_callback 1 PY_UNWIND keep = None at 0
journal before set_events 1 PY_START|PY_THROW|PY_UNWIND = None at 0
thread 0 f
rec 0 1 PY_START f 0
end 9 returned None
",
};

/// A last part that is come to by each way out of its `try`.
const LEFT: Example = Example {
    program: "def f(n):
    for i in range(n):
        try:
            if i == 1:
                continue
            if i == 3:
                return i
        finally:
            print(i)
",
    plan: "steps 200
thread f 5
before
use_tool_id 1 t
register_callback 1 LINE keep
set_events 1 LINE
",
    report: "journal before use_tool_id 1 t = None
journal before register_callback 1 LINE keep = None at 0
journal before set_events 1 LINE = None at 0
thread 0 f
out '0'
out '1'
out '2'
out '3'
rec 1 1 LINE f 2
rec 8 1 LINE f 3
rec 9 1 LINE f 4
rec 13 1 LINE f 6
rec 17 1 LINE f 9
rec 23 1 LINE f 2
rec 26 1 LINE f 3
rec 27 1 LINE f 4
rec 31 1 LINE f 9
rec 35 1 LINE f 5
rec 36 1 LINE f 2
rec 39 1 LINE f 3
rec 40 1 LINE f 4
rec 44 1 LINE f 6
rec 48 1 LINE f 9
rec 54 1 LINE f 2
rec 57 1 LINE f 3
rec 58 1 LINE f 4
rec 62 1 LINE f 6
rec 66 1 LINE f 7
rec 67 1 LINE f 9
rec 73 1 LINE f 7
end 74 returned 3
",
};

/// Four threads that count words by a generator.
const WORDS: Example = Example {
    program: "\"\"\"Word counter.\"\"\"
SIZES = (1, 2, 4)

def fib(n):
    a, b = 0, 1
    for i in range(n):
        a, b = b, a + b
    return a

def words(text):
    word = \"\"
    for c in text:
        if c == \" \":
            if word:
                yield word
            word = \"\"
        else:
            word += c
    if word:
        yield word

def count(text, size):
    n = 0
    for w in words(text):
        if len(w) >= size:
            n += 1
    return n

def main(k):
    total = 0
    for size in SIZES:
        try:
            total += count(\"the cat sat on the mat\", size) // (k - size)
        except ZeroDivisionError as e:
            print(\"skip\", size, e)
    return total, fib(k)
",
    plan: "steps 20000
thread main 2
thread main 4
thread main 5
thread main 0
before
use_tool_id 1 coverage
register_callback 1 LINE once
set_events 1 LINE
use_tool_id 2 calls
register_callback 2 CALL keep
set_events 2 CALL
report coverage 1
report calls 2
",
    report: "journal before use_tool_id 1 coverage = None
journal before register_callback 1 LINE once = None at 0 0 0 0
journal before set_events 1 LINE = None at 0 0 0 0
journal before use_tool_id 2 calls = None
journal before register_callback 2 CALL keep = None at 0 0 0 0
journal before set_events 2 CALL = None at 0 0 0 0
thread 0 main
out 'skip 2 division by zero'
rec 1 1 LINE main 30
rec 3 1 LINE main 31
rec 8 1 LINE main 32
rec 9 1 LINE main 33
rec 13 2 CALL main 26 <function count> 'the cat sat on the mat'
rec 15 1 LINE count 23
rec 17 1 LINE count 24
rec 19 2 CALL count 10 <function words> 'the cat sat on the mat'
rec 25 1 LINE words 11
rec 27 1 LINE words 12
rec 32 1 LINE words 13
rec 36 1 LINE words 18
rec 41 1 LINE words 12
rec 72 1 LINE words 14
rec 74 1 LINE words 15
rec 78 1 LINE count 25
rec 80 2 CALL count 24 <built-in len> 'the'
rec 84 1 LINE count 26
rec 89 1 LINE count 24
rec 92 1 LINE words 16
rec 147 2 CALL count 24 <built-in len> 'cat'
rec 214 2 CALL count 24 <built-in len> 'sat'
rec 269 2 CALL count 24 <built-in len> 'on'
rec 336 2 CALL count 24 <built-in len> 'the'
rec 391 1 LINE words 19
rec 393 1 LINE words 20
rec 399 2 CALL count 24 <built-in len> 'mat'
rec 415 1 LINE count 27
rec 425 1 LINE main 31
rec 433 2 CALL main 26 <function count> 'the cat sat on the mat'
rec 439 2 CALL count 10 <function words> 'the cat sat on the mat'
rec 500 2 CALL count 24 <built-in len> 'the'
rec 567 2 CALL count 24 <built-in len> 'cat'
rec 634 2 CALL count 24 <built-in len> 'sat'
rec 689 2 CALL count 24 <built-in len> 'on'
rec 756 2 CALL count 24 <built-in len> 'the'
rec 819 2 CALL count 24 <built-in len> 'mat'
rec 843 1 LINE main 34
rec 847 1 LINE main 35
rec 851 2 CALL main 60 <built-in print> 'skip'
rec 865 2 CALL main 26 <function count> 'the cat sat on the mat'
rec 871 2 CALL count 10 <function words> 'the cat sat on the mat'
rec 932 2 CALL count 24 <built-in len> 'the'
rec 995 2 CALL count 24 <built-in len> 'cat'
rec 1058 2 CALL count 24 <built-in len> 'sat'
rec 1109 2 CALL count 24 <built-in len> 'on'
rec 1172 2 CALL count 24 <built-in len> 'the'
rec 1231 2 CALL count 24 <built-in len> 'mat'
rec 1256 1 LINE main 36
rec 1259 2 CALL main 88 <function fib> 2
rec 1261 1 LINE fib 5
rec 1267 1 LINE fib 6
rec 1269 2 CALL fib 18 <built-in range> 2
rec 1274 1 LINE fib 7
rec 1283 1 LINE fib 6
rec 1298 1 LINE fib 8
disable 1 1 LINE main 2
disable 3 1 LINE main 6
disable 8 1 LINE main 16
disable 9 1 LINE main 18
disable 15 1 LINE count 2
disable 17 1 LINE count 6
disable 25 1 LINE words 6
disable 27 1 LINE words 10
disable 32 1 LINE words 20
disable 36 1 LINE words 46
disable 41 1 LINE words 14
disable 72 1 LINE words 28
disable 74 1 LINE words 32
disable 78 1 LINE count 20
disable 84 1 LINE count 32
disable 89 1 LINE count 14
disable 92 1 LINE words 40
disable 391 1 LINE words 58
disable 393 1 LINE words 62
disable 415 1 LINE count 44
disable 425 1 LINE main 10
disable 843 1 LINE main 44
disable 847 1 LINE main 52
disable 1256 1 LINE main 82
disable 1261 1 LINE fib 2
disable 1267 1 LINE fib 14
disable 1274 1 LINE fib 28
disable 1283 1 LINE fib 22
disable 1298 1 LINE fib 48
end 1302 returned (6, 1)
thread 1 main
out 'skip 4 division by zero'
rec 13 2 CALL main 26 <function count> 'the cat sat on the mat'
rec 19 2 CALL count 10 <function words> 'the cat sat on the mat'
rec 80 2 CALL count 24 <built-in len> 'the'
rec 147 2 CALL count 24 <built-in len> 'cat'
rec 214 2 CALL count 24 <built-in len> 'sat'
rec 269 2 CALL count 24 <built-in len> 'on'
rec 336 2 CALL count 24 <built-in len> 'the'
rec 399 2 CALL count 24 <built-in len> 'mat'
rec 433 2 CALL main 26 <function count> 'the cat sat on the mat'
rec 439 2 CALL count 10 <function words> 'the cat sat on the mat'
rec 500 2 CALL count 24 <built-in len> 'the'
rec 567 2 CALL count 24 <built-in len> 'cat'
rec 634 2 CALL count 24 <built-in len> 'sat'
rec 689 2 CALL count 24 <built-in len> 'on'
rec 756 2 CALL count 24 <built-in len> 'the'
rec 819 2 CALL count 24 <built-in len> 'mat'
rec 853 2 CALL main 26 <function count> 'the cat sat on the mat'
rec 859 2 CALL count 10 <function words> 'the cat sat on the mat'
rec 920 2 CALL count 24 <built-in len> 'the'
rec 983 2 CALL count 24 <built-in len> 'cat'
rec 1046 2 CALL count 24 <built-in len> 'sat'
rec 1097 2 CALL count 24 <built-in len> 'on'
rec 1160 2 CALL count 24 <built-in len> 'the'
rec 1219 2 CALL count 24 <built-in len> 'mat'
rec 1247 2 CALL main 60 <built-in print> 'skip'
rec 1259 2 CALL main 88 <function fib> 4
rec 1269 2 CALL fib 18 <built-in range> 4
end 1326 returned (5, 3)
thread 2 main
rec 13 2 CALL main 26 <function count> 'the cat sat on the mat'
rec 19 2 CALL count 10 <function words> 'the cat sat on the mat'
rec 80 2 CALL count 24 <built-in len> 'the'
rec 147 2 CALL count 24 <built-in len> 'cat'
rec 214 2 CALL count 24 <built-in len> 'sat'
rec 269 2 CALL count 24 <built-in len> 'on'
rec 336 2 CALL count 24 <built-in len> 'the'
rec 399 2 CALL count 24 <built-in len> 'mat'
rec 433 2 CALL main 26 <function count> 'the cat sat on the mat'
rec 439 2 CALL count 10 <function words> 'the cat sat on the mat'
rec 500 2 CALL count 24 <built-in len> 'the'
rec 567 2 CALL count 24 <built-in len> 'cat'
rec 634 2 CALL count 24 <built-in len> 'sat'
rec 689 2 CALL count 24 <built-in len> 'on'
rec 756 2 CALL count 24 <built-in len> 'the'
rec 819 2 CALL count 24 <built-in len> 'mat'
rec 853 2 CALL main 26 <function count> 'the cat sat on the mat'
rec 859 2 CALL count 10 <function words> 'the cat sat on the mat'
rec 920 2 CALL count 24 <built-in len> 'the'
rec 983 2 CALL count 24 <built-in len> 'cat'
rec 1046 2 CALL count 24 <built-in len> 'sat'
rec 1097 2 CALL count 24 <built-in len> 'on'
rec 1160 2 CALL count 24 <built-in len> 'the'
rec 1219 2 CALL count 24 <built-in len> 'mat'
rec 1247 2 CALL main 88 <function fib> 5
rec 1257 2 CALL fib 18 <built-in range> 5
end 1326 returned (3, 5)
thread 3 main
rec 13 2 CALL main 26 <function count> 'the cat sat on the mat'
rec 19 2 CALL count 10 <function words> 'the cat sat on the mat'
rec 80 2 CALL count 24 <built-in len> 'the'
rec 147 2 CALL count 24 <built-in len> 'cat'
rec 214 2 CALL count 24 <built-in len> 'sat'
rec 269 2 CALL count 24 <built-in len> 'on'
rec 336 2 CALL count 24 <built-in len> 'the'
rec 399 2 CALL count 24 <built-in len> 'mat'
rec 433 2 CALL main 26 <function count> 'the cat sat on the mat'
rec 439 2 CALL count 10 <function words> 'the cat sat on the mat'
rec 500 2 CALL count 24 <built-in len> 'the'
rec 567 2 CALL count 24 <built-in len> 'cat'
rec 634 2 CALL count 24 <built-in len> 'sat'
rec 689 2 CALL count 24 <built-in len> 'on'
rec 756 2 CALL count 24 <built-in len> 'the'
rec 819 2 CALL count 24 <built-in len> 'mat'
rec 853 2 CALL main 26 <function count> 'the cat sat on the mat'
rec 859 2 CALL count 10 <function words> 'the cat sat on the mat'
rec 920 2 CALL count 24 <built-in len> 'the'
rec 983 2 CALL count 24 <built-in len> 'cat'
rec 1046 2 CALL count 24 <built-in len> 'sat'
rec 1097 2 CALL count 24 <built-in len> 'on'
rec 1160 2 CALL count 24 <built-in len> 'the'
rec 1219 2 CALL count 24 <built-in len> 'mat'
rec 1247 2 CALL main 88 <function fib> 0
rec 1257 2 CALL fib 18 <built-in range> 0
end 1266 returned (-9, 0)
coverage 1 fib 5 6 7 8
coverage 1 words 11 12 13 14 15 16 18 19 20
coverage 1 count 23 24 25 26 27
coverage 1 main 30 31 32 33 34 35 36
calls 2 fib <built-in range> 4
calls 2 count <built-in len> 72
calls 2 count <function words> 12
calls 2 main <built-in print> 2
calls 2 main <function count> 12
calls 2 main <function fib> 4
",
};

#[test]
fn generators_are_run(rt: HostRuntime) -> Result<(), Fail> {
    let rows = [LOOPED, STOPPED, THROWN, SENT, CLOSED, CLOSED_UNBEGUN];
    let other = first_other(rt.alloc(), &rows)?;
    assert!(rt; other.is_none());
    Ok(())
}

#[test]
fn last_parts_are_run(rt: HostRuntime) -> Result<(), Fail> {
    let other = first_other(rt.alloc(), &[LEFT])?;
    assert!(rt; other.is_none());
    Ok(())
}

#[test]
fn words_are_counted(rt: HostRuntime) -> Result<(), Fail> {
    let other = first_other(rt.alloc(), &[WORDS])?;
    assert!(rt; other.is_none());
    Ok(())
}
