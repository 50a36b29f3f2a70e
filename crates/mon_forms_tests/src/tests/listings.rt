use super::*;
use mon_forms::print_dis;

/// A program, and its listing.
const LISTED: [(&[u8], &[u8]); 2] = [
    (
        b"def g(n):\n    while n: n -= 1\n    return n\n",
        b"code g
0 - RESUME 0
2 2 LOAD_FAST n
4 2 POP_JUMP_IF_FALSE 16
6 2 LOAD_FAST n
8 2 LOAD_CONST 1
10 2 BINARY_OP -
12 2 STORE_FAST n
14 - JUMP_BACKWARD 2
16 3 LOAD_FAST n
18 3 RETURN_VALUE
20 - LOAD_CONST None
22 - RETURN_VALUE
",
    ),
    (
        b"N = 3

def h(a, t):
    x, y = a, (1, 'e\\n')
    try:
        x = -x // (y[0] + N) % 7
        if x in t or not (x is None):
            raise ValueError(\"q\")
        for i in range(4):
            print(i, x <= y)
    except (ValueError, TypeError) as e:
        return f(e)
    raise

def f(e):
    while 1 != 2:
        del_me = e
        break
    return len(\"a'b\") * 2 - 9
",
        b"code h
0 - RESUME 0
2 4 LOAD_FAST a
4 4 LOAD_CONST 1
6 4 LOAD_CONST 'e\\n'
8 4 BUILD_TUPLE 2
10 4 BUILD_TUPLE 2
12 4 UNPACK_SEQUENCE 2
14 4 STORE_FAST x
16 4 STORE_FAST y
18 5 NOP
20 6 LOAD_FAST x
22 6 UNARY_NEGATIVE
24 6 LOAD_FAST y
26 6 LOAD_CONST 0
28 6 BINARY_SUBSCR
30 6 LOAD_GLOBAL N
32 6 BINARY_OP +
34 6 BINARY_OP //
36 6 LOAD_CONST 7
38 6 BINARY_OP %
40 6 STORE_FAST x
42 7 LOAD_FAST x
44 7 LOAD_FAST t
46 7 CONTAINS_OP 0
48 7 COPY 1
50 7 POP_JUMP_IF_TRUE 62
52 7 POP_TOP
54 7 LOAD_FAST x
56 7 LOAD_CONST None
58 7 IS_OP 0
60 7 UNARY_NOT
62 7 POP_JUMP_IF_FALSE 72
64 8 LOAD_GLOBAL ValueError
66 8 LOAD_CONST 'q'
68 8 CALL 1
70 8 RAISE_VARARGS 1
72 9 LOAD_GLOBAL range
74 9 LOAD_CONST 4
76 9 CALL 1
78 9 GET_ITER
80 9 FOR_ITER
82 9 POP_JUMP_IF_DONE 102
84 9 STORE_FAST i
86 10 LOAD_GLOBAL print
88 10 LOAD_FAST i
90 10 LOAD_FAST x
92 10 LOAD_FAST y
94 10 COMPARE_OP <=
96 10 CALL 2
98 10 POP_TOP
100 - JUMP_BACKWARD 80
102 - END_FOR
104 - JUMP_FORWARD 146
106 - PUSH_EXC_INFO
108 11 LOAD_GLOBAL ValueError
110 11 LOAD_GLOBAL TypeError
112 11 BUILD_TUPLE 2
114 11 CHECK_EXC_MATCH
116 11 POP_JUMP_IF_FALSE 144
118 11 STORE_FAST e
120 12 LOAD_GLOBAL f
122 12 LOAD_FAST e
124 12 CALL 1
126 - POP_EXCEPT
128 - DELETE_FAST e
130 12 RETURN_VALUE
132 - POP_EXCEPT
134 - DELETE_FAST e
136 - JUMP_FORWARD 146
138 - PUSH_EXC_INFO
140 - DELETE_FAST e
142 - RERAISE
144 - RERAISE
146 13 RAISE_VARARGS 0
148 - LOAD_CONST None
150 - RETURN_VALUE
code f
0 - RESUME 0
2 16 LOAD_CONST 1
4 16 LOAD_CONST 2
6 16 COMPARE_OP !=
8 16 POP_JUMP_IF_FALSE 18
10 17 LOAD_FAST e
12 17 STORE_FAST del_me
14 18 JUMP_FORWARD 18
16 - JUMP_BACKWARD 2
18 19 LOAD_GLOBAL len
20 19 LOAD_CONST \"a'b\"
22 19 CALL 1
24 19 LOAD_CONST 2
26 19 BINARY_OP *
28 19 LOAD_CONST 9
30 19 BINARY_OP -
32 19 RETURN_VALUE
34 - LOAD_CONST None
36 - RETURN_VALUE
",
    ),
];

#[test]
fn programs_are_listed(rt: HostRuntime) -> Result<(), Fail> {
    let alloc = rt.alloc();
    for (text, listing) in &LISTED {
        let items = items(alloc, text)?;
        let module = parse(alloc, items.as_slice())?;
        let (program, bases) = compile(alloc, &module)?;
        let printed = print_dis(alloc, &program, bases.as_slice())?;
        assert!(rt; printed.as_slice() == *listing);
    }
    Ok(())
}
