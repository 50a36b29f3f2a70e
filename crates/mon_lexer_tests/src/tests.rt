use mon_lexer::{Item, Kind, LexFault, Token, items, spells_once};
use sqlite_items::Items;
use std::alloc::{AllocError, Global};
use std::fmt::Write;
use std::process::Abort;
use std::test::Fail;

fn show_text(out: &mut String, text: &[char]) -> Result<(), AllocError> {
    for c in text {
        out.push(*c)?;
    }
    Ok(())
}

/// A keyword stands in `<>`, a text in `''`, and behind each token `@` and its line.
fn show_token(out: &mut String, token: &Token) -> Result<(), AllocError> {
    let line = token.line;
    match &token.kind {
        Kind::Keyword(keyword) => write!(out, "<{keyword:?}>"),
        Kind::Name(name) => show_text(out, name.as_slice()),
        Kind::Number(value) => write!(out, "{value}"),
        Kind::Text(text) => {
            write!(out, "'")?;
            show_text(out, text.as_slice())?;
            write!(out, "'")
        }
        Kind::Operator(operator) => write!(out, "{operator:?}"),
        Kind::Newline => write!(out, "NL"),
        Kind::Indent => write!(out, "IN"),
        Kind::Dedent => write!(out, "DE"),
    }?;
    write!(out, "@{line} ")
}

/// Each item ends with `|`.
fn show(out: &mut String, found: Result<Items<Item>, LexFault>) -> Result<(), AllocError> {
    match found {
        Err(fault) => write!(out, "{fault:?}"),
        Ok(found) => {
            for item in found.as_slice() {
                for token in item.tokens.as_slice() {
                    show_token(out, token)?;
                }
                write!(out, "| ")?;
            }
            Ok(())
        }
    }
}

/// A text, and what is shown of its answer.
type Row = (&'static [u8], &'static str);

fn check(rt: &impl Abort, alloc: Global, rows: &[Row]) -> Result<(), AllocError> {
    for (text, wanted) in rows {
        let mut out = String::new(alloc);
        show(&mut out, items(alloc, text))?;
        assert_eq!(rt; out.as_str(), *wanted, "of {text:?}");
    }
    Ok(())
}

fn characters_and_lines_rows() -> &'static [Row] {
    &[
        (b"", ""),
        (b"\n\r\r\n", ""),
        (b"a", "a@1 NL@1 | "),
        (b"a\n", "a@1 NL@1 | "),
        (
            b"a = 1\nb\r\nc\rd",
            "a@1 Assign@1 1@1 NL@1 | b@2 NL@2 | c@3 NL@3 | d@4 NL@4 | ",
        ),
        (b"a\n\rb", "a@1 NL@1 | b@3 NL@3 | "),
        (b"a\r\n\r\nb", "a@1 NL@1 | b@3 NL@3 | "),
        (
            b"x = 1\ny = 2\n",
            "x@1 Assign@1 1@1 NL@1 | y@2 Assign@2 2@2 NL@2 | ",
        ),
        (
            b"x = 1\r\ny = 2\r\n",
            "x@1 Assign@1 1@1 NL@1 | y@2 Assign@2 2@2 NL@2 | ",
        ),
        (
            b"x = 1\ry = 2\r",
            "x@1 Assign@1 1@1 NL@1 | y@2 Assign@2 2@2 NL@2 | ",
        ),
        (b"\xef\xbb\xbfa", "a@1 NL@1 | "),
        (b"\xef\xbb\xbf\n  a", "BadIndent(2)"),
        (b"a\xef\xbb\xbf", "BadChar(1)"),
        (b"\xef\xbb\xbf\xef\xbb\xbfa", "BadChar(1)"),
        (b"\xff", "NotUtf8(0)"),
        (b"ab\xff", "NotUtf8(2)"),
        (b"\xc3\xa9\xc3", "NotUtf8(2)"),
        (b"!\xff", "NotUtf8(1)"),
        (b"'\xe2\x82", "NotUtf8(1)"),
        (b"# \xc3\xa9\na", "a@2 NL@2 | "),
        (b"# c\n  # d\n\n \t \na # e", "a@5 NL@5 | "),
        (b"a # \\\nb", "a@1 NL@1 | b@2 NL@2 | "),
        (b"a #", "a@1 NL@1 | "),
        (b"a\tb  c", "a@1 b@1 c@1 NL@1 | "),
        (b"a\x0cb", "BadChar(1)"),
        (b"a\x00", "BadChar(1)"),
    ]
}

#[test]
fn characters_and_lines_are_told_apart(rt: HostRuntime) -> Result<(), Fail> {
    check(&rt, rt.alloc(), characters_and_lines_rows())?;
    Ok(())
}

fn joined_lines_and_brackets_rows() -> &'static [Row] {
    &[
        (
            b"(a\nb]\nc",
            "OpenRound@1 a@1 b@2 CloseSquare@2 NL@2 | c@3 NL@3 | ",
        ),
        (
            b"[a\r\n  b\r # c\n]",
            "OpenSquare@1 a@1 b@2 CloseSquare@4 NL@4 | ",
        ),
        (b")\na", "CloseRound@1 NL@1 | a@2 NL@2 | "),
        (
            b")(\na)\nb",
            "CloseRound@1 OpenRound@1 a@2 CloseRound@2 NL@2 | b@3 NL@3 | ",
        ),
        (
            b"x[1)\ny",
            "x@1 OpenSquare@1 1@1 CloseRound@1 NL@1 | y@2 NL@2 | ",
        ),
        (b"x[1)!", "BadChar(1)"),
        (b"(a\n", "OpenRound@1 a@1 | "),
        (b"(a", "OpenRound@1 a@1 | "),
        (
            b"def f(n):\n    return (n",
            "<Def>@1 f@1 OpenRound@1 n@1 CloseRound@1 Colon@1 NL@1 IN@2 <Return>@2 OpenRound@2 n@2 DE@2 | ",
        ),
        (b"ab\\\ncd", "ab@1 cd@2 NL@2 | "),
        (b"ab\\\r\n  cd", "ab@1 cd@2 NL@2 | "),
        (b"ab\\\rcd", "ab@1 cd@2 NL@2 | "),
        (b"a\\", "BadChar(1)"),
        (b"a\\\n", "a@1 NL@2 | "),
        (b"a\\ \nb", "BadChar(1)"),
        (b"a\n \\\n b\n", "a@1 NL@1 IN@2 b@3 NL@3 DE@4 | "),
        (b"\\\na", "a@2 NL@2 | "),
        (b"\\\n a", "BadIndent(1)"),
        (b" \\\na", "BadIndent(1)"),
        (b"a\n \\\n\t", "a@1 NL@1 | "),
        (b"a\n \\\n\tb", "BadIndent(2)"),
        (
            b"if (a\n    and b):\n  c",
            "<If>@1 OpenRound@1 a@1 <And>@2 b@2 CloseRound@2 Colon@2 NL@2 IN@3 c@3 NL@3 DE@3 | ",
        ),
    ]
}

#[test]
fn lines_are_joined_by_backslashes_and_brackets(rt: HostRuntime) -> Result<(), Fail> {
    check(&rt, rt.alloc(), joined_lines_and_brackets_rows())?;
    Ok(())
}

fn indentation_and_items_rows() -> &'static [Row] {
    &[
        (
            b"def f:\n  a\n    b\n  c\nd",
            "<Def>@1 f@1 Colon@1 NL@1 IN@2 a@2 NL@2 IN@3 b@3 NL@3 DE@4 c@4 NL@4 DE@5 | d@5 NL@5 | ",
        ),
        (
            b"a\n  b\n    c",
            "a@1 NL@1 IN@2 b@2 NL@2 IN@3 c@3 NL@3 DE@3 DE@3 | ",
        ),
        (
            b"a\n\tb\n\t\tc\n\td\ne\n",
            "a@1 NL@1 IN@2 b@2 NL@2 IN@3 c@3 NL@3 DE@4 d@4 NL@4 DE@5 | e@5 NL@5 | ",
        ),
        (
            b"a\n  b\n\n# c\n  d\n",
            "a@1 NL@1 IN@2 b@2 NL@2 d@5 NL@5 DE@6 | ",
        ),
        (b"a\n  b\n c", "BadIndent(3)"),
        (b"a\n    b\n  c", "BadIndent(3)"),
        (b"  a", "BadIndent(1)"),
        (b"\n  a", "BadIndent(2)"),
        (b"# b\n\ta", "BadIndent(2)"),
        (b"a\n \tb", "BadIndent(2)"),
        (b"a\n\t b", "BadIndent(2)"),
        (b"a\n  b\n\tc", "BadIndent(3)"),
        (b"def f():\n \tpass", "BadIndent(2)"),
        (b"def f:\n  a\n  if b:\n\tc\n", "BadIndent(4)"),
        (b"a\n \\\n\t b", "BadIndent(2)"),
        (b"a\n  b\n !", "BadIndent(3)"),
        (b"a\n  !\n c", "BadChar(2)"),
        (
            b"a\n  b\n    c\n  (d\n e",
            "a@1 NL@1 IN@2 b@2 NL@2 IN@3 c@3 NL@3 DE@4 OpenRound@4 d@4 e@5 DE@5 | ",
        ),
        (
            b"if a:\n  b\nelse:\n  c\nd\n",
            "<If>@1 a@1 Colon@1 NL@1 IN@2 b@2 NL@2 DE@3 | <Else>@3 Colon@3 NL@3 IN@4 c@4 NL@4 DE@5 | d@5 NL@5 | ",
        ),
    ]
}

#[test]
fn indentation_opens_and_closes_blocks(rt: HostRuntime) -> Result<(), Fail> {
    check(&rt, rt.alloc(), indentation_and_items_rows())?;
    Ok(())
}

fn words_and_numbers_rows() -> &'static [Row] {
    &[
        (b"_a1 A_9 x__", "_a1@1 A_9@1 x__@1 NL@1 | "),
        (
            b"False None True and as assert async await break class continue def del elif else except finally for from global if import in is lambda nonlocal not or pass raise return try while with yield",
            "<False>@1 <None>@1 <True>@1 <And>@1 <As>@1 <Assert>@1 <Async>@1 <Await>@1 <Break>@1 <Class>@1 <Continue>@1 <Def>@1 <Del>@1 <Elif>@1 <Else>@1 <Except>@1 <Finally>@1 <For>@1 <From>@1 <Global>@1 <If>@1 <Import>@1 <In>@1 <Is>@1 <Lambda>@1 <Nonlocal>@1 <Not>@1 <Or>@1 <Pass>@1 <Raise>@1 <Return>@1 <Try>@1 <While>@1 <With>@1 <Yield>@1 NL@1 | ",
        ),
        (
            b"false nones Def _if If iff in_",
            "false@1 nones@1 Def@1 _if@1 If@1 iff@1 in_@1 NL@1 | ",
        ),
        (b"0", "0@1 NL@1 | "),
        (b"00", "0@1 NL@1 | "),
        (b"0_0", "0@1 NL@1 | "),
        (b"1_0", "10@1 NL@1 | "),
        (
            b"12_3 0x1F 0xff 0Xa_b 0b_1 0B10 0o17 0O7",
            "123@1 31@1 255@1 171@1 1@1 2@1 15@1 7@1 NL@1 | ",
        ),
        (b"9223372036854775807", "9223372036854775807@1 NL@1 | "),
        (b"0x7fff_ffff_ffff_ffff", "9223372036854775807@1 NL@1 | "),
        (b"9223372036854775808", "BadNumber(1)"),
        (b"def f():\n    return 9223372036854775808", "BadNumber(2)"),
        (b"0x8000000000000000", "BadNumber(1)"),
        (
            b"0b1111111111111111111111111111111111111111111111111111111111111111111",
            "BadNumber(1)",
        ),
        (b"a\n01", "BadNumber(2)"),
        (b"0_1", "BadNumber(1)"),
        (b"0x", "BadNumber(1)"),
        (b"0b", "BadNumber(1)"),
        (b"0o_", "BadNumber(1)"),
        (b"1__0", "BadNumber(1)"),
        (b"1_", "BadNumber(1)"),
        (b"0x_", "BadNumber(1)"),
        (b"0x1_", "BadNumber(1)"),
        (b"0x__1", "BadNumber(1)"),
        (b"0b2", "BadNumber(1)"),
        (b"0o8", "BadNumber(1)"),
        (b"0xg", "BadNumber(1)"),
        (b"1.5", "BadNumber(1)"),
        (b"1.", "BadNumber(1)"),
        (b"1e5", "BadNumber(1)"),
        (b"1if x else y", "BadNumber(1)"),
        (b"1 if x", "1@1 <If>@1 x@1 NL@1 | "),
        (b"1in x", "BadNumber(1)"),
        (b"5(6)", "5@1 OpenRound@1 6@1 CloseRound@1 NL@1 | "),
        (b"1\xc3\xa9", "BadChar(1)"),
        (b"\xc3\xa9", "BadChar(1)"),
        (b"x1.y", "x1@1 Dot@1 y@1 NL@1 | "),
    ]
}

#[test]
fn words_and_numbers_end_where_python_ends_them(rt: HostRuntime) -> Result<(), Fail> {
    check(&rt, rt.alloc(), words_and_numbers_rows())?;
    Ok(())
}

fn texts_rows() -> &'static [Row] {
    &[
        (b"'a' \"b'\" ''  \"\"", "'a'@1 'b''@1 ''@1 ''@1 NL@1 | "),
        (b"'''a'b''\r\n'''x", "'a'b''\n'@1 x@2 NL@2 | "),
        (b"\"\"\"a\n\n\"b\"\"\"\"", "BadText(3)"),
        (b"''''''", "''@1 NL@1 | "),
        (b"'''\\''''", "'''@1 NL@1 | "),
        (b"'''a\rb\\\r\nc'''", "'a\nbc'@1 NL@3 | "),
        (
            b"'\\\\\\'\\\"\\a\\b\\f\\n\\r\\t\\v'",
            "'\\'\"\u{7}\u{8}\u{c}\n\r\t\u{b}'@1 NL@1 | ",
        ),
        (
            b"'\\x41\\xfF\\u20ac\\u0042'",
            "'A\u{ff}\u{20ac}B'@1 NL@1 | ",
        ),
        (b"'a\\\nb'", "'ab'@1 NL@2 | "),
        (b"'a\\\r\nb\\\rc'", "'abc'@1 NL@3 | "),
        (b"'# (' )", "'# ('@1 CloseRound@1 NL@1 | "),
        (b"a\n'b\nc'", "BadText(2)"),
        (b"a\n\"b", "BadText(2)"),
        (b"'''a\n'", "BadText(1)"),
        (b"\"\"\"a\n\"\"", "BadText(1)"),
        (b"'", "BadText(1)"),
        (b"'\\", "BadText(1)"),
        (b"'\\'", "BadText(1)"),
        (b"'\\q'", "BadText(1)"),
        (b"a\n'''\n\\q", "BadText(2)"),
        (b"'\\x4'", "BadText(1)"),
        (b"'\\x4g'", "BadText(1)"),
        (b"'\\u123'", "BadText(1)"),
        (b"'\\U00000041'", "BadText(1)"),
        (b"'\\N'", "BadText(1)"),
        (b"'\\0'", "BadText(1)"),
        (b"'\\ud800'", "BadText(1)"),
        (b"'\\udfff'", "BadText(1)"),
        (b"'\\ud7ff'", "'\u{d7ff}'@1 NL@1 | "),
        (b"'\\ue000'", "'\u{e000}'@1 NL@1 | "),
        (b"'\xf0\x9f\x98\x80'", "'\u{1f600}'@1 NL@1 | "),
        (b"b'a'", "b@1 'a'@1 NL@1 | "),
        (b"'a''b'", "'a'@1 'b'@1 NL@1 | "),
    ]
}

#[test]
fn texts_are_read_with_their_escapes(rt: HostRuntime) -> Result<(), Fail> {
    check(&rt, rt.alloc(), texts_rows())?;
    Ok(())
}

fn operators_rows() -> &'static [Row] {
    &[
        (
            b"( ) [ ] , : . = == != < <= > >= + - * // % += -= *= //= %=",
            "OpenRound@1 CloseRound@1 OpenSquare@1 CloseSquare@1 Comma@1 Colon@1 Dot@1 Assign@1 Equal@1 NotEqual@1 Less@1 LessEqual@1 Greater@1 GreaterEqual@1 Plus@1 Minus@1 Star@1 FloorDivide@1 Percent@1 PlusAssign@1 MinusAssign@1 StarAssign@1 FloorDivideAssign@1 PercentAssign@1 NL@1 | ",
        ),
        (b"//=//", "FloorDivideAssign@1 FloorDivide@1 NL@1 | "),
        (
            b"a!=b<==",
            "a@1 NotEqual@1 b@1 LessEqual@1 Assign@1 NL@1 | ",
        ),
        (b"<=>", "LessEqual@1 Greater@1 NL@1 | "),
        (b"===", "Equal@1 Assign@1 NL@1 | "),
        (b"!== =", "NotEqual@1 Assign@1 Assign@1 NL@1 | "),
        (b"+-*%", "Plus@1 Minus@1 Star@1 Percent@1 NL@1 | "),
        (b"**=", "Star@1 StarAssign@1 NL@1 | "),
        (b"->", "Minus@1 Greater@1 NL@1 | "),
        (b"/", "BadChar(1)"),
        (b"a/=b", "BadChar(1)"),
        (b"!", "BadChar(1)"),
        (b"a ! b", "BadChar(1)"),
        (b"a\n&", "BadChar(2)"),
        (b"a;b", "BadChar(1)"),
        (b"{", "BadChar(1)"),
        (b"}", "BadChar(1)"),
        (b"@x", "BadChar(1)"),
        (b"~", "BadChar(1)"),
        (b"a ? b", "BadChar(1)"),
        (b"$", "BadChar(1)"),
        (b"`", "BadChar(1)"),
        (b"a\n\n|", "BadChar(3)"),
    ]
}

#[test]
fn the_longest_operator_is_read(rt: HostRuntime) -> Result<(), Fail> {
    check(&rt, rt.alloc(), operators_rows())?;
    Ok(())
}

/// A file of which each prefix has an answer.
fn file() -> &'static [u8] {
    b"\"\"\"Word counter.\"\"\"\nSIZES = (1, 2, 4)\n\ndef fib(n):\n    a, b = 0, 1\n    for i in range(n):\n        a, b = b, a + b\n    return a\n\ndef words(text):\n    word = \"\"\n    for c in text:\n        if c == \" \":\n            if word:\n                yield word\n            word = \"\"\n        else:\n            word += c\n    if word:\n        yield word\n\ndef count(text, size):\n    n = 0\n    for w in words(text):\n        if len(w) >= size:\n            n += 1\n    return n\n\ndef main(k):\n    total = 0\n    for size in SIZES:\n        try:\n            total += count(\"the cat sat on the mat\", size) // (k - size)\n        except ZeroDivisionError as e:\n            print(\"skip\", size, e)\n    return total, fib(k)\n"
}

/// From this length of the prefix on up to the next: how many items, or the fault.
fn prefix_rows() -> &'static [(usize, &'static str)] {
    &[
        (0, "0 items"),
        (1, "BadText(1)"),
        (2, "1 items"),
        (3, "BadText(1)"),
        (19, "1 items"),
        (21, "2 items"),
        (40, "3 items"),
        (129, "4 items"),
        (157, "BadText(11)"),
        (158, "4 items"),
        (195, "BadText(13)"),
        (197, "4 items"),
        (267, "BadText(16)"),
        (268, "4 items"),
        (339, "5 items"),
        (458, "6 items"),
        (548, "BadText(33)"),
        (571, "6 items"),
        (580, "BadChar(33)"),
        (581, "6 items"),
        (651, "BadText(35)"),
        (656, "6 items"),
    ]
}

#[test]
fn each_prefix_of_a_file_has_its_answer(rt: HostRuntime) -> Result<(), Fail> {
    let mut wanted: &str = "";
    let file = file();
    for end in 0..=file.len() {
        for (from, answer) in prefix_rows() {
            if *from == end {
                wanted = *answer;
            }
        }
        let found = match items(rt.alloc(), &file[..end]) {
            Ok(found) => format!(in rt.alloc(); "{} items", found.len())?,
            Err(fault) => format!(in rt.alloc(); "{fault:?}")?,
        };
        assert_eq!(rt; found.as_str(), wanted, "of {end} bytes");
    }
    Ok(())
}

fn repeated(alloc: Global, byte: u8, count: usize) -> Result<Items<Item>, LexFault> {
    let text = vec![in alloc; byte; count]?;
    items(alloc, &text)
}

#[test]
fn texts_of_the_greatest_length_are_read(rt: HostRuntime) -> Result<(), Fail> {
    let found = repeated(rt.alloc(), b'a', 262_144)?;
    assert_eq!(rt; found.len(), 1);
    let found = repeated(rt.alloc(), b'(', 262_144)?;
    assert_eq!(rt; found.len(), 1);
    assert_eq!(rt; found.as_slice()[0].tokens.len(), 262_144);
    let found = repeated(rt.alloc(), b'\n', 262_144)?;
    assert!(rt; found.is_empty());
    assert!(rt;
        matches!(
            repeated(rt.alloc(), b'\'', 262_144),
            Err(LexFault::BadText(1))
        )
    );
    assert!(rt;
        matches!(
            repeated(rt.alloc(), 0xff, 262_144),
            Err(LexFault::NotUtf8(0))
        )
    );
    assert!(rt; matches!(repeated(rt.alloc(), b'a', 262_145), Err(LexFault::TooLong)));
    assert!(rt; matches!(repeated(rt.alloc(), 0xff, 262_145), Err(LexFault::TooLong)));
    Ok(())
}

#[test]
fn faults_are_printed(rt: HostRuntime) -> Result<(), Fail> {
    let rows = [
        (LexFault::NotUtf8(0), "NotUtf8 0"),
        (LexFault::BadChar(7), "BadChar 7"),
        (LexFault::BadIndent(2), "BadIndent 2"),
        (LexFault::BadNumber(2), "BadNumber 2"),
        (LexFault::BadText(33), "BadText 33"),
        (LexFault::TooLong, "TooLong"),
        (LexFault::Memory, "Memory"),
    ];
    for (fault, wanted) in rows {
        let text = format!(in rt.alloc(); "{fault}")?;
        assert_eq!(rt; text.as_str(), wanted);
    }
    spells_once();
    Ok(())
}
