use super::*;

/// Whether a text with so many pieces in the middle gets a verdict.
fn gets(alloc: Global, parts: (&str, &str, &str), count: usize, due: &str) -> Result<bool, Fail> {
    let (before, piece, behind) = parts;
    let program = program(alloc)?;
    let text = repeated(alloc, before, piece, count, behind)?;
    Ok(verdict(alloc, &program, text.as_bytes())?.as_str() == due)
}

#[test]
fn no_limit_is_passed(rt: HostRuntime) -> Result<(), Fail> {
    let alloc = rt.alloc();
    let threads = ("steps 10\n", "thread f 1\n", "");
    assert!(rt; gets(alloc, threads, 8, "plan")?);
    assert!(rt; gets(alloc, threads, 9, "10 TooMany")?);
    assert!(rt; gets(alloc, ("steps 200000\n", "thread f 1\n", ""), 2, "plan")?);
    assert!(rt;
        gets(
            alloc,
            ("steps 200000\n", "thread f 1\n", ""),
            3,
            "4 TooMany"
        )?
    );
    assert!(rt;
        gets(
            alloc,
            ("steps 50000\n", "thread f 1\n", "thread f x"),
            8,
            "10 TooMany"
        )?
    );
    let scripts = ("steps 10\n", "script\n", "");
    assert!(rt; gets(alloc, scripts, 4, "plan")?);
    assert!(rt; gets(alloc, scripts, 5, "6 TooMany")?);
    let calls = (
        "steps 10\nbefore\nget_tool 1\nscript\n",
        "restart_events\n",
        "",
    );
    assert!(rt; gets(alloc, calls, 255, "plan")?);
    assert!(rt; gets(alloc, calls, 256, "260 TooMany")?);
    let moves = ("steps 10\nthread f 1\nschedule\n", "turn 0 1\n", "");
    assert!(rt; gets(alloc, moves, 4096, "plan")?);
    assert!(rt; gets(alloc, moves, 4097, "4100 TooMany")?);
    let reports = ("steps 10\n", "report lines 1\n", "");
    assert!(rt; gets(alloc, reports, 16, "plan")?);
    assert!(rt; gets(alloc, reports, 17, "18 TooMany")?);
    Ok(())
}

#[test]
fn a_long_argument_is_too_many_where_it_is_a_text(rt: HostRuntime) -> Result<(), Fail> {
    let alloc = rt.alloc();
    assert!(rt; gets(alloc, ("steps 1\nthread f '", "a", "'"), 255, "plan")?);
    assert!(rt; gets(alloc, ("steps 1\nthread f '", "a", "'"), 256, "2 TooMany")?);
    assert!(rt;
        gets(
            alloc,
            ("steps 1\nthread zz x '", "a", "'"),
            256,
            "2 TooMany"
        )?
    );
    assert!(rt; gets(alloc, ("steps 1\nthread f '", "a", "b"), 256, "2 Number")?);
    assert!(rt; gets(alloc, ("steps 1\nthread f '", "\\", "'"), 256, "2 Number")?);
    assert!(rt; gets(alloc, ("steps 1\nthread f ", "1", ""), 18, "plan")?);
    assert!(rt; gets(alloc, ("steps 1\nthread f ", "1", ""), 256, "2 Number")?);
    Ok(())
}

#[test]
fn a_long_text_is_too_many_before_all_else(rt: HostRuntime) -> Result<(), Fail> {
    let alloc = rt.alloc();
    assert!(rt; gets(alloc, ("steps 1\n", "#", ""), 262_136, "plan")?);
    for piece in ["#", "\n", "\r", " ", "1", "a", "'"] {
        assert!(rt; gets(alloc, ("", piece, ""), 262_145, "0 TooMany")?);
    }
    for (piece, due) in [
        ("\n", "262145 Order"),
        ("#", "2 Order"),
        ("1", "1 Word"),
        (" ", "2 Order"),
    ] {
        assert!(rt; gets(alloc, ("", piece, ""), 262_144, due)?);
    }
    Ok(())
}
