use super::*;

/// Texts of steps, threads and sections, and their verdicts.
const OUTLINES: [(&[u8], &str); 44] = [
    (b"", "1 Order"),
    (b"\n \t\n# steps 5", "4 Order"),
    (b"#\n", "2 Order"),
    (b"# \xff\x00\r\r\nsteps 5", "plan"),
    (b"steps 5", "plan"),
    (b"steps 5\r\n", "plan"),
    (b"\r\nsteps 5", "plan"),
    (b"steps 5\r", "1 Word"),
    (b"steps 5\r\r\n", "1 Word"),
    (b"steps 5\n\r", "2 Word"),
    (b"steps\x0b5\n", "1 Word"),
    (b"steps 5 \x7f\n", "1 Word"),
    (b"steps \xc3\xa9\n", "1 Word"),
    (b"steps", "1 Word"),
    (b"steps 5 5", "1 Word"),
    (b"Steps 5", "1 Word"),
    (b"steps5", "1 Word"),
    (b"steps x", "1 Number"),
    (b"steps -1", "1 Number"),
    (b"steps 200000", "plan"),
    (b"steps 200001", "1 Number"),
    (b"steps -0", "plan"),
    (b"steps 000000000000000007", "plan"),
    (b"steps 0000000000000000007", "1 Number"),
    (b"steps +5", "1 Number"),
    (b"steps -", "1 Number"),
    (b"steps 5\nsteps x", "2 Order"),
    (b"thread f 1\nsteps 5", "1 Order"),
    (b"before", "1 Order"),
    (b"report lines 1\nsteps 5", "1 Order"),
    (b"steps 5\nthread", "2 Word"),
    (b"steps 5\nthread f", "2 Number"),
    (b"steps 5\nthread f 1 2", "2 Number"),
    (b"steps 5\nthread zz 1", "2 Name"),
    (b"steps 5\nthread zz 1x", "2 Number"),
    (b"steps 5\nthread f 'a\\b'", "2 Number"),
    (b"steps 5\nthread f 'a'b'", "2 Number"),
    (b"steps 5\nthread f '", "2 Number"),
    (b"steps 5\nthread f 'a b'", "2 Number"),
    (b"steps 5\nthread none", "plan"),
    (b"steps 5\nbefore\nthread f 1", "3 Order"),
    (b"steps 5\nbefore\nbefore", "3 Order"),
    (b"steps 5\nbefore 1", "2 Word"),
    (b"steps 5\nscript\nbefore", "3 Order"),
];

/// The plans of the examples, and one of them with an argument too many.
const EXAMPLES: [(&[u8], &str); 3] = [
    (
        b"steps 200\nthread f 0\nbefore\nuse_tool_id 1 cov\nset_events 1 LINE\nregister_callback 1 LINE keep\n",
        "plan",
    ),
    (
        b"steps 100\nthread f 3\nbefore\nuse_tool_id 1 cov\nset_events 1 LINE\nregister_callback 1 LINE keep\n",
        "plan",
    ),
    (
        b"steps 100\nthread f 3 4\nbefore\nuse_tool_id 1 cov\nset_events 1 LINE\nregister_callback 1 LINE keep\n",
        "2 Number",
    ),
];

/// Lines behind `steps 9`, a thread, `before`, two scripts and `schedule`, and what each is found to be.
const LATER: [(&[u8], &str); 19] = [
    (b"turn 0 200000", "plan"),
    (b"turn 0 200001", "7 Number"),
    (b"turn 1 3", "7 Number"),
    (b"turn -0 3", "plan"),
    (b"turn -1 3", "7 Number"),
    (b"turn 0", "7 Word"),
    (b"turn 0 x", "7 Number"),
    (b"call 1", "plan"),
    (b"call 2", "7 Number"),
    (b"call 0 0", "7 Word"),
    (b"schedule", "7 Order"),
    (b"script", "7 Order"),
    (b"restart_events", "7 Order"),
    (b"report lines 5", "plan"),
    (b"report lines 6", "7 Number"),
    (b"report line 6", "7 Number"),
    (b"report line 5", "7 Name"),
    (b"report lines", "7 Word"),
    (b"report lines 1\nturn 0 1", "8 Order"),
];

/// Lines behind `steps 9` and `before`, and what each is found to be.
const CALLS: [(&[u8], &str); 38] = [
    (b"use_tool_id 1 a", "plan"),
    (b"use_tool_id -999999999999999999 a", "plan"),
    (b"use_tool_id 1000000000000000000 a", "3 Number"),
    (b"use_tool_id x a+b", "3 Number"),
    (b"use_tool_id 1 a+b", "3 Name"),
    (b"use_tool_id 1 12345678901234567890123456789012", "plan"),
    (b"use_tool_id 1 123456789012345678901234567890123", "3 Name"),
    (b"use_tool_id 1", "3 Word"),
    (b"free_tool_id 7", "plan"),
    (b"free_tool_id", "3 Word"),
    (b"free_tool_id x", "3 Number"),
    (b"get_tool 1 1", "3 Word"),
    (b"get_tool 1.", "3 Number"),
    (b"get_tool 1", "plan"),
    (b"set_events 1 LINE|CALL", "plan"),
    (b"set_events 1 line", "3 Name"),
    (b"set_events 1 LINE|", "3 Name"),
    (b"set_events 1 0", "plan"),
    (
        b"set_events 1 00000000000000000000000000004294967295",
        "plan",
    ),
    (b"set_events 1 4294967296", "3 Name"),
    (b"set_events 1 -1", "3 Name"),
    (b"set_events x -1", "3 Number"),
    (b"get_events 1", "plan"),
    (b"get_events LINE", "3 Number"),
    (b"set_local_events 1 f LINE", "plan"),
    (b"set_local_events 1 g LINE", "3 Name"),
    (b"set_local_events 1 f LIN", "3 Name"),
    (b"set_local_events 1 f", "3 Word"),
    (b"get_local_events 1 two", "plan"),
    (b"get_local_events 1 tw", "3 Name"),
    (b"register_callback 1 LINE keep", "plan"),
    (b"register_callback 1 LINE None", "plan"),
    (b"register_callback 1 LINE none", "3 Name"),
    (b"register_callback 1 LINE", "3 Word"),
    (b"restart_events", "plan"),
    (b"restart_events 1", "3 Word"),
    (b"turn 0 1", "3 Order"),
    (b"call 0", "3 Order"),
];

/// The first of these lines that gets another verdict behind a text than the one beside it.
fn other_behind<'a>(
    alloc: Global,
    program: &Program,
    before: &[u8],
    cases: &[(&'a [u8], &str)],
) -> Result<Option<&'a [u8]>, AllocError> {
    for (line, due) in cases {
        let mut text = Vec::from_slice(alloc, before)?;
        text.extend_from_slice(line)?;
        if verdict(alloc, program, text.as_slice())?.as_str() != *due {
            return Ok(Some(*line));
        }
    }
    Ok(None)
}

#[test]
fn each_line_is_a_plan_or_its_first_fault(rt: HostRuntime) -> Result<(), Fail> {
    let alloc = rt.alloc();
    let program = program(alloc)?;
    assert_eq!(rt; first_other(alloc, &program, &OUTLINES)?, None);
    assert_eq!(rt; first_other(alloc, &program, &EXAMPLES)?, None);
    let later = b"steps 9\nthread f 1\nbefore\nscript\nscript\nschedule\n";
    assert_eq!(rt; other_behind(alloc, &program, later, &LATER)?, None);
    assert_eq!(rt;
        other_behind(alloc, &program, b"steps 9\nbefore\n", &CALLS)?,
        None
    );
    Ok(())
}
