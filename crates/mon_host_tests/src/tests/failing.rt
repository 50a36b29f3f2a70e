//! Reads and writes that fail, each in turn, and faults of the file and of the plan.

use super::*;

#[test]
fn a_failed_read_is_the_last_call(rt: HostRuntime) -> Result<(), Fail> {
    let alloc = rt.alloc();
    for number in 0..2 {
        let cut = end_of(&rt, alloc, &words::TRIAL, &Unheld, &[number], &[])?;
        assert_eq!(rt; cut.status, Status::ReadFault);
        assert_eq!(rt; cut.reads, number + 1);
        assert_eq!(rt; cut.writes, 0);
    }
    Ok(())
}

#[test]
fn a_failed_write_is_the_last_call(rt: HostRuntime) -> Result<(), Fail> {
    let alloc = rt.alloc();
    let cut = end_of(&rt, alloc, &words::TRIAL, &Unheld, &[], &[0])?;
    assert_eq!(rt; cut.status, Status::WriteFault);
    assert_eq!(rt; cut.writes, 1);
    let cut = end_of(&rt, alloc, &words::TRIAL, &Unheld, &[], &[1])?;
    assert_eq!(rt; cut.status, Status::WriteFault);
    assert_eq!(rt; cut.writes, 2);
    assert!(rt;
        cut.text()
            .starts_with("journal before use_tool_id 1 coverage = None\n")
    );
    Ok(())
}

#[test]
fn faults_of_the_file_and_of_the_plan_are_answers(rt: HostRuntime) -> Result<(), Fail> {
    let alloc = rt.alloc();
    let open = Trial {
        program: "def f(\n",
        plan: "",
    };
    let refused = end_of(&rt, alloc, &open, &Unheld, &[], &[])?;
    assert_eq!(rt; refused.status, Status::Source);
    assert_eq!(rt; refused.text(), "source Syntax 1\n");
    assert_eq!(rt; refused.reads, 1);
    let unplanned = Trial {
        program: "def f():\n    return 1\n",
        plan: "steps 10\nthread g\n",
    };
    let refused = end_of(&rt, alloc, &unplanned, &Unheld, &[], &[])?;
    assert_eq!(rt; refused.status, Status::Plan);
    assert_eq!(rt; refused.text(), "plan 2 Name\n");
    Ok(())
}
