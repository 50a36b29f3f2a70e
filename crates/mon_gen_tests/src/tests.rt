use mon_compile::compile;
use mon_forms::read_plan;
use mon_gen::{generated_module, generated_plan};
use mon_lexer::items;
use mon_parser::parse;
use std::alloc::{AllocError, Global};
use std::fmt::Write;
use std::test::Fail;

/// The sizes that are tried: the least, the one whose run is timed, and the greatest.
const SIZES: [u16; 3] = [1, 100, 500];

const PLAN: &str = "steps 100000\nthread go 20\nthread go 20\nthread go 20\nthread go 20
before\nuse_tool_id 1 gen\nregister_callback 1 LINE keep\nset_events 1 LINE\n";

/// The program with so many loops, as text.
fn program_text(alloc: Global, loops: u16) -> Result<String, Fail> {
    let mut text = String::new(alloc);
    for k in 0..loops {
        write!(text, "def f{k}(n):\n    t = {k}\n")?;
        text.push_str("    for i in range(n):\n        t += i\n    return t\n")?;
    }
    text.push_str("def go(n):\n    s = 0\n")?;
    for k in 0..loops {
        write!(text, "    s += f{k}(n)\n")?;
    }
    text.push_str("    return s\n")?;
    Ok(text)
}

#[test]
fn program_text_is_read_as_generated_trees(rt: HostRuntime) -> Result<(), Fail> {
    let alloc = rt.alloc();
    for loops in SIZES {
        let text = program_text(alloc, loops)?;
        let spelled = items(alloc, text.as_bytes())?;
        let read = format!(in alloc; "{:?}", parse(alloc, spelled.as_slice())?)?;
        let made = format!(in alloc; "{:?}", generated_module(alloc, loops)?)?;
        assert_eq!(rt; made.as_str(), read.as_str(), "of {loops} loops");
    }
    Ok(())
}

#[test]
fn plan_text_is_read_as_generated_plan(rt: HostRuntime) -> Result<(), Fail> {
    let alloc = rt.alloc();
    for loops in SIZES {
        let (program, _) = compile(alloc, &generated_module(alloc, loops)?)?;
        let read = read_plan(alloc, PLAN.as_bytes(), &program)?;
        let read = format!(in alloc; "{read:?}")?;
        let made = format!(in alloc; "{:?}", generated_plan(alloc, loops)?)?;
        assert_eq!(rt; made.as_str(), read.as_str(), "of {loops} loops");
    }
    Ok(())
}
