//! What a program has beside its locations.

use super::compiled;
use super::show::{show_text, show_value};
use mon_code::{Code, Program};
use mon_values::text::Text;
use std::alloc::{AllocError, Global};
use std::fmt::Write;
use std::test::Fail;

fn show_names(out: &mut String, names: &[Text]) -> Result<(), AllocError> {
    for name in names {
        write!(out, " ")?;
        show_text(out, name)?;
    }
    Ok(())
}

/// A code's number of parameters, its first location, how many it has, its locals and its globals.
fn show_code(out: &mut String, code: &Code) -> Result<(), AllocError> {
    let count = code.locations.len();
    write!(out, "; {} {} {count}:", code.parameters, code.first)?;
    show_names(out, code.locals.as_slice())?;
    write!(out, ",")?;
    show_names(out, code.globals.as_slice())
}

fn show_program(out: &mut String, program: &Program) -> Result<(), AllocError> {
    show_names(out, program.names.as_slice())?;
    for code in program.codes.as_slice() {
        show_code(out, code)?;
    }
    for constant in program.constants.as_slice() {
        write!(out, "; ")?;
        show_text(out, &constant.name)?;
        write!(out, " = ")?;
        show_value(out, &constant.value)?;
    }
    Ok(())
}

fn outline(alloc: Global, text: &[u8]) -> Result<String, Fail> {
    let (program, bases) = compiled(alloc, text)?;
    let mut out = String::new(alloc);
    show_program(&mut out, &program)?;
    write!(out, "; {} {}", program.locations(), bases.len())?;
    Ok(out)
}

const TEXT: &[u8] =
    b"x = 1, -2, ('a' 'b', None), ()\ndef f(a, b):\n    for c, a in x:\n        try: d += y + x\n        except E as e: pass\n'a text'\ndef g(): pass\ny = True\n";

#[test]
fn a_program_has_names_codes_and_constants(rt: HostRuntime) -> Result<(), Fail> {
    let out = outline(rt.alloc(), TEXT)?;
    assert_eq!(rt;
        out.as_str(),
        " f g; 2 0 33: a b c d e, x y x E; 0 33 4:,; x = (1,-2,('ab',None,),(),); y = True; 37 37"
    );
    Ok(())
}

#[test]
fn an_empty_text_is_a_program_without_codes(rt: HostRuntime) -> Result<(), Fail> {
    let out = outline(rt.alloc(), b"")?;
    assert_eq!(rt; out.as_str(), "; 0 0");
    Ok(())
}

#[test]
fn locals_are_in_the_order_of_their_first_binding(rt: HostRuntime) -> Result<(), Fail> {
    let out = outline(
        rt.alloc(),
        b"def f():\n    print(b)\n    a = 1\n    b = 2\n",
    )?;
    assert_eq!(rt; out.as_str(), " f; 0 0 11: a b, print; 11 11");
    Ok(())
}
