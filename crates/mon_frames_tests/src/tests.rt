ghost use Rattle.std.specs.Prelude.{◌≡◌, ℕ, Bool, true, false, List, [], ◌∷◌, length, Option, None, Some, IfOk};
ghost use Rattle.mon_code.specs.declared.program.Handler.{Handler as HandlerOf};
ghost use Rattle.mon_code.specs.declared.program.Location.{Location as LocationOf};
ghost use Rattle.mon_values.specs.declared.value.Value.{Value as ValueOf};
ghost use Rattle.mon_values.specs.declared.value.Value.TheVariants.{None as NoneValue};
ghost use Rattle.mon_frames.specs.Views.{Takes};

use mon_code::{Code, Handler, Location, Program};
use mon_frames::{FrameFault, Frames, Handling, Operands, Origin, handler_of, item_at, item_count};
use mon_shared::SharedItems;
use mon_values::print::repr;
use mon_values::text::Text;
use mon_values::value::{Exc, Value};
use sqlite_items::Items;
use std::alloc::{AllocError, Global};
use std::test::Fail;

/// `def f(n):` with one more local: RESUME, LOAD_CONST, whose exception goes to index 2, and RETURN_VALUE.
fn locations(alloc: Global) -> Result<Items<Location>, AllocError>
    ensures { IfOk result (λ all. let location : Bool → Option HandlerOf → ℕ → LocationOf = λ is_safe handler stack. record { argument = 0; line = None; is_marked = false; is_safe = is_safe; handler = handler; stack = stack; handling = 0 } in
        all ≡ location true None 0
        ∷ location false (Some (record { to = 2; stack = 0; handling = 0 })) 0
        ∷ location false None 1
        ∷ []) }
{
    let locations = [
        Location {
            argument: 0,
            line: None,
            is_marked: false,
            is_safe: true,
            handler: None,
            stack: 0,
            handling: 0,
        },
        Location {
            argument: 0,
            line: None,
            is_marked: false,
            is_safe: false,
            handler: Some(Handler {
                to: 2,
                stack: 0,
                handling: 0,
            }),
            stack: 0,
            handling: 0,
        },
        Location {
            argument: 0,
            line: None,
            is_marked: false,
            is_safe: false,
            handler: None,
            stack: 1,
            handling: 0,
        },
    ];
    Items::from_slice(alloc, &locations)
}

fn two_texts(alloc: Global, a: &str, b: &str) -> Result<Items<Text>, AllocError>
    ensures { IfOk result (λ all. all ≡ a.now ∷ b.now ∷ []) }
{
    let mut texts = Items::new(alloc);
    texts.push(Text::from_ascii(alloc, a)?)?;
    texts.push(Text::from_ascii(alloc, b)?)?;
    Ok(texts)
}

fn one_text(alloc: Global, a: &str) -> Result<Items<Text>, AllocError>
    ensures { IfOk result (λ all. all ≡ a.now ∷ []) }
{
    let mut texts = Items::new(alloc);
    texts.push(Text::from_ascii(alloc, a)?)?;
    Ok(texts)
}

fn none_alone(alloc: Global) -> Result<Items<Value>, AllocError>
    ensures { IfOk result (λ all. all ≡ NoneValue ∷ []) }
{
    let mut constants = Items::new(alloc);
    constants.push(Value::None)?;
    Ok(constants)
}

fn program(alloc: Global) -> Result<Program, AllocError>
    ensures { IfOk result (λ p. (args : List ValueOf) → length args ≡ 1 → Takes p 0 args) }
{
    let globals = Items::new(alloc);
    let code = Code {
        parameters: 1,
        locals: two_texts(alloc, "n", "m")?,
        globals,
        constants: none_alone(alloc)?,
        first: 0,
        locations: locations(alloc)?,
    };
    let mut codes = Items::new(alloc);
    codes.push(code)?;
    let names = one_text(alloc, "f")?;
    let named = Items::new(alloc);
    let bases = Items::from_slice(alloc, &[1, 2, 29])?;
    Ok(Program::new(names, named, codes, bases))
}

fn only(alloc: Global, v: Value) -> Result<Vec<Value>, AllocError>
    ensures { IfOk result (λ args. args.items ≡ v ∷ []) }
{
    let mut args = Vec::new(alloc);
    args.push(v)?;
    Ok(args)
}

fn is_char(item: &Option<Value>, c: char) -> bool {
    match item {
        Some(Value::Text(text)) => text.chars() == [c].as_slice(),
        _ => false,
    }
}

fn prints_as(alloc: Global, v: &Value, want: &str) -> Result<bool, AllocError> {
    Ok(repr(alloc, v, &[])?.chars() == Text::from_ascii(alloc, want)?.chars())
}

/// Whether the top frame has so many locals, of which the first prints so and the last is not bound.
fn has_locals(alloc: Global, frames: &Frames, want: &str) -> Result<bool, AllocError> {
    if frames.depth() == 0 {
        return Ok(false);
    }
    let locals = &frames.top().locals;
    match (locals.get(0), locals.get(1), locals.get(2)) {
        (Some(Some(v)), Some(None), None) => prints_as(alloc, v, want),
        _ => Ok(false),
    }
}

#[test]
fn a_call_is_pushed_and_popped(rt: HostRuntime) -> Result<(), Fail> {
    let alloc = rt.alloc();
    let program = program(alloc)?;
    let mut frames = Frames::new(alloc);
    assert!(rt;
        frames
            .push_call(&program, 0, only(alloc, Value::Int(7))?)
            .is_ok()
    );
    assert!(rt; frames.depth() == 1 && has_locals(alloc, &frames, "7")?);
    if frames.depth() == 1 {
        assert!(rt; frames.origin() == Origin::Plain);
        frames.top_mut().index = 2;
        let frame = frames.pop();
        assert!(rt; frame.code == 0 && frame.index == 2 && frames.depth() == 0);
    }
    Ok(())
}

#[test]
fn no_more_frames_than_a_thousand_stand(rt: HostRuntime) -> Result<(), Fail> {
    let alloc = rt.alloc();
    let program = program(alloc)?;
    let mut frames = Frames::new(alloc);
    for _turn in 0..1000 {
        assert!(rt;
            frames
                .push_call(&program, 0, only(alloc, Value::None)?)
                .is_ok()
        );
    }
    assert!(rt; frames.push_call(&program, 0, only(alloc, Value::None)?) == Err(FrameFault::Full));
    assert!(rt; frames.depth() == 1000);
    Ok(())
}

/// Whether these exceptions are handled, the last of them being of this class.
fn is_handled(exc: Option<&Exc>, class: Option<u8>) -> bool {
    match (exc, class) {
        (Some(exc), Some(class)) => exc.class == class,
        (None, None) => true,
        _ => false,
    }
}

#[test]
fn the_innermost_frame_that_handles_an_exception_is_found(rt: HostRuntime) -> Result<(), Fail> {
    let alloc = rt.alloc();
    let program = program(alloc)?;
    let mut frames = Frames::new(alloc);
    assert!(rt; is_handled(frames.handled(), None));
    assert!(rt;
        frames
            .push_call(&program, 0, only(alloc, Value::None)?)
            .is_ok()
    );
    if frames.depth() > 0 {
        let handling = &mut frames.top_mut().handling;
        handling.push(Exc {
            class: 14,
            arg: None,
        })?;
        handling.push(Exc {
            class: 13,
            arg: None,
        })?;
    }
    assert!(rt;
        frames
            .push_call(&program, 0, only(alloc, Value::None)?)
            .is_ok()
    );
    assert!(rt; is_handled(frames.handled(), Some(13)));
    Ok(())
}

#[test]
fn lists_of_a_frame_are_cut(rt: HostRuntime) -> Result<(), Fail> {
    let alloc = rt.alloc();
    let mut stack = Operands::new(alloc);
    stack.push(Value::Int(1))?;
    stack.push(Value::Int(2))?;
    stack.push(Value::Int(3))?;
    assert!(rt; stack.len() == 3 && matches!(stack.top(), Some(Value::Int(3))));
    stack.cut(2);
    assert!(rt;
        matches!(stack.pop(), Some(Value::Int(2))) && stack.pop().is_some() && stack.pop().is_none()
    );
    let mut handling = Handling::new(alloc);
    handling.push(Exc {
        class: 13,
        arg: None,
    })?;
    handling.push(Exc {
        class: 14,
        arg: None,
    })?;
    handling.cut(1);
    assert!(rt; is_handled(handling.last(), Some(13)));
    assert!(rt; handling.pop().is_some() && handling.pop().is_none());
    Ok(())
}

#[test]
fn the_topmost_values_are_taken_in_order(rt: HostRuntime) -> Result<(), Fail> {
    let alloc = rt.alloc();
    let mut stack = Operands::new(alloc);
    stack.push(Value::Int(1))?;
    stack.push(Value::Int(2))?;
    stack.push(Value::Int(3))?;
    if stack.len() >= 2 {
        let taken = Value::Tuple(SharedItems::from_vec(stack.take_top(2)?)?);
        assert!(rt; prints_as(alloc, &taken, "(2, 3)")?);
    }
    assert!(rt; stack.len() == 1 && matches!(stack.top(), Some(Value::Int(1))));
    Ok(())
}

/// Whether an iterator of a value gives values that print so, and then no more.
fn gives(alloc: Global, frames: &mut Frames, v: &Value, want: &[&str]) -> Result<bool, AllocError> {
    let Ok(Value::Iter(number)) = frames.iterate(v.copy()?) else {
        return Ok(false);
    };
    for text in want {
        match frames.next_item(number)? {
            None => return Ok(false),
            Some(v) => {
                if !prints_as(alloc, &v, text)? {
                    return Ok(false);
                }
            }
        }
    }
    Ok(frames.next_item(number)?.is_none() && frames.next_item(number)?.is_none())
}

fn pair(alloc: Global) -> Result<Value, AllocError> {
    let mut items = Vec::new(alloc);
    items.push(Value::Int(1))?;
    items.push(Value::None)?;
    Ok(Value::Tuple(SharedItems::from_vec(items)?))
}

#[test]
fn values_are_gone_over(rt: HostRuntime) -> Result<(), Fail> {
    let alloc = rt.alloc();
    let mut frames = Frames::new(alloc);
    let text = Value::Text(Text::from_ascii(alloc, "ab")?);
    assert!(rt; gives(alloc, &mut frames, &text, &["'a'", "'b'"])?);
    assert!(rt; gives(alloc, &mut frames, &pair(alloc)?, &["1", "None"])?);
    let falling = Value::Range(5, -5, -4);
    assert!(rt; gives(alloc, &mut frames, &falling, &["5", "1", "-3"])?);
    assert!(rt; frames.iterate(Value::None).is_err() && frames.generator(0).is_none());
    assert!(rt; item_count(&falling) == Some(3) && item_count(&Value::None).is_none());
    assert!(rt; matches!(item_at(alloc, &falling, 1)?, Some(Value::Int(1))));
    let wide = Value::Text(Text::from_chars(alloc, &['\u{6f22}', '\u{e9}'])?);
    assert!(rt; is_char(&item_at(alloc, &wide, 1)?, '\u{e9}') && item_count(&wide) == Some(2));
    Ok(())
}

#[test]
fn handlers_are_as_recorded(rt: HostRuntime) -> Result<(), Fail> {
    let program = program(rt.alloc())?.own(rt.alloc())?;
    assert!(rt; handler_of(&program, 0, 1).map(|handler| handler.to) == Some(2));
    assert!(rt; handler_of(&program, 0, 0).is_none() && handler_of(&program, 0, 3).is_none());
    assert!(rt; handler_of(&program, 1, 1).is_none());
    Ok(())
}
