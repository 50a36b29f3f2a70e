ghost use Rattle.std.specs.Prelude.{◌≡◌, IfOk};
ghost use Rattle.mon_builtins.specs.Builtins as spec;

use crate::given::{BuiltinFault, Given, raise};
use mon_values::fault::Trouble;
use mon_values::print::text_of;
use mon_values::text::{Text, TextBuffer};
use mon_values::value::Value;
use mon_values::weight::MAX_WEIGHT;
use std::alloc::{AllocError, Global};

/// A text that may be put out, or none where it is too long.
fn short(line: Text) -> Option<Text>
    ensures { result ≡ spec.short line }
{
    if line.len() > MAX_WEIGHT as usize {
        None
    } else {
        Some(line)
    }
}

/// The line that is put out for the arguments, or none where it is too long.
fn line_of(alloc: Global, args: &[Value], names: &[Text]) -> Result<Option<Text>, AllocError>
    ensures { IfOk result (λ line. line ≡ spec.short (spec.line_of names.now args.now)) }
{
    match args {
        [] => Ok(Some(Text::new())),
        [only] => Ok(short(text_of(alloc, only, names)?)),
        [first, ..] => {
            let mut line = TextBuffer::new(alloc);
            line.append(text_of(alloc, first, names)?.chars())?;
            with_others(alloc, line, &args[1..], names)
        }
    }
}

/// A line with the texts of further arguments behind it, each behind a space; none where it is too long.
fn with_others(
    alloc: Global,
    first: TextBuffer,
    others: &[Value],
    names: &[Text],
) -> Result<Option<Text>, AllocError>
    ensures { IfOk result (λ line. line ≡ spec.short (spec.behind first names.now others.now)) }
{
    let mut line = first;
    for arg in others {
        if line.len() > MAX_WEIGHT as usize {
            return Ok(None);
        }
        line.push(' ')?;
        line.append(text_of(alloc, arg, names)?.chars())?;
    }
    Ok(short(line.into_text()?))
}

/// `print(..)`: a line over 4,096 characters raises, and nothing is put out.
pub fn print(alloc: Global, args: &[Value], names: &[Text]) -> Result<Given, BuiltinFault>
    ensures { IfOk result (λ given. given ≡ spec.print_of names.now args.now) }
{
    match line_of(alloc, args, names)? {
        Some(line) => Ok(Given::Printed(line)),
        None => Ok(raise(alloc, Trouble::TOO_LARGE)?),
    }
}
