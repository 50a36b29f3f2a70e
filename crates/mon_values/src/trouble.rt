ghost use Rattle.std.specs.Prelude.{◌≡◌, take, IfOk};
ghost use Rattle.mon_values.specs.Troubles as spec;

use crate::fault::Trouble;
use crate::text::{Text, TextBuffer};
use crate::value::{Exc, Value};
use mon_shared::SharedBox;
use std::alloc::{AllocError, Global};

/// The greatest number of characters of a name in the text of an exception.
const MAX_NAME: usize = 40;

/// The class of an exception that the machine raises, and its text, in which a name stands between two parts.
#[derive(Clone, Copy, Debug, PartialEq, Eq)]
pub enum Row {
    Fixed(u8, &'static str),
    Named(u8, &'static str),
}

/// The row of the table of exceptions.
#[tactic(auto, using(crate::proofs::Tables::no_row))]
fn row_of(trouble: Trouble) -> Row
    ensures { spec.row_read result ≡ spec.row_of trouble }
{
    match trouble.0 {
        0 => Row::Fixed(0, ""),
        1 => Row::Fixed(13, "unsupported operand"),
        2 => Row::Fixed(13, "not comparable"),
        3 => Row::Fixed(13, "not iterable"),
        4 => Row::Fixed(13, "not callable"),
        5 => Row::Fixed(13, "wrong number of arguments"),
        6 => Row::Fixed(13, "wrong argument"),
        7 => Row::Fixed(13, "not an exception"),
        8 => Row::Fixed(13, "first sent value must be None"),
        9 => Row::Fixed(14, "generator already executing"),
        10 => Row::Fixed(14, "invalid literal"),
        11 => Row::Fixed(14, "wrong number of values"),
        12 => Row::Fixed(14, "step is zero"),
        13 => Row::Fixed(14, "empty argument"),
        14 => Row::Fixed(5, "division by zero"),
        15 => Row::Fixed(6, "integer out of range"),
        16 => Row::Fixed(6, "value too large"),
        17 => Row::Fixed(12, "value nested too deeply"),
        18 => Row::Fixed(12, "too many frames"),
        19 => Row::Fixed(8, "index out of range"),
        20 => Row::Fixed(15, "no such method"),
        21 => Row::Fixed(11, "no exception to re-raise"),
        22 => Row::Fixed(11, "generator raised StopIteration"),
        23 => Row::Fixed(11, "generator ignored GeneratorExit"),
        24 => Row::Named(9, "' is not defined"),
        25 => Row::Named(10, "' is not bound"),
        26..=u8::MAX => Row::Fixed(0, ""),
    }
}

/// A name, cut at 40 characters.
fn cut_name(name: &[char]) -> &[char]
    ensures { result.now ≡ take 40 name.now }
{
    &name[..name.len().min(MAX_NAME)]
}

/// The exception that the machine raises: of its row's class, with its row's text, in which `name` stands where the row asks for one.
pub fn trouble_exc(alloc: Global, trouble: Trouble, name: &[char]) -> Result<Exc, AllocError>
    ensures { IfOk result (λ e. e ≡ spec.trouble_exc trouble name.now) }
{
    match row_of(trouble) {
        Row::Fixed(class, text) => exc_with_text(alloc, class, Text::from_ascii(alloc, text)?),
        Row::Named(class, after) => {
            let mut text = TextBuffer::new(alloc);
            text.append_ascii("name '")?;
            text.append(cut_name(name))?;
            text.append_ascii(after)?;
            exc_with_text(alloc, class, text.into_text()?)
        }
    }
}

/// An exception with a text as its argument.
fn exc_with_text(alloc: Global, class: u8, text: Text) -> Result<Exc, AllocError>
    ensures { IfOk result (λ e. e ≡ spec.exc_with_text class text) }
{
    Ok(Exc {
        class,
        arg: Some(SharedBox::new(alloc, Value::Text(text))?),
    })
}
