ghost use Rattle.std.specs.Prelude.{◌≡◌, ◌-◌, reverse};
ghost use Rattle.mon_builtins.specs.Builtins.{spelled as due};
ghost use Rattle.mon_builtins.specs.Literals as spec;

use mon_values::fault::Trouble;
use mon_values::value::Value;

/// White space at the ends of a text.
fn is_blank(c: char) -> bool
    ensures { result ≡ spec.is_blank c }
{
    c == ' ' || ('\t' <= c && c <= '\r')
}

fn is_digit(c: char) -> bool
    ensures { result ≡ spec.is_digit c }
{
    c.is_ascii_digit()
}

/// The characters from the first that is no blank on.
fn after_blanks(chars: &[char]) -> &[char]
    ensures { result.now ≡ spec.after_blanks chars.now }
{
    for (i, c) in chars.iter().enumerate() {
        if !is_blank(*c) {
            return &chars[i..];
        }
    }
    &[]
}

/// The characters up to the last that is no blank.
fn before_blanks(chars: &[char]) -> &[char]
    ensures { result.now ≡ reverse (spec.after_blanks (reverse chars.now)) }
{
    let mut end = chars.len();
    while end > 0 {
        if !is_blank(chars[end - 1]) {
            return &chars[..end];
        }
        end -= 1;
    }
    &[]
}

/// The number that digits spell, where a `_` stands between two digits alone; the greatest of its type stands for itself and for all above.
fn number(chars: &[char]) -> Option<u64>
    ensures { spec.Reads result (spec.number_from 0 chars.now) }
{
    let mut sum: u64 = 0;
    let mut after_digit = false;
    for c in chars {
        if is_digit(*c) {
            sum = sum.saturating_mul(10).saturating_add((*c as u64) - 48);
            after_digit = true;
        } else if *c == '_' && after_digit {
            after_digit = false;
        } else {
            return None;
        }
    }
    if after_digit { Some(sum) } else { None }
}

/// The integer of digits, as a value.
fn positive(digits: &[char]) -> Result<Value, Trouble>
    ensures { result ≡ due (spec.positive (spec.number_from 0 digits.now)) }
{
    match number(digits) {
        None => Err(Trouble::INVALID_LITERAL),
        Some(n) => match i64::try_from(n) {
            Ok(n) => Ok(Value::Int(n)),
            Err(_) => Err(Trouble::OUT_OF_RANGE),
        },
    }
}

/// The integer of digits behind a minus, as a value.
fn negative(digits: &[char]) -> Result<Value, Trouble>
    ensures { result ≡ due (spec.negative (spec.number_from 0 digits.now)) }
{
    match number(digits) {
        None => Err(Trouble::INVALID_LITERAL),
        Some(n) => match i64::try_from(n) {
            Ok(n) => Ok(Value::Int(-n)),
            Err(_) if n == 1 << 63 => Ok(Value::Int(i64::MIN)),
            Err(_) => Err(Trouble::OUT_OF_RANGE),
        },
    }
}

/// The integer of a sign, if there is one, and digits, as a value.
fn signed(chars: &[char]) -> Result<Value, Trouble>
    ensures { result ≡ due (spec.signed chars.now) }
{
    match chars.get(0) {
        None => Err(Trouble::INVALID_LITERAL),
        Some('-') => negative(&chars[1..]),
        Some('+') => positive(&chars[1..]),
        Some(_) => positive(chars),
    }
}

/// The integer that a text spells, as a value.
pub fn spelled(chars: &[char]) -> Result<Value, Trouble>
    ensures { result ≡ due (spec.literal chars.now) }
{
    signed(before_blanks(after_blanks(chars)))
}
