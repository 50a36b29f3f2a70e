ghost use Rattle.std.specs.Prelude.{◌≡◌, ◌<◌, ◌^◌, true, length, option_map, IfOk, IfSome};
ghost use Rattle.std.specs.List.{list_all};
ghost use Rattle.mon_forms.specs.Lines.{is_plain_line, words_of};
ghost use Rattle.mon_forms.specs.Operands as spec;

use crate::limits::MAX_TEXT;
use crate::lines::next_word;
use crate::plan::{REPORT_KINDS, ReportKind};
use mon_events::{EventSet, set_of_names};
use mon_history::Policy;
use mon_values::text::{Text, TextBuffer};
use std::alloc::{AllocError, Global};

/// The value of 1 to 18 decimal digits; None for other words.
pub fn digits_value(word: &[u8]) -> Option<u64>
    ensures value { result ≡ spec.digits_value word.now }
    ensures bound { IfSome result (λ n. n < 10 ^ 18) }
{
    if word.is_empty() || word.len() > 18 {
        return None;
    }
    let mut value = 0;
    for c in word {
        if !c.is_ascii_digit() {
            return None;
        }
        value = 10 * value + u64::from(*c - b'0');
    }
    Some(value)
}

/// An integer of 1 to 18 digits, behind a `-` or none.
pub fn integer_of(word: &[u8]) -> Option<i64>
    ensures { result ≡ spec.integer_of word.now }
{
    match word {
        [] => None,
        [b'-', digits @ ..] => Some(-(digits_value(digits)? as i64)),
        digits => Some(digits_value(digits)? as i64),
    }
}

/// An integer from 0 on, below a limit.
pub fn number_below(limit: u64, word: &[u8]) -> Option<u64>
    ensures value { result ≡ spec.number_below limit word.now }
    ensures bound { IfSome result (λ n. n < limit) }
{
    let number = u64::try_from(integer_of(word)?).ok()?;
    if number < limit { Some(number) } else { None }
}

fn is_inner(c: u8) -> bool
    ensures { result ≡ spec.is_inner c }
{
    c != b'\'' && c != b'\\'
}

fn has_inner_characters(word: &[u8]) -> bool
    ensures { result ≡ list_all spec.is_inner word.now }
{
    word.iter().all(|&c| is_inner(c))
}

/// What stands between the quotes of a text argument.
pub fn quoted(word: &[u8]) -> Option<&[u8]>
    ensures { option_map (λ text. text.now) result ≡ spec.quoted word.now }
{
    match word {
        [b'\'', inner @ .., b'\''] => {
            if has_inner_characters(inner) {
                Some(inner)
            } else {
                None
            }
        }
        _ => None,
    }
}

/// Whether a word is a text argument of too many characters.
fn is_long_text(word: &[u8]) -> bool
    ensures { result ≡ spec.is_long (spec.quoted word.now) }
{
    match quoted(word) {
        None => false,
        Some(text) => text.len() > MAX_TEXT,
    }
}

/// Whether one of a line's words is a text argument of too many characters.
pub fn has_long_text(line: &[u8]) -> bool
    ensures { result ≡ spec.has_long_text (words_of line.now) }
{
    let mut rest = line;
    while let Some((word, more)) = next_word(rest) {
        if is_long_text(word) {
            return true;
        }
        rest = more;
    }
    false
}

/// The text of ASCII bytes; of others, one character for each.
pub fn text_of(alloc: Global, bytes: &[u8]) -> Result<Text, AllocError>
    ensures { IfOk result (λ text. text ≡ bytes.now) }
{
    let mut text = TextBuffer::new(alloc);
    for byte in bytes {
        text.push(*byte as char)?;
    }
    text.into_text()
}

fn is_name_character(c: u8) -> bool
    ensures { result ≡ spec.is_name_char c }
{
    c.is_ascii_alphanumeric() || c == b'_' || c == b'-' || c == b'.'
}

fn has_name_characters(word: &[u8]) -> bool
    ensures { result ≡ list_all spec.is_name_char word.now }
{
    word.iter().all(|&c| is_name_character(c))
}

/// Whether a word is 1 to 32 letters, digits, `_`, `-` and `.`.
pub fn is_tool_name(word: &[u8]) -> bool
    ensures { result ≡ spec.is_tool_name word.now }
{
    !word.is_empty() && word.len() <= 32 && has_name_characters(word)
}

/// The set of events that a word of printable ASCII names.
pub fn set_of(word: &[u8]) -> Option<EventSet>
    requires { is_plain_line word.now ≡ true }
    ensures { result ≡ spec.set_of word.now }
{
    match str::from_utf8(word) {
        Ok(names) => set_of_names(names).ok(),
        Err(_) => unreachable!(),
    }
}

const POLICIES: [Policy; 3] = [Policy::Keep, Policy::Once, Policy::Nothing];

/// The word for a policy in a plan and in a report.
pub fn policy_word(policy: Policy) -> &'static str
    ensures { result.now ≡ spec.policy_word policy }
{
    match policy {
        Policy::Keep => "keep",
        Policy::Once => "once",
        Policy::Nothing => "None",
    }
}

/// The policy that a word is.
pub fn policy_of(word: &[u8]) -> Option<Policy>
    ensures { result ≡ spec.policy_of word.now }
{
    POLICIES
        .iter()
        .copied()
        .find(|policy| policy_word(*policy).as_bytes() == word)
}

/// The kind of report that a word is.
pub fn report_of(word: &[u8]) -> Option<ReportKind>
    ensures { result ≡ spec.report_of word.now }
{
    REPORT_KINDS
        .iter()
        .copied()
        .find(|kind| kind.word().as_bytes() == word)
}
