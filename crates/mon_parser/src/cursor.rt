ghost use Rattle.std.specs.Prelude.{◌≡◌, ◌≢◌, [], MatchOption, Some, None, true, false, length};
ghost use Rattle.std.specs.Bool.{OnTrue, OnFalse};
ghost use Rattle.mon_parser.specs.Reader.{next_at, level_op, method_at, method_of, mark_at, starts, starts_kind, text_at, name_at, number_at, suffix_at, is_comma, yield_line};
ghost use Rattle.mon_parser.specs.Statements.{starts_name, starts_constant};
ghost use Rattle.mon_parser.specs.Code.{Gives};
ghost use Rattle.mon_parser.specs.Tokens.{sum_op, term_op, cmp_op, single_of, augmented_op, method_word, first_line};

use crate::levels::{Level, Op, Suffix};
use crate::refusal::Refusal;
use mon_lexer::{Keyword, Kind, Operator, Token};
use mon_trees::Text;
use mon_trees::tree::{BinaryOperator, Comparison, Method, Single};
use sqlite_items::Items;
use std::alloc::Global;
use std::marker::Model;

const METHODS: [Method; 3] = [Method::Send, Method::Throw, Method::Close];

/// The tokens that are left.
#[derive(Drop)]
pub struct Cursor<'a> {
    rest: &'a [Token],
}

impl<'a> Model for Cursor<'a> {
    ghost use Rattle.std.specs.Prelude.{List};
    ghost use Rattle.mon_lexer.specs.declared.token.Token.{Token};

    ghost Value = { List Token };

    ghost view = { λ c. c.rest.now };
}

/// A token that carries nothing.
#[derive(Clone, Copy, Debug, Drop, PartialEq, Eq)]
pub enum Sign {
    OpenRound,
    CloseRound,
    CloseSquare,
    Comma,
    Colon,
    Assign,
    Minus,
    Newline,
    Indent,
    Dedent,
    Not,
    In,
    Is,
    If,
    Else,
    Pass,
    Break,
    Continue,
    Return,
    Raise,
    While,
    For,
    Try,
    Except,
    As,
    Finally,
    Elif,
    Def,
}

fn is_sign(sign: Sign, kind: &Kind) -> bool
    ensures yes { OnTrue result (mark_at sign kind.now ≡ Some tt) }
    ensures no { OnFalse result (mark_at sign kind.now ≡ None) }
{
    match (sign, kind) {
        (Sign::OpenRound, Kind::Operator(Operator::OpenRound)) => true,
        (Sign::CloseRound, Kind::Operator(Operator::CloseRound)) => true,
        (Sign::CloseSquare, Kind::Operator(Operator::CloseSquare)) => true,
        (Sign::Comma, Kind::Operator(Operator::Comma)) => true,
        (Sign::Colon, Kind::Operator(Operator::Colon)) => true,
        (Sign::Assign, Kind::Operator(Operator::Assign)) => true,
        (Sign::Minus, Kind::Operator(Operator::Minus)) => true,
        (Sign::Newline, Kind::Newline) => true,
        (Sign::Indent, Kind::Indent) => true,
        (Sign::Dedent, Kind::Dedent) => true,
        (Sign::Not, Kind::Keyword(Keyword::Not)) => true,
        (Sign::In, Kind::Keyword(Keyword::In)) => true,
        (Sign::Is, Kind::Keyword(Keyword::Is)) => true,
        (Sign::If, Kind::Keyword(Keyword::If)) => true,
        (Sign::Else, Kind::Keyword(Keyword::Else)) => true,
        (Sign::Pass, Kind::Keyword(Keyword::Pass)) => true,
        (Sign::Break, Kind::Keyword(Keyword::Break)) => true,
        (Sign::Continue, Kind::Keyword(Keyword::Continue)) => true,
        (Sign::Return, Kind::Keyword(Keyword::Return)) => true,
        (Sign::Raise, Kind::Keyword(Keyword::Raise)) => true,
        (Sign::While, Kind::Keyword(Keyword::While)) => true,
        (Sign::For, Kind::Keyword(Keyword::For)) => true,
        (Sign::Try, Kind::Keyword(Keyword::Try)) => true,
        (Sign::Except, Kind::Keyword(Keyword::Except)) => true,
        (Sign::As, Kind::Keyword(Keyword::As)) => true,
        (Sign::Finally, Kind::Keyword(Keyword::Finally)) => true,
        (Sign::Elif, Kind::Keyword(Keyword::Elif)) => true,
        (Sign::Def, Kind::Keyword(Keyword::Def)) => true,
        _ => false,
    }
}

fn suffix_at(kind: &Kind) -> Option<Suffix>
    ensures { result ≡ suffix_at kind.now }
{
    match kind {
        Kind::Operator(Operator::OpenRound) => Some(Suffix::Call),
        Kind::Operator(Operator::OpenSquare) => Some(Suffix::Subscript),
        Kind::Operator(Operator::Dot) => Some(Suffix::Ask),
        _ => None,
    }
}

fn augmented_op(kind: &Kind) -> Option<BinaryOperator>
    ensures { result ≡ augmented_op kind.now }
{
    match kind {
        Kind::Operator(Operator::PlusAssign) => Some(BinaryOperator::Add),
        Kind::Operator(Operator::MinusAssign) => Some(BinaryOperator::Subtract),
        Kind::Operator(Operator::StarAssign) => Some(BinaryOperator::Multiply),
        Kind::Operator(Operator::FloorDivideAssign) => Some(BinaryOperator::FloorDivide),
        Kind::Operator(Operator::PercentAssign) => Some(BinaryOperator::Remainder),
        _ => None,
    }
}

fn number_at(kind: &Kind) -> Option<i64>
    ensures { result ≡ number_at kind.now }
{
    match kind {
        Kind::Number(value) => { if *value < 0 { None } else { Some(*value) } }
        _ => None,
    }
}

fn level_op(level: Level, kind: &Kind) -> Option<Op>
    ensures { result ≡ level_op level kind.now }
{
    match level {
        Level::Or => match kind {
            Kind::Keyword(Keyword::Or) => Some(Op::Or),
            _ => None,
        },
        Level::And => match kind {
            Kind::Keyword(Keyword::And) => Some(Op::And),
            _ => None,
        },
        Level::Sum => match sum_op(kind) {
            None => None,
            Some(op) => Some(Op::Binary(op)),
        },
        Level::Term => match term_op(kind) {
            None => None,
            Some(op) => Some(Op::Binary(op)),
        },
    }
}

fn method_at(kind: &Kind) -> Option<Method>
    ensures { result ≡ method_at kind.now }
{
    match kind {
        Kind::Name(name) => method_of(name.as_slice()),
        _ => None,
    }
}

#[tactic(auto, unfolding(crate::specs::Reader::method_of))]
fn method_of(name: &[char]) -> Option<Method>
    ensures { result ≡ method_of name.now }
{
    METHODS.iter().copied().find(|m| letters(*m) == name)
}

fn letters(method: Method) -> &'static [char]
    ensures { result.now ≡ method_word method }
{
    match method {
        Method::Send => &['s', 'e', 'n', 'd'],
        Method::Throw => &['t', 'h', 'r', 'o', 'w'],
        Method::Close => &['c', 'l', 'o', 's', 'e'],
    }
}

fn starts_kind(kind: &Kind) -> bool
    ensures { result ≡ starts_kind kind.now }
{
    match kind {
        Kind::Name(_) => true,
        Kind::Number(_) => true,
        Kind::Text(_) => true,
        Kind::Operator(Operator::OpenRound) => true,
        Kind::Operator(Operator::Minus) => true,
        Kind::Keyword(Keyword::Not) => true,
        Kind::Keyword(Keyword::None) => true,
        Kind::Keyword(Keyword::True) => true,
        Kind::Keyword(Keyword::False) => true,
        _ => false,
    }
}

fn sum_op(kind: &Kind) -> Option<BinaryOperator>
    ensures { result ≡ sum_op kind.now }
{
    match kind {
        Kind::Operator(Operator::Plus) => Some(BinaryOperator::Add),
        Kind::Operator(Operator::Minus) => Some(BinaryOperator::Subtract),
        _ => None,
    }
}

fn term_op(kind: &Kind) -> Option<BinaryOperator>
    ensures { result ≡ term_op kind.now }
{
    match kind {
        Kind::Operator(Operator::Star) => Some(BinaryOperator::Multiply),
        Kind::Operator(Operator::FloorDivide) => Some(BinaryOperator::FloorDivide),
        Kind::Operator(Operator::Percent) => Some(BinaryOperator::Remainder),
        _ => None,
    }
}

fn cmp_op(kind: &Kind) -> Option<Comparison>
    ensures { result ≡ cmp_op kind.now }
{
    match kind {
        Kind::Operator(Operator::Equal) => Some(Comparison::Equal),
        Kind::Operator(Operator::NotEqual) => Some(Comparison::NotEqual),
        Kind::Operator(Operator::Less) => Some(Comparison::Less),
        Kind::Operator(Operator::LessEqual) => Some(Comparison::LessEqual),
        Kind::Operator(Operator::Greater) => Some(Comparison::Greater),
        Kind::Operator(Operator::GreaterEqual) => Some(Comparison::GreaterEqual),
        Kind::Keyword(Keyword::In) => Some(Comparison::In),
        _ => None,
    }
}

fn single_of(kind: &Kind) -> Option<Single>
    ensures { result ≡ single_of kind.now }
{
    match kind {
        Kind::Keyword(Keyword::None) => Some(Single::None),
        Kind::Keyword(Keyword::True) => Some(Single::True),
        Kind::Keyword(Keyword::False) => Some(Single::False),
        _ => None,
    }
}

#[tactic(auto, unfolding(crate::specs::Reader::next_at, crate::specs::Reader::pick, crate::specs::Reader::starts, crate::specs::Reader::is_comma, crate::specs::Reader::yield_line, crate::specs::Statements::starts_name, crate::specs::Statements::starts_constant))]
impl<'a> Cursor<'a> {
    pub fn new(tokens: &'a [Token]) -> Cursor<'a>
        ensures { result ≡ tokens.entry.now }
    {
        Cursor { rest: tokens }
    }

    /// A second cursor at the same place.
    pub fn copy(&self) -> Cursor<'a>
        ensures { result ≡ self.now }
    {
        Cursor { rest: self.rest }
    }

    pub fn len(&self) -> usize
        ensures { result ≡ length self.now }
    {
        self.rest.len()
    }

    pub fn is_empty(&self) -> bool
        ensures yes { OnTrue result (self.now ≡ []) }
        ensures no { OnFalse result (self.now ≢ []) }
    {
        match self.rest {
            [] => true,
            _ => false,
        }
    }

    /// The line of the next token, or 0 at the end.
    pub fn line(&self) -> u32
        ensures { result ≡ first_line self.now }
    {
        match self.rest {
            [] => 0,
            [t, ..] => t.line,
        }
    }

    /// Takes this token, if it comes next.
    pub fn take(&mut self, sign: Sign) -> bool
        ensures taken { OnTrue result (next_at (mark_at sign) self.old ≡ Some (tt, self.new)) }
        ensures other { OnFalse result ((next_at (mark_at sign) self.old ≡ None) × (self.new ≡ self.old)) }
    {
        match self.rest {
            [] => false,
            [t, rest @ ..] => {
                if is_sign(sign, &t.kind) {
                    self.rest = rest;
                    true
                } else {
                    false
                }
            }
        }
    }

    /// Takes this token, which has to come next.
    pub fn expect(&mut self, sign: Sign) -> Result<(), Refusal>
        ensures { Gives (next_at (mark_at sign) self.old) result self.new }
    {
        if self.take(sign) {
            Ok(())
        } else {
            Err(Refusal::Syntax)
        }
    }

    /// Whether a comma comes next.
    pub fn is_comma(&self) -> bool
        ensures { result ≡ is_comma self.now }
    {
        match self.rest {
            [] => false,
            [t, ..] => match &t.kind {
                Kind::Operator(Operator::Comma) => true,
                _ => false,
            },
        }
    }

    /// Whether an expression can begin here.
    pub fn starts(&self) -> bool
        ensures { result ≡ starts self.now }
    {
        match self.rest {
            [] => false,
            [t, ..] => starts_kind(&t.kind),
        }
    }

    /// Whether a name comes next.
    pub fn starts_name(&self) -> bool
        ensures { result ≡ starts_name self.now }
    {
        match self.rest {
            [] => false,
            [t, ..] => match &t.kind {
                Kind::Name(_) => true,
                _ => false,
            },
        }
    }

    /// Whether a constant can begin here.
    pub fn starts_constant(&self) -> bool
        ensures { result ≡ starts_constant self.now }
    {
        match self.rest {
            [] => false,
            [t, ..] => match &t.kind {
                Kind::Operator(Operator::Minus) => true,
                Kind::Operator(Operator::OpenRound) => true,
                Kind::Number(_) => true,
                Kind::Text(_) => true,
                Kind::Keyword(Keyword::None) => true,
                Kind::Keyword(Keyword::True) => true,
                Kind::Keyword(Keyword::False) => true,
                _ => false,
            },
        }
    }

    pub fn take_op(&mut self, level: Level) -> Option<Op>
        ensures { MatchOption result ((next_at (level_op level) self.old ≡ None) × (self.new ≡ self.old)) (λ op. next_at (level_op level) self.old ≡ Some (op, self.new)) }
    {
        match self.rest {
            [] => None,
            [t, rest @ ..] => match level_op(level, &t.kind) {
                None => None,
                Some(op) => {
                    self.rest = rest;
                    Some(op)
                }
            },
        }
    }

    /// Takes `yield`, and gives its line.
    pub fn take_yield(&mut self) -> Option<u32>
        ensures { MatchOption result ((yield_line self.old ≡ None) × (self.new ≡ self.old)) (λ line. yield_line self.old ≡ Some (line, self.new)) }
    {
        match self.rest {
            [] => None,
            [t, rest @ ..] => match &t.kind {
                Kind::Keyword(Keyword::Yield) => {
                    self.rest = rest;
                    Some(t.line)
                }
                _ => None,
            },
        }
    }

    /// Takes what may stand behind an atom.
    pub fn take_suffix(&mut self) -> Option<Suffix>
        ensures { MatchOption result ((next_at suffix_at self.old ≡ None) × (self.new ≡ self.old)) (λ found. next_at suffix_at self.old ≡ Some (found, self.new)) }
    {
        match self.rest {
            [] => None,
            [t, rest @ ..] => match suffix_at(&t.kind) {
                None => None,
                Some(found) => {
                    self.rest = rest;
                    Some(found)
                }
            },
        }
    }

    /// Takes an operator of comparison of one token.
    pub fn take_comparison(&mut self) -> Option<Comparison>
        ensures { MatchOption result ((next_at cmp_op self.old ≡ None) × (self.new ≡ self.old)) (λ found. next_at cmp_op self.old ≡ Some (found, self.new)) }
    {
        match self.rest {
            [] => None,
            [t, rest @ ..] => match cmp_op(&t.kind) {
                None => None,
                Some(found) => {
                    self.rest = rest;
                    Some(found)
                }
            },
        }
    }

    /// Takes the sign of an augmented assignment.
    pub fn take_augmented(&mut self) -> Option<BinaryOperator>
        ensures { MatchOption result ((next_at augmented_op self.old ≡ None) × (self.new ≡ self.old)) (λ found. next_at augmented_op self.old ≡ Some (found, self.new)) }
    {
        match self.rest {
            [] => None,
            [t, rest @ ..] => match augmented_op(&t.kind) {
                None => None,
                Some(found) => {
                    self.rest = rest;
                    Some(found)
                }
            },
        }
    }

    /// Takes `None`, `True` or `False`.
    pub fn take_single(&mut self) -> Option<Single>
        ensures { MatchOption result ((next_at single_of self.old ≡ None) × (self.new ≡ self.old)) (λ found. next_at single_of self.old ≡ Some (found, self.new)) }
    {
        match self.rest {
            [] => None,
            [t, rest @ ..] => match single_of(&t.kind) {
                None => None,
                Some(found) => {
                    self.rest = rest;
                    Some(found)
                }
            },
        }
    }

    /// Takes the name of a method.
    pub fn take_method(&mut self) -> Option<Method>
        ensures { MatchOption result ((next_at method_at self.old ≡ None) × (self.new ≡ self.old)) (λ found. next_at method_at self.old ≡ Some (found, self.new)) }
    {
        match self.rest {
            [] => None,
            [t, rest @ ..] => match method_at(&t.kind) {
                None => None,
                Some(found) => {
                    self.rest = rest;
                    Some(found)
                }
            },
        }
    }

    /// Takes a number without a sign.
    pub fn take_number(&mut self) -> Option<i64>
        ensures { MatchOption result ((next_at number_at self.old ≡ None) × (self.new ≡ self.old)) (λ found. next_at number_at self.old ≡ Some (found, self.new)) }
    {
        match self.rest {
            [] => None,
            [t, rest @ ..] => match number_at(&t.kind) {
                None => None,
                Some(found) => {
                    self.rest = rest;
                    Some(found)
                }
            },
        }
    }

    /// Takes a name.
    pub fn take_name(&mut self) -> Option<&'a Text>
        ensures { MatchOption result ((next_at name_at self.old ≡ None) × (self.new ≡ self.old)) (λ text. next_at name_at self.old ≡ Some (text.now, self.new)) }
    {
        match self.rest {
            [] => None,
            [t, rest @ ..] => match &t.kind {
                Kind::Name(text) => {
                    self.rest = rest;
                    Some(text)
                }
                _ => None,
            },
        }
    }

    /// Takes a text.
    pub fn take_text(&mut self) -> Option<&'a Text>
        ensures { MatchOption result ((next_at text_at self.old ≡ None) × (self.new ≡ self.old)) (λ text. next_at text_at self.old ≡ Some (text.now, self.new)) }
    {
        match self.rest {
            [] => None,
            [t, rest @ ..] => match &t.kind {
                Kind::Text(text) => {
                    self.rest = rest;
                    Some(text)
                }
                _ => None,
            },
        }
    }

    pub fn expect_single(&mut self) -> Result<Single, Refusal>
        ensures { Gives (next_at single_of self.old) result self.new }
    {
        match self.take_single() {
            None => Err(Refusal::Syntax),
            Some(single) => Ok(single),
        }
    }

    pub fn expect_number(&mut self) -> Result<i64, Refusal>
        ensures { Gives (next_at number_at self.old) result self.new }
    {
        match self.take_number() {
            None => Err(Refusal::Syntax),
            Some(value) => Ok(value),
        }
    }

    pub fn expect_method(&mut self) -> Result<Method, Refusal>
        ensures { Gives (next_at method_at self.old) result self.new }
    {
        match self.take_method() {
            None => Err(Refusal::Syntax),
            Some(method) => Ok(method),
        }
    }

    pub fn expect_augmented(&mut self) -> Result<BinaryOperator, Refusal>
        ensures { Gives (next_at augmented_op self.old) result self.new }
    {
        match self.take_augmented() {
            None => Err(Refusal::Syntax),
            Some(op) => Ok(op),
        }
    }

    /// Takes a name, which has to come next, and copies it.
    pub fn expect_name(&mut self, alloc: Global) -> Result<Text, Refusal>
        ensures { Gives (next_at name_at self.old) result self.new }
    {
        match self.take_name() {
            None => Err(Refusal::Syntax),
            Some(name) => Ok(Items::from_slice(alloc, name.as_slice())?),
        }
    }
}
