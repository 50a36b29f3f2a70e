ghost use Rattle.std.specs.Prelude.{◌≡◌, map};
ghost use Rattle.mon_values.specs.Comparing as spec;
ghost use Rattle.std.specs.Ordering.{int_eq};

use crate::fault::Trouble;
use crate::operator::CmpOp;
use crate::range::range_len;
use crate::value::{Exc, Value};
use mon_shared::SharedBox;
use std::cmp::Ordering;

/// How a value stands to another.
#[derive(Clone, Copy, Debug, PartialEq, Eq)]
pub enum Verdict {
    Equal,
    Less,
    Greater,
    /// Neither equal nor in an order.
    Unequal,
}

impl Verdict {
    ghost use Rattle.std.specs.Prelude.{◌≡◌};
    ghost use Rattle.mon_values.specs.Comparing as spec;

    fn of(order: Ordering) -> Verdict
        ensures { result ≡ spec.by_order order }
    {
        match order {
            Ordering::Less => Verdict::Less,
            Ordering::Equal => Verdict::Equal,
            Ordering::Greater => Verdict::Greater,
        }
    }

    fn same(is_same: bool) -> Verdict
        ensures { result ≡ spec.same is_same }
    {
        if is_same {
            Verdict::Equal
        } else {
            Verdict::Unequal
        }
    }

    /// Whether the two are equal.
    pub fn is_equal(self) -> bool
        ensures { result ≡ spec.is_equal self }
    {
        matches!(self, Verdict::Equal)
    }
}

impl Value {
    ghost use Rattle.std.specs.Prelude.{◌≡◌};
    ghost use Rattle.mon_values.specs.Comparing as spec;

    /// How this value stands to another: numbers, texts and tuples are in an order, all others equal or not.
    #[cycle(verdict)]
    pub fn verdict(&self, other: &Value) -> Verdict
        ensures { result ≡ spec.verdict self.now other.now }
    {
        match (self, other) {
            (Value::None, Value::None) => Verdict::Equal,
            (Value::Bool(a), Value::Bool(b)) => Verdict::of((*a as i64).cmp(&(*b as i64))),
            (Value::Bool(a), Value::Int(b)) => Verdict::of((*a as i64).cmp(b)),
            (Value::Int(a), Value::Bool(b)) => Verdict::of(a.cmp(&(*b as i64))),
            (Value::Int(a), Value::Int(b)) => Verdict::of(a.cmp(b)),
            (Value::Text(a), Value::Text(b)) => text_verdict(a.chars(), b.chars()),
            (Value::Tuple(a), Value::Tuple(b)) => tuple_verdict(a.as_slice(), b.as_slice()),
            (Value::Function(a), Value::Function(b)) => Verdict::same(a == b),
            (Value::Builtin(a), Value::Builtin(b)) => Verdict::same(a == b),
            (Value::ExcClass(a), Value::ExcClass(b)) => Verdict::same(a == b),
            (Value::Gen(a), Value::Gen(b)) => Verdict::same(a == b),
            (Value::Iter(a), Value::Iter(b)) => Verdict::same(a == b),
            (Value::Exc(a), Value::Exc(b)) => a.verdict(b),
            (Value::Range(a, b, c), Value::Range(d, e, f)) => Verdict::same(same_ranges(
                *a, *b, *c, *d, *e, *f,
            )),
            (Value::Done(a), Value::Done(b)) => done_verdict(a, b),
            _ => Verdict::Unequal,
        }
    }

    /// Whether this value is equal to another.
    pub fn equals(&self, other: &Value) -> bool
        ensures { result ≡ spec.equals self.now other.now }
    {
        self.verdict(other).is_equal()
    }

    /// Whether values of this kind are in an order: integers, texts and tuples.
    pub fn has_order(&self) -> bool
        ensures { result ≡ spec.has_order self.now }
    {
        matches!(
            self,
            Value::Bool(_) | Value::Int(_) | Value::Text(_) | Value::Tuple(_)
        )
    }
}

impl Exc {
    ghost use Rattle.std.specs.Prelude.{◌≡◌};
    ghost use Rattle.mon_values.specs.Comparing as spec;

    /// How this exception compares with another: equal in class and argument, or unequal.
    #[cycle(verdict)]
    pub fn verdict(&self, other: &Exc) -> Verdict
        ensures { result ≡ spec.exc_verdict self.now other.now }
    {
        if self.class != other.class {
            return Verdict::Unequal;
        }
        match (&self.arg, &other.arg) {
            (None, None) => Verdict::Equal,
            (Some(a), Some(b)) => Verdict::same(a.get().verdict(b.get()).is_equal()),
            _ => Verdict::Unequal,
        }
    }
}

#[cycle(verdict)]
fn done_verdict(a: &Option<SharedBox<Exc>>, b: &Option<SharedBox<Exc>>) -> Verdict
    ensures { result ≡ spec.option_verdict spec.exc_verdict a.now b.now }
{
    match (a, b) {
        (None, None) => Verdict::Equal,
        (Some(a), Some(b)) => Verdict::same(a.get().verdict(b.get()).is_equal()),
        _ => Verdict::Unequal,
    }
}

#[cycle(verdict)]
#[tactic(auto, using(crate::proofs::Verdicts::tuple_ends, crate::proofs::Verdicts::tuple_past))]
fn tuple_verdict(a: &[Value], b: &[Value]) -> Verdict
    ensures { result ≡ spec.tuple_verdict (map spec.verdict a.now) b.now }
{
    for (i, x) in a.iter().enumerate() {
        match b.get(i) {
            None => return Verdict::Greater,
            Some(y) => match x.verdict(y) {
                Verdict::Equal => {}
                other => return other,
            },
        }
    }
    if a.len() < b.len() {
        Verdict::Less
    } else {
        Verdict::Equal
    }
}

#[tactic(auto, using(crate::proofs::Verdicts::text_ends))]
fn text_verdict(a: &[char], b: &[char]) -> Verdict
    ensures { result ≡ spec.text_verdict a.now b.now }
{
    for (i, x) in a.iter().enumerate() {
        match b.get(i) {
            None => return Verdict::Greater,
            Some(y) => {
                if x != y {
                    return Verdict::of(x.cmp(y));
                }
            }
        }
    }
    if a.len() < b.len() {
        Verdict::Less
    } else {
        Verdict::Equal
    }
}

fn same_integer(a: i64, b: i64) -> bool
    ensures { result ≡ int_eq a b }
{
    a == b
}

/// Whether two ranges have the same integers in the same order.
fn same_ranges(
    start: i64,
    stop: i64,
    step: i64,
    other_start: i64,
    other_stop: i64,
    other_step: i64,
) -> bool
    ensures { result ≡ spec.same_ranges start stop step other_start other_stop other_step }
{
    let count = range_len(start, stop, step);
    let other_count = range_len(other_start, other_stop, other_step);
    same_items(
        count,
        other_count,
        same_integer(start, other_start),
        same_integer(step, other_step),
    )
}

/// Whether two ranges of so many integers are the same, where it is known whether their starts and steps are.
fn same_items(count: u64, other_count: u64, same_start: bool, same_step: bool) -> bool
    ensures { result ≡ spec.same_items count other_count same_start same_step }
{
    if count != other_count {
        return false;
    }
    match count {
        0 => true,
        1 => same_start,
        _ => same_start && same_step,
    }
}

/// What an order of two values answers, where less, equal and greater are answered so.
fn ordered(a: &Value, b: &Value, less: bool, equal: bool, greater: bool) -> Result<bool, Trouble>
    ensures { result ≡ spec.ordered a.now b.now (spec.by_verdict less equal greater (spec.verdict a.now b.now)) }
{
    if !(a.has_order() && b.has_order()) {
        return Err(Trouble::NOT_COMPARABLE);
    }
    match a.verdict(b) {
        Verdict::Less => Ok(less),
        Verdict::Equal => Ok(equal),
        Verdict::Greater => Ok(greater),
        Verdict::Unequal => Err(Trouble::NOT_COMPARABLE),
    }
}

/// What a comparison answers. An order of values that have none is `Trouble::NOT_COMPARABLE`; `==` and `!=` always answer.
pub fn compare(op: CmpOp, a: &Value, b: &Value) -> Result<bool, Trouble>
    ensures { result ≡ spec.compare_of op a.now b.now }
{
    match op {
        CmpOp::Eq => Ok(a.equals(b)),
        CmpOp::Ne => Ok(!a.equals(b)),
        CmpOp::Lt => ordered(a, b, true, false, false),
        CmpOp::Le => ordered(a, b, true, true, false),
        CmpOp::Gt => ordered(a, b, false, false, true),
        CmpOp::Ge => ordered(a, b, false, true, true),
    }
}
