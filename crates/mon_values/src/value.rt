use crate::text::Text;
use mon_shared::{SharedBox, SharedItems};
use std::alloc::{AllocError, Global};

/// A tuple, which contracts see as the list of its values.
pub type Tuple = SharedItems<Value>;

/// A value of the machine.
#[cycle(value)]
#[derive(Debug, Drop)]
pub enum Value {
    /// The value `None`.
    None,
    /// `True` or `False`.
    Bool(bool),
    /// An integer of 64 bits.
    Int(i64),
    /// A text, as its characters.
    Text(Text),
    /// A tuple of values.
    Tuple(Tuple),
    /// A function, by the number of its code.
    Function(u16),
    /// A builtin, by its number.
    Builtin(u8),
    /// An exception class, by its number.
    ExcClass(u8),
    /// An exception.
    Exc(Exc),
    /// A generator, by its number in its thread.
    Gen(u32),
    /// An iterator, by its number in its thread.
    Iter(u32),
    /// A range, by its start, its end and its step.
    Range(i64, i64, i64),
    /// The end of a `for` loop, with the StopIteration of a generator that returned.
    Done(Option<SharedBox<Exc>>),
}

/// An exception, by the number of its class and its argument.
#[cycle(value)]
#[derive(Debug, Drop)]
pub struct Exc {
    /// The number of its class.
    pub class: u8,
    /// Its argument, if it has one.
    pub arg: Option<SharedBox<Value>>,
}

impl Value {
    ghost use Rattle.std.specs.Prelude.{◌≡◌, IfOk};

    /// The same value, with one more owner of what it shares.
    pub fn copy(&self) -> Result<Value, AllocError>
        ensures { IfOk result (λ v. v ≡ self.now) }
    {
        match self {
            Value::None => Ok(Value::None),
            Value::Bool(b) => Ok(Value::Bool(*b)),
            Value::Int(n) => Ok(Value::Int(*n)),
            Value::Text(text) => Ok(Value::Text(text.copy()?)),
            Value::Tuple(items) => Ok(Value::Tuple(items.share()?)),
            Value::Function(k) => Ok(Value::Function(*k)),
            Value::Builtin(k) => Ok(Value::Builtin(*k)),
            Value::ExcClass(k) => Ok(Value::ExcClass(*k)),
            Value::Exc(exc) => Ok(Value::Exc(exc.copy()?)),
            Value::Gen(k) => Ok(Value::Gen(*k)),
            Value::Iter(k) => Ok(Value::Iter(*k)),
            Value::Range(start, end, step) => Ok(Value::Range(*start, *end, *step)),
            Value::Done(None) => Ok(Value::Done(None)),
            Value::Done(Some(exc)) => Ok(Value::Done(Some(exc.share()?))),
        }
    }
}

impl Exc {
    ghost use Rattle.std.specs.Prelude.{◌≡◌, IfOk};

    /// The same exception, with one more owner of its argument.
    pub fn copy(&self) -> Result<Exc, AllocError>
        ensures { IfOk result (λ e. e ≡ self.now) }
    {
        let arg = match &self.arg {
            None => None,
            Some(value) => Some(value.share()?),
        };
        Ok(Exc {
            class: self.class,
            arg,
        })
    }
}

ghost use Rattle.std.specs.Prelude.{◌≡◌, ◌++◌, IfOk, OnOk, OnErr};

/// Adds copies of these values at the end.
pub(crate) fn append_copies(to: &mut Vec<Value>, items: &[Value]) -> Result<(), AllocError>
    ensures { OnOk result (to.new.items ≡ to.old.items ++ items.now) }
{
    for item in items {
        to.push(item.copy()?)?;
    }
    Ok(())
}

/// Copies of these values.
pub fn copies_of(alloc: Global, items: &[Value]) -> Result<Vec<Value>, AllocError>
    ensures { IfOk result (λ copies. copies.items ≡ items.now) }
{
    let mut copies = Vec::with_capacity(alloc, items.len())?;
    append_copies(&mut copies, items)?;
    Ok(copies)
}

impl Value {
    ghost use Rattle.std.specs.Prelude.{◌≡◌, IfOk};

    /// The same value, of which nothing is shared.
    #[cycle(own)]
    pub fn own(&self, alloc: Global) -> Result<Value, AllocError>
        ensures { IfOk result (λ v. v ≡ self.now) }
    {
        match self {
            Value::Text(text) => Ok(Value::Text(text.own(alloc)?)),
            Value::Tuple(items) => Ok(Value::Tuple(own_items(alloc, items.as_slice())?)),
            Value::Exc(exc) => Ok(Value::Exc(exc.own(alloc)?)),
            Value::Done(Some(exc)) => {
                let exc = exc.get().own(alloc)?;
                Ok(Value::Done(Some(SharedBox::new(alloc, exc)?)))
            }
            plain => plain.copy(),
        }
    }
}

impl Exc {
    ghost use Rattle.std.specs.Prelude.{◌≡◌, IfOk};

    /// The same exception, of which nothing is shared.
    #[cycle(own)]
    pub fn own(&self, alloc: Global) -> Result<Exc, AllocError>
        ensures { IfOk result (λ e. e ≡ self.now) }
    {
        match &self.arg {
            None => Ok(Exc {
                class: self.class,
                arg: None,
            }),
            Some(value) => {
                let value = value.get().own(alloc)?;
                Ok(Exc {
                    class: self.class,
                    arg: Some(SharedBox::new(alloc, value)?),
                })
            }
        }
    }
}

/// The same values as a tuple, of which nothing is shared.
#[cycle(own)]
fn own_items(alloc: Global, items: &[Value]) -> Result<Tuple, AllocError>
    ensures { IfOk result (λ copies. copies ≡ items.now) }
{
    let mut copies = Vec::with_capacity(alloc, items.len())?;
    for item in items {
        copies.push(item.own(alloc)?)?;
    }
    SharedItems::from_vec(copies)
}
