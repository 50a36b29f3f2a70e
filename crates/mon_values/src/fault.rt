ghost use Rattle.mon_values.specs.declared.fault.ArithFault.TheVariants as arith_fault;
ghost use Rattle.mon_values.specs.declared.fault.IndexFault.TheVariants as index_fault;
ghost use Rattle.mon_values.specs.declared.fault.ExcFault.TheVariants as exc_fault;
ghost use Rattle.std.specs.Prelude.{◌≡◌};

use std::alloc::AllocError;
use thiserror::Error;

/// An exception that the machine raises, by its row in the table of `specs/Troubles.antt`.
#[derive(Clone, Copy, Debug, PartialEq, Eq)]
pub struct Trouble(pub u8);

impl Trouble {
    /// An operator was given values that it does not take.
    pub const UNSUPPORTED_OPERAND: Trouble = Trouble(1);

    /// An order was asked of values that have none.
    pub const NOT_COMPARABLE: Trouble = Trouble(2);

    /// A value without items was asked for them.
    pub const NOT_ITERABLE: Trouble = Trouble(3);

    /// A value that is no function, builtin or class was called.
    pub const NOT_CALLABLE: Trouble = Trouble(4);

    /// A call had too many or too few arguments.
    pub const WRONG_COUNT: Trouble = Trouble(5);

    /// An argument or an index was of a wrong kind.
    pub const WRONG_ARGUMENT: Trouble = Trouble(6);

    /// What was raised or caught is no exception and no class of them.
    pub const NOT_AN_EXCEPTION: Trouble = Trouble(7);

    /// A generator that has not begun was sent another value than None.
    pub const FIRST_SENT_VALUE: Trouble = Trouble(8);

    /// A generator was resumed while it runs.
    pub const ALREADY_EXECUTING: Trouble = Trouble(9);

    /// A text spells no integer.
    pub const INVALID_LITERAL: Trouble = Trouble(10);

    /// As many values as targets were wanted, and there were more or fewer.
    pub const WRONG_NUMBER_OF_VALUES: Trouble = Trouble(11);

    /// A range was asked for with a step of 0.
    pub const STEP_IS_ZERO: Trouble = Trouble(12);

    /// The least or the greatest of no items was asked for.
    pub const EMPTY_ARGUMENT: Trouble = Trouble(13);

    /// A divisor was 0.
    pub const DIVISION_BY_ZERO: Trouble = Trouble(14);

    /// An integer left 64 bits.
    pub const OUT_OF_RANGE: Trouble = Trouble(15);

    /// A value would weigh too much.
    pub const TOO_LARGE: Trouble = Trouble(16);

    /// A value would be nested too deeply.
    pub const NESTED_TOO_DEEPLY: Trouble = Trouble(17);

    /// Too many calls are open.
    pub const TOO_MANY_FRAMES: Trouble = Trouble(18);

    /// An index names no item.
    pub const INDEX_OUT_OF_RANGE: Trouble = Trouble(19);

    /// A value has no method of this name.
    pub const NO_SUCH_METHOD: Trouble = Trouble(20);

    /// A bare `raise` stands where no exception is handled.
    pub const NOTHING_TO_RERAISE: Trouble = Trouble(21);

    /// A generator raised StopIteration.
    pub const RAISED_STOP_ITERATION: Trouble = Trouble(22);

    /// A generator that was closed went on.
    pub const IGNORED_GENERATOR_EXIT: Trouble = Trouble(23);

    /// A global name is not defined.
    pub const NAME_NOT_DEFINED: Trouble = Trouble(24);

    /// A local name has no value yet.
    pub const NAME_NOT_BOUND: Trouble = Trouble(25);
}

/// Why an operator gave no value.
#[derive(Clone, Copy, Debug, PartialEq, Eq, Error)]
pub enum ArithFault {
    #[error("the operator raises exception {0:?}")]
    Trouble(Trouble),
    #[error("out of memory")]
    Memory,
}

impl From<AllocError> for ArithFault {
    ghost from_gives = { λ _ e. e ≡ arith_fault.Memory };

    fn from(_: AllocError) -> ArithFault {
        ArithFault::Memory
    }
}

/// Why a subscript gave no value.
#[derive(Clone, Copy, Debug, PartialEq, Eq, Error)]
pub enum IndexFault {
    #[error("the subscript raises exception {0:?}")]
    Trouble(Trouble),
    #[error("out of memory")]
    Memory,
}

impl From<AllocError> for IndexFault {
    ghost from_gives = { λ _ e. e ≡ index_fault.Memory };

    fn from(_: AllocError) -> IndexFault {
        IndexFault::Memory
    }
}

/// Why no exception was made.
#[derive(Clone, Copy, Debug, PartialEq, Eq, Error)]
pub enum ExcFault {
    #[error("the exception raises exception {0:?}")]
    Trouble(Trouble),
    #[error("out of memory")]
    Memory,
}

impl From<AllocError> for ExcFault {
    ghost from_gives = { λ _ e. e ≡ exc_fault.Memory };

    fn from(_: AllocError) -> ExcFault {
        ExcFault::Memory
    }
}
