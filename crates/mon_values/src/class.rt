ghost use Rattle.std.specs.Prelude.{◌≡◌};
ghost use Rattle.mon_values.specs.Classes as spec;

/// The name of an exception class; empty for a number without a class.
#[tactic(auto, using(crate::proofs::Tables::no_class_name))]
pub fn class_name(class: u8) -> &'static str
    ensures { result.now ≡ spec.class_name class }
{
    match class {
        0 => "BaseException",
        1 => "Exception",
        2 => "GeneratorExit",
        3 => "StopIteration",
        4 => "ArithmeticError",
        5 => "ZeroDivisionError",
        6 => "OverflowError",
        7 => "LookupError",
        8 => "IndexError",
        9 => "NameError",
        10 => "UnboundLocalError",
        11 => "RuntimeError",
        12 => "RecursionError",
        13 => "TypeError",
        14 => "ValueError",
        15 => "AttributeError",
        _ => "",
    }
}

/// The parent of an exception class; none for the topmost and for a number without a class.
#[tactic(auto, using(crate::proofs::Tables::no_parent))]
fn parent_of(class: u8) -> Option<u8>
    ensures { result ≡ spec.parent_of class }
{
    match class {
        1 | 2 => Some(0),
        3 | 4 | 7 | 9 | 11 | 13 | 14 | 15 => Some(1),
        5 | 6 => Some(4),
        8 => Some(7),
        10 => Some(9),
        12 => Some(11),
        _ => None,
    }
}

/// Whether a class is another or below it.
pub fn is_subclass(class: u8, of: u8) -> bool
    ensures { result ≡ spec.is_subclass class of }
{
    is_of_within(4, class, of)
}

fn is_of_within(steps: u8, class: u8, of: u8) -> bool
    ensures { result ≡ spec.is_of_within steps class of }
{
    if class == of {
        return true;
    }
    match parent_of(class) {
        Some(up) if steps > 0 => is_of_within(steps - 1, up, of),
        _ => false,
    }
}

/// The name of a builtin; empty for a number without a builtin.
#[tactic(auto, using(crate::proofs::Tables::no_builtin_name))]
pub fn builtin_name(builtin: u8) -> &'static str
    ensures { result.now ≡ spec.builtin_name builtin }
{
    match builtin {
        0 => "print",
        1 => "len",
        2 => "range",
        3 => "str",
        4 => "int",
        5 => "abs",
        6 => "min",
        7 => "max",
        8 => "tuple",
        9 => "next",
        10 => "iter",
        11 => "send",
        12 => "throw",
        13 => "close",
        _ => "",
    }
}
