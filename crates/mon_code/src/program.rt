//! A program, with all that is recorded at its locations.

ghost use Rattle.std.specs.Prelude.{◌≡◌, ◌+◌, ◌<◌, ◌≤◌, length, slice_get, IfOk};
ghost use Rattle.std.specs.Option.{option_copied};
ghost use Rattle.std.specs.Str.{chars};
ghost use Rattle.mon_code.specs.Programs as spec;

use crate::own::{own_codes, own_constants, own_texts};
use mon_values::text::Text;
use mon_values::value::Value;
use sqlite_items::Items;
use std::alloc::{AllocError, Global};
use std::marker::Model;

/// Where an exception goes, and how much is left then below it: so many values on the operand stack, and so many
/// exceptions on the handling list.
#[derive(Clone, Copy, Debug, PartialEq, Eq)]
pub struct Handler {
    /// An index of the code.
    pub to: u32,
    pub stack: u32,
    pub handling: u32,
}

/// What a code records of one of its locations. The offset of a location is twice its index in the code.
#[derive(Clone, Copy, Debug, PartialEq, Eq)]
pub struct Location {
    /// The argument of the instruction: a number of a constant, a local, a global, a builtin or an operator, a count, an
    /// index that is jumped to, or 0.
    pub argument: u32,
    /// The line in the file, counted from 1, where the instruction has one.
    pub line: Option<u32>,
    /// Whether a LINE event may occur here.
    pub is_marked: bool,
    /// Whether a thread may be stopped here.
    pub is_safe: bool,
    /// Where an exception of the instruction goes, if the code catches it.
    pub handler: Option<Handler>,
    /// How many values are on the operand stack before the instruction.
    pub stack: u32,
    /// How many exceptions are on the handling list before it.
    pub handling: u32,
}

/// A function's code.
#[derive(Debug, Drop)]
pub struct Code {
    /// How many of the locals are parameters; they come first.
    pub parameters: u16,
    /// The names of the locals.
    pub locals: Items<Text>,
    /// The names that the code looks for in the module.
    pub globals: Items<Text>,
    /// The constants that the code loads.
    pub constants: Items<Value>,
    /// The number of its first location in the program.
    pub first: u32,
    pub locations: Items<Location>,
}

/// A name of the module that stands for a constant.
#[derive(Debug, Drop)]
pub struct ModuleConstant {
    pub name: Text,
    pub value: Value,
}

/// A program whose codes were checked. The base opcodes of its locations are known to contracts alone: they are handed
/// out where the program is compiled, and nothing that runs reads them here but for their number.
#[derive(Debug, Drop)]
pub struct Program {
    /// The names of the codes, in order.
    pub names: Items<Text>,
    /// The names of the module that stand for constants.
    pub constants: Items<ModuleConstant>,
    /// The codes, whose locations are numbered one code behind the other.
    pub codes: Items<Code>,
    bases: Items<u8>,
}

impl Model for Program {
    ghost use Rattle.mon_code.specs.Programs.{Parts};
    ghost use Rattle.mon_code.specs.Checked.{IsChecked};
    ghost use Rattle.mon_code.specs.declared.program.Code.{Code as CodeOf};
    ghost use Rattle.mon_code.specs.declared.program.ModuleConstant.{ModuleConstant as Named};
    ghost use Rattle.mon_code.specs.contracts.program.Code as code;
    ghost use Rattle.mon_code.specs.contracts.program.ModuleConstant as named;
    ghost use Rattle.std.specs.Prelude.{ℕ, List, refl};
    ghost use Rattle.std.specs.Coded.{code_by, coded×, coded_list, coded_ℕ};

    ghost Value = { Parts };

    ghost coded = { code_by (List (List ℕ) × (List Named × (List CodeOf × List ℕ))) (coded× (coded_list (coded_list coded_ℕ)) (coded× (coded_list named.the_row.coded) (coded× (coded_list code.the_row.coded) (coded_list coded_ℕ)))) (λ p. (p.names, (p.constants, (p.codes, p.bases)))) (λ p. record { names = p.0; constants = p.1.0; codes = p.1.1.0; bases = p.1.1.1 }) (λ _. refl) };

    ghost view = { λ p. record { names = p.names; constants = p.constants; codes = p.codes; bases = p.bases } };

    ghost invariant = { λ p. IsChecked (record { names = p.names; constants = p.constants; codes = p.codes; bases = p.bases }) };
}

impl Program {
    ghost use Rattle.mon_code.specs.Checked.{IsChecked};
    ghost use Rattle.mon_code.specs.declared.program.Code.{Code as CodeOf};

    /// The program of these codes.
    pub fn new(
        names: Items<Text>,
        constants: Items<ModuleConstant>,
        codes: Items<Code>,
        bases: Items<u8>,
    ) -> Program
        requires { IsChecked (record { names = names; constants = constants; codes = codes; bases = bases }) }
        ensures { result ≡ record { names = names; constants = constants; codes = codes; bases = bases } }
    {
        Program {
            names,
            constants,
            codes,
            bases,
        }
    }

    /// The same program, of which nothing is shared, so that another thread may copy its constants at no cost to this one.
    pub fn own(&self, alloc: Global) -> Result<Program, AllocError>
        ensures { IfOk result (λ copy. copy ≡ self.now) }
    {
        Ok(Program {
            names: own_texts(alloc, self.names.as_slice())?,
            constants: own_constants(alloc, self.constants.as_slice())?,
            codes: own_codes(alloc, self.codes.as_slice())?,
            bases: Items::from_slice(alloc, self.bases.as_slice())?,
        })
    }

    /// The number of locations of all codes together.
    pub fn locations(&self) -> u32
        ensures checked { IsChecked self.now }
        ensures count { result ≡ length self.now.bases }
    {
        self.bases.len() as u32
    }

    /// The code of this number.
    pub fn code(&self, number: u16) -> Option<&Code>
        ensures value { option_copied result ≡ slice_get self.now.codes number }
        ensures inside { (c : CodeOf) → slice_get self.now.codes number ≡ Some c → c.first + length c.locations ≤ length self.now.bases }
        ensures small { length self.now.bases ≤ 65536 }
    {
        self.codes.get(number as usize)
    }

    /// The number of the code with this location, and the index of the location in it.
    pub fn place(&self, location: u32) -> (u16, u32)
        requires { location < length self.now.bases }
        ensures { spec.StandsAt self.now location result.0 result.1 }
    {
        let mut left = location;
        for (k, code) in self.codes.as_slice().iter().enumerate() {
            let count = code.locations.len() as u32;
            if left < count {
                return (k as u16, left);
            }
            left -= count;
        }
        unreachable!()
    }

    /// The number of the code that a text names.
    #[tactic(auto, using(crate::proofs::Codes::few_names))]
    pub fn code_called(&self, name: &Text) -> Option<u16>
        ensures checked { IsChecked self.now }
        ensures value { result ≡ spec.code_named self.now name.now }
    {
        for (k, text) in self.names.as_slice().iter().enumerate() {
            if is_same(text, name) {
                return Some(k as u16);
            }
        }
        None
    }

    /// The number of the code whose name has the characters of a string.
    #[tactic(auto, using(crate::proofs::Codes::few_names))]
    pub fn code_named(&self, name: &str) -> Option<u16>
        ensures checked { IsChecked self.now }
        ensures value { result ≡ spec.code_named self.now (chars name.now) }
    {
        for (k, text) in self.names.as_slice().iter().enumerate() {
            if is_spelled(text, name) {
                return Some(k as u16);
            }
        }
        None
    }
}

/// Whether two texts have the same characters.
pub fn is_same(a: &Text, b: &Text) -> bool
    ensures { result ≡ spec.is_text a.now b.now }
{
    a.chars() == b.chars()
}

/// Whether a text has the characters of an ASCII string.
#[tactic(auto, using(crate::proofs::Names::both_end, crate::proofs::Names::one_ends))]
pub fn is_named(text: &Text, name: &str) -> bool
    ensures { result ≡ spec.is_text text.now name.now }
{
    let bytes = name.as_bytes();
    for (i, c) in text.chars().iter().enumerate() {
        match bytes.get(i) {
            None => return false,
            Some(b) => {
                if *c != *b as char {
                    return false;
                }
            }
        }
    }
    text.len() >= bytes.len()
}

// Whether a text has the characters of a string.
#[tactic(auto, using(std::proofs::lemmas::Grind::common_steps, crate::proofs::Names::rest_utf8, crate::proofs::Names::text_next, crate::proofs::Names::text_end))]
fn is_spelled(text: &Text, string: &str) -> bool
    ensures { result ≡ spec.is_text text.now (chars string.now) }
{
    let mut left = text.chars();
    for c in string.chars() {
        let Some((first, others)) = left.split_first() else {
            return false;
        };
        if *first != c {
            return false;
        }
        left = others;
    }
    left.is_empty()
}
