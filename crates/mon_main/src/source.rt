ghost use Rattle.std.specs.Prelude.{◌≡◌, IfOk, Some, string_bytes};
ghost use Rattle.mon_main.specs.Sources.{fault_line, of_lexer, of_parser, ModuleOf};
ghost use Rattle.mon_main.specs.Sources as spec;

use mon_compile::CompileFault;
use mon_forms::PlanKind;
use mon_lexer::{LexFault, items};
use mon_parser::{SyntaxFault, parse};
use mon_trees::tree::Module;
use std::alloc::{AllocError, Global};
use thiserror::Error;

/// Why a file has no module.
#[derive(Clone, Copy, Debug, PartialEq, Eq, Error)]
pub enum SourceFault {
    /// Its text spells no items.
    #[error("{0}")]
    Misspelled(LexFault),
    /// The first item that has no tree begins on this line.
    #[error("Syntax {0}")]
    Underived(u32),
    #[error("out of memory")]
    Memory,
}

impl From<LexFault> for SourceFault {
    ghost from_gives = { λ fault e. e ≡ of_lexer fault };

    fn from(fault: LexFault) -> SourceFault {
        match fault {
            LexFault::Memory => SourceFault::Memory,
            fault => SourceFault::Misspelled(fault),
        }
    }
}

impl From<SyntaxFault> for SourceFault {
    ghost from_gives = { λ fault e. e ≡ of_parser fault };

    fn from(fault: SyntaxFault) -> SourceFault {
        match fault {
            SyntaxFault::Syntax(line) => SourceFault::Underived(line),
            SyntaxFault::Memory => SourceFault::Memory,
        }
    }
}

/// The module that a text is read as.
pub fn module(alloc: Global, text: &[u8]) -> Result<Module, SourceFault>
    ensures { ModuleOf result text.now }
{
    let items = items(alloc, text)?;
    Ok(parse(alloc, items.as_slice())?)
}

/// The line that says why a file has no module.
pub fn source_line(alloc: Global, fault: SourceFault) -> Result<String, AllocError>
    ensures { IfOk result (λ line. fault_line fault ≡ Some (string_bytes line)) }
{
    match fault {
        SourceFault::Misspelled(fault) => misspelled_line(alloc, fault),
        SourceFault::Underived(line) => format!(in alloc; "source Syntax {line}\n"),
        SourceFault::Memory => Err(AllocError),
    }
}

/// The line that says why a module has no program. `Memory` has none.
pub fn uncompiled_line(alloc: Global, fault: CompileFault) -> Result<String, AllocError>
    ensures { IfOk result (λ line. string_bytes line ≡ spec.uncompiled_line fault) }
{
    match fault {
        CompileFault::DuplicateName(line) => format!(in alloc; "source DuplicateName {line}\n"),
        CompileFault::Misplaced(line) => format!(in alloc; "source Misplaced {line}\n"),
        CompileFault::TooLarge(line) => format!(in alloc; "source TooLarge {line}\n"),
        CompileFault::TooManyLocations => String::from_str(alloc, "source TooManyLocations\n"),
        CompileFault::Memory => Err(AllocError),
    }
}

fn misspelled_line(alloc: Global, fault: LexFault) -> Result<String, AllocError>
    ensures { IfOk result (λ line. string_bytes line ≡ spec.misspelled_line fault) }
{
    match fault {
        LexFault::NotUtf8(offset) => format!(in alloc; "source NotUtf8 {offset}\n"),
        LexFault::BadChar(line) => format!(in alloc; "source BadChar {line}\n"),
        LexFault::BadIndent(line) => format!(in alloc; "source BadIndent {line}\n"),
        LexFault::BadNumber(line) => format!(in alloc; "source BadNumber {line}\n"),
        LexFault::BadText(line) => format!(in alloc; "source BadText {line}\n"),
        LexFault::TooLong => String::from_str(alloc, "source TooLong\n"),
        LexFault::Memory => Err(AllocError),
    }
}

/// The line that names a plan's first faulty line.
pub fn plan_line(alloc: Global, line: u32, kind: PlanKind) -> Result<String, AllocError>
    ensures { IfOk result (λ text. string_bytes text ≡ spec.plan_line line kind) }
{
    let mut text = format!(in alloc; "plan {line} ")?;
    text.push_str(kind_word(kind))?;
    text.push_str("\n")?;
    Ok(text)
}

/// What a report of faults calls this kind.
fn kind_word(kind: PlanKind) -> &'static str
    ensures { result.now ≡ spec.kind_word kind }
{
    match kind {
        PlanKind::Word => "Word",
        PlanKind::Order => "Order",
        PlanKind::TooMany => "TooMany",
        PlanKind::Number => "Number",
        PlanKind::Name => "Name",
    }
}
