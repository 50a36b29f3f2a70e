ghost use Rattle.std.specs.Prelude.{◌≡◌};
ghost use Rattle.mon_parser.specs.declared.parser.SyntaxFault.TheVariants.{Memory};
ghost use Rattle.mon_parser.specs.Derives.{ParsedAs, TreeOf};

use crate::cursor::Cursor;
use crate::item::{item, most_open};
use crate::refusal::Refusal;
use mon_lexer::{Item, Token};
use mon_trees::tree::{Module, ModuleItem};
use sqlite_items::Items;
use std::alloc::{AllocError, Global};
use thiserror::Error;

/// Why a text's items have no trees.
#[derive(Clone, Copy, Debug, Drop, PartialEq, Eq, Error)]
pub enum SyntaxFault {
    /// An item derives no tree. The line is that of the first token of the first such item, counted
    /// from 1, or 0 if it has no token.
    #[error("Syntax {0}")]
    Syntax(u32),
    /// Memory ran out.
    #[error("Memory")]
    Memory,
}

impl From<AllocError> for SyntaxFault {
    ghost from_gives = { λ _ e. e ≡ Memory };

    fn from(_: AllocError) -> SyntaxFault {
        SyntaxFault::Memory
    }
}

/// The brackets that may be open at once.
const BRACKETS: usize = 100;

/// The tree of each item, by the grammar of the language.
///
/// An item derives no tree, too, if more than 100 brackets are open at once or its tree is more than
/// 256 nodes deep.
pub fn parse(alloc: Global, items: &[Item]) -> Result<Module, SyntaxFault>
    ensures { ParsedAs items.now result }
{
    let mut trees = Items::new(alloc);
    for item in items {
        let tokens = item.tokens.as_slice();
        match tree_of(alloc, tokens) {
            Ok(tree) => trees.push(tree)?,
            Err(Refusal::Memory) => return Err(SyntaxFault::Memory),
            Err(Refusal::Syntax) => return Err(SyntaxFault::Syntax(Cursor::new(tokens).line())),
        }
    }
    Ok(Module { items: trees })
}

/// The tree of an item.
fn tree_of(alloc: Global, tokens: &[Token]) -> Result<ModuleItem, Refusal>
    ensures { TreeOf tokens.now result }
{
    if most_open(tokens) > BRACKETS {
        return Err(Refusal::Syntax);
    }
    let mut cursor = Cursor::new(tokens);
    let tree = item(alloc, tokens.len(), &mut cursor)?;
    if cursor.is_empty() {
        Ok(tree)
    } else {
        Err(Refusal::Syntax)
    }
}
