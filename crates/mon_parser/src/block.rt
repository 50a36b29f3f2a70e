//! Statements and constants, with the number of nodes of their depth.

ghost use Rattle.std.specs.Prelude.{◌≡◌, ◌+◌};
ghost use Rattle.mon_parser.specs.Depth.{simple_depth, stmt_depth, const_depth, targets_depth};
ghost use Rattle.mon_parser.specs.Code.{Made};
ghost use Rattle.mon_trees.specs.declared.tree.Statement as stmt;
ghost use Rattle.mon_trees.specs.declared.tree.Statement.TheViews as compound;
ghost use Rattle.mon_trees.specs.declared.tree.Constant.TheViews as consts;

use crate::grown::{Grown, MOST_NODES, deeper};
use crate::refusal::Refusal;
use mon_trees::Text;
use mon_trees::tree::{Constant, Handler, Simple, Statement, Targets};
use sqlite_items::Items;
use std::alloc::{AllocError, Global};
use std::marker::Model;

/// A simple statement, with the depth below its node.
#[derive(Drop)]
pub struct GrownSimple {
    tree: Simple,
    below: u32,
}

impl Model for GrownSimple {
    ghost use Rattle.std.specs.Prelude.{◌≡◌, ◌+◌};
    ghost use Rattle.mon_trees.specs.declared.tree.Simple.{Simple as Tree};
    ghost use Rattle.mon_trees.specs.contracts.tree.Simple as the_tree;
    ghost use Rattle.mon_parser.specs.Depth.{simple_depth};

    ghost Value = { Tree };

    ghost coded = { the_tree.the_row.coded };

    ghost view = { λ g. g.tree };

    ghost invariant = { λ g. simple_depth g.tree ≡ 1 + g.below };
}

impl GrownSimple {
    pub fn new(tree: Simple, below: u32) -> GrownSimple
        requires { simple_depth tree ≡ 1 + below }
        ensures { result ≡ tree }
    {
        GrownSimple { tree, below }
    }

    /// The statement, on a line, unless it is too deep.
    #[tactic(auto, using(std::proofs::lemmas::Grind::common_steps, crate::proofs::StatementDepths::depth_line))]
    pub fn on_line(self, line: u32) -> Result<GrownStatement, Refusal>
        ensures { Made stmt_depth (stmt.Simple line self) result }
    {
        let GrownSimple { tree, below } = self;
        let depth = above(below)?;
        Ok(GrownStatement {
            tree: Statement::Simple(line, tree),
            depth,
        })
    }
}

/// A statement, with its depth.
#[derive(Drop)]
pub struct GrownStatement {
    tree: Statement,
    depth: u32,
}

impl Model for GrownStatement {
    ghost use Rattle.std.specs.Prelude.{◌≡◌};
    ghost use Rattle.mon_trees.specs.declared.tree.Statement.{Statement as Tree};
    ghost use Rattle.mon_trees.specs.contracts.tree.Statement as the_tree;
    ghost use Rattle.mon_parser.specs.Depth.{stmt_depth};

    ghost Value = { Tree };

    ghost coded = { the_tree.the_row.coded };

    ghost view = { λ g. g.tree };

    ghost invariant = { λ g. g.depth ≡ stmt_depth g.tree };
}

/// The depth of a node over parts of this depth, unless it is too deep.
fn above(below: u32) -> Result<u32, Refusal>
    ensures { Made (λ n. n) (1 + below) result }
{
    if below < MOST_NODES {
        Ok(below + 1)
    } else {
        Err(Refusal::Syntax)
    }
}

/// Statements in a row, with the greatest of their depths.
#[derive(Drop)]
pub struct Block {
    items: Items<Statement>,
    depth: u32,
}

impl Model for Block {
    ghost use Rattle.std.specs.Prelude.{◌≡◌, List, map};
    ghost use Rattle.std.specs.Coded.{coded_list};
    ghost use Rattle.mon_trees.specs.declared.tree.Statement.{Statement as Tree};
    ghost use Rattle.mon_trees.specs.contracts.tree.Statement as the_tree;
    ghost use Rattle.mon_parser.specs.Depth.{stmt_depth, most};

    ghost Value = { List Tree };

    ghost coded = { coded_list the_tree.the_row.coded };

    ghost view = { λ b. b.items };

    ghost invariant = { λ b. b.depth ≡ most (map stmt_depth b.items) };
}

impl Block {
    ghost use Rattle.std.specs.Prelude.{[], ◌∷◌, ◌++◌, map, OnOk, IfOk};
    ghost use Rattle.mon_parser.specs.Depth.{most};

    pub fn new(alloc: Global) -> Block
        ensures { result ≡ [] }
    {
        Block {
            items: Items::new(alloc),
            depth: 0,
        }
    }

    /// A block of one statement.
    pub fn of_one(alloc: Global, statement: GrownStatement) -> Result<Block, AllocError>
        ensures { IfOk result (λ block. block ≡ statement ∷ []) }
    {
        let mut block = Block::new(alloc);
        block.push(statement)?;
        Ok(block)
    }

    #[tactic(auto, using(std::proofs::lemmas::Grind::common_steps, crate::proofs::StatementDepths::most_statements))]
    pub fn push(&mut self, statement: GrownStatement) -> Result<(), AllocError>
        ensures { OnOk result (self.new ≡ self.old ++ statement ∷ []) }
    {
        let GrownStatement { tree, depth } = statement;
        let below = deeper(self.depth, depth);
        self.items.push(tree)?;
        self.depth = below;
        Ok(())
    }

    pub fn into_items(self) -> Items<Statement>
        ensures { result ≡ self }
    {
        let Block { items, depth: _ } = self;
        items
    }

    pub fn depth(&self) -> u32
        ensures { result ≡ most (map stmt_depth self.now) }
    {
        self.depth
    }
}

/// Handlers in a row, with the greatest depth of their parts.
#[derive(Drop)]
pub struct Handlers {
    items: Items<Handler>,
    depth: u32,
}

impl Model for Handlers {
    ghost use Rattle.std.specs.Prelude.{◌≡◌, List, map};
    ghost use Rattle.std.specs.Coded.{coded_list};
    ghost use Rattle.mon_trees.specs.declared.tree.Handler.{Handler as Clause};
    ghost use Rattle.mon_trees.specs.contracts.tree.Handler as the_clause;
    ghost use Rattle.mon_parser.specs.Depth.{handler_depth, most};

    ghost Value = { List Clause };

    ghost coded = { coded_list the_clause.the_row.coded };

    ghost view = { λ h. h.items };

    ghost invariant = { λ h. h.depth ≡ most (map handler_depth h.items) };
}

impl Handlers {
    ghost use Rattle.std.specs.Prelude.{[], ◌∷◌, ◌++◌, Some, None, OnOk};
    ghost use Rattle.mon_parser.specs.Grammar.{handler};
    ghost use Rattle.mon_parser.specs.Statements.{is_none};

    pub fn new(alloc: Global) -> Handlers
        ensures { result ≡ [] }
    {
        Handlers {
            items: Items::new(alloc),
            depth: 0,
        }
    }

    pub fn is_empty(&self) -> bool
        ensures { result ≡ is_none self.now }
    {
        match self.items.as_slice() {
            [] => true,
            _ => false,
        }
    }

    #[tactic(auto, using(std::proofs::lemmas::Grind::common_steps, crate::proofs::StatementDepths::most_handlers, crate::proofs::StatementDepths::depth_handler))]
    /// Adds a handler of a class.
    pub fn push(
        &mut self,
        line: u32,
        class: Grown,
        name: Option<Text>,
        body: Block,
    ) -> Result<(), AllocError>
        ensures { OnOk result (self.new ≡ self.old ++ handler line (Some class) name body ∷ []) }
    {
        let below = deeper(self.depth, deeper(class.depth(), body.depth()));
        self.items.push(Handler {
            line,
            class: Some(class.into_tree()),
            name,
            body: body.into_items(),
        })?;
        self.depth = below;
        Ok(())
    }

    #[tactic(auto, using(std::proofs::lemmas::Grind::common_steps, crate::proofs::StatementDepths::most_handlers, crate::proofs::StatementDepths::depth_bare))]
    /// Adds a bare handler.
    pub fn push_bare(&mut self, line: u32, body: Block) -> Result<(), AllocError>
        ensures { OnOk result (self.new ≡ self.old ++ handler line None None body ∷ []) }
    {
        let below = deeper(self.depth, body.depth());
        self.items.push(Handler {
            line,
            class: None,
            name: None,
            body: body.into_items(),
        })?;
        self.depth = below;
        Ok(())
    }
}

pub fn depth_of_targets(targets: &Targets) -> u32
    ensures { result ≡ targets_depth targets.now }
{
    match targets {
        Targets::Name(_) => 1,
        Targets::Tuple(_) => 2,
    }
}

#[tactic(auto, using(std::proofs::lemmas::Grind::common_steps, crate::proofs::StatementDepths::depth_branch))]
pub fn branch(line: u32, test: Grown, body: Block, other: Block) -> Result<GrownStatement, Refusal>
    ensures { Made stmt_depth (compound.If line test body other) result }
{
    let below = deeper(test.depth(), deeper(body.depth(), other.depth()));
    let depth = above(below)?;
    Ok(GrownStatement {
        tree: Statement::If(
            line,
            test.into_tree(),
            body.into_items(),
            other.into_items(),
        ),
        depth,
    })
}

#[tactic(auto, using(std::proofs::lemmas::Grind::common_steps, crate::proofs::StatementDepths::depth_while))]
pub fn while_loop(line: u32, test: Grown, body: Block) -> Result<GrownStatement, Refusal>
    ensures { Made stmt_depth (compound.While line test body) result }
{
    let below = deeper(test.depth(), body.depth());
    let depth = above(below)?;
    Ok(GrownStatement {
        tree: Statement::While(line, test.into_tree(), body.into_items()),
        depth,
    })
}

#[tactic(auto, using(std::proofs::lemmas::Grind::common_steps, crate::proofs::StatementDepths::depth_for))]
pub fn for_loop(
    line: u32,
    targets: Targets,
    over: Grown,
    body: Block,
) -> Result<GrownStatement, Refusal>
    ensures { Made stmt_depth (compound.For line targets over body) result }
{
    let below = deeper(
        depth_of_targets(&targets),
        deeper(over.depth(), body.depth()),
    );
    let depth = above(below)?;
    Ok(GrownStatement {
        tree: Statement::For(line, targets, over.into_tree(), body.into_items()),
        depth,
    })
}

#[tactic(auto, using(std::proofs::lemmas::Grind::common_steps, crate::proofs::StatementDepths::depth_try))]
pub fn try_block(
    line: u32,
    body: Block,
    handlers: Handlers,
    last: Block,
) -> Result<GrownStatement, Refusal>
    ensures { Made stmt_depth (compound.Try line body handlers last) result }
{
    let below = deeper(body.depth(), deeper(handlers.depth, last.depth()));
    let Handlers { items, depth: _ } = handlers;
    let depth = above(below)?;
    Ok(GrownStatement {
        tree: Statement::Try(line, body.into_items(), items, last.into_items()),
        depth,
    })
}

/// A constant, with its depth.
#[derive(Drop)]
pub struct GrownConstant {
    tree: Constant,
    depth: u32,
}

impl Model for GrownConstant {
    ghost use Rattle.std.specs.Prelude.{◌≡◌};
    ghost use Rattle.mon_trees.specs.declared.tree.Constant.{Constant as Tree};
    ghost use Rattle.mon_trees.specs.contracts.tree.Constant as the_tree;
    ghost use Rattle.mon_parser.specs.Depth.{const_depth};

    ghost Value = { Tree };

    ghost coded = { the_tree.the_row.coded };

    ghost view = { λ g. g.tree };

    ghost invariant = { λ g. g.depth ≡ const_depth g.tree };
}

impl GrownConstant {
    pub fn leaf(tree: Constant) -> GrownConstant
        requires { const_depth tree ≡ 1 }
        ensures { result ≡ tree }
    {
        GrownConstant { tree, depth: 1 }
    }

    pub fn into_tree(self) -> Constant
        ensures { result ≡ self }
    {
        let GrownConstant { tree, depth: _ } = self;
        tree
    }

    pub fn depth(&self) -> u32
        ensures { result ≡ const_depth self.now }
    {
        self.depth
    }
}

/// Constants in a row, with the greatest of their depths.
#[derive(Drop)]
pub struct ConstantParts {
    items: Items<Constant>,
    depth: u32,
}

impl Model for ConstantParts {
    ghost use Rattle.std.specs.Prelude.{◌≡◌, List, map};
    ghost use Rattle.std.specs.Coded.{coded_list};
    ghost use Rattle.mon_trees.specs.declared.tree.Constant.{Constant as Tree};
    ghost use Rattle.mon_trees.specs.contracts.tree.Constant as the_tree;
    ghost use Rattle.mon_parser.specs.Depth.{const_depth, most};

    ghost Value = { List Tree };

    ghost coded = { coded_list the_tree.the_row.coded };

    ghost view = { λ p. p.items };

    ghost invariant = { λ p. p.depth ≡ most (map const_depth p.items) };
}

impl ConstantParts {
    ghost use Rattle.std.specs.Prelude.{[], ◌∷◌, ◌++◌, OnOk};

    pub fn new(alloc: Global) -> ConstantParts
        ensures { result ≡ [] }
    {
        ConstantParts {
            items: Items::new(alloc),
            depth: 0,
        }
    }

    #[tactic(auto, using(std::proofs::lemmas::Grind::common_steps, crate::proofs::StatementDepths::most_constants))]
    pub fn push(&mut self, part: GrownConstant) -> Result<(), AllocError>
        ensures { OnOk result (self.new ≡ self.old ++ part ∷ []) }
    {
        let GrownConstant { tree, depth } = part;
        let below = deeper(self.depth, depth);
        self.items.push(tree)?;
        self.depth = below;
        Ok(())
    }

    /// A tuple of these, unless it is too deep.
    #[tactic(auto, using(std::proofs::lemmas::Grind::common_steps, crate::proofs::StatementDepths::depth_constants))]
    pub fn tuple(self) -> Result<GrownConstant, Refusal>
        ensures { Made const_depth (consts.Tuple self) result }
    {
        let ConstantParts {
            items,
            depth: below,
        } = self;
        let depth = above(below)?;
        Ok(GrownConstant {
            tree: Constant::Tuple(items),
            depth,
        })
    }
}
