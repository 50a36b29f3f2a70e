ghost use Rattle.std.specs.Prelude.{◌≡◌, ◌+◌, max, Some};
ghost use Rattle.mon_parser.specs.Depth.{expr_depth};
ghost use Rattle.mon_parser.specs.Code.{Made};
ghost use Rattle.mon_parser.specs.Reader.{op_node};
ghost use Rattle.mon_trees.specs.declared.tree.Expression.TheViews as node;

use crate::levels::Op;
use crate::refusal::Refusal;
use mon_trees::tree::{Comparison, Expression, Method, Single};
use sqlite_items::{Boxed, Items};
use std::alloc::{AllocError, Global};
use std::marker::Model;

/// How many nodes deep a tree may be.
pub const MOST_NODES: u32 = 256;

/// An expression, with the number of nodes of its depth.
#[derive(Drop)]
pub struct Grown {
    tree: Expression,
    depth: u32,
}

impl Model for Grown {
    ghost use Rattle.std.specs.Prelude.{◌≡◌};
    ghost use Rattle.mon_trees.specs.declared.tree.Expression.{Expression as Tree};
    ghost use Rattle.mon_trees.specs.contracts.tree.Expression as the_tree;
    ghost use Rattle.mon_parser.specs.Depth.{expr_depth};

    ghost Value = { Tree };

    ghost coded = { the_tree.the_row.coded };

    ghost view = { λ g. g.tree };

    ghost invariant = { λ g. g.depth ≡ expr_depth g.tree };
}

impl Grown {
    pub fn leaf(tree: Expression) -> Grown
        requires { expr_depth tree ≡ 1 }
        ensures { result ≡ tree }
    {
        Grown { tree, depth: 1 }
    }

    pub fn into_tree(self) -> Expression
        ensures { result ≡ self }
    {
        let Grown { tree, depth: _ } = self;
        tree
    }

    pub fn depth(&self) -> u32
        ensures { result ≡ expr_depth self.now }
    {
        self.depth
    }
}

/// A node over parts of this depth, unless it is too deep.
fn made(tree: Expression, below: u32) -> Result<Grown, Refusal>
    requires { expr_depth tree ≡ 1 + below }
    ensures { Made expr_depth tree result }
{
    if below < MOST_NODES {
        Ok(Grown {
            tree,
            depth: below + 1,
        })
    } else {
        Err(Refusal::Syntax)
    }
}

pub fn deeper(a: u32, b: u32) -> u32
    ensures { result ≡ max a b }
{
    if a < b { b } else { a }
}

/// Expressions in a row, with the greatest of their depths.
#[derive(Drop)]
pub struct Parts {
    items: Items<Expression>,
    depth: u32,
}

impl Model for Parts {
    ghost use Rattle.std.specs.Prelude.{◌≡◌, List, map};
    ghost use Rattle.std.specs.Coded.{coded_list};
    ghost use Rattle.mon_trees.specs.declared.tree.Expression.{Expression as Tree};
    ghost use Rattle.mon_trees.specs.contracts.tree.Expression as the_tree;
    ghost use Rattle.mon_parser.specs.Depth.{expr_depth, most};

    ghost Value = { List Tree };

    ghost coded = { coded_list the_tree.the_row.coded };

    ghost view = { λ p. p.items };

    ghost invariant = { λ p. p.depth ≡ most (map expr_depth p.items) };
}

impl Parts {
    ghost use Rattle.std.specs.Prelude.{[], ◌∷◌, ◌++◌, map, OnOk};
    ghost use Rattle.mon_parser.specs.Depth.{most};

    pub fn new(alloc: Global) -> Parts
        ensures { result ≡ [] }
    {
        Parts {
            items: Items::new(alloc),
            depth: 0,
        }
    }

    #[tactic(auto, using(std::proofs::lemmas::Grind::common_steps, crate::proofs::Depths::most_more))]
    pub fn push(&mut self, part: Grown) -> Result<(), AllocError>
        ensures { OnOk result (self.new ≡ self.old ++ part ∷ []) }
    {
        let below = deeper(self.depth, part.depth());
        self.items.push(part.into_tree())?;
        self.depth = below;
        Ok(())
    }

    pub fn into_items(self) -> Items<Expression>
        ensures { result ≡ self }
    {
        let Parts { items, depth: _ } = self;
        items
    }

    pub fn depth(&self) -> u32
        ensures { result ≡ most (map expr_depth self.now) }
    {
        self.depth
    }
}

#[tactic(auto, using(std::proofs::lemmas::Grind::common_steps, crate::proofs::Depths::depth_binary, crate::proofs::Depths::depth_or, crate::proofs::Depths::depth_and))]
pub fn joined(alloc: Global, op: Op, a: Grown, b: Grown) -> Result<Grown, Refusal>
    ensures { Made expr_depth (op_node op a b) result }
{
    let below = deeper(a.depth(), b.depth());
    let a = Boxed::new(alloc, a.into_tree())?;
    let b = Boxed::new(alloc, b.into_tree())?;
    match op {
        Op::Or => made(Expression::Or(a, b), below),
        Op::And => made(Expression::And(a, b), below),
        Op::Binary(op) => made(Expression::Binary(op, a, b), below),
    }
}

#[tactic(auto, using(std::proofs::lemmas::Grind::common_steps, crate::proofs::Depths::depth_negative))]
pub fn negative(alloc: Global, a: Grown) -> Result<Grown, Refusal>
    ensures { Made expr_depth (node.Negative a) result }
{
    let below = a.depth();
    let a = Boxed::new(alloc, a.into_tree())?;
    made(Expression::Negative(a), below)
}

#[tactic(auto, using(std::proofs::lemmas::Grind::common_steps, crate::proofs::Depths::depth_not))]
pub fn not(alloc: Global, a: Grown) -> Result<Grown, Refusal>
    ensures { Made expr_depth (node.Not a) result }
{
    let below = a.depth();
    let a = Boxed::new(alloc, a.into_tree())?;
    made(Expression::Not(a), below)
}

#[tactic(auto, using(std::proofs::lemmas::Grind::common_steps, crate::proofs::Depths::depth_compare))]
pub fn compare(alloc: Global, op: Comparison, a: Grown, b: Grown) -> Result<Grown, Refusal>
    ensures { Made expr_depth (node.Compare op a b) result }
{
    let below = deeper(a.depth(), b.depth());
    let a = Boxed::new(alloc, a.into_tree())?;
    let b = Boxed::new(alloc, b.into_tree())?;
    made(Expression::Compare(op, a, b), below)
}

#[tactic(auto, using(std::proofs::lemmas::Grind::common_steps, crate::proofs::Depths::depth_is))]
pub fn is(alloc: Global, a: Grown, single: Single) -> Result<Grown, Refusal>
    ensures { Made expr_depth (node.Is a single) result }
{
    let below = deeper(a.depth(), 1);
    let a = Boxed::new(alloc, a.into_tree())?;
    made(Expression::Is(a, single), below)
}

#[tactic(auto, using(std::proofs::lemmas::Grind::common_steps, crate::proofs::Depths::depth_is_not))]
pub fn is_not(alloc: Global, a: Grown, single: Single) -> Result<Grown, Refusal>
    ensures { Made expr_depth (node.IsNot a single) result }
{
    let below = deeper(a.depth(), 1);
    let a = Boxed::new(alloc, a.into_tree())?;
    made(Expression::IsNot(a, single), below)
}

#[tactic(auto, using(std::proofs::lemmas::Grind::common_steps, crate::proofs::Depths::depth_if))]
pub fn conditional(alloc: Global, a: Grown, test: Grown, b: Grown) -> Result<Grown, Refusal>
    ensures { Made expr_depth (node.If a test b) result }
{
    let below = deeper(a.depth(), deeper(test.depth(), b.depth()));
    let a = Boxed::new(alloc, a.into_tree())?;
    let test = Boxed::new(alloc, test.into_tree())?;
    let b = Boxed::new(alloc, b.into_tree())?;
    made(Expression::If(a, test, b), below)
}

#[tactic(auto, using(std::proofs::lemmas::Grind::common_steps, crate::proofs::Depths::depth_subscript))]
pub fn subscript(alloc: Global, a: Grown, i: Grown) -> Result<Grown, Refusal>
    ensures { Made expr_depth (node.Subscript a i) result }
{
    let below = deeper(a.depth(), i.depth());
    let a = Boxed::new(alloc, a.into_tree())?;
    let i = Boxed::new(alloc, i.into_tree())?;
    made(Expression::Subscript(a, i), below)
}

#[tactic(auto, using(std::proofs::lemmas::Grind::common_steps, crate::proofs::Depths::depth_call))]
pub fn call(alloc: Global, f: Grown, args: Parts) -> Result<Grown, Refusal>
    ensures { Made expr_depth (node.Call f args) result }
{
    let below = deeper(f.depth(), args.depth());
    let f = Boxed::new(alloc, f.into_tree())?;
    made(Expression::Call(f, args.into_items()), below)
}

#[tactic(auto, using(std::proofs::lemmas::Grind::common_steps, crate::proofs::Depths::depth_method))]
pub fn ask(alloc: Global, a: Grown, method: Method, args: Parts) -> Result<Grown, Refusal>
    ensures { Made expr_depth (node.Method a method args) result }
{
    let below = deeper(a.depth(), args.depth());
    let a = Boxed::new(alloc, a.into_tree())?;
    made(Expression::Method(a, method, args.into_items()), below)
}

#[tactic(auto, using(std::proofs::lemmas::Grind::common_steps, crate::proofs::Depths::depth_tuple))]
pub fn tuple(parts: Parts) -> Result<Grown, Refusal>
    ensures { Made expr_depth (node.Tuple parts) result }
{
    let below = parts.depth();
    made(Expression::Tuple(parts.into_items()), below)
}

#[tactic(auto, using(std::proofs::lemmas::Grind::common_steps, crate::proofs::Depths::depth_yield_some))]
pub fn yielded(alloc: Global, line: u32, a: Grown) -> Result<Grown, Refusal>
    ensures { Made expr_depth (node.Yield line (Some a)) result }
{
    let below = a.depth();
    let a = Boxed::new(alloc, a.into_tree())?;
    made(Expression::Yield(line, Some(a)), below)
}
