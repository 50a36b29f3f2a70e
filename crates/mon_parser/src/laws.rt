//! Laws of the grammar, as contracts of functions that do nothing.

ghost use Rattle.mon_parser.specs.Laws.{EveryTextRead, ExpressionOnce, ItemLimits, ItemOnce, ParsedOnce, TextsReadOnce};

/// Tokens derive from the symbol of expressions with at most one tree within the limit on nodes.
pub fn expression_derives_once()
    ensures { ExpressionOnce }
{}

/// Tokens derive from the symbol of items with at most one tree.
pub fn item_derives_once()
    ensures { ItemOnce }
{}

/// The trees of an item are those within the limits, by the brackets of the derivation and the nodes of the tree.
pub fn item_keeps_limits()
    ensures { ItemLimits }
{}

/// A text's items determine the trees or the fault that they are parsed as, unless memory runs out.
pub fn items_parse_once()
    ensures { ParsedOnce }
{}

/// Every text is read as a module, or as one of the reasons why it has none.
pub fn every_text_is_read()
    ensures { EveryTextRead }
{}

/// A text is read as one thing alone.
pub fn texts_are_read_once()
    ensures { TextsReadOnce }
{}
