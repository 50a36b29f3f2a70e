//! The limits on brackets and on nodes.

use mon_parser::parse;
use std::alloc::Global;
use std::fmt::Write;
use std::test::Fail;

/// Whether a function that returns a name with so many pieces before and behind it has a tree.
fn has_tree(
    alloc: Global,
    before: &'static str,
    behind: &'static str,
    count: usize,
) -> Result<bool, Fail> {
    let mut text = String::new(alloc);
    write!(text, "def f(): return ")?;
    for _turn in 0..count {
        write!(text, "{before}")?;
    }
    write!(text, "a")?;
    for _turn in 0..count {
        write!(text, "{behind}")?;
    }
    write!(text, "\n")?;
    let items = mon_lexer::items(alloc, text.as_bytes())?;
    Ok(parse(alloc, items.as_slice()).is_ok())
}

#[test]
fn limits_brackets(rt: HostRuntime) -> Result<(), Fail> {
    let alloc = rt.alloc();
    assert!(rt; has_tree(alloc, "(", ")", 100)?);
    assert!(rt; !has_tree(alloc, "(", ")", 101)?);
    assert!(rt; has_tree(alloc, "a[", "]", 100)?);
    assert!(rt; !has_tree(alloc, "a[", "]", 101)?);
    assert!(rt; has_tree(alloc, "", "(a)", 200)?);
    Ok(())
}

/// The function and its statement are two nodes, and the name is one.
#[test]
fn limits_nodes(rt: HostRuntime) -> Result<(), Fail> {
    let alloc = rt.alloc();
    assert!(rt; has_tree(alloc, "-", "", 253)?);
    assert!(rt; !has_tree(alloc, "-", "", 254)?);
    assert!(rt; has_tree(alloc, "not ", "", 253)?);
    assert!(rt; !has_tree(alloc, "not ", "", 254)?);
    assert!(rt; has_tree(alloc, "", "+a", 253)?);
    assert!(rt; !has_tree(alloc, "", "+a", 254)?);
    assert!(rt; has_tree(alloc, "", "()", 253)?);
    assert!(rt; !has_tree(alloc, "", "()", 254)?);
    assert!(rt; has_tree(alloc, "a if a else ", "", 253)?);
    assert!(rt; !has_tree(alloc, "a if a else ", "", 254)?);
    assert!(rt; !has_tree(alloc, "not ", "", 20_000)?);
    assert!(rt; !has_tree(alloc, "", "+a", 20_000)?);
    Ok(())
}

/// Whether a function with so many `elif` has a tree.
fn branches_have_tree(alloc: Global, count: usize) -> Result<bool, Fail> {
    let mut text = String::new(alloc);
    write!(text, "def f():\n if a: pass\n")?;
    for _turn in 0..count {
        write!(text, " elif a: pass\n")?;
    }
    let items = mon_lexer::items(alloc, text.as_bytes())?;
    Ok(parse(alloc, items.as_slice()).is_ok())
}

#[test]
fn limits_branches(rt: HostRuntime) -> Result<(), Fail> {
    assert!(rt; branches_have_tree(rt.alloc(), 253)?);
    assert!(rt; !branches_have_tree(rt.alloc(), 254)?);
    Ok(())
}
