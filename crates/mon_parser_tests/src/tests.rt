mod expressions;
mod items;
mod limits;
mod refused;
mod show;
mod statements;

use show::show;
use std::alloc::Global;
use std::process::Abort;
use std::test::Fail;

/// A text, and what is shown of its answer.
type Row = (&'static [u8], &'static str);

fn check(rt: &impl Abort, alloc: Global, rows: &[Row]) -> Result<(), Fail> {
    for (text, wanted) in rows {
        let out = show(alloc, text)?;
        assert_eq!(rt; out.as_str(), *wanted, "of {text:?}");
    }
    Ok(())
}
