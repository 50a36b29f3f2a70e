//! The earlier of two lines.

ghost use Rattle.std.specs.Prelude.{◌≡◌};
ghost use Rattle.mon_compile.specs.Earlier as spec;

/// The earlier of two lines; where there is one alone, that one.
pub fn earlier(line: Option<u32>, other: Option<u32>) -> Option<u32>
    ensures { result ≡ spec.earlier line other }
{
    match (line, other) {
        (line, None) => line,
        (None, other) => other,
        (Some(line), Some(other)) => Some(line.min(other)),
    }
}
