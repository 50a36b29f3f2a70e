//! The order of rows.

ghost use Rattle.std.specs.Prelude.{◌≡◌, Some, refl};
ghost use Rattle.std.specs.Cmp.{partial_equiv_from_equiv, partial_order_from_total};
ghost use Rattle.std.specs.Cmp.Lexicographic.{slice_cmp};
ghost use Rattle.std.specs.Ordering.{eq_by_cmp, nat_cmp};
ghost use Rattle.mon_recorders.specs.Rows.{row_cmp, key_of};
ghost use Rattle.mon_recorders.specs.RowOrder.{row_total, row_equiv};

use crate::delivery::Delivery;
use crate::rows::Counting;
use std::cmp::Ordering;
use std::marker::Model;

/// What records that are counted together have in common. Contracts see it as a row.
#[derive(Debug, Drop)]
pub struct Key<'a> {
    code: u16,
    name: &'a [char],
    numbers: [u64; 2],
    // How many of the numbers it has.
    held: usize,
}

impl<'a> Model for Key<'a> {
    ghost use Rattle.std.specs.Prelude.{◌≤◌, take};
    ghost use Rattle.mon_recorders.specs.declared.rows.Row.{Row as RowOf};
    ghost use Rattle.mon_recorders.specs.contracts.rows.Row as a_row;

    ghost Value = { RowOf };

    ghost coded = { a_row.the_row.coded };

    ghost view = { λ k. record { code = k.code; name = k.name.now; numbers = take k.held k.numbers } };

    ghost invariant = { λ k. k.held ≤ 2 };
}

impl<'a> Key<'a> {
    /// The key of a record.
    pub fn of(counting: Counting, delivery: &Delivery<'a>) -> Key<'a>
        ensures { result ≡ key_of counting delivery.now }
    {
        let at = u64::from(delivery.at());
        let (name, numbers, held): (&'a [char], [u64; 2], usize) = match counting {
            Counting::Lines => (&[], [at, 0], 1),
            Counting::Calls => (delivery.first(), [0, 0], 0),
            Counting::Branches => (&[], [at, u64::from(delivery.dest())], 2),
        };
        Key {
            code: delivery.code(),
            name,
            numbers,
            held,
        }
    }

    /// The number of the code.
    pub fn code(&self) -> u16
        ensures { result ≡ self.now.code }
    {
        self.code
    }

    /// What is called.
    pub fn name(&self) -> &'a [char]
        ensures { result.now ≡ self.now.name }
    {
        self.name
    }

    /// The numbers.
    pub fn numbers(&self) -> &[u64]
        ensures { result.now ≡ self.now.numbers }
    {
        &self.numbers[..self.held]
    }
}

fn compare_slices<'x, T: Ord>(a: &'x [T], b: &'x [T]) -> Ordering
    ensures { result ≡ slice_cmp T.cmp a.now b.now }
{
    a.cmp(&b)
}

fn compare(a: &Key<'_>, b: &Key<'_>) -> Ordering
    ensures { result ≡ row_cmp a.now b.now }
{
    let names = compare_slices(a.name(), b.name());
    let numbers = compare_slices(a.numbers(), b.numbers());
    a.code().cmp(&b.code()).then(names.then(numbers))
}

impl<'a> PartialEq for Key<'a> {
    ghost eq = { eq_by_cmp row_cmp };

    ghost laws = { partial_equiv_from_equiv row_equiv };

    fn eq(&self, other: &Key<'a>) -> bool {
        compare(self, other).is_eq()
    }
}

impl<'a> Eq for Key<'a> {
    ghost laws = { row_equiv };
}

impl<'a> PartialOrd for Key<'a> {
    ghost partial_cmp = { λ a b. Some (row_cmp a b) };

    ghost laws = { partial_order_from_total row_total };

    fn partial_cmp(&self, other: &Key<'a>) -> Option<Ordering> {
        Some(compare(self, other))
    }
}

impl<'a> Ord for Key<'a> {
    ghost cmp = { row_cmp };

    ghost total = { row_total };

    ghost matches_partial_cmp = { λ a b. refl };

    ghost matches_eq = { λ a b. refl };

    fn cmp(&self, other: &Key<'a>) -> Ordering {
        compare(self, other)
    }
}
