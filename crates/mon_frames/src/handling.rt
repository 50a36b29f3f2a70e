ghost use Rattle.std.specs.Prelude.{◌≡◌, [], ◌∷◌, slice_get, OnOk, OnErr, MatchOption};
ghost use Rattle.std.specs.Option.{option_copied};
ghost use Rattle.mon_frames.specs.Items.{lowest};

use mon_values::value::Exc;
use std::alloc::{AllocError, Global};
use std::marker::Model;

/// The exceptions that a frame handles, which contracts see as their list, the last first.
#[derive(Debug, Drop)]
pub struct Handling {
    pub items: Vec<Exc>,
}

impl Model for Handling {
    ghost use Rattle.std.specs.Prelude.{List, reverse};
    ghost use Rattle.mon_values.specs.declared.value.Exc.{Exc as Item};
    ghost use Rattle.mon_values.specs.contracts.value.Exc as exc;
    ghost use Rattle.std.specs.Coded.{coded_list};

    ghost Value = { List Item };

    ghost coded = { coded_list exc.the_row.coded };

    ghost view = { λ h. reverse h.items.items };
}

impl Handling {
    /// The empty list.
    pub fn new(alloc: Global) -> Handling
        ensures { result ≡ [] }
    {
        Handling {
            items: Vec::new(alloc),
        }
    }

    /// One more exception, behind the others.
    pub fn push(&mut self, exc: Exc) -> Result<(), AllocError>
        ensures ok { OnOk result (self.new ≡ exc ∷ self.old) }
        ensures err { OnErr result (self.new ≡ self.old) }
    {
        self.items.push(exc)?;
        Ok(())
    }

    /// Takes the last exception away, if there is one.
    pub fn pop(&mut self) -> Option<Exc>
        ensures { MatchOption result ((self.old ≡ []) × (self.new ≡ [])) (λ last. self.old ≡ last ∷ self.new) }
    {
        self.items.pop()
    }

    /// The last exception, if there is one.
    pub fn last(&self) -> Option<&Exc>
        ensures { option_copied result ≡ slice_get self.now 0 }
    {
        self.items.as_slice().last()
    }

    /// Takes exceptions away from the end until no more than so many are left.
    pub fn cut(&mut self, count: usize)
        ensures { self.new ≡ lowest count self.old }
    {
        self.items.truncate(count)
    }
}
