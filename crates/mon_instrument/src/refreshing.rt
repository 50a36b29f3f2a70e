//! The word of one location.
ghost use Rattle.std.specs.Prelude.{◌≡◌, ◌+◌, ◌<◌, ◌%◌, ◌^◌, length, true};
ghost use Rattle.mon_words.specs.Words.{cell_of, Allowed, normal as normal_of};
ghost use Rattle.mon_words.specs.History.{cell_at};
ghost use Rattle.mon_history.specs.Kept.{config_of};
ghost use Rattle.mon_code.specs.Sites.{site_in};
ghost use Rattle.mon_instrument.specs.Due.{due_live, due_cell, Walked};

use crate::wanting::want_bits;
use mon_code::{Location, Site};
use mon_history::Config;
use mon_words::{Halted, normal};

// The word with these want bits, and with all live bits where `all` says so.
fn due_word(word: u64, want: u32, all: bool) -> u64
    requires { want < 2 ^ 24 }
    ensures cell { cell_of result ≡ record (cell_of word) { want = want; live = due_live all (cell_of word).live } }
    ensures allowed { Allowed (cell_of result) (result % 256) }
    ensures normal { normal_of result ≡ result }
{
    let live = if all { 16777215 } else { word >> 40 };
    normal((word >> 8) % 256 * 256 + u64::from(want) * 65536 + live * 1099511627776)
}

/// Makes the word of a location that of the configuration.
pub fn refresh<S: Halted>(
    config: &Config,
    code: u16,
    index: usize,
    location: &Location,
    s: &mut S,
    l: u32,
    all: bool,
)
    requires within { l < length (S.halt s.old).board.cells }
    requires index { index < 65536 }
    ensures rest { S.rest s.new ≡ S.rest s.old }
    ensures told { Walked (λ k c. due_cell (config_of config.now) (site_in code index location.now c.base) all c) (λ _. true) l (l + 1) (S.halt s.old) (S.halt s.new) }
{
    let word = s.read(l);
    let base = (word / 256 % 256) as u8;
    let due = due_word(
        word,
        want_bits(config, &Site::new(code, index as u32, location, base)),
        all,
    );
    if due >> 16 != word >> 16 {
        s.rewrite(l, due);
    }
}
