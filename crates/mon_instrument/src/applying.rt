//! All words of a configuration.
ghost use Rattle.std.specs.Prelude.{◌≡◌, ℕ, false, true, length};
ghost use Rattle.mon_history.specs.Kept.{config_of, IsKept};
ghost use Rattle.mon_code.specs.Sites.{sites_of};
ghost use Rattle.mon_history.specs.Configuration.{Configuration};
ghost use Rattle.mon_history.specs.Stands.{BoardOf};
ghost use Rattle.mon_instrument.specs.Due.{IsLaidOut, Applied};

use crate::walking::{Reach, walk};
use crate::words::set_words;
use mon_code::Program;
use mon_history::Config;
use mon_words::Halted;

/// Makes every word that of the configuration, the disables kept.
pub fn apply<S: Halted>(config: &Config, program: &Program, s: &mut S)
    requires laid { IsLaidOut (sites_of program.now) (S.halt s.old).board }
    requires kept { (codes : ℕ) × IsKept codes config.now }
    ensures rest { S.rest s.new ≡ S.rest s.old }
    ensures told { Applied (sites_of program.now) (config_of config.now) false (S.halt s.old) (S.halt s.new) }
    ensures board { (D : Configuration) → BoardOf (sites_of program.now) D (S.halt s.old).board → BoardOf (sites_of program.now) (record (config_of config.now) { off = D.off }) (S.halt s.new).board }
{
    walk(config, program, s, Reach::Everywhere, false);
    set_words(config, s);
}

/// Makes every word that of the configuration, with all live bits.
pub fn apply_restart<S: Halted>(config: &Config, program: &Program, s: &mut S)
    requires laid { IsLaidOut (sites_of program.now) (S.halt s.old).board }
    requires kept { (codes : ℕ) × IsKept codes config.now }
    ensures rest { S.rest s.new ≡ S.rest s.old }
    ensures told { Applied (sites_of program.now) (config_of config.now) true (S.halt s.old) (S.halt s.new) }
    ensures board { BoardOf (sites_of program.now) (config_of config.now) (S.halt s.new).board }
{
    walk(config, program, s, Reach::Everywhere, true);
    set_words(config, s);
}
