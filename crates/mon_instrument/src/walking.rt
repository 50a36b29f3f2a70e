//! The words of many locations.
ghost use Rattle.std.specs.Prelude.{◌≡◌, ◌<◌, suc, length, true};
ghost use Rattle.mon_history.specs.Kept.{config_of};
ghost use Rattle.mon_code.specs.Sites.{site_at, sites_of};
ghost use Rattle.mon_instrument.specs.Due.{IsLaidOut, walked_cell, is_reached, reached_cell, Walked, IsReach};
ghost use Rattle.mon_instrument.specs.Codes.{start};

use crate::refreshing::refresh;
use mon_code::Program;
use mon_history::Config;
use mon_words::Halted;

/// The locations that a call can touch.
#[derive(Clone, Copy, Debug)]
pub enum Reach {
    Nowhere,
    Code(u16),
    Everywhere,
}

// Makes the words of a code's locations those of the configuration.
fn walk_code<S: Halted>(config: &Config, program: &Program, number: u16, s: &mut S, all: bool)
    requires laid { IsLaidOut (sites_of program.now) (S.halt s.old).board }
    requires number { number < length program.now.codes }
    ensures rest { S.rest s.new ≡ S.rest s.old }
    ensures told { Walked (walked_cell (config_of config.now) (sites_of program.now) all) (λ _. true) (start program.now.codes number) (start program.now.codes (suc number)) (S.halt s.old) (S.halt s.new) }
{
    let _ = program.locations();
    match program.code(number) {
        None => {}
        Some(code) => {
            for (index, location) in code.locations.as_slice().iter().enumerate() {
                refresh(
                    config,
                    number,
                    index,
                    location,
                    s,
                    code.first + index as u32,
                    all,
                );
            }
        }
    }
}

// Makes the words of all locations those of the configuration.
fn walk_all<S: Halted>(config: &Config, program: &Program, s: &mut S, all: bool)
    requires laid { IsLaidOut (sites_of program.now) (S.halt s.old).board }
    ensures rest { S.rest s.new ≡ S.rest s.old }
    ensures told { Walked (walked_cell (config_of config.now) (sites_of program.now) all) (λ _. true) 0 (length (sites_of program.now)) (S.halt s.old) (S.halt s.new) }
{
    let _ = program.locations();
    for number in 0..program.codes.len() {
        walk_code(config, program, number as u16, s, all);
    }
}

/// Makes the words of the locations in reach those of the configuration.
pub fn walk<S: Halted>(config: &Config, program: &Program, s: &mut S, reach: Reach, all: bool)
    requires laid { IsLaidOut (sites_of program.now) (S.halt s.old).board }
    requires reach { IsReach (length program.now.codes) reach }
    ensures rest { S.rest s.new ≡ S.rest s.old }
    ensures told { Walked (reached_cell (config_of config.now) (sites_of program.now) reach all) (λ l. is_reached reach (site_at (sites_of program.now) l)) 0 (length (sites_of program.now)) (S.halt s.old) (S.halt s.new) }
{
    let _ = program.locations();
    match reach {
        Reach::Nowhere => {}
        Reach::Code(code) => walk_code(config, program, code, s, all),
        Reach::Everywhere => walk_all(config, program, s, all),
    }
}
