//! The global word and the callback words.
ghost use Rattle.std.specs.Prelude.{◌≡◌, ◌<◌, ℕ, length, slice_index};
ghost use Rattle.mon_words.specs.Halted.{with_global, with_callbacks};
ghost use Rattle.mon_events.specs.Events.{event_at};
ghost use Rattle.mon_history.specs.Stands.{global_event};
ghost use Rattle.mon_history.specs.Kept.{config_of, IsKept};
ghost use Rattle.mon_history.specs.Stands.{globals, callbacks, policy_bit};
ghost use Rattle.mon_instrument.specs.Due.{Worded, callback_words};

use mon_events::Event;
use mon_history::{Config, Policy};
use mon_words::Halted;

fn global_at(rank: u8) -> Event
    ensures { result ≡ global_event rank }
{
    match rank {
        0 => Event::Raise,
        1 => Event::Reraise,
        2 => Event::ExceptionHandled,
        3 => Event::PyUnwind,
        _ => Event::PyThrow,
    }
}

/// The global word of a configuration.
pub fn globals_word(config: &Config) -> u64
    ensures { result ≡ globals (config_of config.now) }
{
    let mut word: u64 = 0;
    for place in 0u8..30 {
        if config.tools[(place % 6) as usize]
            .wants
            .has(global_at(place / 6))
        {
            word += 1 << place;
        }
    }
    word
}

// Whether the policy has the bit 0 or 1.
fn has_bit(policy: Policy, bit: u8) -> bool
    ensures { result ≡ policy_bit policy bit }
{
    match policy {
        Policy::Nothing => false,
        Policy::Keep => bit == 0,
        Policy::Once => bit == 1,
    }
}

/// The callback word of a tool.
pub fn callback_word(config: &Config, tool: u8) -> u64
    requires low { tool < 6 }
    requires kept { (codes : ℕ) × IsKept codes config.now }
    ensures { result ≡ callbacks (config_of config.now) tool }
{
    let mut word: u64 = 0;
    for place in 0u8..34 {
        if has_bit(
            config.tools[tool as usize].policies[(place / 2) as usize],
            place % 2,
        ) {
            word += 1 << place;
        }
    }
    word
}

/// Makes the global word and the callback words those of the configuration.
pub fn set_words<S: Halted>(config: &Config, s: &mut S)
    requires six { length (S.halt s.old).board.callbacks ≡ 6 }
    requires kept { (codes : ℕ) × IsKept codes config.now }
    ensures rest { S.rest s.new ≡ S.rest s.old }
    ensures told { Worded (config_of config.now) 6 (S.halt s.old) (S.halt s.new) }
{
    s.set_global(globals_word(config));
    for tool in 0u8..6 {
        s.set_callbacks(tool, callback_word(config, tool));
    }
}

/// The global word, and the callback words of the tools 0 to 5.
#[derive(Clone, Copy, Debug)]
pub struct Words {
    pub global: u64,
    pub callbacks: [u64; 6],
}

/// The words of a configuration.
pub fn words_of(config: &Config) -> Words
    requires kept { (codes : ℕ) × IsKept codes config.now }
    ensures global { result.global ≡ globals (config_of config.now) }
    ensures callbacks { result.callbacks ≡ callback_words (config_of config.now) }
{
    Words {
        global: globals_word(config),
        callbacks: [
            callback_word(config, 0),
            callback_word(config, 1),
            callback_word(config, 2),
            callback_word(config, 3),
            callback_word(config, 4),
            callback_word(config, 5),
        ],
    }
}

// Makes the global word another, which is stored where it differs.
fn change_global<S: Halted>(old: u64, new: u64, s: &mut S)
    requires stands { (S.halt s.old).board.global ≡ old }
    ensures rest { S.rest s.new ≡ S.rest s.old }
    ensures halt { S.halt s.new ≡ with_global (S.halt s.old) new }
{
    if new != old {
        s.set_global(new);
    }
}

// Makes the callback word of a tool another, which is stored where it differs.
fn change_callbacks<S: Halted>(tool: u8, old: u64, new: u64, s: &mut S)
    requires low { tool < 6 }
    requires stands { slice_index (S.halt s.old).board.callbacks tool ≡ old }
    ensures rest { S.rest s.new ≡ S.rest s.old }
    ensures halt { S.halt s.new ≡ with_callbacks (S.halt s.old) tool new }
{
    if new != old {
        s.set_callbacks(tool, new);
    }
}

/// Makes the global word and the callback words those of the configuration, given those that stand. It stores only the words
/// that differ.
pub fn change_words<S: Halted>(standing: &Words, config: &Config, s: &mut S)
    requires six { length (S.halt s.old).board.callbacks ≡ 6 }
    requires kept { (codes : ℕ) × IsKept codes config.now }
    requires global { (S.halt s.old).board.global ≡ standing.now.global }
    requires callbacks { (S.halt s.old).board.callbacks ≡ standing.now.callbacks }
    ensures rest { S.rest s.new ≡ S.rest s.old }
    ensures told { Worded (config_of config.now) 6 (S.halt s.old) (S.halt s.new) }
{
    change_global(standing.global, globals_word(config), s);
    for tool in 0u8..6 {
        let word = callback_word(config, tool);
        change_callbacks(tool, standing.callbacks[tool as usize], word, s);
    }
}
