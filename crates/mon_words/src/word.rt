ghost use Rattle.std.specs.Prelude.{◌≡◌, ◌<◌, ◌^◌, ◌==◌, bit_and, IsTrue, IfOk, map};
ghost use Rattle.mon_events.specs.Events.{place};
ghost use Rattle.mon_words.specs.History.{base_in};
ghost use Rattle.mon_words.specs.Standing.{board_of, IsFirst};
ghost use Rattle.mon_words.specs.Words as spec;

use mon_events::Slot;
use std::alloc::{AllocError, Global};

/// The words of a board before those of the locations: the global word and the callback words of six tools.
pub const BEFORE_LOCATIONS: usize = 7;

/// The parts of a location's word: the opcode in place, the base opcode, and the want and live bits of all slots and
/// tools, of 24 bits each.
#[derive(Clone, Copy, Debug, PartialEq, Eq)]
pub struct Parts {
    pub place: u8,
    pub base: u8,
    pub want: u32,
    pub live: u32,
}

/// The word of these parts: bits 0 to 7 the opcode in place, 8 to 15 the base opcode, 16 to 39 the want bits, 40 to 63
/// the live bits.
pub fn pack(parts: Parts) -> u64
    requires want { parts.want < 2 ^ 24 }
    requires live { parts.live < 2 ^ 24 }
    ensures { result ≡ spec.word_of parts }
{
    u64::from(parts.place)
        + u64::from(parts.base) * 256
        + u64::from(parts.want) * 65536
        + u64::from(parts.live) * 1_099_511_627_776
}

/// The parts of a word.
pub fn unpack(word: u64) -> Parts
    ensures { result ≡ spec.parts_of word }
{
    Parts {
        place: (word % 256) as u8,
        base: (word / 256 % 256) as u8,
        want: (word / 65536 % 16_777_216) as u32,
        live: (word / 1_099_511_627_776) as u32,
    }
}

/// Whether the event of a slot is enabled for a tool: both its want bit and its live bit are 1.
pub fn enabled(word: u64, slot: Slot, tool: u8) -> bool
    requires { tool < 6 }
    ensures { result ≡ spec.is_enabled (spec.cell_of word) slot tool }
{
    let parts = unpack(word);
    let bit = 6 * slot.number() + tool;
    (parts.want >> bit) % 2 == 1 && (parts.live >> bit) % 2 == 1
}

/// The least instrumented opcode that the enabled bits of the word allow: 128 where a LINE bit is enabled, else 129
/// where an INSTRUCTION bit is, else base + 64 modulo 256 where a MAIN bit is, else the base.
pub fn form_in_place(word: u64) -> u8
    ensures { result ≡ spec.form (spec.cell_of word).base (spec.need (spec.cell_of word)) }
{
    let enabled = ((word >> 16) % 16_777_216) & (word >> 40);
    let base = ((word >> 8) % 256) as u8;
    if enabled % 64 > 0 {
        128
    } else if (enabled >> 6) % 64 > 0 {
        129
    } else if (enabled >> 12) % 64 > 0 {
        base.wrapping_add(64)
    } else {
        base
    }
}

/// The word with that opcode in place.
pub fn normal(word: u64) -> u64
    ensures { result ≡ spec.normal word }
{
    word - word % 256 + u64::from(form_in_place(word))
}

/// A law: in a word the want bit of a slot and a tool is bit 16 + 6 * slot + tool, and the live bit is
/// bit 40 + 6 * slot + tool.
pub fn bit_places(word: u64)
    ensures { spec.BitPlaces word }
{
    let _ = word;
}

/// Whether a word has a bit.
pub fn has_bit(word: u64, bit: u8) -> bool
    requires { bit < 64 }
    ensures { result ≡ spec.is_bit word bit }
{
    (word >> bit) % 2 == 1
}

/// All ones but the live bit of a slot and a tool.
pub fn mask(slot: Slot, tool: u8) -> u64
    requires { tool < 6 }
    ensures { result ≡ spec.mask_of (place slot tool) }
{
    u64::MAX - (1_099_511_627_776 << (6 * slot.number() + tool))
}

/// Whether a word enables nothing: no bit is both wanted and live. Then no event of a slot is enabled for a tool.
pub fn is_quiet(word: u64) -> bool
    ensures bits { result ≡ (bit_and (spec.cell_of word).want (spec.cell_of word).live == 0) }
    ensures quiet { IsTrue result → spec.Quiet (spec.cell_of word) }
{
    ((word >> 16) % 16_777_216) & (word >> 40) == 0
}

/// The first words of a program, whose locations have these base opcodes: nothing is wanted, and all is live. They can be a
/// first board, of these bases.
pub fn first_words(alloc: Global, bases: &[u8]) -> Result<Vec<u64>, AllocError>
    ensures words { IfOk result (λ words. words.items ≡ spec.first_words bases.now) }
    ensures first { IfOk result (λ words. IsFirst words.items) }
    ensures bases { IfOk result (λ words. map base_in (board_of words.items).cells ≡ bases.now) }
{
    let mut words = Vec::new(alloc);
    for _ in 0..BEFORE_LOCATIONS {
        words.push(0)?;
    }
    for base in bases {
        let parts = Parts {
            place: *base,
            base: *base,
            want: 0,
            live: 16_777_215,
        };
        words.push(pack(parts))?;
    }
    Ok(words)
}
