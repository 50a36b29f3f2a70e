//! The registry and its journal.
ghost use Rattle.std.specs.Prelude.{◌≡◌, ◌<◌, ◌++◌, ◌∷◌, [], ℕ, true, false, length, Ok, None, OnErr, IfOk};
ghost use Rattle.mon_words.specs.History.{after};
ghost use Rattle.mon_history.specs.Registry as registry;
ghost use Rattle.mon_history.specs.Journal.{IsLawful, replay};
ghost use Rattle.mon_code.specs.Sites.{sites_of};
ghost use Rattle.mon_history.specs.Stands.{StandsFor};
ghost use Rattle.mon_control.specs.View.{NamesCode, line_of, Commits};

use crate::calls::{change, reach_of, restarts, stop_reply, stops_world};
use crate::counting::read_counts;
use crate::ready::{ControlFault, Prepared, Ready};
use crate::settling::settle;
use crate::starting::no_config;
use mon_code::Program;
use mon_history::{Config, ControlCall, Counts, Journal, JournalLine, Reply, Who};
use mon_instrument::{change_words, walk, words_of};
use mon_words::Halted;
use std::alloc::Global;
use std::marker::Model;

/// The registry of tools with its journal, which replays to what the tools have asked for.
#[derive(Drop)]
pub struct Control {
    alloc: Global,
    config: Config,
    journal: Journal,
    threads: u8,
    codes: u32,
}

impl Model for Control {
    ghost use Rattle.mon_control.specs.View.{Shown, IsControl};

    ghost Value = { Shown };

    ghost view = { λ c. record { journal = c.journal.lines; room = c.journal.room; threads = c.threads; codes = c.codes } };

    ghost invariant = { λ c. IsControl c.config c.journal.lines c.threads c.codes };
}

impl Control {
    /// A registry of which no call was made.
    pub fn new(alloc: Global, program: &Program, threads: u8) -> Result<Control, ControlFault>
        ensures journal { IfOk result (λ c. c.journal ≡ []) }
        ensures threads { IfOk result (λ c. c.threads ≡ threads) }
        ensures codes { IfOk result (λ c. c.codes ≡ length program.now.codes) }
    {
        let _ = program.locations();
        let config = no_config(alloc, program.codes.len())?;
        Ok(Control {
            alloc,
            config,
            journal: Journal::new(alloc),
            threads,
            codes: program.codes.len() as u32,
        })
    }

    /// The number of calls that were made.
    pub fn calls(&self) -> usize
        ensures { result ≡ length self.now.journal }
    {
        self.journal.len()
    }

    /// Makes a call for which the world is not stopped, or gets all ready for one for which it is.
    pub fn prepare(&mut self, who: Who, call: &ControlCall) -> Result<Prepared, ControlFault>
        requires code { NamesCode self.old.codes call.now }
        requires few { length self.old.journal < 256 }
        ensures threads { self.new.threads ≡ self.old.threads }
        ensures codes { self.new.codes ≡ self.old.codes }
        ensures lawful { IsLawful self.new.threads self.new.journal }
        ensures answered { (r : Reply) → result ≡ Ok (Prepared.Answered r) → (r ≡ registry.reply (replay self.old.journal) call.now) × (registry.stops (replay self.old.journal) call.now ≡ false) × (self.new.journal ≡ self.old.journal ++ line_of self.old.journal who call.now None ∷ []) }
        ensures stop { (ready : Ready) → result ≡ Ok (Prepared.Stop ready) → (self.new.journal ≡ self.old.journal) × (ready.who ≡ who) × (ready.call ≡ call.now) × (registry.stops (replay self.old.journal) call.now ≡ true) × (0 < self.new.room) × (length ready.counts ≡ self.new.threads) }
        ensures same { OnErr result (self.new.journal ≡ self.old.journal) }
    {
        self.journal.reserve()?;
        let call = call.copy()?;
        if stops_world(&self.config, &call)? {
            let counts = Counts::zeros(self.alloc, self.threads)?;
            Ok(Prepared::Stop(Ready { who, call, counts }))
        } else {
            let answer = settle(&mut self.config, &mut self.journal, who, call)?;
            Ok(Prepared::Answered(answer))
        }
    }

    /// Makes a call in a stopped world. It takes no memory.
    pub fn commit<S: Halted>(&mut self, ready: Ready, program: &Program, s: &mut S) -> Reply
        requires stops { registry.stops (replay self.old.journal) ready.call ≡ true }
        requires room { 0 < self.old.room }
        requires few { length self.old.journal < 256 }
        requires counts { length ready.counts ≡ self.old.threads }
        requires code { NamesCode self.old.codes ready.call }
        requires codes { length program.now.codes ≡ self.old.codes }
        requires threads { (S.halt s.old).threads ≡ self.old.threads }
        requires stands { StandsFor (sites_of program.now) self.old.journal (S.halt s.old).first (S.halt s.old).seen }
        requires board { (S.halt s.old).board ≡ after (S.halt s.old).first (S.halt s.old).seen }
        ensures reply { result ≡ registry.reply (replay self.old.journal) ready.call }
        ensures threads { self.new.threads ≡ self.old.threads }
        ensures codes { self.new.codes ≡ self.old.codes }
        ensures lawful { IsLawful self.new.threads self.new.journal }
        ensures commits { Commits program.now self.old.threads self.old.journal ready.who ready.call (S.halt s.old) (S.halt s.new) self.new.journal }
        ensures rest { S.rest s.new ≡ S.rest s.old }
    {
        let Ready {
            who,
            call,
            mut counts,
        } = ready;
        let answer = stop_reply(&self.config, &call);
        let kept = stop_reply(&self.config, &call);
        let standing = words_of(&self.config);
        read_counts(&mut counts, s);
        change(&mut self.config, &call);
        walk(&self.config, program, s, reach_of(&call), restarts(&call));
        change_words(&standing, &self.config, s);
        self.journal.add(JournalLine {
            call,
            who,
            reply: kept,
            stops: Some(counts),
        });
        answer
    }

    /// The journal.
    pub fn into_journal(self) -> Journal
        ensures lines { result.lines ≡ self.journal }
        ensures lawful { IsLawful self.threads self.journal }
    {
        self.journal
    }
}
