//! The commands, and the words that ask for them.
ghost use Rattle.std.specs.Prelude.{◌≡◌, None, Some, if◌then◌else◌};
ghost use Rattle.std.specs.Option.{option_map};
ghost use Rattle.mon_main.specs.Commands as spec;

use mon_forms::digits_value;

/// What the program does.
#[derive(Clone, Copy, Debug, PartialEq, Eq)]
pub enum Command {
    /// Runs a file by a plan, on threads.
    Run,
    /// Runs a file by a plan, by its schedule, on one thread.
    Replay,
    /// Lists a file's code.
    Dis,
    /// Runs a generated file by a generated plan.
    Gen,
}

/// What is given to a command behind its word.
#[derive(Clone, Copy, Debug, PartialEq, Eq)]
pub enum Operands {
    FileAndPlan,
    File,
    Number,
}

/// All commands.
pub const COMMANDS: [Command; 4] = [Command::Run, Command::Replay, Command::Dis, Command::Gen];

/// The largest number that is given to a command.
pub const MAX_NUMBER: u16 = 500;

impl Command {
    /// Its word.
    pub fn word(self) -> &'static str
        ensures { result.now ≡ spec.word_of self }
    {
        match self {
            Command::Run => "run",
            Command::Replay => "replay",
            Command::Dis => "dis",
            Command::Gen => "gen",
        }
    }

    /// What it is given.
    pub fn operands(self) -> Operands
        ensures { result ≡ spec.operands_of self }
    {
        match self {
            Command::Run | Command::Replay => Operands::FileAndPlan,
            Command::Dis => Operands::File,
            Command::Gen => Operands::Number,
        }
    }

    /// Whether threads do it.
    pub fn is_threaded(self) -> bool
        ensures { result ≡ spec.is_threaded self }
    {
        self == Command::Run
    }
}

/// What is asked for. FILE and PLAN are names that are not empty and do not begin with `-`.
#[derive(Clone, Copy, Debug, PartialEq, Eq)]
pub enum Request<'a> {
    Run { file: &'a str, plan: &'a str },
    Replay { file: &'a str, plan: &'a str },
    Dis { file: &'a str },
    Gen { number: u16 },
}

/// What the words behind the program's name ask for: the word of a command, and what it is given. Other words are no
/// request.
pub fn requested(words: &[String]) -> Option<Request<'_>>
    ensures { option_map spec.asked result ≡ spec.request_of (spec.texts words.now) }
{
    let [word, operands @ ..] = words else {
        return None;
    };
    given(named(word.as_str())?, operands)
}

// The command with this word.
fn named(word: &str) -> Option<Command>
    ensures { result ≡ spec.named word.now }
{
    COMMANDS
        .iter()
        .copied()
        .find(|command| command.word() == word)
}

// A command with what it is given.
fn given(command: Command, operands: &[String]) -> Option<Request<'_>>
    ensures { option_map spec.asked result ≡ spec.given command (spec.texts operands.now) }
{
    match (command, operands) {
        (Command::Run, [file, plan]) => Some(Request::Run {
            file: name_in(file)?,
            plan: name_in(plan)?,
        }),
        (Command::Replay, [file, plan]) => Some(Request::Replay {
            file: name_in(file)?,
            plan: name_in(plan)?,
        }),
        (Command::Dis, [file]) => Some(Request::Dis {
            file: name_in(file)?,
        }),
        (Command::Gen, [number]) => Some(Request::Gen {
            number: number_in(number)?,
        }),
        _ => None,
    }
}

// A word that is not empty and does not begin with `-`.
fn name_in(word: &str) -> Option<&str>
    ensures { option_map (λ w. w.now) result ≡ if spec.is_name word.now then Some word.now else None }
{
    match word.as_bytes() {
        [] | [b'-', ..] => None,
        _ => Some(word),
    }
}

// A number from 1 to 500 in decimal digits, the first of them not 0.
fn number_in(word: &str) -> Option<u16>
    ensures { result ≡ spec.number_of word.now }
{
    match word.as_bytes() {
        [] | [b'0', ..] => None,
        digits => match digits_value(digits)? {
            number @ ..=500 => Some(number as u16),
            _ => None,
        },
    }
}

/// The forms of all commands, in a line.
#[tactic(auto, unfolding(crate::specs::Commands::usage_line))]
pub fn usage() -> &'static str
    ensures { result.now ≡ spec.usage_line }
{
    "usage: run FILE PLAN | replay FILE PLAN | dis FILE | gen NUMBER\n"
}
