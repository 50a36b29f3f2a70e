ghost use Rattle.std.specs.Prelude.{◌≡◌};
ghost use Rattle.mon_forms.specs.Heads as spec;

use crate::calls::CallKind;

/// The first word of a line.
#[derive(Clone, Copy, Debug, PartialEq, Eq)]
pub enum Head {
    Steps,
    Thread,
    Before,
    Script,
    Schedule,
    Turn,
    Call,
    Report,
    Control(CallKind),
}

/// All first words.
const ALL_HEADS: [Head; 17] = [
    Head::Steps,
    Head::Thread,
    Head::Before,
    Head::Script,
    Head::Schedule,
    Head::Turn,
    Head::Call,
    Head::Report,
    Head::Control(CallKind::UseToolId),
    Head::Control(CallKind::FreeToolId),
    Head::Control(CallKind::GetTool),
    Head::Control(CallKind::SetEvents),
    Head::Control(CallKind::GetEvents),
    Head::Control(CallKind::SetLocalEvents),
    Head::Control(CallKind::GetLocalEvents),
    Head::Control(CallKind::RegisterCallback),
    Head::Control(CallKind::RestartEvents),
];

/// What the lines before have opened, in the order in which it stands in a plan.
#[derive(Clone, Copy, Debug, PartialEq, Eq)]
pub enum Section {
    Nothing,
    Steps,
    Threads,
    Before,
    Scripts,
    Schedule,
    Reports,
}

impl Section {
    ghost use Rattle.std.specs.Prelude.{◌≡◌};
    ghost use Rattle.mon_forms.specs.Heads as spec;

    /// Whether it is one of those from the first to the last given.
    fn is_from_to(self, first: u8, last: u8) -> bool
        ensures { result ≡ spec.is_from_to first last self }
    {
        first <= self.number() && self.number() <= last
    }

    /// Its place in the order.
    pub fn number(self) -> u8
        ensures { result ≡ spec.section_number self }
    {
        match self {
            Section::Nothing => 0,
            Section::Steps => 1,
            Section::Threads => 2,
            Section::Before => 3,
            Section::Scripts => 4,
            Section::Schedule => 5,
            Section::Reports => 6,
        }
    }
}

/// The head that a word is.
pub fn head_of(word: &[u8]) -> Option<Head>
    ensures { result ≡ spec.head_of word.now }
{
    ALL_HEADS
        .iter()
        .copied()
        .find(|head| head.word().as_bytes() == word)
}

impl Head {
    ghost use Rattle.std.specs.Prelude.{◌≡◌};
    ghost use Rattle.mon_forms.specs.Heads as spec;

    /// The word that it is.
    pub fn word(self) -> &'static str
        ensures { result.now ≡ spec.head_word self }
    {
        match self {
            Head::Steps => "steps",
            Head::Thread => "thread",
            Head::Before => "before",
            Head::Script => "script",
            Head::Schedule => "schedule",
            Head::Turn => "turn",
            Head::Call => "call",
            Head::Report => "report",
            Head::Control(kind) => kind.word(),
        }
    }

    /// Whether so many words may stand behind it.
    pub fn has_form(self, count: usize) -> bool
        ensures { result ≡ spec.has_form self count }
    {
        match self {
            Head::Before | Head::Script | Head::Schedule => count == 0,
            Head::Steps | Head::Call => count == 1,
            Head::Turn | Head::Report => count == 2,
            Head::Thread => 1 <= count,
            Head::Control(kind) => count == kind.operands().len(),
        }
    }

    /// Whether its line may follow one of this section.
    pub fn may_follow(self, section: Section) -> bool
        ensures { result ≡ spec.may_follow self section }
    {
        match self {
            Head::Steps => section.is_from_to(0, 0),
            Head::Thread | Head::Before => section.is_from_to(1, 2),
            Head::Script | Head::Schedule => section.is_from_to(1, 4),
            Head::Turn | Head::Call => section.is_from_to(5, 5),
            Head::Report => section.is_from_to(1, 6),
            Head::Control(_) => section.is_from_to(3, 4),
        }
    }
}
