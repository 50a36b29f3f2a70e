ghost use Rattle.std.specs.Prelude.{◌≡◌};
ghost use Rattle.mon_lexer.specs.Words.{spelling};
ghost use Rattle.mon_lexer.specs.Pieces as spec;

use crate::token::Keyword;

const KEYWORDS: [Keyword; 35] = [
    Keyword::False,
    Keyword::None,
    Keyword::True,
    Keyword::And,
    Keyword::As,
    Keyword::Assert,
    Keyword::Async,
    Keyword::Await,
    Keyword::Break,
    Keyword::Class,
    Keyword::Continue,
    Keyword::Def,
    Keyword::Del,
    Keyword::Elif,
    Keyword::Else,
    Keyword::Except,
    Keyword::Finally,
    Keyword::For,
    Keyword::From,
    Keyword::Global,
    Keyword::If,
    Keyword::Import,
    Keyword::In,
    Keyword::Is,
    Keyword::Lambda,
    Keyword::Nonlocal,
    Keyword::Not,
    Keyword::Or,
    Keyword::Pass,
    Keyword::Raise,
    Keyword::Return,
    Keyword::Try,
    Keyword::While,
    Keyword::With,
    Keyword::Yield,
];

#[tactic(auto, unfolding(crate::specs::Pieces::keyword, crate::specs::Words::keywords))]
/// The keyword that a name spells.
pub fn keyword(name: &[char]) -> Option<Keyword>
    ensures { result ≡ spec.keyword name.now }
{
    KEYWORDS.iter().copied().find(|k| letters(*k) == name)
}

fn letters(keyword: Keyword) -> &'static [char]
    ensures { result.now ≡ spelling keyword }
{
    match keyword {
        Keyword::False => &['F', 'a', 'l', 's', 'e'],
        Keyword::None => &['N', 'o', 'n', 'e'],
        Keyword::True => &['T', 'r', 'u', 'e'],
        Keyword::And => &['a', 'n', 'd'],
        Keyword::As => &['a', 's'],
        Keyword::Assert => &['a', 's', 's', 'e', 'r', 't'],
        Keyword::Async => &['a', 's', 'y', 'n', 'c'],
        Keyword::Await => &['a', 'w', 'a', 'i', 't'],
        Keyword::Break => &['b', 'r', 'e', 'a', 'k'],
        Keyword::Class => &['c', 'l', 'a', 's', 's'],
        Keyword::Continue => &['c', 'o', 'n', 't', 'i', 'n', 'u', 'e'],
        Keyword::Def => &['d', 'e', 'f'],
        Keyword::Del => &['d', 'e', 'l'],
        Keyword::Elif => &['e', 'l', 'i', 'f'],
        Keyword::Else => &['e', 'l', 's', 'e'],
        Keyword::Except => &['e', 'x', 'c', 'e', 'p', 't'],
        Keyword::Finally => &['f', 'i', 'n', 'a', 'l', 'l', 'y'],
        Keyword::For => &['f', 'o', 'r'],
        Keyword::From => &['f', 'r', 'o', 'm'],
        Keyword::Global => &['g', 'l', 'o', 'b', 'a', 'l'],
        Keyword::If => &['i', 'f'],
        Keyword::Import => &['i', 'm', 'p', 'o', 'r', 't'],
        Keyword::In => &['i', 'n'],
        Keyword::Is => &['i', 's'],
        Keyword::Lambda => &['l', 'a', 'm', 'b', 'd', 'a'],
        Keyword::Nonlocal => &['n', 'o', 'n', 'l', 'o', 'c', 'a', 'l'],
        Keyword::Not => &['n', 'o', 't'],
        Keyword::Or => &['o', 'r'],
        Keyword::Pass => &['p', 'a', 's', 's'],
        Keyword::Raise => &['r', 'a', 'i', 's', 'e'],
        Keyword::Return => &['r', 'e', 't', 'u', 'r', 'n'],
        Keyword::Try => &['t', 'r', 'y'],
        Keyword::While => &['w', 'h', 'i', 'l', 'e'],
        Keyword::With => &['w', 'i', 't', 'h'],
        Keyword::Yield => &['y', 'i', 'e', 'l', 'd'],
    }
}
