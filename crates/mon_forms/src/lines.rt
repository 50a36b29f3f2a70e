ghost use Rattle.std.specs.Prelude.{◌≡◌, ◌≢◌, ◌<◌, ◌≤◌, ℕ, ◌∷◌, [], true, false, drop, length, slice_index, MatchOption, IfSome};
ghost use Rattle.mon_forms.specs.Lines as spec;

/// What stands before the CR at the end of a line, if it has one.
#[tactic(auto, using(crate::proofs::Words::without_last, crate::proofs::Words::with_last, crate::proofs::Words::no_last))]
fn without_return(line: &[u8]) -> &[u8]
    ensures { result.now ≡ spec.without_return line.now }
{
    match line.split_last() {
        None => line,
        Some((last, before)) => { if *last == b'\r' { before } else { line } }
    }
}

/// Where the first LF is, or the length of the text.
fn find_feed(text: &[u8]) -> usize
    ensures within { result ≤ length text.now }
    ensures before { (k : ℕ) → k < result → slice_index text.now k ≢ 10 }
    ensures found { result < length text.now → slice_index text.now result ≡ 10 }
{
    for (i, c) in text.iter().enumerate() {
        if *c == b'\n' {
            return i;
        }
    }
    text.len()
}

/// The first line of a text, and what stands behind it.
pub fn next_line(text: &[u8]) -> Option<(&[u8], &[u8])>
    ensures { MatchOption result
        (spec.lines_of text.now ≡ [])
        (λ x. (spec.lines_of text.now ≡ x.0.now ∷ spec.lines_of x.1.now) × (length x.1.now < length text.now)) }
{
    if text.is_empty() {
        return None;
    }
    let end = find_feed(text);
    if end < text.len() {
        Some((without_return(&text[..end]), &text[end + 1..]))
    } else {
        Some((text, &[]))
    }
}

fn is_blank(c: u8) -> bool
    ensures { result ≡ spec.is_blank c }
{
    c == b' ' || c == b'\t'
}

/// What stands behind the blanks at the start of a line.
fn skip_blanks(line: &[u8]) -> &[u8]
    ensures words { spec.words_of result.now ≡ spec.words_of line.now }
    ensures front { 0 < length result.now → spec.is_blank (slice_index result.now 0) ≡ false }
    ensures within { length result.now ≤ length line.now }
    ensures plain { spec.is_plain_line line.now ≡ true → spec.is_plain_line result.now ≡ true }
{
    let mut rest = line;
    while let [c, more @ ..] = rest {
        if !is_blank(*c) {
            return rest;
        }
        rest = more;
    }
    rest
}

/// Where the first blank is, or the length of the line.
fn find_blank(line: &[u8]) -> usize
    ensures within { result ≤ length line.now }
    ensures before { (k : ℕ) → k < result → spec.is_blank (slice_index line.now k) ≡ false }
    ensures found { result < length line.now → spec.is_blank (slice_index line.now result) ≡ true }
{
    for (i, c) in line.iter().enumerate() {
        if is_blank(*c) {
            return i;
        }
    }
    line.len()
}

/// The first word of a line, and what stands behind it.
pub fn next_word(line: &[u8]) -> Option<(&[u8], &[u8])>
    ensures words { MatchOption result
        (spec.words_of line.now ≡ [])
        (λ x. (spec.words_of line.now ≡ x.0.now ∷ spec.words_of x.1.now) × (length x.1.now < length line.now)) }
    ensures plain { IfSome result (λ x. spec.is_plain_line line.now ≡ true → (spec.is_plain_line x.0.now ≡ true) × (spec.is_plain_line x.1.now ≡ true)) }
{
    let word = skip_blanks(line);
    if word.is_empty() {
        return None;
    }
    let end = find_blank(word);
    Some((&word[..end], &word[end..]))
}

/// The number of words of a line.
pub fn count_words(line: &[u8]) -> usize
    ensures { result ≡ length (spec.words_of line.now) }
{
    let mut count = 0;
    let mut rest = line;
    while let Some((_, more)) = next_word(rest) {
        count += 1;
        rest = more;
    }
    count
}

/// What stands behind the first word of a line.
pub fn behind_word(line: &[u8]) -> &[u8]
    ensures words { spec.words_of result.now ≡ drop 1 (spec.words_of line.now) }
    ensures plain { spec.is_plain_line line.now ≡ true → spec.is_plain_line result.now ≡ true }
{
    match next_word(line) {
        None => &[],
        Some((_, rest)) => rest,
    }
}

/// The first word of a line, or an empty one.
pub fn first_word(line: &[u8]) -> &[u8]
    ensures { result.now ≡ spec.word_at 0 (spec.words_of line.now) }
{
    match next_word(line) {
        None => &[],
        Some((word, _)) => word,
    }
}

/// The second word of a line, or an empty one.
pub fn second_word(line: &[u8]) -> &[u8]
    ensures { result.now ≡ spec.word_at 1 (spec.words_of line.now) }
{
    first_word(behind_word(line))
}

/// Whether a line has no words, or is a comment.
pub fn is_skipped(line: &[u8]) -> bool
    ensures { result ≡ spec.is_skipped (spec.words_of line.now) }
{
    match next_word(line) {
        None => true,
        Some((word, _)) => word.first() == Some(&b'#'),
    }
}

fn is_plain(c: u8) -> bool
    ensures { result ≡ spec.is_plain c }
{
    (b' ' <= c && c <= b'~') || c == b'\t'
}

/// Whether a line is of printable ASCII and tabs.
pub fn is_plain_line(line: &[u8]) -> bool
    ensures { result ≡ spec.is_plain_line line.now }
{
    line.iter().all(|&c| is_plain(c))
}
