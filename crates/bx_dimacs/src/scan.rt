//! The lines of a text, the words of a line, and the numbers that words spell. What numbers mean is left to
//! the readers.
ghost use Rattle.std.specs.Prelude.{◌≡◌, ◌==◌, ◌-◌, ◌+◌, ◌^◌, ◌<◌, ◌≤◌, ℕ, List, [], ◌∷◌, length, drop, IsSome, IfSome, IfNone, option_map, pos};
ghost use Rattle.std.specs.List.{position, position_or_len};
ghost use Rattle.std.specs.Char.{is_ascii_whitespace};
ghost use Rattle.bx_dimacs.specs.Words.{lines_of, lines_from, words_of, is_passed_over as is_passed, number_of as number_in, signed_of as signed_in};

/// The lines of a text that are still to be read, and how many were read.
#[derive(Drop)]
pub(crate) struct Lines<'a> {
    rest: &'a [u8],
    number: u64,
    ghost in_range: { number + length rest.now < 2 ^ 64 - 1 },
}

impl<'a> Lines<'a> {
    /// All lines of a text. One that has nothing in front of its end and stands last is none.
    pub(crate) fn new(text: &'a [u8]) -> Self
        ensures text { result.rest.now ≡ text.now }
        ensures number { result.number ≡ 0 }
    {
        Lines {
            rest: text,
            number: 0,
        }
    }

    /// The number of the line that was read last, counted from 1.
    pub(crate) fn number(&self) -> u64
        ensures { result ≡ self.now.number }
    {
        self.number
    }

    /// The number of the next line.
    pub(crate) fn next_number(&self) -> u64
        ensures { result ≡ self.now.number + 1 }
    {
        self.number + 1
    }

    /// Reads up to and with the next line that has a word, and is no comment.
    pub(crate) fn next(&mut self) -> Option<&'a [u8]>
        ensures some { IfSome result (λ line. lines_from (self.old.number + 1) self.old.rest.now
            ≡ (self.new.number, words_of line.now)
            ∷ lines_from (self.new.number + 1) self.new.rest.now) }
        ensures none { IfNone result (lines_from (self.old.number + 1) self.old.rest.now ≡ []) }
        ensures at_end { IfNone result (self.new.rest.now ≡ []) }
        ensures whole { self.new.number + length (lines_of self.new.rest.now)
            ≡ self.old.number + length (lines_of self.old.rest.now) }
        ensures shorter { IsSome result → length self.new.rest.now < length self.old.rest.now }
        ensures counted { IsSome result → 0 < self.new.number }
    {
        while let Some(line) = self.cut() {
            if !is_passed_over(line) {
                return Some(line);
            }
        }
        None
    }

    // Reads the next line.
    fn cut(&mut self) -> Option<&'a [u8]>
        ensures some { IfSome result (λ line. lines_of self.old.rest.now
            ≡ line.now ∷ lines_of self.new.rest.now) }
        ensures none { IfNone result ((self.old.rest.now ≡ []) × (self.new ≡ self.old)) }
        ensures number { IsSome result → self.new.number ≡ self.old.number + 1 }
        ensures shorter { IsSome result → length self.new.rest.now < length self.old.rest.now }
        ensures counted { IsSome result → 0 < self.new.number }
    {
        if self.rest.is_empty() {
            return None;
        }
        let end = end_of(self.rest);
        let (line, behind) = self.rest.split_at(end);
        self.rest = without_first(behind);
        self.number += 1;
        Some(line)
    }
}

// Where the line at the front of a text ends.
fn end_of(text: &[u8]) -> usize
    ensures end { result ≡ position_or_len (λ b. b == 10) text.now }
    ensures within { result ≤ length text.now }
{
    line_feed_at(text).unwrap_or(text.len())
}

// The place of the first line feed.
fn line_feed_at(text: &[u8]) -> Option<usize>
    ensures { result ≡ position (λ b. b == 10) text.now }
{
    text.iter().position(|byte| *byte == b'\n')
}

// Bytes without the first of them.
fn without_first(bytes: &[u8]) -> &[u8]
    ensures rest { result.now ≡ drop 1 bytes.now }
    ensures shorter { length result.now ≡ length bytes.now - 1 }
{
    match bytes.split_first() {
        Some((_, rest)) => rest,
        None => bytes,
    }
}

// Whether a line has no word, or is a comment.
fn is_passed_over(line: &[u8]) -> bool
    ensures { result ≡ is_passed (words_of line.now) }
{
    match word_at(line) {
        Some((word, _)) => word[0] == b'c',
        None => true,
    }
}

/// The first word of a line, and what stands behind it. Blanks, tabs and carriage returns part words.
pub(crate) fn word_at(line: &[u8]) -> Option<(&[u8], &[u8])>
    ensures some { IfSome result (λ found. words_of line.now ≡ found.0.now ∷ words_of found.1.now) }
    ensures none { IfNone result (words_of line.now ≡ []) }
    ensures word { IfSome result (λ found. 0 < length found.0.now) }
    ensures shorter { IfSome result (λ found. length found.1.now < length line.now) }
{
    let words = line.trim_ascii_start();
    let end = blank_at(words).unwrap_or(words.len());
    if end == 0 {
        return None;
    }
    Some(words.split_at(end))
}

// The place of the first byte that parts words.
fn blank_at(words: &[u8]) -> Option<usize>
    ensures { result ≡ position is_ascii_whitespace words.now }
{
    words.iter().position(|byte| byte.is_ascii_whitespace())
}

/// What stands behind the first word of a line, where it is this word.
pub(crate) fn behind_word<'a>(line: &'a [u8], word: &[u8]) -> Option<&'a [u8]>
    ensures some { IfSome result (λ rest. words_of line.now ≡ word.now ∷ words_of rest.now) }
    ensures none { IfNone result ((words : List (List ℕ)) → words_of line.now ≡ word.now ∷ words
        → ⊥) }
{
    let (first, rest) = word_at(line)?;
    if first == word { Some(rest) } else { None }
}

/// The number that a word of digits spells.
pub(crate) fn number_of(word: &[u8]) -> Option<u64>
    ensures { result ≡ number_in 64 word.now }
{
    if word.is_empty() {
        return None;
    }
    let mut number: u64 = 0;
    for byte in word {
        if !byte.is_ascii_digit() {
            return None;
        }
        let digit = u64::from(*byte - b'0');
        number = number.checked_mul(10)?.checked_add(digit)?;
    }
    Some(number)
}

/// The signed number that a word spells; `-0` spells none.
pub(crate) fn signed_of(word: &[u8]) -> Option<i64>
    ensures { result ≡ signed_in word.now }
{
    let (first, digits) = word.split_first()?;
    if *first != b'-' {
        return small_of(word);
    }
    match small_of(digits)? {
        0 => None,
        size => Some(-size),
    }
}

// The number that a word of digits spells, of 63 bits at most.
fn small_of(word: &[u8]) -> Option<i64>
    ensures { result ≡ option_map pos (number_in 63 word.now) }
{
    i64::try_from(number_of(word)?).ok()
}
