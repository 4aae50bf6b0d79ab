//! The cases of a file: `case TITLE` begins one, and these lines follow.
//!
//! `trim N` puts a trim over the board, `< TEXT` is a piece of input and `*N TEXT` the same N times
//! over, `> TEXT` is a line of output, and `last TEXT` the last one, where only that counts. A line
//! that begins with `#` is a comment. The letters of an escape `\xHH` are upper ones; any other
//! byte there counts as 0. Texts of several `trim` lines are one text, and an empty one is no trim.

ghost use Rattle.std.specs.Prelude.{◌≡◌, ◌+◌, ◌<◌, ◌≤◌, [], ◌∷◌, ◌++◌, length, None, IfSome, OnOk, string_bytes};
ghost use Rattle.conformance.specs.Asked.{amount_text, lasting};

use std::alloc::{AllocError, Global};

/// One case.
#[derive(Drop)]
pub struct Case {
    pub title: String,
    /// The amount of the trim, as text, where there is one; it is never empty.
    pub trim: Option<String>,
    pub input: Vec<u8>,
    /// The lines of output that the case names, each with its line feed.
    pub wanted: String,
    pub compared: Compared,
}

/// How output is compared with the lines that a case names.
#[derive(Clone, Copy, PartialEq, Eq)]
pub enum Compared {
    Whole,
    /// Only the last line counts.
    Last,
    /// Some line of the case was none of those above, so nothing agrees with it.
    NotUnderstood,
}

/// The cases of a file.
pub(crate) fn read_cases(heap: Global, text: &str) -> Result<Vec<Case>, AllocError> {
    let mut cases = Vec::new(heap);
    for line in text.lines() {
        if let Some(title) = line.strip_prefix("case ") {
            cases.push(Case::new(heap, title)?)?;
        } else if let Some(case) = cases.last_mut() {
            case.read(heap, line)?;
        }
    }
    Ok(cases)
}

impl Case {
    fn new(heap: Global, title: &str) -> Result<Case, AllocError> {
        Ok(Case {
            title: String::from_str(heap, title)?,
            trim: None,
            input: Vec::new(heap),
            wanted: String::new(heap),
            compared: Compared::Whole,
        })
    }

    /// Takes in a line after the title.
    fn read(&mut self, heap: Global, line: &str) -> Result<(), AllocError> {
        if line.is_empty() || line.starts_with('#') {
            return Ok(());
        }
        if let Some(amount) = line.strip_prefix("trim ") {
            self.add_to_trim(heap, amount)?;
        } else if let Some(piece) = line.strip_prefix("< ") {
            self.feed(heap, piece, 1)?;
        } else if let Some(repeated) = line.strip_prefix("*") {
            self.feed_often(heap, repeated)?;
        } else if let Some(text) = line.strip_prefix("> ") {
            self.expect(text)?;
        } else if let Some(text) = line.strip_prefix("last ") {
            self.expect_last(text)?;
        } else {
            self.compared = Compared::NotUnderstood;
        }
        Ok(())
    }

    /// Adds to the amount of the trim. The text of a second line goes on from that of the first, and without text there is
    /// no trim.
    fn add_to_trim(&mut self, heap: Global, amount: &str) -> Result<(), AllocError>
        ensures joined { OnOk result (amount_text self.new.trim ≡ amount_text self.old.trim ++ amount.now) }
        ensures none { self.old.trim ≡ None → amount.now ≡ [] → self.new.trim ≡ None }
    {
        match &mut self.trim {
            Some(text) => text.push_str(amount),
            None if amount.is_empty() => Ok(()),
            None => {
                self.trim = Some(String::from_str(heap, amount)?);
                Ok(())
            }
        }
    }

    /// Adds a line of output.
    fn expect(&mut self, text: &str) -> Result<(), AllocError>
        ensures lines { OnOk result (string_bytes self.new.wanted ≡ string_bytes self.old.wanted ++ (text.now ++ (10 ∷ []))) }
        ensures compared { self.new.compared ≡ self.old.compared }
    {
        self.wanted.push_str(text)?;
        self.wanted.push('\n')
    }

    /// Adds a line of output, and only the last one counts from now on.
    fn expect_last(&mut self, text: &str) -> Result<(), AllocError>
        ensures lines { OnOk result (string_bytes self.new.wanted ≡ string_bytes self.old.wanted ++ (text.now ++ (10 ∷ []))) }
        ensures compared { self.new.compared ≡ lasting self.old.compared }
    {
        if self.compared == Compared::Whole {
            self.compared = Compared::Last;
        }
        self.expect(text)
    }

    /// Adds a piece of input: a count, a blank, and what is to come so often.
    fn feed_often(&mut self, heap: Global, repeated: &str) -> Result<(), AllocError> {
        let counted = repeated
            .split_once(' ')
            .and_then(|(count, piece)| Some((count.parse().ok()?, piece)));
        match counted {
            Some((count, piece)) => self.feed(heap, piece, count),
            None => {
                self.compared = Compared::NotUnderstood;
                Ok(())
            }
        }
    }

    /// Adds a piece of input so many times.
    fn feed(&mut self, heap: Global, piece: &str, count: u64) -> Result<(), AllocError> {
        let bytes = unescaped(heap, piece)?;
        for _ in 0..count {
            self.input.extend_from_slice(bytes.as_slice())?;
        }
        Ok(())
    }
}

/// The bytes that a text stands for: `\n`, `\r`, `\t`, `\\` and `\xHH` are one each.
fn unescaped(heap: Global, text: &str) -> Result<Vec<u8>, AllocError> {
    let mut bytes = Vec::new(heap);
    let mut rest = text.as_bytes();
    while let Some((byte, behind)) = first_byte(rest) {
        bytes.push(byte)?;
        rest = behind;
    }
    Ok(bytes)
}

/// The byte that a text stands for first, and the text behind it; an escape that the text breaks off stands for nothing.
fn first_byte(text: &[u8]) -> Option<(u8, &[u8])>
    ensures shorter { IfSome result (λ r. length r.1.now < length text.now) }
{
    match text {
        [b'\\', b'x', high, low, rest @ ..] => {
            Some((
                digit(*high).wrapping_mul(16).wrapping_add(digit(*low)),
                rest,
            ))
        }
        [b'\\'] | [b'\\', b'x'] | [b'\\', b'x', _] => None,
        [b'\\', letter, rest @ ..] => Some((named(*letter), rest)),
        [byte, rest @ ..] => Some((*byte, rest)),
        [] => None,
    }
}

/// The byte of an escape with one letter.
fn named(letter: u8) -> u8 {
    match letter {
        b'n' => b'\n',
        b'r' => b'\r',
        b't' => b'\t',
        other => other,
    }
}

/// The value of a hexadecimal digit with upper letters; anything else counts as 0.
fn digit(byte: u8) -> u8
    ensures figure { 48 ≤ byte → byte ≤ 57 → result + 48 ≡ byte }
    ensures upper { 65 ≤ byte → byte ≤ 70 → result + 55 ≡ byte }
    ensures other { 71 ≤ byte → result ≡ 0 }
{
    match char::from(byte).to_digit(16) {
        Some(value) if !byte.is_ascii_lowercase() => value as u8,
        _ => 0,
    }
}
