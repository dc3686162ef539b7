// Reads a line of a recording as text, a note line or an event line, and says why a bad one is bad. No other crate looks into a line, but for a comment's first byte.
#![tactic(auto)]

ghost use Rattle.std.specs.Prelude.{◌≡◌, ◌≤◌, length, Some};
ghost use Rattle.wording.specs.Lines.{Reads};
ghost use Rattle.wording.specs.Parts.{SaysNote, first_at, digits_from, ReadsNumber, ReadsKind, ReadsAction, ReadsEvent};
ghost use Rattle.wording.specs.Reasons.{has, begins_note, all_digits, leads_zero, number_reason, action_reason, word_reason, note_reason, reason_of, in_words};

use limits::Kind;
use std::fmt;

// The bytes of a note line before its text: the word and a space.
pub const NOTE_BYTES: usize = 5;

// The first byte of a comment.
pub const COMMENT: u8 = b'#';

// What a good line is. A note's text is the line without its first NOTE_BYTES bytes.
#[derive(Clone, Copy, PartialEq, Eq, Debug)]
pub enum Line {
    Note,
    Event { thread: u8, kind: Kind, object: u16 },
}

// Why a line is bad: the reasons, in the order in which they are looked for.
#[derive(Clone, Copy, PartialEq, Eq, Debug)]
pub enum Reason {
    Empty,
    CarriageReturn,
    Tab,
    // a good note line, which stands after an event line
    LateNote,
    // a note's text has a byte that no note may have
    NoteByte,
    // they are not three with one space between them; a word has at least one byte
    Words,
    // the second word; the others are those of the first or the third
    Kind,
    NoNumber,
    LeadingZero,
    TooLarge,
}

// The reason in words.
impl fmt::Display for Reason {
    ghost output = { λ r. Some (in_words r) };

    fn fmt<W: fmt::Write>(&self, f: &mut fmt::Formatter<W>) -> fmt::Result {
        match self {
            Reason::Empty => write!(f, "an empty line"),
            Reason::CarriageReturn => write!(f, "a carriage return"),
            Reason::Tab => write!(f, "a tab"),
            Reason::LateNote => write!(f, "a note after an event"),
            Reason::NoteByte => write!(f, "a note with a byte that is not 20 to 7E hex"),
            Reason::Words => write!(f, "not three words with one space between them"),
            Reason::Kind => write!(f, "an unknown kind"),
            Reason::NoNumber => write!(f, "not a number"),
            Reason::LeadingZero => write!(f, "a leading zero"),
            Reason::TooLarge => write!(f, "a number that is too large"),
        }
    }
}

// The first place of a byte, or the end.
pub fn first_at(s: &[u8], stop: u8) -> usize
    ensures value { result ≡ first_at stop s.now }
    ensures upper_bound { result ≤ length s.now }
{
    s.iter().position(|b| *b == stop).unwrap_or(s.len())
}

// ---- a line

fn begins_note(line: &[u8]) -> bool
    ensures { result ≡ begins_note line.now }
{
    line.starts_with(b"note ")
}

pub fn is_note(line: &[u8]) -> bool
    ensures { SaysNote line.now result }
{
    begins_note(line) && format::readable(&line[NOTE_BYTES..])
}

// The number that digits stand for.
fn read_digits(s: &[u8]) -> Option<u16>
    ensures { result ≡ digits_from 0 s.now }
{
    let mut n = 0u16;
    for b in s {
        if !b.is_ascii_digit() {
            return None;
        }
        n = n.checked_mul(10)?.checked_add(u16::from(*b - b'0'))?;
    }
    Some(n)
}

// A 0 with another byte behind it.
fn leads_zero(s: &[u8]) -> bool
    ensures { result ≡ leads_zero s.now }
{
    s.len() > 1 && s[0] == b'0'
}

// A number in decimal has a digit, and none that begins with 0 has another.
fn read_number(s: &[u8]) -> Option<u16>
    ensures { ReadsNumber s.now result }
{
    if s.is_empty() || leads_zero(s) {
        return None;
    }
    read_digits(s)
}

// The kind of a word. (Tests one by one: a `match` on the bytes goes byte by byte, and leaves a goal for each.)
fn read_kind(word: &[u8]) -> Option<Kind>
    ensures { ReadsKind word.now result }
{
    if word == b"read".as_slice() {
        return Some(Kind::Read);
    }
    if word == b"write".as_slice() {
        return Some(Kind::Write);
    }
    if word == b"acquire".as_slice() {
        return Some(Kind::Acquire);
    }
    if word == b"release".as_slice() {
        return Some(Kind::Release);
    }
    if word == b"fork".as_slice() {
        return Some(Kind::Fork);
    }
    if word == b"join".as_slice() {
        return Some(Kind::Join);
    }
    None
}

// An event line from its kind on.
fn read_action(thread: u8, s: &[u8]) -> Option<Line>
    ensures { ReadsAction thread s.now result }
{
    let end = first_at(s, b' ');
    if end == s.len() {
        return None;
    }
    let kind = read_kind(&s[..end])?;
    let object = read_number(&s[end + 1..])?;
    Some(Line::Event {
        thread,
        kind,
        object,
    })
}

fn read_event(line: &[u8]) -> Option<Line>
    ensures { ReadsEvent line.now result }
{
    let end = first_at(line, b' ');
    if end == line.len() {
        return None;
    }
    let n = read_number(&line[..end])?;
    let thread = u8::try_from(n).ok()?;
    read_action(thread, &line[end + 1..])
}

// What a line is, or `None` for a bad one.
pub fn read_line(line: &[u8]) -> Option<Line>
    ensures { Reads line.now result }
{
    if is_note(line) {
        return Some(Line::Note);
    }
    read_event(line)
}

// ---- why a line is bad

fn has(s: &[u8], b: u8) -> bool
    ensures { result ≡ has b s.now }
{
    s.contains(&b)
}

// Digits alone.
fn all_digits(s: &[u8]) -> bool
    ensures { result ≡ all_digits s.now }
{
    s.iter().all(|b| b.is_ascii_digit())
}

#[tactic(auto, unfolding(crate::specs::Reasons::number_reason))]
fn number_reason(thread: &[u8], object: &[u8]) -> Reason
    ensures { result ≡ number_reason thread.now object.now }
{
    if !all_digits(thread) || !all_digits(object) {
        return Reason::NoNumber;
    }
    if leads_zero(thread) || leads_zero(object) {
        return Reason::LeadingZero;
    }
    Reason::TooLarge
}

// By what stands behind the first word: it is to be a word, a space and a word.
#[tactic(auto, unfolding(crate::specs::Reasons::action_reason))]
fn action_reason(thread: &[u8], s: &[u8]) -> Reason
    ensures { result ≡ action_reason thread.now s.now }
{
    let end = first_at(s, b' ');
    if end == 0 {
        return Reason::Words;
    }
    // no space, or nothing behind it
    if s.len() - end < 2 {
        return Reason::Words;
    }
    if has(&s[end + 1..], b' ') {
        return Reason::Words;
    }
    if read_kind(&s[..end]).is_none() {
        return Reason::Kind;
    }
    number_reason(thread, &s[end + 1..])
}

#[tactic(auto, unfolding(crate::specs::Reasons::word_reason))]
fn word_reason(line: &[u8]) -> Reason
    ensures { result ≡ word_reason line.now }
{
    let end = first_at(line, b' ');
    if end == 0 || end == line.len() {
        return Reason::Words;
    }
    action_reason(&line[..end], &line[end + 1..])
}

#[tactic(auto, using(crate::proofs::NoteLaws::says_is), unfolding(crate::specs::Reasons::note_reason))]
fn note_reason(line: &[u8]) -> Reason
    ensures { result ≡ note_reason line.now }
{
    if is_note(line) {
        return Reason::LateNote;
    }
    if begins_note(line) {
        return Reason::NoteByte;
    }
    word_reason(line)
}

// Why a line that is bad is so: the first reason that applies to it.
#[tactic(auto, unfolding(crate::specs::Reasons::reason_of))]
pub fn reason_of(line: &[u8]) -> Reason
    ensures { result ≡ reason_of line.now }
{
    if line.is_empty() {
        return Reason::Empty;
    }
    if has(line, b'\r') {
        return Reason::CarriageReturn;
    }
    if has(line, b'\t') {
        return Reason::Tab;
    }
    note_reason(line)
}
