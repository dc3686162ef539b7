// Reads a recording from text: note lines, then event lines, and comments anywhere. No other crate reads such a text.
#![tactic(auto)]

ghost use Rattle.std.specs.Prelude.{◌≡◌, ◌+◌, ◌≤◌, ◌<◌, length};
ghost use Rattle.composing.specs.Texts.{lines, line_of, Lent, ReadsText};
ghost use Rattle.composing.specs.Parts.{note_bytes, LineEnd, NextLine, Skips, NextSaid, NotesUpTo, ListsLent, ReadsEvents, StopsAt, BadAt};
ghost use Rattle.appending.specs.Appended.{Appends};

use format::NoteByte;
use limits::Recording;
use wording::{COMMENT, Line, NOTE_BYTES, Reason};

// The loops over lines go from the place where one begins to where the next does. An iterator over the lines would be no plainer: the place at which
// a loop stops is what it hands on, and it would be counted beside.

// The most bytes of a text: eight for each byte of the longest file. Six are enough for its text; the others are for comments.
pub const TEXT_BYTES: usize = 8 * Recording::MAX_BYTES;

// How many note lines, bytes of preamble and events a text has.
#[derive(Clone, Copy, PartialEq, Eq, Debug)]
pub struct Parts {
    pub notes: usize,
    pub preamble: usize,
    pub events: usize,
}

// The number of the first bad line of a text, and why it is bad.
#[derive(Clone, Copy, PartialEq, Eq, Debug)]
pub struct BadLine {
    pub number: usize,
    pub reason: Reason,
}

// The note lines at the front of a text: how many they are, the bytes of the preamble, and where the first other line begins.
#[derive(Clone, Copy)]
pub struct Notes {
    pub lines: usize,
    pub bytes: usize,
    pub end: usize,
}

// How many event lines there are, and where the first other line behind them begins, if there is one.
#[derive(Clone, Copy)]
pub struct Events {
    pub count: usize,
    pub stop: Option<usize>,
}

// Where the line that begins at a place ends.
fn line_end(text: &[u8], at: usize) -> usize
    requires { at < length text.now }
    ensures { LineEnd text.now at result }
{
    at + wording::first_at(&text[at..], NoteByte::LINE_FEED)
}

// Where the line after it begins, or the end.
fn next_line(text: &[u8], at: usize) -> usize
    requires { at < length text.now }
    ensures { NextLine text.now at result }
{
    (line_end(text, at) + 1).min(text.len())
}

// Where the first line from a place on begins that is no comment, or the end.
fn skip_comments(text: &[u8], from: usize) -> usize
    requires { from ≤ length text.now }
    ensures { Skips text.now from result }
{
    let mut at = from;
    while at < text.len() && text[at] == COMMENT {
        at = next_line(text, at);
    }
    at
}

// The same behind the end of a line.
fn next_said(text: &[u8], end: usize) -> usize
    requires { end ≤ length text.now }
    ensures { NextSaid text.now end result }
{
    if end == text.len() {
        return end;
    }
    skip_comments(text, end + 1)
}

// The number of the line that is the m-th of those that are no comments.
pub fn line_of(text: &[u8], m: usize) -> Option<usize>
    ensures { result ≡ line_of m (lines text.now) }
{
    let mut seen = 0;
    let mut number = 0usize;
    let mut at = 0;
    while at < text.len() {
        let next = next_line(text, at);
        number += 1;
        if text[at] != COMMENT {
            seen += 1;
            if seen == m {
                return Some(number);
            }
        }
        at = next;
    }
    None
}

// Puts the text of a note line behind those of the note lines before it.
fn put_note(preamble: &mut [u8], at: usize, lines: usize, text: &[u8]) -> usize
    requires { at + 1 + length text.now ≤ length preamble.old }
    ensures { Appends (note_bytes lines text.now) at preamble.old preamble.new result }
{
    if lines == 0 {
        return appending::put_word(preamble, at, text);
    }
    let end = appending::put_byte(preamble, at, NoteByte::LINE_FEED);
    appending::put_word(preamble, end, text)
}

fn read_notes(text: &[u8], preamble: &mut [u8]) -> Notes
    requires { length text.now ≤ length preamble.old }
    ensures { NotesUpTo text.now preamble.old preamble.new result.lines result.bytes result.end }
{
    let mut lines = 0;
    let mut bytes = 0;
    let mut at = skip_comments(text, 0);
    while at < text.len() {
        let end = line_end(text, at);
        let line = &text[at..end];
        if !wording::is_note(line) {
            return Notes {
                lines,
                bytes,
                end: at,
            };
        }
        bytes = put_note(preamble, bytes, lines, &line[NOTE_BYTES..]);
        lines += 1;
        at = next_said(text, end);
    }
    Notes {
        lines,
        bytes,
        end: at,
    }
}

fn read_events(
    text: &[u8],
    from: usize,
    threads: &mut [u8],
    kinds: &mut [u8],
    objects: &mut [u16],
) -> Events
    requires { ListsLent text.now from threads.old kinds.old objects.old }
    ensures { ReadsEvents text.now from threads.old threads.new kinds.old kinds.new objects.old objects.new result }
{
    let mut count = 0;
    let mut at = from;
    while at < text.len() {
        let end = line_end(text, at);
        let Some(
            Line::Event {
                thread,
                kind,
                object,
            },
        ) = wording::read_line(&text[at..end])
        else {
            return Events {
                count,
                stop: Some(at),
            };
        };
        threads[count] = thread;
        kinds[count] = kind.number();
        objects[count] = object;
        count += 1;
        at = next_said(text, end);
    }
    Events { count, stop: None }
}

// The bad line that begins at a place, behind so many note lines and event lines.
fn bad_line(text: &[u8], notes: usize, events: usize, at: usize) -> BadLine
    requires { StopsAt text.now notes events at }
    ensures { BadAt text.now (notes + events + 1) at result }
{
    let number = line_of(text, notes + events + 1).unwrap();
    let end = line_end(text, at);
    BadLine {
        number,
        reason: wording::reason_of(&text[at..end]),
    }
}

// Reads a text: the preamble and the events stand in the front of what is lent then, the events in the three lists that the writer takes.
pub fn read_text(
    text: &[u8],
    preamble: &mut [u8],
    threads: &mut [u8],
    kinds: &mut [u8],
    objects: &mut [u16],
) -> Result<Parts, BadLine>
    requires { Lent text.now preamble.old threads.old kinds.old objects.old }
    ensures { ReadsText text.now preamble.old preamble.new threads.old threads.new kinds.old kinds.new objects.old objects.new result }
{
    let notes = read_notes(text, preamble);
    let events = read_events(text, notes.end, threads, kinds, objects);
    if let Some(at) = events.stop {
        return Err(bad_line(text, notes.lines, events.count, at));
    }
    Ok(Parts {
        notes: notes.lines,
        preamble: notes.bytes,
        events: events.count,
    })
}
