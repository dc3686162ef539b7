// Asks question 3 or 5 of one recording. Standard input has a line of numbers, which are the question's, the two events' and, for question 5, those
// of the proposed list; behind it stand the recording's bytes. The answer is one line.
#![tactic(auto)]

use limits::Recording;
use std::io;

// The question, two events and a list. One with more entries than a recording has events has a fault among its first so many, so what is behind
// these is not asked for.
const NUMBERS: usize = 3 + Recording::PLACES;

// A line of so many numbers, with what stands behind each.
const LINE_BYTES: usize = appending::EVENT_WIDTH * NUMBERS;

// Such a line, and one byte more than a recording may have.
const INPUT_BYTES: usize = LINE_BYTES + Recording::MAX_BYTES + 1;

// Each program has this for itself: a public function for all could promise nothing.
fn say<R: Eprint>(rt: &R, message: &str) {
    let _ = eprintln!(rt; "ask: {message}");
}

// The answer to question 3: the line of a report's race where the pair is reported.
fn verdict<R: Print>(rt: &R, file: &[u8], a: u16, b: u16) -> io::Result<()> {
    let mut list = [0u16; Recording::MAX_EVENTS];
    let mut area = [0u8; Recording::AREA_BYTES];
    match questions::verdict(file, a, b, &mut list, &mut area) {
        Err(r) => print!(rt; "{r}"),
        Ok(None) => print!(rt; "not reported"),
        Ok(Some(n)) => {
            print!(rt; "race {a} {b} witness")?;
            text::list(rt, &list, n);
            Ok(())
        }
    }
}

// The answer to question 5.
fn check<R: Print>(rt: &R, file: &[u8], a: u16, b: u16, list: &[u16]) -> io::Result<()> {
    match questions::check_reordering(file, a, b, list) {
        Err(r) => print!(rt; "{r}"),
        Ok(None) => print!(rt; "yes"),
        Ok(Some(fault)) => print!(rt; "no {}", fault.number()),
    }
}

// The answer to the question of a line, which is one line; none to another number than 3 and 5.
fn ask<R: Print>(rt: &R, line: &[u8], file: &[u8]) -> io::Result<()> {
    let mut numbers = [0u16; NUMBERS];
    let n = text::numbers(line, &mut numbers);
    let start = text::at_most(3, n);
    match numbers[0] {
        3 => verdict(rt, file, numbers[1], numbers[2])?,
        5 => check(rt, file, numbers[1], numbers[2], &numbers[start..n])?,
        _ => return Ok(()),
    }
    println!(rt)
}

// The line, and the recording behind it. Where a write fails, nothing is said of it.
fn answer<R: Print + Eprint>(rt: &R, bytes: &[u8]) {
    let end = text::until(bytes, 0, b'\n');
    if LINE_BYTES <= end {
        say(rt, "the line is too long");
        return;
    }
    if end < bytes.len() {
        let _ = ask(rt, &bytes[..end], &bytes[end + 1..]);
    }
}

#[tactic(auto, unfolding(input::specs::Input::Within))]
fn main(rt: HostRuntime) {
    let mut bytes = [0u8; INPUT_BYTES];
    match input::read(&mut rt.stdin(), &mut bytes) {
        Ok(n) => answer(&rt, &bytes[..n]),
        Err(_) => say(&rt, "cannot read the recording"),
    }
}
