// Answers as numbers, for other languages: each has its case in the lowest byte, and up to two numbers behind it.
#![tactic(auto)]

ghost use Rattle.std.specs.Prelude.{◌≡◌};
ghost use Rattle.numbers.specs.Numbers.{parts, packed};
ghost use Rattle.numbers.specs.Packed.{of_refusal, of_judgement, of_observed, of_observations, of_finding, of_next, of_check, of_noted, of_written, NotedSmall, WrittenSmall};

use limits::Refusal;
use questions::{Counts, Observed, Pair};

// The cases of the answers: numbers, since other languages read them. A refusal's case is the paper's number, which is lower.
const GOOD: u8 = 100;

const WRITE: u8 = 101;

const START: u8 = 102;

const NOT_A_READ: u8 = 103;

const GIVEN: u8 = 104;

const REPORTED: u8 = 105;

const NOT_REPORTED: u8 = 106;

const RACE: u8 = 107;

const NO_RACE: u8 = 108;

const YES: u8 = 109;

const NO: u8 = 110;

const NOTE_IN_FILE: u8 = 111;

const NOTE_OF_OPERATOR: u8 = 112;

const WRITTEN: u8 = 113;

// A case and the two numbers that go with it.
#[tactic(auto, unfolding(crate::specs::Numbers::packed))]
fn number(case: u8, first: u16, second: u32) -> u64
    ensures { result ≡ packed (parts case first second) }
{
    case as u64 + 256 * (first as u64 + 65536 * second as u64)
}

fn refusal(r: Refusal) -> u64
    ensures { result ≡ packed (of_refusal r) }
{
    match r.event() {
        None => number(r.number(), 0, 0),
        Some(k) => number(r.number(), k, 0),
    }
}

// ---- an answer as its number

pub fn of_judgement(j: Result<Counts, Refusal>) -> u64
    ensures { result ≡ packed (of_judgement j) }
{
    match j {
        Err(r) => refusal(r),
        Ok(c) => number(GOOD, c.events, c.threads),
    }
}

pub fn of_observed(o: Result<Observed, Refusal>) -> u64
    ensures { result ≡ packed (of_observed o) }
{
    match o {
        Err(r) => refusal(r),
        Ok(Observed::Write(w)) => number(WRITE, w, 0),
        Ok(Observed::Start) => number(START, 0, 0),
        Ok(Observed::NotARead) => number(NOT_A_READ, 0, 0),
    }
}

pub fn of_observations(o: Result<u16, Refusal>) -> u64
    ensures { result ≡ packed (of_observations o) }
{
    match o {
        Err(r) => refusal(r),
        Ok(n) => number(GIVEN, n, 0),
    }
}

pub fn of_finding(f: Result<Option<u16>, Refusal>) -> u64
    ensures { result ≡ packed (of_finding f) }
{
    match f {
        Err(r) => refusal(r),
        Ok(Some(length)) => number(REPORTED, length, 0),
        Ok(None) => number(NOT_REPORTED, 0, 0),
    }
}

pub fn of_next(n: Result<Option<Pair>, Refusal>) -> u64
    ensures { result ≡ packed (of_next n) }
{
    match n {
        Err(r) => refusal(r),
        Ok(Some(race)) => number(RACE, race.lower, race.higher as u32),
        Ok(None) => number(NO_RACE, 0, 0),
    }
}

// A fault is told by its number, as the answer has it: any number can be told.
pub fn of_check(c: Result<Option<u8>, Refusal>) -> u64
    ensures { result ≡ packed (of_check c) }
{
    match c {
        Err(r) => refusal(r),
        Ok(None) => number(YES, 0, 0),
        Ok(Some(fault)) => number(NO, u16::from(fault), 0),
    }
}

// A note of a file has fewer bytes than a file may have.
pub fn of_noted(n: Option<usize>) -> u64
    requires { NotedSmall n }
    ensures { result ≡ packed (of_noted n) }
{
    match n {
        Some(m) => number(NOTE_IN_FILE, m as u16, 0),
        None => number(NOTE_OF_OPERATOR, 0, 0),
    }
}

// What is written has no more bytes than a file may have.
pub fn of_written(w: Result<usize, Refusal>) -> u64
    requires { WrittenSmall w }
    ensures { result ≡ packed (of_written w) }
{
    match w {
        Err(r) => refusal(r),
        Ok(n) => number(WRITTEN, n as u16, 0),
    }
}
