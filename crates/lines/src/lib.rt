// The lines of the nightly report, written into a lent buffer behind the bytes that are in use. Each function takes how many are in use and
// gives how many are then.
#![tactic(auto)]

ghost use Rattle.std.specs.Prelude.{◌+◌, ◌*◌, ◌≤◌, length};
ghost use Rattle.appending.specs.Decimal.{event_width};
ghost use Rattle.appending.specs.Appended.{Appends, AppendsShort};
ghost use Rattle.lines.specs.Lines.{spaced_all, race_head, at_event, events_line, race_line, races_line, refused_line};
ghost use Rattle.lines.specs.Room.{head_width, Room, RaceRoom};

use appending::EVENT_WIDTH;
use limits::{Recording, Refusal};

// The most bytes of the line of a race as far as its witness: `race`, two numbers, ` witness`.
const HEAD_WIDTH: usize = 12 + 2 * EVENT_WIDTH;

// The room in which every line fits: the longest is that of a race whose witness has a number for each event.
pub const LINE_BYTES: usize = HEAD_WIDTH + EVENT_WIDTH * Recording::MAX_EVENTS + 1;

// Numbers, each after a space.
fn put_events(out: &mut [u8], at: usize, list: &[u16]) -> usize
    requires { at + event_width * length list.now ≤ length out.old }
    ensures { AppendsShort (event_width * length list.now) (spaced_all list.now) at out.old out.new result }
{
    let mut end = at;
    for k in list {
        end = appending::put_event(out, end, *k);
    }
    end
}

pub fn events(out: &mut [u8], at: usize, n: u16, m: u32) -> usize
    requires { Room at out.old }
    ensures { Appends (events_line n m) at out.old out.new result }
{
    let word = appending::put_word(out, at, b"events");
    let number = appending::put_event(out, word, n);
    let second = appending::put_word(out, number, b" threads");
    let end = appending::put_number(out, second, m);
    appending::put_byte(out, end, b'\n')
}

// The line of a race as far as its witness.
fn put_race(out: &mut [u8], at: usize, a: u16, b: u16) -> usize
    requires { at + head_width ≤ length out.old }
    ensures { AppendsShort head_width (race_head a b) at out.old out.new result }
{
    let word = appending::put_word(out, at, b"race");
    let lower = appending::put_event(out, word, a);
    let higher = appending::put_event(out, lower, b);
    appending::put_word(out, higher, b" witness")
}

// The line of a race with its witness.
pub fn race(out: &mut [u8], at: usize, a: u16, b: u16, witness: &[u16]) -> usize
    requires { RaceRoom at witness.now out.old }
    ensures { Appends (race_line a b witness.now) at out.old out.new result }
{
    let head = put_race(out, at, a, b);
    let end = put_events(out, head, witness);
    appending::put_byte(out, end, b'\n')
}

pub fn races(out: &mut [u8], at: usize, k: u32) -> usize
    requires { Room at out.old }
    ensures { Appends (races_line k) at out.old out.new result }
{
    let word = appending::put_word(out, at, b"races");
    let end = appending::put_number(out, word, k);
    appending::put_byte(out, end, b'\n')
}

// The event that a refusal speaks of, where there is one.
fn put_at(out: &mut [u8], at: usize, e: Option<u16>) -> usize
    requires { at + 9 ≤ length out.old }
    ensures { AppendsShort 9 (at_event e) at out.old out.new result }
{
    match e {
        None => at,
        Some(k) => {
            let word = appending::put_word(out, at, b" at");
            appending::put_event(out, word, k)
        }
    }
}

pub fn refused(out: &mut [u8], at: usize, r: Refusal) -> usize
    requires { Room at out.old }
    ensures { Appends (refused_line r) at out.old out.new result }
{
    let word = appending::put_word(out, at, b"refused");
    let number = appending::put_number(out, word, r.number() as u32);
    let end = put_at(out, number, r.event());
    appending::put_byte(out, end, b'\n')
}
