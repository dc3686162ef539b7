// The nightly report of a file, in a lent buffer: as many lines as surely fit, from place to place.
#![tactic(auto)]

ghost use Rattle.std.specs.Prelude.{◌*◌, ◌≤◌, ◌≡◌, true};
ghost use Rattle.table.specs.Judged.{events};
ghost use Rattle.appending.specs.Appended.{Appends};
ghost use Rattle.lines.specs.Room.{Room};
ghost use Rattle.report.specs.Report.{first_line};
ghost use Rattle.report.specs.Rest.{max_races, at_start, races_from, lines_from, lines_at};
ghost use Rattle.report.specs.Places.{position_of, is_place, answer_lines};
ghost use Rattle.report.specs.Writing.{Starting, Writing, placed, Advances, Writes, Fills};

use limits::Recording;
use lines::LINE_BYTES;
use table::Table;

// No recording has more races than this: pairs of events.
const MAX_RACES: u32 = (Recording::MAX_EVENTS * Recording::MAX_EVENTS) as u32;

// A position in the report of a good file: what comes next, 0 for the first line and 1 for a race's or the last; the two numbers after which
// the next race comes, and how many races stand before it. These are the four words of a place, which is the C interface.
#[derive(Clone, Copy)]
pub struct Position {
    pub next: u32,
    pub lower: u16,
    pub higher: u16,
    pub count: u32,
}

impl Position {
    // In front of the first line.
    pub fn start() -> Position
        ensures { result ≡ at_start }
    {
        Position {
            next: 0,
            lower: 0,
            higher: 0,
            count: 0,
        }
    }
}

// After some lines: the bytes in use, and the position to go on from. There is none where the report has ended.
#[derive(Clone, Copy)]
pub struct Progress {
    pub bytes: usize,
    pub next: Option<Position>,
}

// The first line of a good file's report.
fn first_line(table: &Table, out: &mut [u8], at: usize) -> usize
    requires { Room at out.old }
    ensures { Appends (first_line (events table.now)) at out.old out.new result }
{
    let events = table.count();
    let threads = table.threads();
    lines::events(out, at, events as u16, threads)
}

// The next race's line, or the last line. The race and its witness come from one asking.
fn race_line(table: &Table, p: Position, list: &mut [u16], out: &mut [u8], at: usize) -> Progress
    requires { Writing table.now p list.old at out.old }
    ensures { Advances (events table.now) (races_from (events table.now) p) list.old list.new at out.old out.new result }
{
    match races::next_race(table, p.lower, p.higher, list) {
        None => Progress {
            bytes: lines::races(out, at, p.count),
            next: None,
        },
        Some(race) => {
            let witness = &list[..race.length as usize];
            Progress {
                bytes: lines::race(out, at, race.lower, race.higher, witness),
                next: Some(Position {
                    next: 1,
                    lower: race.lower,
                    higher: race.higher,
                    count: p.count + 1,
                }),
            }
        }
    }
}

// The line that comes next at a position.
#[tactic(auto, unfolding(crate::specs::Rest::lines_from))]
fn line(table: &Table, p: Position, list: &mut [u16], out: &mut [u8], at: usize) -> Progress
    requires { Writing table.now p list.old at out.old }
    ensures { Advances (events table.now) (lines_from (events table.now) p) list.old list.new at out.old out.new result }
{
    if p.next != 0 {
        return race_line(table, p, list, out, at);
    }
    Progress {
        bytes: first_line(table, out, at),
        next: Some(Position { next: 1, ..p }),
    }
}

// The lines from a position on, as many as surely fit, in the front of a buffer.
pub fn block(table: &Table, p: Position, list: &mut [u16], out: &mut [u8]) -> Progress
    requires { Writing table.now p list.old 0 out.old }
    ensures { Fills (events table.now) p list.old list.new out.old out.new result }
{
    let mut position = p;
    let mut bytes = 0;
    // A `loop`: what the line says tells whether another follows. The line is called in one place, so that it is compiled into this.
    loop {
        let progress = line(table, position, list, out, bytes);
        let Some(next) = progress.next else {
            return progress;
        };
        if out.len() - progress.bytes < LINE_BYTES {
            return progress;
        }
        position = next;
        bytes = progress.bytes;
    }
}

// The same with a new list.
fn new_block(table: &Table, p: Position, out: &mut [u8]) -> Progress
    requires { Starting table.now p out.old }
    ensures { Writes (lines_from (events table.now) p) out.old out.new result }
{
    let mut list = [0u16; Recording::MAX_EVENTS];
    block(table, p, &mut list, out)
}

// The lines of a file's report from a position on, as many as surely fit, in the front of a buffer.
fn lines_at(file: &[u8], p: Position, out: &mut [u8]) -> Progress
    requires { Room 0 out.old × (p.count ≤ max_races) }
    ensures { Writes (lines_at file.now p) out.old out.new result }
{
    let mut rows = [0u16; table::ROOM];
    match opening::table_of(file, &mut rows) {
        Err(r) => Progress {
            bytes: lines::refused(out, 0, r),
            next: None,
        },
        Ok(n) => new_block(&Table { words: &rows[..n] }, p, out),
    }
}

// A caller keeps its place as four words: they are the C interface.

// Do four words say a place in a report?
fn is_place(place: &[u32; 4]) -> bool
    ensures { result ≡ is_place place.now }
{
    place[0] <= 1 && place[1] <= 65535 && place[2] <= 65535 && place[3] <= MAX_RACES
}

// The position that they say.
fn position_of(place: &[u32; 4]) -> Position
    requires { is_place place.now ≡ true }
    ensures { result ≡ position_of place.now }
{
    Position {
        next: place[0],
        lower: place[1] as u16,
        higher: place[2] as u16,
        count: place[3],
    }
}

// Puts the words of where to go on; gives how many bytes are in use.
fn put_place(place: &mut [u32; 4], progress: Progress) -> usize
    ensures { (result, place.new) ≡ placed progress }
{
    *place = match progress.next {
        None => [2, 0, 0, 0],
        Some(p) => [p.next, u32::from(p.lower), u32::from(p.higher), p.count],
    };
    progress.bytes
}

// The next lines of a file's report, as many as surely fit, in the front of a buffer; how many bytes they are. The place says where to go on; all
// zeros is the start.
#[tactic(auto, unfolding(crate::specs::Places::answer_lines))]
pub fn next_lines(file: &[u8], place: &mut [u32; 4], out: &mut [u8]) -> usize
    ensures { (result, place.new, out.new) ≡ answer_lines file.now place.old out.old }
{
    if out.len() < LINE_BYTES {
        return 0;
    }
    if !is_place(place) {
        return 0;
    }
    let p = position_of(place);
    put_place(place, lines_at(file, p, out))
}
