// The nightly program: reads one file from standard input and writes its report to standard output.
#![tactic(auto)]

ghost use Rattle.report.specs.Rest.{at_start};
ghost use Rattle.report.specs.Writing.{Starting, Writing};

use limits::Recording;
use report::Position;
use std::io;
use std::io::ErrorKind;
use table::Table;

// One byte more than a file may have is enough to refuse it.
const INPUT_BYTES: usize = Recording::MAX_BYTES + 1;

// The report is written in blocks of some lines: eight of the longest.
const BLOCK_BYTES: usize = 8 * lines::LINE_BYTES;

// Each program has this for itself: a public function for all could promise nothing.
fn say<R: Eprint>(rt: &R, message: &str) {
    let _ = eprintln!(rt; "nightly: {message}");
}

// The report of a good file, block by block.
fn write_blocks<R: Print>(rt: &R, table: &Table, list: &mut [u16], out: &mut [u8]) -> io::Result<()>
    requires { Writing table.now at_start list.old 0 out.old }
{
    let mut next = Some(Position::start());
    while let Some(position) = next {
        let progress = report::block(table, position, list, out);
        rt.write_all(&out[..progress.bytes])?;
        next = progress.next;
    }
    Ok(())
}

// The same with a new list.
fn write_lines<R: Print>(rt: &R, table: &Table, out: &mut [u8]) -> io::Result<()>
    requires { Starting table.now at_start out.old }
{
    let mut list = [0u16; Recording::MAX_EVENTS];
    write_blocks(rt, table, &mut list, out)
}

// Judges a file and builds its table once, and writes its report.
fn write_report<R: Print>(rt: &R, file: &[u8]) -> io::Result<()> {
    let mut rows = [0u16; table::ROOM];
    let mut out = [0u8; BLOCK_BYTES];
    match opening::table_of(file, &mut rows) {
        Err(r) => {
            let n = lines::refused(&mut out, 0, r);
            rt.write_all(&out[..n])
        }
        Ok(n) => write_lines(rt, &Table { words: &rows[..n] }, &mut out),
    }
}

#[tactic(auto, unfolding(input::specs::Input::Within))]
fn main(rt: HostRuntime) {
    let mut file = [0u8; INPUT_BYTES];
    let Ok(n) = input::read(&mut rt.stdin(), &mut file) else {
        say(&rt, "cannot read the recording");
        return;
    };
    if let Err(e) = write_report(&rt, &file[..n]) {
        // A reader who has left has had what it wanted, so nothing is said of that.
        if e.kind() != ErrorKind::BrokenPipe {
            say(&rt, "cannot write the report");
        }
    }
}
