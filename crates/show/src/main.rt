// The show program: reads a recording from standard input and writes its text to standard output.
#![tactic(auto)]

use composing::TEXT_BYTES;
use limits::Recording;
use std::io::ErrorKind;

// One byte more than a file may have is enough to refuse it.
const INPUT_BYTES: usize = Recording::MAX_BYTES + 1;

// Each program has this for itself: a public function for all could promise nothing.
fn say<R: Eprint>(rt: &R, message: &str) {
    let _ = eprintln!(rt; "show: {message}");
}

// Writes all of it. A reader who has left has had what it wanted, so nothing is said of that.
fn put<R: Print + Eprint>(rt: &R, text: &[u8]) {
    if let Err(e) = rt.write_all(text) {
        if e.kind() != ErrorKind::BrokenPipe {
            say(rt, "cannot write the text");
        }
    }
}

// Writes the text of a file, or says why there is none.
fn answer<R: Print + Eprint>(rt: &R, file: &[u8]) {
    let mut text = [0u8; TEXT_BYTES];
    match showing::show_text(file, &mut text) {
        Ok(n) => put(rt, &text[..n]),
        Err(r) => {
            let _ = eprintln!(rt; "show: {r}");
        }
    }
}

#[tactic(auto, unfolding(input::specs::Input::Within))]
fn main(rt: HostRuntime) {
    let mut file = [0u8; INPUT_BYTES];
    match input::read(&mut rt.stdin(), &mut file) {
        Ok(n) => answer(&rt, &file[..n]),
        Err(_) => say(&rt, "cannot read the recording"),
    }
}
