// A recording as the text that makes it. No other crate puts such a text together.
#![tactic(auto)]

ghost use Rattle.std.specs.Prelude.{◌≡◌, ◌+◌, ◌*◌, ◌≤◌, length};
ghost use Rattle.limits.specs.Kinds.{kind_number};
ghost use Rattle.format.specs.Bytes.{trace_in};
ghost use Rattle.appending.specs.Decimal.{decimal};
ghost use Rattle.appending.specs.Appended.{Appends, AppendsShort};
ghost use Rattle.showing.specs.Shown.{text_of, answer_show};
ghost use Rattle.showing.specs.Pieces.{note_byte, byte_width, notes_text, spaced_kind, event_text, event_text_at, events_text, event_line_bytes, GoodAt, EventsLent, TextLent};

use appending::{put_byte, put_decimal, put_word};
use composing::TEXT_BYTES;
use format::NoteByte;
use limits::{Kind, Recording, Refusal};

// ---- the notes

// A byte of the preamble. Behind a line feed the next note line begins.
fn put_note_byte(out: &mut [u8], at: usize, b: u8) -> usize
    requires { at + byte_width ≤ length out.old }
    ensures { AppendsShort byte_width (note_byte b) at out.old out.new result }
{
    let end = put_byte(out, at, b);
    if b != NoteByte::LINE_FEED {
        return end;
    }
    put_word(out, end, b"note ")
}

// The note lines of a preamble, in the front of the buffer. An empty one has none.
fn put_notes(out: &mut [u8], preamble: &[u8]) -> usize
    requires { byte_width * length preamble.now + byte_width ≤ length out.old }
    ensures { Appends (notes_text preamble.now) 0 out.old out.new result }
{
    if preamble.is_empty() {
        return 0;
    }
    let mut end = put_word(out, 0, b"note ");
    for b in preamble {
        end = put_note_byte(out, end, *b);
    }
    put_byte(out, end, NoteByte::LINE_FEED)
}

// ---- the events

// A thread's number.
fn put_thread(out: &mut [u8], at: usize, thread: u8) -> usize
    requires { at + 3 ≤ length out.old }
    ensures { AppendsShort 3 (decimal thread) at out.old out.new result }
{
    put_decimal(out, at, u32::from(thread))
}

// A kind's word after a space.
#[tactic(auto, using(crate::proofs::PutLaws::kind_put), unfolding(wording::specs::Lines::kind_word))]
fn put_kind(out: &mut [u8], at: usize, kind: Kind) -> usize
    requires { at + 8 ≤ length out.old }
    ensures { AppendsShort 8 (spaced_kind (kind_number kind)) at out.old out.new result }
{
    match kind {
        Kind::Read => put_word(out, at, b" read"),
        Kind::Write => put_word(out, at, b" write"),
        Kind::Acquire => put_word(out, at, b" acquire"),
        Kind::Release => put_word(out, at, b" release"),
        Kind::Fork => put_word(out, at, b" fork"),
        Kind::Join => put_word(out, at, b" join"),
    }
}

// An event's line.
fn put_line(out: &mut [u8], at: usize, thread: u8, kind: Kind, object: u16) -> usize
    requires { at + event_line_bytes ≤ length out.old }
    ensures { AppendsShort event_line_bytes (event_text (record { thread = thread; kind = kind_number kind; object = object })) at out.old out.new result }
{
    let first = put_thread(out, at, thread);
    let second = put_kind(out, first, kind);
    let third = appending::put_event(out, second, object);
    put_byte(out, third, NoteByte::LINE_FEED)
}

// The line of event k.
fn put_event(out: &mut [u8], at: usize, ev: &[u8], k: usize) -> usize
    requires good_at { GoodAt ev.now k }
    requires event_line_bytes_in_bounds { at + event_line_bytes ≤ length out.old }
    ensures { AppendsShort event_line_bytes (event_text_at ev.now k) at out.old out.new result }
{
    let thread = format::thread_at(ev, k);
    let kind = Kind::try_from(format::kind_at(ev, k)).unwrap();
    put_line(out, at, thread, kind, format::object_at(ev, k) as u16)
}

// The lines of all events.
fn put_events(out: &mut [u8], at: usize, ev: &[u8]) -> usize
    requires { EventsLent ev.now out.old at }
    ensures { Appends (events_text (trace_in ev.now)) at out.old out.new result }
{
    let mut end = at;
    for k in 1..format::count(ev) + 1 {
        end = put_event(out, end, ev, k);
    }
    end
}

// ---- the text

// The text of a good file whose events begin where t says.
fn put_text(out: &mut [u8], file: &[u8], t: Recording) -> usize
    requires { TextLent file.now t out.old }
    ensures { Appends (text_of file.now) 0 out.old out.new result }
{
    let start = t.start;
    let end = put_notes(out, &file[..start]);
    put_events(out, end, format::events(file, t))
}

// Puts the text of a file in the front of the lent bytes: how many bytes it has. Fewer of them than a text may have are refusal 10.
pub fn show_text(file: &[u8], text: &mut [u8]) -> Result<usize, Refusal>
    ensures { (result, text.new) ≡ answer_show file.now text.old }
{
    let t = judging::judge(file)?;
    if text.len() < TEXT_BYTES {
        return Err(Refusal::ListShort);
    }
    Ok(put_text(text, file, t))
}
