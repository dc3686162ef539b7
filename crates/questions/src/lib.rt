// The public questions. Each takes a file's bytes, judges them first, and asks nothing of its caller. The writer, which asks nothing either,
// is `write_file` of the crate writing.
#![tactic(auto, using(crate::proofs::AnswerLaws::asked))]

ghost use Rattle.std.specs.Prelude.{◌≡◌};
ghost use Rattle.questions.specs.Answers.{answer_judge, answer_observed};
ghost use Rattle.questions.specs.Observations.{answer_observations};
ghost use Rattle.questions.specs.Verdicts.{answer_verdict, answer_next, answer_check};
ghost use Rattle.questions.specs.Note.{whole, answer_noted, answer_note};

pub use checking::Fault;
use limits::Refusal;
pub use observing::{Observed, answer_of};
use table::Table;
pub use verdicts::Pair;
pub use writing::write_file;

// How many events a good file has, and how many different threads have one.
#[derive(Clone, Copy, PartialEq, Eq, Debug)]
pub struct Counts {
    pub events: u16,
    pub threads: u32,
}

// Question 1: is the file good, with how many events and threads?
pub fn judge(file: &[u8]) -> Result<Counts, Refusal>
    ensures { result ≡ answer_judge file.now }
{
    let mut rows = [0u16; table::ROOM];
    let n = opening::table_of(file, &mut rows)?;
    let table = Table { words: &rows[..n] };
    Ok(Counts {
        events: table.count() as u16,
        threads: table.threads(),
    })
}

// Question 2: which write does event k see?
pub fn observed_write(file: &[u8], k: u16) -> Result<Observed, Refusal>
    ensures { result ≡ answer_observed file.now k }
{
    let mut rows = [0u16; table::ROOM];
    let n = opening::table_of(file, &mut rows)?;
    let table = Table { words: &rows[..n] };
    Ok(observing::observed_in(&table, k))
}

// Question 2 for all events at once: entry k of the lent list is the answer for number k, from 0 on, and `answer_of` says which one. Gives how many
// events have their entry.
pub fn observed_writes(file: &[u8], list: &mut [u16]) -> Result<u16, Refusal>
    ensures { (result, list.new) ≡ answer_observations file.now list.old }
{
    let mut rows = [0u16; table::ROOM];
    let n = opening::table_of(file, &mut rows)?;
    let table = Table { words: &rows[..n] };
    observing::observations_in(&table, list)
}

// Question 3: is (a, b) reported, and by which witness? The witness is put in the front of the lent list; gives its length.
pub fn verdict(
    file: &[u8],
    a: u16,
    b: u16,
    list: &mut [u16],
    area: &mut [u8],
) -> Result<Option<u16>, Refusal>
    ensures { (result, list.new, area.new) ≡ answer_verdict file.now a b list.old area.old }
{
    let mut rows = [0u16; table::ROOM];
    let n = opening::table_of(file, &mut rows)?;
    let table = Table { words: &rows[..n] };
    verdicts::verdict_in(&table, a, b, list, area)
}

// Question 4: which is the first race after (a, b), by lower event, then by higher?
pub fn next_race(file: &[u8], a: u16, b: u16, area: &mut [u8]) -> Result<Option<Pair>, Refusal>
    ensures { (result, area.new) ≡ answer_next file.now a b area.old }
{
    let mut rows = [0u16; table::ROOM];
    let n = opening::table_of(file, &mut rows)?;
    let table = Table { words: &rows[..n] };
    verdicts::next_in(&table, a, b, area)
}

// Question 5: is the list a correct reordering that brings both a and b next? Gives its first fault, none for yes.
pub fn check_reordering(file: &[u8], a: u16, b: u16, list: &[u16]) -> Result<Option<Fault>, Refusal>
    ensures { result ≡ answer_check file.now a b list.now }
{
    let mut rows = [0u16; table::ROOM];
    let n = opening::table_of(file, &mut rows)?;
    let table = Table { words: &rows[..n] };
    checking::check_in(&table, a, b, list)
}

// Question 6, by where the note stands: it is the first so many bytes of the file, none of a refused one. None: it is the operator's own.
#[tactic(auto, using(crate::proofs::NoteLaws::refused_noted, crate::proofs::NoteLaws::operators_noted, crate::proofs::NoteLaws::preamble_noted))]
pub fn note_stands(file: &[u8]) -> Option<usize>
    ensures { result ≡ answer_noted file.now }
{
    match judging::judge(file) {
        Ok(t) if t.start == 0 => None,
        Ok(t) => Some(t.start),
        Err(_) => Some(0),
    }
}

// Question 6: the preamble, or the operator's own note where that is empty; for a refused file the empty part at its front.
pub fn note<'a>(file: &'a [u8], operator: &'a [u8]) -> &'a [u8]
    ensures { whole result ≡ answer_note file.entry operator.entry }
{
    match note_stands(file) {
        Some(m) => &file[..m],
        None => operator,
    }
}
