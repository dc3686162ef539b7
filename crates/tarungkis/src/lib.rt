// The static library for other languages: the six questions, the writer and the report, with a number in place of an answer.
#![tactic(auto)]

ghost use Rattle.std.specs.Prelude.{◌≡◌};
ghost use Rattle.questions.specs.Answers.{answer_judge, answer_observed};
ghost use Rattle.questions.specs.Observations.{answer_observations};
ghost use Rattle.questions.specs.Verdicts.{answer_verdict, answer_next, answer_check};
ghost use Rattle.questions.specs.Note.{answer_noted};
ghost use Rattle.writing.specs.Writing.{answer_write};
ghost use Rattle.report.specs.Places.{answer_lines};
ghost use Rattle.numbers.specs.Numbers.{packed, told, told_two};
ghost use Rattle.numbers.specs.Packed.{of_judgement, of_observed, of_observations, of_finding, of_next, by_number, of_check, of_noted, of_written};

use questions::Fault;

// Question 1.
#[unsafe(no_mangle)]
pub extern "C" fn tarungkis_judge(file: &[u8]) -> u64
    ensures { result ≡ packed (of_judgement (answer_judge file.now)) }
{
    numbers::of_judgement(questions::judge(file))
}

// Question 2.
#[unsafe(no_mangle)]
pub extern "C" fn tarungkis_observed_write(file: &[u8], k: u16) -> u64
    ensures { result ≡ packed (of_observed (answer_observed file.now k)) }
{
    numbers::of_observed(questions::observed_write(file, k))
}

// Question 2 for all events at once.
#[unsafe(no_mangle)]
pub extern "C" fn tarungkis_observed_writes(file: &[u8], list: &mut [u16]) -> u64
    ensures { (result, list.new) ≡ told of_observations (answer_observations file.now list.old) }
{
    numbers::of_observations(questions::observed_writes(file, list))
}

// Question 3.
#[unsafe(no_mangle)]
pub extern "C" fn tarungkis_verdict(
    file: &[u8],
    a: u16,
    b: u16,
    list: &mut [u16],
    area: &mut [u8],
) -> u64
    ensures { (result, list.new, area.new) ≡ told_two of_finding (answer_verdict file.now a b list.old area.old) }
{
    numbers::of_finding(questions::verdict(file, a, b, list, area))
}

// Question 4.
#[unsafe(no_mangle)]
pub extern "C" fn tarungkis_next_race(file: &[u8], a: u16, b: u16, area: &mut [u8]) -> u64
    ensures { (result, area.new) ≡ told of_next (answer_next file.now a b area.old) }
{
    numbers::of_next(questions::next_race(file, a, b, area))
}

// Question 5.
#[unsafe(no_mangle)]
pub extern "C" fn tarungkis_check_reordering(file: &[u8], a: u16, b: u16, list: &[u16]) -> u64
    ensures { result ≡ packed (of_check (by_number (answer_check file.now a b list.now))) }
{
    numbers::of_check(questions::check_reordering(file, a, b, list).map(|fault| fault.map(
        Fault::number,
    )))
}

// Question 6, by where the note stands.
#[unsafe(no_mangle)]
pub extern "C" fn tarungkis_note(file: &[u8]) -> u64
    ensures { result ≡ packed (of_noted (answer_noted file.now)) }
{
    numbers::of_noted(questions::note_stands(file))
}

// The writer.
#[unsafe(no_mangle)]
pub extern "C" fn tarungkis_write_file(
    preamble: &[u8],
    threads: &[u8],
    kinds: &[u8],
    objects: &[u16],
    buffer: &mut [u8],
) -> u64
    ensures { (result, buffer.new) ≡ told of_written (answer_write preamble.now threads.now kinds.now objects.now buffer.old) }
{
    numbers::of_written(questions::write_file(preamble, threads, kinds, objects, buffer))
}

// The next lines of the report. The place says where to go on; all zeros is the start.
#[unsafe(no_mangle)]
pub extern "C" fn tarungkis_report(file: &[u8], place: &mut [u32; 4], out: &mut [u8]) -> usize
    ensures { (result, place.new, out.new) ≡ answer_lines file.now place.old out.old }
{
    report::next_lines(file, place, out)
}
