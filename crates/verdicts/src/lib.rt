// Questions 3 and 4 on the table of a good recording: is a pair reported, and by which witness? Which is the next race?
#![tactic(auto)]

ghost use Rattle.std.specs.Prelude.{◌≡◌};
ghost use Rattle.std.proofs.Math.Option.{none};
ghost use Rattle.decision.specs.Decision.{witness, next_race};
ghost use Rattle.table.specs.Judged.{events};
ghost use Rattle.verdicts.specs.Verdict.{verdict_in};
ghost use Rattle.verdicts.specs.Next.{next_in};
ghost use Rattle.verdicts.specs.Deciding.{Askable, Decidable, Decides, Searchable, Finds};

use limits::{Recording, Refusal};
use table::Table;

// A pair of events, by their numbers.
#[derive(Clone, Copy)]
pub struct Pair {
    pub lower: u16,
    pub higher: u16,
}

// The length of the witness of (a, b), if it is reported, with a work area of just the bytes that are promised to be zero after it.
fn decide(table: &Table, a: u16, b: u16, list: &mut [u16], area: &mut [u8]) -> Option<u16>
    requires { Decidable table.now a b list.old area.old }
    ensures { Decides (witness (events table.now) a b) list.old list.new area.old area.new result }
{
    bits::clear(area);
    races::witness(table, a, b, list)
}

// Refusal 12, and the verdict.
#[tactic(auto, unfolding(crate::specs::Verdict::verdict_in))]
fn verdict_with(
    table: &Table,
    a: u16,
    b: u16,
    list: &mut [u16],
    area: &mut [u8],
) -> Result<Option<u16>, Refusal>
    requires { Askable table.now a b list.old }
    ensures { (result, list.new, area.new) ≡ verdict_in none (events table.now) a b list.old area.old }
{
    if !Recording::area_suffices(area.len()) {
        return Err(Refusal::AreaShort);
    }
    Ok(decide(table, a, b, list, &mut area[..Recording::AREA_BYTES]))
}

// Refusals 11, 10 and 12, in their order, and the answer to question 3: the length of the witness, if (a, b) is reported.
#[tactic(auto, unfolding(crate::specs::Verdict::verdict_in))]
pub fn verdict_in(
    table: &Table,
    a: u16,
    b: u16,
    list: &mut [u16],
    area: &mut [u8],
) -> Result<Option<u16>, Refusal>
    ensures { (result, list.new, area.new) ≡ verdict_in none (events table.now) a b list.old area.old }
{
    if !table.conflicting(a, b) {
        return Err(Refusal::NotConflicting);
    }
    if list.len() < table.count() {
        return Err(Refusal::ListShort);
    }
    verdict_with(table, a, b, list, area)
}

// The first race after (a, b), with a work area of just the bytes that are promised to be zero after it.
fn find_next(table: &Table, a: u16, b: u16, area: &mut [u8]) -> Option<Pair>
    requires { Searchable area.old }
    ensures { Finds (next_race (events table.now) a b) area.old area.new result }
{
    bits::clear(area);
    let mut list = [0u16; Recording::MAX_EVENTS];
    races::next_race(table, a, b, &mut list).map(|race| Pair {
        lower: race.lower,
        higher: race.higher,
    })
}

// Refusal 12, and the answer to question 4: the first race after (a, b), if there is one.
#[tactic(auto, unfolding(crate::specs::Next::next_in))]
pub fn next_in(table: &Table, a: u16, b: u16, area: &mut [u8]) -> Result<Option<Pair>, Refusal>
    ensures { (result, area.new) ≡ next_in none (events table.now) a b area.old }
{
    if !Recording::area_suffices(area.len()) {
        return Err(Refusal::AreaShort);
    }
    Ok(find_next(table, a, b, &mut area[..Recording::AREA_BYTES]))
}
