// The pieces of a line, put into a lent buffer behind the bytes that are in use: a byte, a word, a number in decimal. Each function takes how
// many bytes are in use and gives how many are then.
#![tactic(auto)]

ghost use Rattle.std.specs.Prelude.{◌+◌, ◌≤◌, ◌<◌, ◌≡◌, ◌∷◌, [], length};
ghost use Rattle.appending.specs.Decimal.{decimal, spaced, event_width, number_width};
ghost use Rattle.appending.specs.Appended.{Appends, AppendsShort};

// The most bytes of an event's number after a space.
pub const EVENT_WIDTH: usize = 6;

#[tactic(auto, using(crate::proofs::AppendLaws::appends_byte))]
pub fn put_byte(out: &mut [u8], at: usize, b: u8) -> usize
    requires { at + 1 ≤ length out.old }
    ensures { Appends (b ∷ []) at out.old out.new result }
{
    out[at] = b;
    at + 1
}

pub fn put_word(out: &mut [u8], at: usize, word: &[u8]) -> usize
    requires { at + length word.now ≤ length out.old }
    ensures { Appends word.now at out.old out.new result }
{
    let end = at + word.len();
    out[at..end].copy_from_slice(word);
    end
}

// A number of one digit.
#[tactic(auto, using(crate::proofs::DecimalLaws::decimal_one))]
fn digit(d: u32) -> u8
    requires { d < 10 }
    ensures { decimal d ≡ result ∷ [] }
{
    b'0' + d as u8
}

// A number in decimal: what stands before its last digit is a number again.
pub fn put_decimal(out: &mut [u8], at: usize, n: u32) -> usize
    requires { at + length (decimal n) ≤ length out.old }
    ensures { Appends (decimal n) at out.old out.new result }
{
    if n < 10 {
        return put_byte(out, at, digit(n));
    }
    let end = put_decimal(out, at, n / 10);
    put_byte(out, end, digit(n % 10))
}

// A number after a space.
pub fn put_number(out: &mut [u8], at: usize, n: u32) -> usize
    requires { at + number_width ≤ length out.old }
    ensures { AppendsShort number_width (spaced n) at out.old out.new result }
{
    let end = put_byte(out, at, b' ');
    put_decimal(out, end, n)
}

// An event's number after a space: a line of as many as there may be events must fit, so that their room counts.
pub fn put_event(out: &mut [u8], at: usize, k: u16) -> usize
    requires { at + event_width ≤ length out.old }
    ensures { AppendsShort event_width (spaced k) at out.old out.new result }
{
    let end = put_byte(out, at, b' ');
    put_decimal(out, end, k as u32)
}
