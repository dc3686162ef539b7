// The text that a program reads and writes: the numbers of a line, and a list of numbers on standard output.
#![tactic(auto)]

ghost use Rattle.std.specs.Prelude.{ℕ, ◌≡◌, ◌≢◌, ◌≤◌, ◌<◌, min, length, slice_index};

// The first place that holds `stop`, or the end. (A `for`: from `position` the search does not find what is said of the places before.)
fn first(text: &[u8], stop: u8) -> usize
    ensures within { result ≤ length text.now }
    ensures before { (k : ℕ) → k < result → slice_index text.now k ≢ stop }
    ensures found { result < length text.now → slice_index text.now result ≡ stop }
{
    for (k, b) in text.iter().enumerate() {
        if *b == stop {
            return k;
        }
    }
    text.len()
}

// The same from `from` on.
pub fn until(text: &[u8], from: usize, stop: u8) -> usize
    requires { from ≤ length text.now }
    ensures within { (from ≤ result) × (result ≤ length text.now) }
    ensures before { (k : ℕ) → from ≤ k → k < result → slice_index text.now k ≢ stop }
    ensures found { result < length text.now → slice_index text.now result ≡ stop }
{
    from + first(&text[from..], stop)
}

fn digit(c: u8) -> usize
    ensures { result < 10 }
{
    match c {
        b'0'..=b'9' => (c - b'0') as usize,
        _ => 0,
    }
}

// The number n with one more digit, up to five. A space ends a number, and is none.
fn with_digit(n: usize, c: u8) -> usize {
    if c == b' ' || 10000 <= n {
        return n;
    }
    n * 10 + digit(c)
}

// The number of a word's digits, and 65535 for every greater one; behind a number of five digits no more are read. A byte that is no digit counts as a 0.
fn short(word: &[u8]) -> u16 {
    let n = word.iter().fold(0, |n, c| with_digit(n, *c));
    u16::try_from(n).unwrap_or(u16::MAX)
}

// The numbers of a line, in the front of a list; how many there are.
pub fn numbers(line: &[u8], list: &mut [u16]) -> usize
    ensures { result ≤ length list.old }
{
    let mut n = 0;
    for word in line.split_inclusive(|b| *b == b' ') {
        if n == list.len() {
            return n;
        }
        list[n] = short(word);
        n += 1;
    }
    n
}

// The lower of two numbers.
pub fn at_most(n: usize, most: usize) -> usize
    ensures within { result ≤ most }
    ensures value { result ≡ min n most }
{
    n.min(most)
}

// The first n numbers of a list, each after a space; all of them where there are fewer, so that no length is asked for. Where a write fails, nothing is said of it.
pub fn list<P: Print>(out: &P, numbers: &[u16], n: u16) {
    for k in numbers.iter().take(n as usize) {
        let _ = print!(out; " {k}");
    }
}
