// What a reader gives, read whole: the programs lend it standard input.
#![tactic(auto)]

ghost use Rattle.input.specs.Input.{Within, Gives};

use std::io;
use std::io::Read;

// Reads until the buffer is full or the input ends, and gives how many bytes were read.
#[tactic(auto, unfolding(crate::specs::Input::Within, crate::specs::Input::Gives))]
pub fn read<R: Read>(from: &mut R, buffer: &mut [u8]) -> io::Result<usize>
    ensures within { Within result buffer.new }
    ensures bytes { Gives result (R.remaining from.old) (R.remaining from.new) buffer.new }
{
    let mut n = 0;
    // A `while`: how much each turn reads is the reader's to say.
    while n < buffer.len() {
        match from.read(&mut buffer[n..])? {
            0 => return Ok(n),
            more => n += more,
        }
    }
    Ok(n)
}
