// Sets of numbers below 16 in a u16, and the work area that a caller lends.
#![tactic(auto)]

ghost use Rattle.std.specs.Prelude.{◌≡◌, ◌<◌, length, replicate};
ghost use Rattle.bits.specs.Mask.{holds, including};

// The set with x in it too. How many numbers a set has is its count of ones.
#[tactic(auto, using(crate::proofs::MaskLaws::shifted), unfolding(crate::specs::Mask::including))]
pub fn include(mask: u16, x: u8) -> u16
    requires { x < 16 }
    ensures { result ≡ including mask x }
{
    mask | (1u16 << x)
}

// Is x in the set?
#[tactic(auto, using(crate::proofs::MaskLaws::none_above), unfolding(crate::specs::Mask::holds))]
pub fn contains(mask: u16, x: usize) -> bool
    ensures { result ≡ holds mask x }
{
    x < 16 && (mask >> x) % 2 == 1
}

// Every byte becomes zero.
pub fn clear(area: &mut [u8])
    ensures { area.new ≡ replicate (length area.old) 0 }
{
    area.fill(0);
}
