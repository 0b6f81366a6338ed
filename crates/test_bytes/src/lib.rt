// The pseudo-random bytes that tests fill columns with. vectors/ makes the same ones for the other program.
#![tactic(auto)]

ghost use Rattle.test_bytes.specs.Filling.{Filled};

// Fills the bytes from a seed, by a linear congruential generator of 32 bits.
pub fn fill(seed: u32, bytes: &mut [u8])
    ensures { Filled seed bytes.old bytes.new }
{
    let mut state = seed;
    for byte in bytes {
        state = state.wrapping_mul(1103515245).wrapping_add(12345);
        *byte = (state >> 16 & 0xff) as u8;
    }
}
