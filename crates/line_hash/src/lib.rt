// The four hashes of a line.
#![tactic(auto)]

ghost use Rattle.std.specs.Prelude.{◌≡◌, ℕ, ◌<◌, slice_index};
ghost use Rattle.line_hash.specs.Hashes.{permuted, second_hash, third_hash, fourth_hash};

// Bit i of the fourth hash is bit SPREAD[i] of the line.
const SPREAD: [u8; 16] = [3, 8, 13, 2, 7, 12, 1, 6, 11, 0, 5, 10, 15, 4, 9, 14];

// The number whose bit i is bit table[i] of the line.
fn permute(table: &[u8; 16], line: u16) -> u16
    requires { (i : ℕ) → i < 16 → slice_index table.now i < 16 }
    ensures { result ≡ permuted table.now line }
{
    let mut hash = 0u16;
    for bit in table.iter().rev() {
        hash = 2 * hash + ((line >> *bit) & 1);
    }
    hash
}

#[tactic(auto, using(crate::proofs::Mirroring::mirrored))]
pub fn second(line: u16) -> u16
    ensures { result ≡ second_hash line }
{
    line.reverse_bits()
}

pub fn third(line: u16) -> u16
    ensures { result ≡ third_hash line }
{
    second(line) >> 10
}

pub fn fourth(line: u16) -> u16
    ensures { result ≡ fourth_hash line }
{
    permute(&SPREAD, line)
}
