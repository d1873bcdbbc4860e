// The CRC-32 of IEEE 802.3: what it is, and its laws. `crc32` is the code.
//
// specs/Crc is the definition, bit by bit from the polynomial, and all that a reader has to believe:
// `crc` of the bytes of "123456789" is 3421780262 (specs/Examples). specs/Laws is the algebra of moving a state
// by bits, specs/Text what the state of a text is in terms of its parts, specs/Rows what the tables hold.
// The two functions here are what the crates of the tables share.
#![tactic(auto)]

ghost use Rattle.std.specs.Prelude.{◌≡◌, ◌*◌, ◌/◌, ◌%◌, ◌^◌, ◌<◌};

// Four bits of a state, those at place j.
pub fn four_bits(s: u32, j: u64) -> u64
    requires { j < 8 }
    ensures { result ≡ s / 2 ^ (4 * j) % 16 }
{
    ((s >> (4 * j)) % 16) as u64
}

// Half of an entry: the lower for an even place, the upper for an odd one.
pub fn half(entry: u64, j: u64) -> u32
    ensures { result ≡ entry / 2 ^ (32 * (j % 2)) % 2 ^ 32 }
{
    ((entry >> (32 * (j % 2))) % 4294967296) as u32
}
