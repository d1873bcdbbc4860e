// Parts of a text: where a byte stands next, as the end of a line does.
//
//     let end = lines::find(s, at, lines::LINE_END);     // the line that begins at `at` is &s[at..end]
#![tactic(auto)]

ghost use Rattle.std.specs.Prelude.{◌≡◌, ◌+◌, ◌-◌, ◌≤◌, min, ltb, length, drop};
ghost use Rattle.std.proofs.Math.Seq.{paste};
ghost use Rattle.lines.specs.Lines.{bytes_before};

pub const LINE_END: u8 = 10;

// Where a byte stands, from a position on, or the end of the text.
pub fn find(s: &[u8], at: usize, b: u8) -> usize
    requires { at ≤ length s.now }
    ensures { (at ≤ result) × (result ≤ length s.now) × (result ≡ at + bytes_before b (drop at s.now)) }
{
    let i = skip_blocks(s, at, b);
    match s[i..].iter().position(|c| *c == b) {
        Some(k) => i + k,
        None => s.len(),
    }
}

// How many bytes are tested together.
const BLOCK: usize = 16;

// Whether a byte stands in the block that begins at a position. No turn ends the loop early, so that all the bytes are compared at once.
fn is_in_block(s: &[u8], at: usize, b: u8) -> bool
    requires { at + 16 ≤ length s.now }
    ensures { result ≡ ltb (bytes_before b (drop at s.now)) 16 }
{
    let end = at + BLOCK;
    s[at..end].iter().fold(false, |found, c| found | (*c == b))
}

// Past the blocks that do not have a byte, from a position on.
// A `while`: over `chunks_exact` the position would be counted beside the blocks all the same.
fn skip_blocks(s: &[u8], at: usize, b: u8) -> usize
    requires { at ≤ length s.now }
    ensures { (at ≤ result) × (result ≤ length s.now) × (result + bytes_before b (drop result s.now) ≡ at + bytes_before b (drop at s.now)) }
{
    let mut i = at;
    while BLOCK <= s.len() - i {
        if is_in_block(s, i, b) {
            return i;
        }
        i += BLOCK;
    }
    i
}

// Moves what stands between two positions of a buffer to its front, `most` bytes at the most, and answers how many were moved.
pub fn move_to_front(buffer: &mut [u8], from: usize, to: usize, most: usize) -> usize
    requires { (from ≤ to) × (to ≤ length buffer.old) }
    ensures { (result ≡ min (to - from) most) × (buffer.new ≡ paste buffer.old 0 (drop from buffer.old) result) }
{
    let n = (to - from).min(most);
    buffer.copy_within(from..from + n, 0);
    n
}
