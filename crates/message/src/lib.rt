// What a message says, from the settings and the text alone: the first refusal of checks 1 to 8 that fits, or its entries, its
// checksum and its sequence number. One walk over the message finds out all of it.
#![tactic(auto)]

mod bad;

ghost use Rattle.std.specs.Prelude.{◌≡◌, true, length};
ghost use Rattle.settings.specs.Settings.{good};
ghost use Rattle.edit.specs.Buffer.{buffer_words};
ghost use Rattle.layout.specs.Scan.{Scanned};
ghost use Rattle.message.specs.Meaning.{envelope_in, framed, checked};
ghost use Rattle.message.specs.Verdict.{judged, verdict_of, Judged};
ghost use Rattle.message.specs.Deciding.{decided, addressed_scan, laid_outline};

use answer::Answer;
pub use bad::{bad_decimal, bad_place};
use edit::BUFFER_WORDS;
use json_tokens::{is_ended, skip_blanks};
use json_values::{MAX_DEPTH, value_end};
use layout::{Outline, Scan, not_framed};
use message_k::k_message;
use message_m::m_message;
use settings::{Dialect, is_linked, rules_of};

// The longest message of any dialect.
pub const MAX_MESSAGE: usize = 32768;

// A part of a message: its first position, and the position past it.
#[derive(Clone, Copy)]
pub struct Part {
    pub from: usize,
    pub to: usize,
}

// Checks 1 to 8, for who asks of a message alone: what the message says, or the answer to one that fails a check.
pub fn read(dialect: Dialect, depth: usize, name: &[u8], s: &[u8]) -> Result<Outline, Answer>
    ensures { result ≡ verdict_of s.now (judged (record { dialect = dialect; depth = depth; name = name.now }) s.now) }
{
    if settings::is_good(dialect, depth, name) {
        let mut buffer = [0; BUFFER_WORDS];
        return read_open(dialect, depth, name, s, &mut buffer);
    }
    Err(Answer::Shut)
}

// Checks 2 to 8, of a book that is not shut. The buffer has the entries of a message that passes, and is free after a refusal.
pub fn read_open(
    dialect: Dialect,
    depth: usize,
    name: &[u8],
    s: &[u8],
    buffer: &mut [u64; BUFFER_WORDS],
) -> Result<Outline, Answer>
    requires { (good (record { dialect = dialect; depth = depth; name = name.now }) ≡ true) × (length buffer.old ≡ buffer_words) }
    ensures { Judged s.now (checked (record { dialect = dialect; depth = depth; name = name.now }) s.now) buffer.new result }
{
    let outline = read_frame(dialect, depth, name, s, buffer)?;
    if outline.bad_at != 0 {
        return Err(Answer::BadDecimal);
    }
    Ok(outline)
}

// Checks 2 to 7, of a book that is not shut; the buffer as above.
pub fn read_frame(
    dialect: Dialect,
    depth: usize,
    name: &[u8],
    s: &[u8],
    buffer: &mut [u64; BUFFER_WORDS],
) -> Result<Outline, Answer>
    requires { (good (record { dialect = dialect; depth = depth; name = name.now }) ≡ true) × (length buffer.old ≡ buffer_words) }
    ensures { Judged s.now (framed (record { dialect = dialect; depth = depth; name = name.now }) s.now) buffer.new result }
{
    let rules = rules_of(dialect);
    if rules.longest < s.len() {
        return Err(Answer::TooLong);
    }
    let scan = scan_at(dialect, depth, name, s, skip_blanks(s, 0), buffer);
    let ended = is_ended(s, scan.end);
    decide(rules.entries, scan, ended)
}

// What one walk over the message tells.
fn scan_at(
    dialect: Dialect,
    depth: usize,
    name: &[u8],
    s: &[u8],
    at: usize,
    buffer: &mut [u64; BUFFER_WORDS],
) -> Scan
    requires { (good (record { dialect = dialect; depth = depth; name = name.now }) ≡ true) × (length buffer.old ≡ buffer_words) }
    ensures { Scanned (envelope_in dialect (record { dialect = dialect; depth = depth; name = name.now })) s.now at buffer.new result }
{
    match dialect {
        Dialect::K => k_message(s, at, depth, name, buffer),
        Dialect::M(edition) => m_message(s, at, is_linked(edition), name, buffer),
        Dialect::Unknown => not_framed(value_end(s, at, MAX_DEPTH).unwrap_or(0)),
    }
}

// The first of checks 3 to 7 that fails, by what was told of the message; `ended` says that nothing stands past its value, and `most`
// how many entries a side may have.
#[tactic(auto, using(std::proofs::lemmas::Bool::Decides::nat_tests), unfolding(crate::specs::Deciding::decided))]
fn decide(most: usize, scan: Scan, ended: bool) -> Result<Outline, Answer>
    ensures { result ≡ decided most scan ended }
{
    if scan.end == 0 || !ended {
        return Err(Answer::NotJson);
    }
    decide_address(most, scan)
}

// Checks 5 to 7.
#[tactic(auto, unfolding(crate::specs::Deciding::addressed_scan))]
fn decide_address(most: usize, scan: Scan) -> Result<Outline, Answer>
    ensures { result ≡ addressed_scan most scan }
{
    if !(scan.framed && scan.ours) {
        return Err(Answer::NotOurs);
    }
    decide_layout(most, scan.outline)
}

// Checks 6 and 7.
#[tactic(auto, using(std::proofs::lemmas::Bool::Decides::nat_tests), unfolding(crate::specs::Deciding::laid_outline))]
fn decide_layout(most: usize, outline: Outline) -> Result<Outline, Answer>
    ensures { result ≡ laid_outline most outline }
{
    if !outline.well_formed {
        return Err(Answer::BadLayout);
    }
    if most < outline.bids || most < outline.asks {
        return Err(Answer::TooManyEntries);
    }
    Ok(outline)
}
