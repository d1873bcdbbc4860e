// The first text of a message that breaks a rule of decimals.
ghost use Rattle.std.specs.Prelude.{◌≡◌, ◌+◌, true};
ghost use Rattle.json_values.specs.Names.{part};
ghost use Rattle.settings.specs.Settings.{good};
ghost use Rattle.entries.specs.Found.{entry_depth, entry_place_at, Placed};
ghost use Rattle.message.specs.Meaning.{bad_decimal, first_bad_of, framed};
ghost use Rattle.message.specs.Bad.{part_of, form_of, bad_in, PartIs};

use crate::{Part, read_frame};
use edit::BUFFER_WORDS;
use entries::{ENTRY_DEPTH, Form, entry_at, is_bad_price, parse_quoted};
use settings::Dialect;

// The first text that breaks a rule of decimals, quotes included, as a part of the message; the empty part at its start where
// the settings are bad, another check refuses the message, or nothing is broken.
pub fn bad_decimal<'a>(dialect: Dialect, depth: usize, name: &[u8], s: &'a [u8]) -> &'a [u8]
    ensures { (result.now ≡ part s.now (bad_decimal (record { dialect = dialect; depth = depth; name = name.now }) s.now)) × (result.ref_ptr ≡ (s.entry.ref_ptr.0, (bad_decimal (record { dialect = dialect; depth = depth; name = name.now }) s.now).from + s.entry.ref_ptr.1)) }
{
    let place = bad_place(dialect, depth, name, s);
    let from = place.from;
    let to = place.to;
    &s[from..to]
}

// Where it lies.
pub fn bad_place(dialect: Dialect, depth: usize, name: &[u8], s: &[u8]) -> Part
    ensures { PartIs s.now (part_of (bad_decimal (record { dialect = dialect; depth = depth; name = name.now }) s.now)) result }
{
    if settings::is_good(dialect, depth, name) {
        return bad_in_frame(dialect, depth, name, s);
    }
    Part { from: 0, to: 0 }
}

fn bad_in_frame(dialect: Dialect, depth: usize, name: &[u8], s: &[u8]) -> Part
    requires { good (record { dialect = dialect; depth = depth; name = name.now }) ≡ true }
    ensures { PartIs s.now (part_of (first_bad_of s.now (framed (record { dialect = dialect; depth = depth; name = name.now }) s.now))) result }
{
    let mut buffer = [0; BUFFER_WORDS];
    match read_frame(dialect, depth, name, s, &mut buffer) {
        Err(_) => Part { from: 0, to: 0 },
        Ok(outline) => bad_in(s, form_of(dialect), outline.bad_at),
    }
}

// The form of a dialect's entries.
#[tactic(auto, unfolding(crate::specs::Bad::form_of))]
fn form_of(dialect: Dialect) -> Form
    ensures { result ≡ form_of dialect }
{
    match dialect {
        Dialect::K => Form::Triple,
        Dialect::M(_) | Dialect::Unknown => Form::Pair,
    }
}

// The first text of the entry at `at` that breaks a rule of decimals: the price, or else the size. 0 says that there is none.
fn bad_in(s: &[u8], form: Form, at: usize) -> Part
    requires { (at ≡ 0 → ⊥) → Placed s.now (entry_place_at form entry_depth s.now at) }
    ensures { result ≡ bad_in s.now form at }
{
    if at == 0 {
        return Part { from: 0, to: 0 };
    }
    let found = entry_at(s, at, ENTRY_DEPTH, form);
    if is_bad_price(parse_quoted(s, found.price_from, found.price_to)) {
        return Part {
            from: found.price_from,
            to: found.price_to,
        };
    }
    Part {
        from: found.size_from,
        to: found.size_to,
    }
}
