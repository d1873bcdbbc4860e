// Where the first text of a message lies that breaks a rule of decimals. C, Rust and Python call it by `bad_text_c`.
//
//     huurqan_bad_decimal(b"M 100 BTC-VND", text, out)     // lays two words into `out`, and answers 2
#![tactic(auto)]

ghost use Rattle.std.specs.Prelude.{◌≡◌};
ghost use Rattle.line_text.specs.Opening.{line_one};
ghost use Rattle.message.specs.Meaning.{bad_decimal};
ghost use Rattle.bad_text.specs.Words.{Placed};

use line_text::read_settings;
use message::bad_place;

// Lays its first position and the position past it into the first two words of `out`; zeros where there is none. Answers how many words
// were laid: 2, or 0 where `out` has fewer. The settings are text: dialect, depth and name, one blank between.
#[unsafe(no_mangle)]
pub extern "C" fn huurqan_bad_decimal(settings: &[u8], text: &[u8], out: &mut [usize]) -> usize
    ensures { Placed (bad_decimal (line_one settings.now) text.now) out.old out.new result }
{
    if out.len() < 2 {
        return 0;
    }
    let first = read_settings(settings);
    let name = &settings[first.name..];
    let place = bad_place(first.dialect, first.depth, name, text);
    out[0] = place.from;
    out[1] = place.to;
    2
}
