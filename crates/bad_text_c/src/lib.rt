// `bad_text` as a static library, for C, Rust or Python: crates/bad_text/bad_text.h declares what it exports, and docs/REPLAY.md has an example.
#![tactic(auto)]

ghost use Rattle.line_text.specs.Opening.{line_one};
ghost use Rattle.message.specs.Meaning.{bad_decimal};
ghost use Rattle.bad_text.specs.Words.{Placed};

// Lays where the first text of a message lies that breaks a rule of decimals into the first two words of `out`. The settings are text: dialect, depth and name, one blank between.
#[unsafe(no_mangle)]
pub extern "C" fn huurqan_bad_decimal(settings: &[u8], text: &[u8], out: &mut [usize]) -> usize
    ensures { Placed (bad_decimal (line_one settings.now) text.now) out.old out.new result }
{
    bad_text::huurqan_bad_decimal(settings, text, out)
}
