// `replay` as a static library, for C and Rust: crates/replay/replay.h declares what it exports, and docs/REPLAY.md tells how to build and call it.
#![tactic(auto)]

ghost use Rattle.line_text.specs.Opening.{line_one};
ghost use Rattle.replay.specs.Calls.{Replayed};

// Runs a script of calls on a book that it opens. The settings are text: dialect, depth and name, one blank between.
#[unsafe(no_mangle)]
pub extern "C" fn huurqan_replay(settings: &[u8], script: &[u8], out: &mut [u8]) -> usize
    ensures { Replayed (line_one settings.now) script.now out.old out.new result }
{
    replay::huurqan_replay(settings, script, out)
}
