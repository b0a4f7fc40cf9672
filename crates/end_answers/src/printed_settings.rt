// Settings in print.
ghost use Rattle.std.specs.Prelude.{◌≡◌, IfOk, string_bytes};
ghost use Rattle.script_words.specs.Told.{bytes_of};
ghost use Rattle.settings.specs.Frame.{settings_of};
ghost use Rattle.end_answers.specs.Settings.{settings_line};

use answers::print::refused;
use answers::values::bytes;
use script_words::words::Bytes;
use settings::settings::parse;
use std::alloc::{AllocError, Global};

// `settings read`
pub fn run_settings(heap: Global, frame: Bytes<'_>) -> Result<String, AllocError>
    ensures { IfOk result (λ s. string_bytes s ≡ settings_line (settings_of (bytes_of frame.entry))) }
{
    let frame = bytes(heap, frame)?;
    match parse(&frame) {
        Ok(settings) => format!(in heap; "{settings}\n"),
        Err(why) => refused(heap, why),
    }
}
