// The lines of a step.
ghost use Rattle.std.specs.Prelude.{◌≡◌, OnOk};
ghost use Rattle.aip_event.specs.Lines.{input_text};

use aip_event::{Input, write_input};
use aip_text::push_text;
use std::alloc::{AllocError, Global};

/// Writes the line of an input that is taken, in the place of what was there.
pub fn write_taken(alloc: Global, out: &mut Vec<u8>, input: &Input) -> Result<(), AllocError>
    ensures { OnOk result (out.new.items ≡ input_text input.now) }
{
    out.clear();
    push_text(out, b"> ")?;
    write_input(alloc, input, out)?;
    push_text(out, b"\n")
}
