// The lines of a trace text: those of events and of inputs.
ghost use Rattle.std.specs.Prelude.{◌≡◌, IfOk, take, drop};
ghost use Rattle.std.specs.Str.{bytes_eq};
ghost use Rattle.aip_replay.specs.Lines.{IsReadOn};
ghost use Rattle.aip_replay.specs.Marks.{event_mark};

use aip_event::{Event, Input, read_input, write_event};
use aip_text::push_text;
use std::alloc::{AllocError, Global};

/// Whether a line is that of the event, which is written to the buffer.
pub fn is_line_of(
    alloc: Global,
    event: &Event,
    line: &[u8],
    buffer: &mut Vec<u8>,
) -> Result<bool, AllocError>
    ensures { IfOk result (λ same. same ≡ bytes_eq (event_mark event.now) line.now) }
{
    buffer.clear();
    push_text(buffer, b"< ")?;
    write_event(alloc, event, buffer)?;
    Ok(buffer.as_slice() == line)
}

/// The input on a line, and None where the line isn't marked as that of an input, or is the line of none.
pub fn input_on(alloc: Global, line: &[u8]) -> Result<Option<Input>, AllocError>
    ensures { IfOk result (IsReadOn line.now) }
{
    if line.len() < 2 || &line[..2] != b"> ".as_slice() {
        return Ok(None);
    }
    read_input(alloc, &line[2..])
}
