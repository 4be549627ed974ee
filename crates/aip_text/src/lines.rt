ghost use Rattle.std.specs.Prelude.{◌≡◌, ◌↔◌, ◌++◌, ◌∷◌, [], IsNone, IfSome, true, false};
ghost use Rattle.aip_text.specs.Lines.{has_carriage_return, has_no_line_feed, is_skipped, line_end, lines_of};

use crate::reading::place_of;

/// The most bytes of a line, without its line feed.
pub const MOST_LINE_BYTES: usize = 20_000;

/// The most lines of a schedule or of a file of records.
pub const MOST_LINES: u32 = 65_536;

/// The first line of a text, and the rest.
#[derive(Clone, Copy, Debug)]
pub struct FirstLine<'a> {
    /// The line, without its line feed.
    pub line: &'a [u8],
    /// What follows the line and its line feed.
    pub rest: &'a [u8],
    /// Whether a line feed ends the line. Otherwise the text ends there.
    pub ended: bool,
}

/// The first line of a text, and None where the text is at its end.
pub fn next_line(text: &[u8]) -> Option<FirstLine<'_>>
    ensures none { IsNone result ↔ (text.now ≡ []) }
    ensures lines { IfSome result (λ first. lines_of text.now ≡ first.line.now ∷ lines_of first.rest.now) }
    ensures whole { IfSome result (λ first. text.now ≡ first.line.now ++ (line_end first.ended ++ first.rest.now)) }
    ensures one_line { IfSome result (λ first. has_no_line_feed first.line.now ≡ true) }
    ensures last { IfSome result (λ first. first.ended ≡ false → first.rest.now ≡ []) }
{
    if text.is_empty() {
        return None;
    }
    match place_of(text, b'\n') {
        Some(at) => Some(FirstLine {
            line: &text[..at],
            rest: &text[at + 1..],
            ended: true,
        }),
        None => Some(FirstLine {
            line: text,
            rest: &[],
            ended: false,
        }),
    }
}

/// Whether readers skip the line: it is empty, or begins with `#`.
pub fn is_skipped(line: &[u8]) -> bool
    ensures { result ≡ is_skipped line.now }
{
    match line.first() {
        Some(b) => *b == b'#',
        None => true,
    }
}

/// Whether a carriage return stands in the line.
pub fn has_carriage_return(line: &[u8]) -> bool
    ensures { result ≡ has_carriage_return line.now }
{
    line.iter().any(|&b| b == b'\r')
}
