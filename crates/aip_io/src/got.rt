/// What a call for the next line gave.
#[derive(Clone, Copy, Debug, PartialEq, Eq)]
pub enum Got {
    /// The next line, which a line feed ends.
    Line,
    /// A last line, which has bytes and no line feed.
    Last,
    /// The next line has more bytes than a line may have.
    Long,
    /// The text has ended.
    End,
    /// A read of the text failed.
    Failed,
}
