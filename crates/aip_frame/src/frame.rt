use aip_addr::{Address, Bytes};

/// The most bytes of a frame's body.
pub const MOST_BODY: usize = 9126;

/// What a frame carries.
#[derive(Clone, Copy, Debug, PartialEq, Eq)]
pub enum Kind {
    /// Data from host to host, code 0.
    Data,
    /// A router's question to a source, code 1. Its body has 154 bytes.
    Challenge,
    /// A source's answer to a challenge, code 2.
    Response,
    /// A receiver's demand that a source be silent, code 3.
    ShutOff,
}

/// A frame, field by field.
#[derive(Debug, Drop)]
pub struct Frame {
    /// What it carries.
    pub kind: Kind,
    /// How many routers may still forward it.
    pub hop: u8,
    /// The packet id, which the sender chooses.
    pub packet: u32,
    /// The destination.
    pub to: Address,
    /// The source, as the frame claims it.
    pub from: Address,
    /// The body, of at most 9126 bytes, and exactly 154 in a challenge.
    pub body: Bytes,
}
