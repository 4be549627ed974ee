// How a filter file is laid out.
ghost use Rattle.std.specs.Prelude.{◌≡◌, ◌≤◌, length, take};
ghost use Rattle.shutoff_filter.specs.FilterFile.{file_size, kept_room, slot_of, slot_start};
ghost use Rattle.shutoff_filter.specs.Keeping.{entry_bytes};

use crate::slots::Slot;
use aip_addr::KeyId;
use byteorder::{BigEndian, ByteOrder};

/// The gate of a file or a slot that is open.
pub const OPEN: u8 = 0xa5;

/// How many bytes stand before the slots: the gate and the room.
pub const HEAD: usize = 3;

/// How many bytes a slot has: its gate, a key identifier and a time.
pub const SLOT: usize = 28;

/// The size of the largest filter file, of a room of 256.
pub const LARGEST: usize = 7199;

/// How many writes and syncs of the disk the keeping of one entry takes at most, from `ready` on: three writes, each with a
/// sync.
pub const KEEP_CALLS: usize = 6;

/// The bytes that keeping one entry writes at most: a gate that is closed, the entry, and its gate.
pub const KEEP_BYTES: usize = 29;

/// How many bytes the file of a filter with that room has.
pub fn file_size(room: u16) -> usize
    requires { room ≤ 256 }
    ensures size { result ≡ file_size room }
    ensures most { result ≤ 7199 }
{
    HEAD + SLOT * (room as usize + 1)
}

/// The room that the file keeps: its bytes 1 and 2.
pub fn room_in(bytes: &[u8]) -> u16
    requires { 3 ≤ length bytes.now }
    ensures { result ≡ kept_room bytes.now }
{
    BigEndian::read_u16(&bytes[1..])
}

/// The byte at which the slot of that number begins.
pub fn slot_start(number: u16) -> u64
    requires { number ≤ 256 }
    ensures { result ≡ slot_start number }
{
    HEAD as u64 + SLOT as u64 * number as u64
}

/// The 27 bytes of an entry past its slot's gate.
pub fn entry_bytes(to: &KeyId, until: u64) -> [u8; 27]
    ensures bytes { result ≡ entry_bytes to.now until }
    ensures key { length to.now.bytes ≡ 19 }
{
    let mut bytes = [0; 27];
    let (key_part, until_part) = bytes.split_at_mut(19);
    key_part.copy_from_slice(&to.bytes);
    until_part.copy_from_slice(&until.to_be_bytes());
    bytes
}

fn key_id_at(body: &[u8]) -> KeyId
    requires { length body.now ≡ 27 }
    ensures { result.bytes ≡ take 19 body.now }
{
    let mut bytes = [0; 19];
    bytes.copy_from_slice(&body[..19]);
    KeyId { bytes }
}

/// The slot of a gate and the 27 bytes past it.
pub fn slot_of(gate: u8, body: &[u8]) -> Slot
    requires { length body.now ≡ 27 }
    ensures { result ≡ slot_of gate body.now }
{
    Slot {
        is_open: gate == OPEN,
        to: key_id_at(body),
        until: BigEndian::read_u64(&body[19..]),
    }
}
