// How a lease file is laid out.
ghost use Rattle.std.specs.Prelude.{◌≡◌, ◌≢◌, ◌+◌, ◌^◌, ◌<◌, ◌≤◌, ℕ, List, length, slice_index};
ghost use Rattle.leaf_lease.specs.LeaseFile.{file_size, kept_id};

/// The gate of a file that is formatted.
pub const OPEN: u8 = 0xa5;

/// How many bytes stand before the leaves: the gate, the identifier and the height.
pub const HEAD: usize = 18;

/// The size of the largest lease file, of a key of height 10.
pub const LARGEST: usize = 1042;

/// How many writes and syncs of the disk one lease takes: the leaf's byte, and the sync.
pub const LEASE_CALLS: usize = 2;

/// The bytes that one lease writes.
pub const LEASE_BYTES: usize = 1;

/// How many leaves a key of that height has.
pub fn leaf_count(height: u8) -> u32
    requires { height ≤ 10 }
    ensures count { result ≡ 2 ^ height }
    ensures most { result ≤ 1024 }
{
    1 << height
}

/// How many bytes the lease file of a key of that height has.
pub fn file_size(height: u8) -> usize
    requires { height ≤ 10 }
    ensures size { result ≡ file_size height }
    ensures most { result ≤ 1042 }
{
    HEAD + leaf_count(height) as usize
}

/// The identifier that the file keeps: its bytes 1 to 16.
pub fn id_in(bytes: &[u8]) -> [u8; 16]
    requires { 18 ≤ length bytes.now }
    ensures id { result ≡ kept_id bytes.now }
{
    let mut id = [0; 16];
    id.copy_from_slice(&bytes[1..17]);
    id
}

/// One past the last byte that is not 0, or 0.
pub fn first_free(leaves: &[u8]) -> usize
    ensures within { result ≤ length leaves.now }
    ensures free { (later : ℕ) → result ≤ later → later < length leaves.now → slice_index leaves.now later ≡ 0 }
    ensures last_gone { (last : ℕ) → result ≡ last + 1 → slice_index leaves.now last ≢ 0 }
{
    let mut free = leaves.len();
    while free > 0 && leaves[free - 1] == 0 {
        free -= 1;
    }
    free
}
