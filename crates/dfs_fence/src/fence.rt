use dfs_record::Key;

/// Where one block lies in the file of its log, and what it has.
#[derive(Debug, Drop, PartialEq, Eq)]
pub struct Fence {
    /// The place of its first byte in the file.
    pub at: u64,
    /// How many bytes it has.
    pub len: u32,
    /// How many records it has.
    pub count: u16,
    /// The key of its first record.
    pub first: Key,
    /// The key of its last record.
    pub last: Key,
}
