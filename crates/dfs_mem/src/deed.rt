ghost use Rattle.std.specs.Prelude.{◌≤◌, ◌+◌, ◌^◌, length};

// The bytes of a write, and their place.
#[derive(Drop)]
pub struct Patch {
    pub at: u64,
    pub bytes: Vec<u8>,
    ghost ends: { at + length bytes.items ≤ 2 ^ 63 },
}

// A call that a crash may tell from no call. `done` is false where it failed, and the file stayed as it was.
#[derive(Drop)]
pub enum Deed {
    Write { file: u32, patch: Patch, done: bool },
    Cut { file: u32, len: u64, done: bool },
    Sync { file: u32 },
    Say { bytes: Vec<u8>, count: usize },
}

// A deed and the number of its call among all calls, counted from 1.
#[derive(Drop)]
pub struct Kept {
    pub call: u64,
    pub deed: Deed,
}
