// Numbers of the registry's file.

// The places of the first gate, and of the end of an empty registry.
pub const FIRST_GATE: u64 = 8;

pub const EMPTY_LEN: u64 = 9;

pub const OPEN: u8 = 1;

pub const CLOSED: u8 = 0;

// The kind of a body.
pub const PUBLICATION: u8 = 1;

// How many bytes a body has beside its name, and how many of them its length counts.
pub const BODY_LEN: usize = 28;

pub const COUNTED_LEN: u16 = 26;

pub const GREATEST_JOB: u32 = 4_294_967_294;

pub const MOST: usize = 4096;

// The bytes of an open gate and the longest body.
pub const LONGEST_STEP: usize = 93;

pub const GATE_LEN: usize = 1;

// An open gate and a body beside its name.
pub const STEP_LEN: u64 = 29;
