/// What a job is given when it begins.
#[derive(Clone, Copy, Debug, PartialEq, Eq)]
pub struct Settings {
    /// How many records an open layer has at most: 1 to 65,536.
    pub buffer: u32,
    /// How many look-ups may be kept: 1 to 65,536. None are kept yet.
    pub cache: u32,
    /// How many parts a plan has where none are asked for, and a publication of several layers: 1 to 256.
    pub parts: u16,
    /// How many bytes a log has at most: 4,096 to 1,099,511,627,776.
    pub log_bytes: u64,
}

impl Settings {
    /// What jobs are given where no line says otherwise.
    pub const DEFAULT: Settings = Settings {
        buffer: 1024,
        cache: 1024,
        parts: 4,
        log_bytes: 1_099_511_627_776,
    };
}
