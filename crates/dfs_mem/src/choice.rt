/// Which image of a host is asked for: after how many of its calls, and which of the things that a crash may leave then.
#[derive(Clone, Copy, Debug, PartialEq, Eq)]
pub struct Choice {
    /// How many of the host's first calls the image comes after.
    pub moment: u64,
    pub length: Length,
    pub fill: Fill,
}

/// The length of each file.
#[derive(Clone, Copy, Debug, PartialEq, Eq)]
pub enum Length {
    /// The least since its last sync.
    Least,
    /// The greatest since its last sync, or that a call begun since might have given it.
    Greatest,
}

/// The byte at each place that a write touched since the file's last sync. It is 0 where the content that it is taken from ends before.
#[derive(Clone, Copy, Debug, PartialEq, Eq)]
pub enum Fill {
    /// The byte at the last sync.
    Settled,
    /// The byte that a read gives.
    Latest,
    /// This byte.
    Byte(u8),
}
