// Scratch in three sizes: for at most 16 outputs and rows of bytes, for at most 64, and for any.
// The lists of 16 outputs of 4 groups, of 64 outputs of 16, and of 255 outputs of 64.
pub const SMALL_LISTS: usize = 512;

pub const MIDDLE_LISTS: usize = 8192;

pub const LARGE_LISTS: usize = 130560;

// How long they are.
pub const SMALL_COUNTS: usize = 128;

pub const MIDDLE_COUNTS: usize = 512;

pub const LARGE_COUNTS: usize = 2040;

// The rows of a tile.
pub const SMALL_ROWS: usize = 1024;

pub const MIDDLE_ROWS: usize = 4096;

pub const LARGE_ROWS: usize = 32768;

// Its table.
pub const SMALL_TABLE: usize = 4096;

pub const MIDDLE_TABLE: usize = 16384;

pub const LARGE_TABLE: usize = 65536;
