// The sizes of what a store is made of, as `rules/specs/Sizes.antt` has them. Bytes and places are counted in `usize`, as slices are; blocks of
// the device in `u64`, as records have them.

// Bytes of a block.
pub const BLOCK_BYTES: usize = 4096;

// Blocks of a unit.
pub const UNIT_BLOCKS: usize = 16;

// Bytes of a unit.
pub const UNIT_BYTES: usize = UNIT_BLOCKS * BLOCK_BYTES;

// Units of a checksum group.
pub const GROUP_UNITS: usize = 256;

// Blocks of an allocation group.
pub const GROUP_BLOCKS: u64 = 16384;

// The most blocks of a store.
pub const MOST_BLOCKS: u64 = 65536;

// The most places of a book.
pub const MOST_PLACES: usize = 1048575;

// Allocation groups of the largest store.
pub const MOST_GROUPS: usize = 4;
