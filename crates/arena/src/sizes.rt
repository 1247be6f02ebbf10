// How much a graph, a record and the lent buffers hold, the flag INERT, and the number that no node
// has.

// How many bytes an arena has.
pub const ARENA_BYTES: usize = 327744;

// How many nodes fit.
pub const MAX_NODES: u32 = 1024;

// How many bytes of paths fit, all together.
pub const MAX_PATH_BYTES: usize = 32768;

// How few and how many bytes a record has: its fixed length and a path's 1 to 255.
pub const LEAST_RECORD_BYTES: u16 = 28;

pub const MOST_RECORD_BYTES: u16 = 282;

// How many bytes the buffers have that calls are lent for a path, a set of nodes, an order and a
// snapshot.
pub const PATH_BYTES: usize = 255;

pub const SET_BYTES: usize = 1024;

pub const ORDER_BYTES: usize = 4096;

pub const SNAPSHOT_BYTES: usize = 65536;

// The flag INERT, the lowest bit; CULLED is the next.
pub const INERT: u8 = 1;

// The number of `NodeId::INVALID`.
pub const NO_NODE: u32 = 4294967295;
