// Where the fields of a record begin, from the record's own start, in a slot as in a snapshot; and
// where a slot's record begins.
pub const ARC: usize = 0;

pub const FLAGS: usize = 1;

pub const STACK: usize = 2;

pub const LAYER: usize = 6;

pub const PARENT: usize = 10;

pub const ORIGIN: usize = 14;

pub const DEPTH: usize = 18;

pub const SIBLING: usize = 20;

pub const RESTRICTION: usize = 22;

pub const SPEC_FROM: usize = 24;

pub const HAS_SPECS: usize = 26;

pub const PATH: usize = 27;

// Behind the record's length.
pub(crate) const RECORD: usize = 19;
