// The arcs, 0 to 6. Bytes, and no enum: an arena or a `NodeDesc` may hold any byte, which question 6
// refuses, and an arc is compared and ranked as the byte that it is.
pub const ROOT: u8 = 0;

pub const INHERIT: u8 = 1;

pub const VARIANT: u8 = 2;

pub const RELOCATE: u8 = 3;

pub const REFERENCE: u8 = 4;

pub const PAYLOAD: u8 = 5;

pub const SPECIALIZE: u8 = 6;
