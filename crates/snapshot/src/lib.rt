// Snapshots: reading one into an arena and writing the graph of an arena as one. reader.rt asks
// everything (checks.rt) before anything is written, then fills the arena (fill.rt); both read a
// record in one way (record.rt, field by field by fields.rt). writer.rt writes; calls.rt has the
// calls. What a snapshot is stands in model/specs/Snapshot.antt; proofs/ReadBack.antt says that
// what is written reads back.
#![tactic(auto)]

pub mod calls;
mod checks;
mod fields;
mod fill;
mod reader;
mod record;
mod writer;
