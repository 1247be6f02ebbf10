// The erasable set, and erasing. sets.rt: erase sets and question 11; lists.rt: new numbers, child
// lists and order of what is kept, found over the unchanged arena; records.rt: the kept records
// moved to their new slots; in_place.rt: all of it in one arena; calls.rt: the calls.
// The definitions are in model/specs/Culling.antt and Erasing.antt.
#![tactic(auto)]

pub mod calls;
mod in_place;
mod lists;
mod records;
mod sets;
