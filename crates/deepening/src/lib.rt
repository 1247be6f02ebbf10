// A child's name appended to every site of a graph: in its own arena, or into a second one, which
// is seeding. appending.rt has both, of the parts in sites.rt and seeding.rt; calls.rt the calls.
// What is left is model/specs/Deepening.antt's `deepen`.
#![tactic(auto)]

mod appending;
pub mod calls;
mod seeding;
mod sites;
