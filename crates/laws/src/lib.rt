// Laws alone: what follows from the definitions of crates/model, over lists, paths and graphs.
// proofs/Lib.antt lists them, and specs/ has what demand 3 asks of a graph; crates/arena has the
// laws of a graph's bytes, and the other crates tie their functions to the definitions by these.
#![tactic(auto)]
