#![tactic(auto)]
// Demand 3, and F-2's swap, of runs of the calls: each function runs a call, twice or once, and its contract says the demand of these runs.
// Kept: a function for each grey call. One over both depths would take a trait with the two calls and their contracts once more.
// Kept: the lists of a picture apart, as its call takes them; the contracts speak of each by its name.
// What a call owes is taken from its own contract. The demand of the definitions is stated in demands/specs and proved in demands/proofs.
mod altered; // altered.rt: two runs, on bands and on alterations of them
mod ranked; // ranked.rt: one run, its greys in the order of its decibels
mod reordered; // reordered.rt: two runs, on a scene and on a reordering of it
mod swapped; // swapped.rt: two runs, on two bands and on the same bands swapped

// What two runs answer.
#[derive(Clone, Copy)]
pub(crate) struct TwoRuns<A> {
    first: A,
    second: A,
}
