// Runs Primes, Essentials and Plan on the worked examples of the papers, which `tests/examples` lists, and prints what they
// answer.
#![tactic(auto)]

mod documents;
mod terms;

use documents::EXAMPLES;

// Prints each example. Where a write fails, the next one is tried all the same.
fn main(rt: HostRuntime) {
    for (name, text) in &EXAMPLES {
        terms::example(&rt, name, text);
    }
}
