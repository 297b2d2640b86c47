// Known results of the algebras, proved of their definitions and run.
#![tactic(auto)]

ghost use Rattle.algebra_tests.specs.Known.{KnownResults};

#[cfg(test)]
mod tests;

pub fn known_results()
    ensures { KnownResults }
{}
