//! Worked examples of the filter: one theorem.
#![tactic(auto)]

ghost use Rattle.examples.specs.Examples.{Examples};

/// The theorem that the filter's calls do on these examples what the specification says. The function does nothing; what counts is the contract.
pub fn examples()
    ensures { Examples }
{}
