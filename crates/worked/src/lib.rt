//! The worked examples, as one theorem over the definitions that the calls' contracts cite. There is nothing to run.
#![tactic(auto)]

ghost use Rattle.worked.specs.Examples.{WorkedExamples};

/// The twelve worked examples.
pub fn worked_examples_hold()
    ensures { WorkedExamples }
{}
