// Twelve worked examples as one statement, by the definitions that the contracts of the library use.
#![tactic(auto)]

ghost use Rattle.worked_examples.specs.Examples.{WorkedExamples};

pub fn worked_examples_hold()
    ensures { WorkedExamples }
{}
