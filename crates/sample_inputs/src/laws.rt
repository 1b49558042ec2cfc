//! The law on samples, which is the contract of a function that does nothing.
ghost use Rattle.sample_inputs.specs.Document.{SamplesArePlain};
ghost use Rattle.sample_inputs.specs.Examples.{SampleExamples};

/// The value of a sample is read as a document that is plain at the sample's depth.
pub fn samples_are_plain()
    ensures { SamplesArePlain }
{}

/// The worked examples.
pub fn samples_worked()
    ensures { SampleExamples }
{}
