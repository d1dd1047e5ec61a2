// Laws over the definitions.
ghost use Rattle.sws_words.specs.Lines.{RefusesEach, AcceptsEach};

/// A line for each rule breaks it first, and others are taken, as a reference that was written
/// apart from this program has it.
pub fn lines()
    ensures refused { RefusesEach }
    ensures accepted { AcceptsEach }
{}
