//! What follows from the law of `replay` for two histories.
ghost use Rattle.replay.specs.Alone.{WordsAlone};

use kinds::Kind;

/// Two histories on filters of one plan and size after which the same keys are current leave the same
/// words, whatever else was done and held before. The function does nothing; what counts is the
/// contract.
pub fn words_alone<K: Kind>()
    ensures { WordsAlone K.Value K.Kind.bytes }
{}
