//! What holds of words. The function does nothing: it has a law as its contract.
ghost use Rattle.thread_calls.specs.Words.{WordsAreReadBack};

/// A place that has a word of its own is the one that its word stands for.
pub fn words_are_read_back()
    ensures { WordsAreReadBack }
{}
