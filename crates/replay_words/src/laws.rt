//! What is known of the words that are commands. The functions do nothing: each has a law as its contract.
ghost use Rattle.replay_words.specs.Laws.{FormsAreCommands, WordsAreClear};

/// Words are those of one command at most.
pub fn words_are_clear()
    ensures { WordsAreClear }
{}

/// `replay`, `replay --moves` and `gen 7 4 9` are commands; `replay now` and `replay --help` are none.
pub fn forms_are_commands()
    ensures { FormsAreCommands }
{}
