//! Laws on the words of the command line, each a call that does nothing.
ghost use Rattle.plan_words.specs.Laws.{
  PlainWordsAreWords,
  TheirTaskIsAskedFor,
  WordsAskForTheirTask,
};

/// Words of a mode, none empty and none begun by `-`, ask for its task: they are never refused.
pub fn plain_words()
    ensures { PlainWordsAreWords }
{}

/// Words that have a task ask for it.
pub fn words_ask_for_their_task()
    ensures { WordsAskForTheirTask }
{}

/// Words that ask for a task have it.
pub fn task_asked_for_is_theirs()
    ensures { TheirTaskIsAskedFor }
{}
