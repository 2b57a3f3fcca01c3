//! Laws of the grammar, each on a function that does nothing: its contract is the law.

ghost use Rattle.xs_words.specs.Grammar.{Words};
ghost use Rattle.xs_words.specs.declared.command.Command.{Command};
ghost use Rattle.xs_words.specs.Commands.{IsReadBack};
ghost use Rattle.xs_words.specs.FirstFault.{TellsFirstFault};

/// Every command in range has words that say it, so no words say two commands.
pub fn words_are_read_back()
    ensures { (command : Command) → IsReadBack command }
{}

/// The fault that is told has the least code of all that apply, and of that code the least word number.
pub fn first_fault_is_told()
    ensures { (words : Words) → TellsFirstFault words }
{}
