//! Laws of the definitions that the contracts of this crate cite. The functions do nothing; their
//! contracts are the laws.

ghost use Rattle.std.specs.Prelude.{◌≡◌, ◌↔◌, ℕ, List, Some};
ghost use Rattle.gcc_units.specs.Listed.{Listed};
ghost use Rattle.call_trace.specs.Fields.{number_of};
ghost use Rattle.run_top.specs.declared.words.Command.{Command};
ghost use Rattle.run_top.specs.Asking.{IsNumberText, texts, Asks};
ghost use Rattle.run_top.specs.Words.{command_of};

/// A number is read just where the text is its decimal, without sign and without a leading zero.
pub fn numbers_are_decimals()
    ensures { (text : List ℕ) (n : ℕ) → (number_of text ≡ Some n) ↔ IsNumberText text n }
{}

/// Words are accepted just where they ask for a command, and it is the one that they ask for: its
/// name, and behind it its options, each once, in any order.
pub fn commands_are_asked_for()
    ensures { (words : List (Listed ℕ)) (command : Command) → (command_of words ≡ Some command) ↔ Asks (texts words) command }
{}
