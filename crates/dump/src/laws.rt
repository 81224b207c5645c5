// Theorems on the printed lines, as the contract of a function that does nothing.
ghost use Rattle.dump.specs.Laws.{DigitsBack, PrintsAgain};

// What is printed of a message can be put in again.
pub fn lines_stand()
    ensures digits { DigitsBack }
    ensures again { PrintsAgain }
{}
