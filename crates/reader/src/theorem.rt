// What the definitions of reading are worth: a text is accepted if and only if it is well formed.
ghost use Rattle.reader.specs.Theorem.{ReadingRight};

pub fn reading_right()
    ensures { ReadingRight }
{}
