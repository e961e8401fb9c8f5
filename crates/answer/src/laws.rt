// Laws of what is printed.
ghost use Rattle.answer.specs.Laws.{PrintedTells};

// What is printed tells the answers.
pub fn printed_tells()
    ensures { PrintedTells }
{}
