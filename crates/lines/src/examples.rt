// Worked examples of what queries mean.
ghost use Rattle.lines.specs.Examples.{Worked};

// Each query of the table gives its rows, worked out by the definitions alone.
pub fn worked_examples()
    ensures { Worked }
{}
