// Worked examples of what the reference model does.
ghost use Rattle.session.specs.Examples.{WorkedPasts};

// Each past of the table ends as it says, worked out by the definitions alone.
pub fn worked_pasts()
    ensures { WorkedPasts }
{}
