// Worked examples of how many cells a query needs.
ghost use Rattle.evaluate.specs.Examples.{Counted, AllWorked};

use lines::examples::worked_examples;

// Each example needs exactly its cells, and with one less the line that would pass them comes back.
pub fn counted_examples()
    ensures { Counted }
{}

// All worked examples, those on rows and those on cells.
pub fn all_worked_examples()
    ensures { AllWorked }
{
    worked_examples();
    counted_examples();
}
