// The refusals 1 to 8 in their order. Each step asks by a clause what those before it ruled out: a type for each of these
// states would be no plainer.
ghost use Rattle.std.specs.Prelude.{◌≡◌, ℕ, ◌<◌, Bool, length, MatchResult};
ghost use Rattle.query.specs.Reads.{Never, First};
ghost use Rattle.query.specs.Verdicts.{Passed, Refused, Accepted};
ghost use Rattle.query.specs.Working.{Measured};

use crate::draft::Draft;
use crate::widths::Widths;
use stock::refusal::Refusal;

impl Draft<'_> {
    // Refuses the first line at which a test holds.
    pub(crate) fn refuse_first<F: Fn(usize) -> bool, R: Fn(usize) -> Refusal>(
        &self,
        is_faulty: F,
        refusal: R,
    ) -> Result<(), Refusal>
        requires tests { (i : ℕ) → i < length self.now.lines.now → F.pre is_faulty i }
        requires refuses { R.IsAlwaysCallable refusal }
        ensures { (p : ℕ → Bool) → ((i : ℕ) (b : Bool) → i < length self.now.lines.now → F.post is_faulty i b → b ≡ p i)
            → MatchResult result (λ _. Never p (length self.now.lines.now)) (λ e. (i : ℕ) × First p (length self.now.lines.now) i × R.post refusal i e) }
    {
        // `find` would want the clauses once more, on a closure that calls the test.
        for i in 0..self.lines.len() {
            if is_faulty(i) {
                return Err(refusal(i));
            }
        }
        Ok(())
    }

    fn check_reads(&self) -> Result<(), Refusal>
        ensures { MatchResult result (λ _. Passed self.now.lines.now self.now.tables.items 4) (λ e. Refused self.now.lines.now self.now.tables.items e) }
    {
        self.refuse_first(|i| self.is_misread(i), Refusal::Operand)?;
        self.refuse_first(|i| self.is_isolated(i), Refusal::Reading)?;
        self.refuse_first(|i| self.is_unknown(i), Refusal::UnknownTable)
    }

    // The widths of all lines of an accepted query, or the first cause to refuse it.
    pub(crate) fn check(&self) -> Result<Widths, Refusal>
        ensures { MatchResult result (λ w. Accepted self.now.lines.now self.now.tables.items × Measured self.now.lines.now self.now.tables.items w.each.items) (λ e. Refused self.now.lines.now self.now.tables.items e) }
    {
        self.check_reads()?;
        let widths = self.measure()?;
        self.check_columns(&widths)?;
        self.check_sums()?;
        Ok(widths)
    }
}
