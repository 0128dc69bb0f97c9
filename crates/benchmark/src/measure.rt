// A query checked, unnested, run and measured.
use cells::cell::Cell;
use evaluate::run::run;
use lines::line::Line;
use query::query::Query;
use std::io;
use std::time::Instant;
use stock::refusal::Refusal;
use stock::stock::Stock;
use unnest::plan::FlatPlan;

// The flat plan of a query. It takes 20 KB of the stack, so it is given alone and borrowed: a pair would take one copy more.
fn planned<S: Stock>(stock: &S, lines: &[Line]) -> Result<FlatPlan, Refusal> {
    let query = Query::check(lines, stock)?;
    FlatPlan::unnest(&query)
}

// A plan over a stock, and all the cells that may be lent to its runs.
#[derive(Drop)]
struct Trial<'a, S> {
    stock: &'a S,
    plan: &'a FlatPlan,
    cells: &'a mut [Cell],
}

impl<'a, S: Stock> Trial<'a, S> {
    // Whether so many of the cells suffice. More than there are do, since all of them do.
    fn suffices(&mut self, lent: usize) -> bool {
        if lent > self.cells.len() {
            return true;
        }
        let cells = &mut self.cells[..lent];
        run(self.stock, self.plan, cells).is_ok()
    }

    // The least count of cells that suffices, by halving, one bit of it after the other.
    // By hand: the library searches slices, and none holds what the counts come to.
    fn need(&mut self) -> usize {
        let mut short = 0usize;
        for bit in (0..16u32).rev() {
            let lent = short.saturating_add(1 << bit);
            if !self.suffices(lent) {
                short = lent;
            }
        }
        short.saturating_add(1)
    }

    // Nanoseconds per call with so many of the cells, or all where these are fewer. No repeat counts as one.
    fn time(&mut self, rt: &HostRuntime, lent: usize, repeats: u32) -> io::Result<u128> {
        let n = lent.min(self.cells.len());
        let cells = &mut self.cells[..n];
        let start = Instant::now(rt)?;
        for _ in 0..repeats {
            let _ = run(self.stock, self.plan, cells);
        }
        let nanos = start.elapsed(rt)?.as_nanos();
        Ok(nanos / u128::from(repeats.max(1)))
    }

    // The time over all the cells, and over just those that are needed: every lent cell is set, so more of them take longer.
    fn report(&mut self, rt: &HostRuntime, rows: usize, repeats: Option<u32>) -> io::Result<()> {
        let need = self.need();
        let all = self.cells.len();
        print!(rt; "{rows} rows, {need} cells")?;
        if let Some(repeats) = repeats {
            let most = self.time(rt, all, repeats)?;
            let least = self.time(rt, need, repeats)?;
            print!(rt; ", {most} ns, {least} ns with no cell to spare")?;
        }
        println!(rt; "")
    }
}

fn refused(rt: &HostRuntime, refusal: Refusal) -> io::Result<()> {
    println!(rt; "refused with {refusal}")
}

// Prints how many rows the query gives, how many cells that needs and, with a repeat count, the time per call.
pub fn measure<S: Stock>(
    rt: &HostRuntime,
    stock: &S,
    lines: &[Line],
    cells: &mut [Cell],
    repeats: Option<u32>,
) -> io::Result<()> {
    match &planned(stock, lines) {
        Ok(plan) => match run(stock, plan, cells) {
            Ok((rows, _)) => Trial { stock, plan, cells }.report(rt, rows, repeats),
            Err(refusal) => refused(rt, refusal),
        },
        Err(refusal) => refused(rt, *refusal),
    }
}
