// A session and its calls.
ghost use Rattle.std.specs.Prelude.{◌≡◌, length};
ghost use Rattle.std.specs.Option.{option_map};
ghost use Rattle.movements.specs.Shown.{shown};
ghost use Rattle.session.specs.Model.{opened};
ghost use Rattle.session.specs.Requests.{lay, unnest, add, withdraw, clear, ask, run};
ghost use Rattle.session.specs.Agrees.{Agrees, Steps, Makes, Lays, Unnests, Asks, Runs, Adds, Withdraws, Clears};
ghost use Rattle.session.specs.Replies.{told, told_size, reply};
ghost use Rattle.session.specs.declared.calls.Answer.TheVariants.{Count};

use cells::cell::Cell;
use evaluate::ask::ask as ask_query;
use evaluate::run::run as run_plan;
use lines::line::Line;
use movements::movements::Movements;
use query::query::Query;
use stock::refusal::Refusal;
use stock::stock::Stock;
use unnest::plan::FlatPlan;

#[derive(Drop)]
pub struct Session<S> {
    pub(crate) layer: Movements<S>,
    pub(crate) query: Option<Query>,
    pub(crate) plan: Option<FlatPlan>,
}

impl<S: Stock> Session<S> {
    // No query and no movement yet.
    pub fn open(stock: S) -> Session<S>
        ensures same { result.layer.below ≡ stock }
        ensures agrees { Agrees S.Stock.tables result (opened (S.Stock.tables stock)) }
    {
        Session {
            layer: Movements::over(stock),
            query: None,
            plan: None,
        }
    }

    // Checks lines against the tables; accepted, they are the query. Answers the lines and the width.
    #[tactic(auto, using(crate::proofs::Steps::refused_lay))]
    pub fn lay(&mut self, lines: &[Line]) -> Result<(usize, usize), Refusal>
        ensures made { Lays S.Stock.tables self.old self.new lines.now result }
        ensures steps { Steps S.Stock.tables self.old self.new (lay lines.now) (told_size result) }
        ensures same { self.new.layer ≡ self.old.layer }
    {
        let query = Query::check(lines, &self.layer)?;
        let answer = (query.size(), query.width());
        self.query = Some(query);
        self.plan = None;
        Ok(answer)
    }

    // Sets the flat plan of the query that stands and answers its lines.
    #[tactic(auto, using(crate::proofs::Steps::unnest_long))]
    pub fn unnest(&mut self) -> Result<usize, Refusal>
        ensures made { Unnests self.old self.new result }
        ensures steps { Steps S.Stock.tables self.old self.new unnest (told result) }
        ensures same { self.new.layer ≡ self.old.layer }
    {
        let query = self.query.as_ref().ok_or(Refusal::NothingStands)?;
        let plan = FlatPlan::unnest(query)?;
        let count = plan.lines().len();
        self.plan = Some(plan);
        Ok(count)
    }

    // The flat plan that stands.
    pub fn plan(&self) -> Option<&FlatPlan>
        ensures { option_map (λ x. x.now) result ≡ self.now.plan }
    {
        self.plan.as_ref()
    }

    // The rows shown, as a stock.
    pub fn stock(&self) -> &Movements<S>
        ensures { result.now ≡ self.now.layer }
    {
        &self.layer
    }

    // Asks the query that stands over the rows that are shown. Answers its rows, which are then first in the cells, and their width.
    pub fn ask(&self, cells: &mut [Cell]) -> Result<(usize, usize), Refusal>
        ensures made { Asks (shown S.Stock.tables self.now.layer) self.now.query cells.old cells.new result }
        ensures steps { Makes S.Stock.tables self.now self.now (ask (length cells.old)) cells.old (reply (told_size result) cells.new) }
    {
        let query = self.query.as_ref().ok_or(Refusal::NothingStands)?;
        ask_query(&self.layer, query, cells)
    }

    // Runs the flat plan that stands over the rows that are shown. Answers its rows, which are then first in the cells, and their width.
    pub fn run(&self, cells: &mut [Cell]) -> Result<(usize, usize), Refusal>
        ensures made { Runs (shown S.Stock.tables self.now.layer) self.now.plan cells.old cells.new result }
        ensures steps { Makes S.Stock.tables self.now self.now (run (length cells.old)) cells.old (reply (told_size result) cells.new) }
    {
        let plan = self.plan().ok_or(Refusal::NothingStands)?;
        run_plan(&self.layer, plan, cells)
    }

    // Puts a row at the end of a table and answers how many rows the table then shows.
    pub fn add(&mut self, table: usize, row: &[Cell]) -> Result<usize, Refusal>
        ensures made { Adds S.Stock.tables self.old.layer self.new.layer table row.now result }
        ensures steps { Steps S.Stock.tables self.old self.new (add table row.now) (told result) }
        ensures same { self.new.layer.below ≡ self.old.layer.below }
    {
        self.layer.add(table, row)
    }

    // Takes out the row shown at a place and answers how many rows the table then shows.
    pub fn withdraw(&mut self, table: usize, place: usize) -> Result<usize, Refusal>
        ensures made { Withdraws S.Stock.tables self.old.layer self.new.layer table place result }
        ensures steps { Steps S.Stock.tables self.old self.new (withdraw table place) (told result) }
        ensures same { self.new.layer.below ≡ self.old.layer.below }
    {
        self.layer.withdraw(table, place)
    }

    // Shows the rows below again.
    pub fn clear(&mut self)
        ensures made { Clears S.Stock.tables self.old.layer self.new.layer }
        ensures steps { Steps S.Stock.tables self.old self.new clear (Count 0) }
        ensures same { self.new.layer.below ≡ self.old.layer.below }
    {
        self.layer.clear();
    }
}
