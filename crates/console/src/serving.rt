// The calls on a session that is open.
use crate::answers::{answered, lines as write_lines, refused, rows, shown, sized, unread};
use crate::input::{Input, Said};
use cells::cell::Cell;
use commands::command::Command;
use lines::line::Line;
use session::session::Session;
use std::io;
use std::io::Write;
use stock::refusal::Refusal;
use stock::stock::Stock;

// As many of the cells as are asked for, or all where these are more.
fn lend(cells: &mut [Cell], count: usize) -> &mut [Cell] {
    let n = count.min(cells.len());
    &mut cells[..n]
}

fn plan<W: Write, S: Stock>(out: &mut W, session: &Session<S>) -> io::Result<()> {
    match session.plan() {
        Some(plan) => write_lines(out, plan.lines()),
        None => refused(out, Refusal::NothingStands),
    }
}

// An open session, the query that is written for it, the cells to lend, and where the answers go.
#[derive(Drop)]
pub struct Service<W, S: Stock> {
    pub session: Session<S>,
    pub lines: Vec<Line>,
    pub cells: Vec<Cell>,
    pub out: W,
}

impl<W: Write, S: Stock> Service<W, S> {
    // Makes the call that is asked for.
    fn obey(&mut self, said: Said) -> io::Result<()> {
        let session = &mut self.session;
        let lines = &mut self.lines;
        let out = &mut self.out;
        match said.command {
            Some(Command::Line(line)) => Ok(lines.push(line)?),
            Some(Command::Lay) => {
                let answer = session.lay(lines);
                lines.clear();
                sized(out, "lay", answer)
            }
            Some(Command::Unnest) => answered(out, "unnest", session.unnest()),
            Some(Command::Plan) => plan(out, session),
            Some(Command::Add(table)) => answered(out, "add", session.add(table, said.row)),
            Some(Command::Withdraw(table, place)) => {
                answered(out, "withdraw", session.withdraw(table, place))
            }
            Some(Command::Clear) => {
                session.clear();
                writeln!(out, "clear 0")
            }
            Some(Command::Ask(count)) => {
                let lent = lend(&mut self.cells, count);
                let answer = session.ask(lent);
                rows(out, "ask", answer, lent)
            }
            Some(Command::Run(count)) => {
                let lent = lend(&mut self.cells, count);
                let answer = session.run(lent);
                rows(out, "run", answer, lent)
            }
            Some(Command::Show(table)) => shown(out, session.stock(), table),
            Some(Command::Table(_) | Command::Row | Command::Open) | None => {
                unread(out, said.place)
            }
        }
    }

    // Takes commands to the end of the input.
    pub fn serve(&mut self, input: &mut Input) -> io::Result<()> {
        // Counted, as in `Input`: the input may never end, and a loop must.
        for _ in 0..u64::MAX {
            let Some(said) = input.next()? else {
                break;
            };
            self.obey(said)?;
            self.out.flush()?;
        }
        Ok(())
    }
}
