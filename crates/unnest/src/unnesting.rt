// From an accepted query to its flat plan.
ghost use Rattle.std.specs.Prelude.{◌≡◌, [], MatchResult};
ghost use Rattle.query.specs.Queries.{widths_of};
ghost use Rattle.unnest.specs.Statement.{LiftedLaw};
ghost use Rattle.unnest.specs.FlatPlans.{plan_lines, plan_widths, asked_lines, Unnested, Refused};
ghost use Rattle.unnest.specs.Rooms.{laid};

use crate::plan::FlatPlan;
use crate::room::Room;
use arrayvec::ArrayVec;
use lines::line::Line;
use query::query::Query;
use stock::refusal::Refusal;

// The widths of the tables that a query was checked against.
fn table_widths(query: &Query) -> ArrayVec<usize, 16>
    ensures { result.items ≡ widths_of query.now }
{
    ArrayVec::try_from(query.table_widths()).unwrap()
}

// Puts the flat lines of the query's last line, which is its answer.
fn emit_answer(query: &Query, room: &mut Room) -> Result<usize, Refusal>
    requires { laid room.old ≡ [] }
    ensures lines { MatchResult result (λ _. laid room.new ≡ asked_lines query.now) (λ e. Refused query.now e) }
    ensures lifted { LiftedLaw }
{
    room.emit(query, query.size() - 1, None)
}

// The plan of these lines.
fn plan_of(query: &Query, room: Room) -> FlatPlan
    requires { laid room ≡ asked_lines query.now }
    ensures { Unnested query.now result }
{
    let Room { lines, count } = room;
    FlatPlan {
        lines,
        count,
        widths: table_widths(query),
    }
}

impl FlatPlan {
    // The flat plan of a query; refused where it would have over 512 lines.
    pub fn unnest(query: &Query) -> Result<FlatPlan, Refusal>
        ensures made { MatchResult result (λ p. Unnested query.now p) (λ e. Refused query.now e) }
        ensures lifted { LiftedLaw }
    {
        let mut room = Room::new();
        emit_answer(query, &mut room)?;
        Ok(plan_of(query, room))
    }

    // The lines, in their order.
    pub fn lines(&self) -> &[Line]
        ensures { result.now ≡ plan_lines self.now }
    {
        &self.lines[0..self.count]
    }

    // The widths of the tables that the plan was made for.
    pub fn widths(&self) -> &[usize]
        ensures { result.now ≡ plan_widths self.now }
    {
        self.widths.as_slice()
    }
}
