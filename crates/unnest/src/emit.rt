// Writes the flat lines of a query: each line calls for its operands, whose numbers are lower, and then adds its own lines.
ghost use Rattle.std.specs.Prelude.{◌<◌, [], length};
ghost use Rattle.lines.specs.Lines.{as_cond, at, grow};
ghost use Rattle.lines.specs.Shapes.{tree_at};
ghost use Rattle.query.specs.Queries.{lines_of, widths_of};
ghost use Rattle.unnest.specs.Rooms.{Lays};
ghost use Rattle.unnest.specs.Emit.{breadth, emit_condition, emit as emit_lines};
ghost use Rattle.unnest.specs.Kinds.{InContext};

use crate::context::{Context, breadth};
use crate::join::Join;
use crate::kinds::over;
use crate::room::Room;
use lines::line::{Line, Shape};
use query::query::Query;
use stock::refusal::Refusal;

impl Room {
    // The flat lines of a condition: the same lines, over the new numbers.
    fn emit_condition(&mut self, query: &Query, line: usize) -> Result<usize, Refusal>
        requires { line < length (lines_of query.now) }
        ensures { Lays self.old self.new (emit_condition (as_cond (at (grow [] (lines_of query.now)) line))) result }
    {
        let kind = query.line(line);
        match kind.shape() {
            Shape::Part(condition) => {
                let part = self.emit_condition(query, condition)?;
                self.put(over(kind, part, 0))
            }
            Shape::Parts(left, right) => {
                let one = self.emit_condition(query, left)?;
                let two = self.emit_condition(query, right)?;
                self.put(over(kind, one, two))
            }
            _ => self.put(over(kind, 0, 0)),
        }
    }

    // The flat lines of a line with rows, in its place. An Apply's right operand is worked out inside the left one's rows, each once.
    pub(crate) fn emit(
        &mut self,
        query: &Query,
        line: usize,
        place: Option<Context>,
    ) -> Result<usize, Refusal>
        requires within { line < length (lines_of query.now) }
        requires context { InContext (widths_of query.now) (breadth place) (tree_at (lines_of query.now) line) }
        ensures { Lays self.old self.new (emit_lines (widths_of query.now) (tree_at (lines_of query.now) line) place) result }
    {
        let kind = query.line(line);
        match kind.shape() {
            Shape::One(rows) => {
                let one = self.emit(query, rows, place)?;
                self.lay_own(place, kind, one, 0)
            }
            Shape::Two(left, right) => {
                let one = self.emit(query, left, place)?;
                let two = self.emit(query, right, place)?;
                self.lay_own(place, kind, one, two)
            }
            Shape::Tested(rows, condition) => {
                let one = self.emit(query, rows, place)?;
                let test = self.emit_condition(query, condition)?;
                self.lay_own(place, kind, one, test)
            }
            Shape::Inner(rows, inner) => {
                let left = self.emit(query, rows, place)?;
                let domain = self.put(Line::Distinct { rows: left })?;
                let shared = breadth(place) + query.line_width(rows);
                let within = Context {
                    columns: shared,
                    domain,
                };
                let right = self.emit(query, inner, Some(within))?;
                let join = Join {
                    shared,
                    left,
                    right,
                };
                self.lay_apply(kind, query.line_width(inner), join)
            }
            _ => self.lay_own(place, kind, 0, 0),
        }
    }
}
