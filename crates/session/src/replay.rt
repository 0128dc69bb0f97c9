// A whole past of a session, made call by call.
ghost use Rattle.std.specs.Prelude.{◌≡◌, length};
ghost use Rattle.session.specs.Agrees.{Makes};
ghost use Rattle.session.specs.Law.{SessionFollowsTheModel};
ghost use Rattle.session.specs.Past.{request_by, request_of, lent, reply_of};
ghost use Rattle.session.specs.Replies.{reply};

use crate::calls::{Answer, Call, Event};
use crate::session::Session;
use cells::cell::Cell;
use stock::stock::Stock;

// Makes one call with lent cells. If a model agreed with the session, it still does once it has been fed the call too,
// and it replies the same.
fn answer_to<S: Stock>(session: &mut Session<S>, call: &Call, cells: &mut [Cell]) -> Answer
    ensures made { Makes S.Stock.tables session.old session.new (request_by (length cells.old) call.now) cells.old (reply result cells.new) }
    ensures same { session.new.layer.below ≡ session.old.layer.below }
{
    match call {
        Call::Lay(lines) => session.lay(lines).into(),
        Call::Unnest => session.unnest().into(),
        Call::Add(table, row) => session.add(*table, row).into(),
        Call::Withdraw(table, place) => session.withdraw(*table, *place).into(),
        Call::Clear => {
            session.clear();
            Answer::Count(0)
        }
        Call::Ask => session.ask(cells).into(),
        Call::Run => session.run(cells).into(),
    }
}

// Makes a call and keeps its answer.
pub fn make<S: Stock>(session: &mut Session<S>, event: &mut Event)
    ensures made { Makes S.Stock.tables session.old session.new (request_of event.old) (lent event.old) (reply_of event.new) }
    ensures call { request_of event.new ≡ request_of event.old }
    ensures same { session.new.layer.below ≡ session.old.layer.below }
{
    event.answer = answer_to(session, &event.call, &mut event.cells);
}

// Opens a session and makes a list of calls on it, each with its reply.
pub fn replay<S: Stock>(stock: S, past: &mut [Event]) -> Session<S>
    ensures { SessionFollowsTheModel S.Stock.tables stock past.old past.new result }
{
    let mut session = Session::open(stock);
    for event in past.iter_mut() {
        make(&mut session, event);
    }
    session
}
