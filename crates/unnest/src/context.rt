// Where a line stands: in the empty context, or in one of some columns.
ghost use Rattle.std.specs.Prelude.{◌≡◌};
ghost use Rattle.unnest.specs.Emit.{breadth};

// The columns of a context, and the number of its domain line, which has the context rows, each once.
#[derive(Clone, Copy)]
pub(crate) struct Context {
    pub(crate) columns: usize,
    pub(crate) domain: usize,
}

// How many columns the context has.
pub(crate) fn breadth(place: Option<Context>) -> usize
    ensures { result ≡ breadth place }
{
    place.map_or(0, |context| context.columns)
}
