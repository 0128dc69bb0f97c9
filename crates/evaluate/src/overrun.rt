// Where the lent cells run out.
ghost use Rattle.std.specs.Prelude.{◌≡◌};
ghost use Rattle.stock.specs.declared.refusal.Refusal.TheVariants.{CellsOut};

use stock::refusal::Refusal;

// The line whose rows would pass the cells.
#[derive(Clone, Copy)]
pub(crate) struct Overrun {
    pub(crate) line: usize,
}

impl From<Overrun> for Refusal {
    ghost from_gives = { λ overrun refusal. refusal ≡ CellsOut overrun.line };

    fn from(overrun: Overrun) -> Refusal {
        Refusal::CellsOut(overrun.line)
    }
}
