//! The fault of a cell that was inspected.
ghost use Rattle.std.specs.Prelude.{◌≡◌};

use trace::fault::Fault;

/// The trace's fault, together with the number of the cell that was inspected.
#[derive(Clone, Copy, Drop, PartialEq, Eq, Debug)]
pub struct CellFault<D> {
    pub cell: usize,
    pub fault: Fault<D>,
}

// A fault with the number of its cell: by this `From` an inspection carries it up; a derived one would have no contract.
impl<D> From<(usize, Fault<D>)> for CellFault<D> {
    ghost from_gives = { λ x y. y ≡ record { cell = x.0; fault = x.1 } };

    fn from(value: (usize, Fault<D>)) -> CellFault<D> {
        let (cell, fault) = value;
        CellFault { cell, fault }
    }
}
