//! A trim: a board that corrects the currents of the board below it by a fixed amount.

ghost use Rattle.std.specs.Prelude.{◌≡◌};
ghost use Rattle.board.specs.Trimmed.{over};

use crate::amount::*;
use crate::*;

/// A board over any board, and again a board: each current comes with the amount added.
#[derive(Drop)]
pub struct Trim<B> {
    below: B,
    amount: TrimAmount,
}

impl<B: Board> Trim<B> {
    /// A trim of this amount over a board.
    pub fn new(below: B, amount: TrimAmount) -> Trim<B>
        ensures below { result.below ≡ below }
        ensures amount { result.amount ≡ amount }
    {
        Trim { below, amount }
    }
}

impl<B: Board> Board for Trim<B> {
    ghost meaning = { λ t. over t.amount (B.Board.meaning t.below) };

    ghost lowest = { λ t. B.Board.lowest t.below };

    ghost highest = { λ t. B.Board.highest t.below };

    fn ceiling(&self) -> ChargeMilliamps {
        self.below.ceiling()
    }

    fn take(&mut self) -> Result<Reading, Fault> {
        let r = self.below.take()?;
        Ok(self.amount.shift(r))
    }

    fn drive(&mut self, current: ChargeMilliamps) -> Result<(), Fault> {
        self.below.drive(current)
    }

    fn driven(&self) -> ChargeMilliamps {
        self.below.driven()
    }
}
