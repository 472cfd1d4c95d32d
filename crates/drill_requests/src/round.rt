//! The rounds of a drill.

use std::marker::Model;

/// A round of a drill: its number from 0, its type, and where it is.
#[derive(Clone, Copy, Debug, PartialEq, Eq)]
pub struct Round {
    pub number: u32,
    pub kind: u32,
    pub x: u32,
    pub y: u32,
}

impl Model for Round {
    ghost use Rattle.drill_requests.specs.Drawn.{Drawn, IsDrawn};

    ghost Value = { Drawn };

    ghost view = { λ r. record { number = r.number; kind = r.kind; x = r.x; y = r.y } };

    ghost inverse = { λ r. record { number = r.number; kind = r.kind; x = r.x; y = r.y } };

    ghost invariant = { λ r. IsDrawn (record {
      number = r.number;
      kind = r.kind;
      x = r.x;
      y = r.y;
    }) };
}
