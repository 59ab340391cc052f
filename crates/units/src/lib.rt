// Document 01, 'Problem and units': loaded costs are in points, held costs in parts, and only a scale converts one to the other.
#![tactic(auto)]

ghost use Rattle.std.specs.Prelude.{◌≡◌, ◌+◌, ◌≤◌, ◌<◌, ◌^◌};
ghost use Rattle.units.specs.Units.{Sound, new_scale, scale_min, scale_max, in_parts, in_points};

use std::marker::Model;
use std::ops::Add;

// Points and parts are two types with the same impls, and no generic figure: document 01's Forms ask for two tuple structs.
//
// A figure in points. Its number is private to this crate: no sum, comparison or rule takes a figure in parts in its place.
#[derive(Clone, Copy, PartialEq, Eq, PartialOrd, Ord)]
pub struct Points(u64);

// A figure in parts. Its number is private likewise.
#[derive(Clone, Copy, PartialEq, Eq, PartialOrd, Ord)]
pub struct Parts(u64);

impl Points {
    // The highest loaded cost.
    pub const HIGHEST: Points = Points(1000000);
}

impl Parts {
    // L: the highest held cost, and the highest constant.
    pub const HIGHEST: Parts = Parts(72000000000);
    // No parts.
    pub const ZERO: Parts = Parts(0);
}

// The figure that a number stands for, in a line's cost or in a place of H.
impl From<u64> for Points {
    ghost from_gives = { λ n p. p.0 ≡ n };

    fn from(n: u64) -> Points {
        Points(n)
    }
}

// The number that stands for the figure, in a reply or in a place of H.
impl From<Points> for u64 {
    ghost from_gives = { λ p n. n ≡ p.0 };

    fn from(p: Points) -> u64 {
        p.0
    }
}

impl Add for Points {
    type Output = Points;

    ghost can_add = { λ p q. p.0 + q.0 < 2 ^ 64 };

    ghost add_gives = { λ p q r. r.0 ≡ p.0 + q.0 };

    fn add(self, other: Points) -> Points {
        Points(self.0 + other.0)
    }
}

// The figure that a number stands for, in a place of T or of c0.
impl From<u64> for Parts {
    ghost from_gives = { λ n p. p.0 ≡ n };

    fn from(n: u64) -> Parts {
        Parts(n)
    }
}

// The number that stands for the figure, in a reply or in a place of T or of c0.
impl From<Parts> for u64 {
    ghost from_gives = { λ p n. n ≡ p.0 };

    fn from(p: Parts) -> u64 {
        p.0
    }
}

impl Add for Parts {
    type Output = Parts;

    ghost can_add = { λ p q. p.0 + q.0 < 2 ^ 64 };

    ghost add_gives = { λ p q r. r.0 ≡ p.0 + q.0 };

    fn add(self, other: Parts) -> Parts {
        Parts(self.0 + other.0)
    }
}

// How many parts make one point: a number that is always within its limits.
#[derive(Clone, Copy)]
pub struct Scale(u64);

impl Model for Scale {
    ghost use Rattle.std.specs.Prelude.{ℕ};
    ghost use Rattle.units.specs.Units.{Sound};

    ghost Value = { ℕ };

    ghost view = { λ s. s.0 };

    ghost invariant = { λ s. Sound s.0 };

    ghost inverse = { λ n. record { 0 = n } };

    ghost inverse_ok = { λ s h i. record { 0 = s.0 } };
}

impl Scale {
    pub const MIN: u64 = 1;

    pub const MAX: u64 = 1000;

    // The scale of s parts a point, where s is within the limits.
    // A constructor and no `TryFrom`: document 01's Forms ask for one, beside the limits.
    pub fn new(s: u64) -> Option<Scale>
        ensures { result ≡ new_scale s }
    {
        if (Self::MIN..=Self::MAX).contains(&s) {
            Some(Scale(s))
        } else {
            None
        }
    }

    // The scale of a number that is known to be within the limits.
    pub fn known(s: u64) -> Scale
        requires { (scale_min ≤ s) × (s ≤ scale_max) }
        ensures { result ≡ s }
    {
        Scale(s)
    }

    // How many parts make one point.
    // A method and no `From`, which has one clause: the proof of a saved line cites `value`, and a place of the block needs `sound`.
    pub fn number(self) -> u64
        ensures value { result ≡ self }
        ensures sound { Sound self }
    {
        self.0
    }

    // Points in parts.
    pub fn parts(self, p: Points) -> Parts
        requires { p.0 < 2 ^ 48 }
        ensures { result ≡ in_parts self p }
    {
        Parts(self.0 * p.0)
    }

    // The least whole number of points that is not below so many parts.
    #[tactic(auto, unfolding(crate::specs::Units::rounded_up))]
    pub fn points(self, c: Parts) -> Points
        requires { c.0 < 2 ^ 63 }
        ensures { result ≡ in_points self c }
    {
        Points((c.0 + (self.0 - 1)) / self.0)
    }
}
