//! The kinds of plans that are tried, and the limits of their numbers.
ghost use Rattle.std.specs.Prelude.{◌≡◌, ◌^◌, pos, Some};
ghost use Rattle.trials.specs.Kinds.{name, whole, tame, lead_size, other_size, gain_size, gust_size, start_size};
ghost use Rattle.trials.specs.Random.{UpTo};

use std::fmt;

/// In the last two the numbers soon pass every limit of a bounded set; in the others they never do
/// while a plan is followed.
#[derive(Clone, Copy)]
pub enum Kind {
    Contracting,
    Neutral,
    Growing,
    Whole,
    FarStarts,
    StrongGusts,
    Steep,
    Extreme,
}

/// The name that is printed.
impl fmt::Display for Kind {
    ghost output = { λ k. Some (name k) };

    fn fmt<W: fmt::Write>(&self, f: &mut fmt::Formatter<W>) -> fmt::Result {
        f.write_str(match self {
            Kind::Contracting => "contracting",
            Kind::Neutral => "neutral",
            Kind::Growing => "growing",
            Kind::Whole => "whole rows",
            Kind::FarStarts => "far starts",
            Kind::StrongGusts => "strong gusts",
            Kind::Steep => "steep",
            Kind::Extreme => "extreme",
        })
    }
}

impl Kind {
    /// Whether all sets stay bounded for as long as they are followed.
    pub fn is_tame(self) -> bool
        ensures { result ≡ tame self }
    {
        !matches!(self, Kind::Steep | Kind::Extreme)
    }

    /// Whether every row is whole: entries and gains are then 4096 times a drawn number.
    pub fn is_whole(self) -> bool
        ensures { result ≡ whole self }
    {
        matches!(self, Kind::Whole)
    }

    /// The size of the leading entry of each row, or 0 where none leads.
    pub fn lead(self) -> i64
        ensures value { result ≡ pos (lead_size self) }
        ensures range { UpTo (pos (2 ^ 20)) result }
    {
        match self {
            Kind::Neutral => 4096,
            Kind::Growing => 5596,
            _ => 0,
        }
    }

    /// The greatest size of the other entries, before they are made whole.
    pub fn others(self) -> i64
        ensures value { result ≡ pos (other_size self) }
        ensures range { UpTo (pos (2 ^ 20)) result }
    {
        match self {
            Kind::Contracting | Kind::FarStarts | Kind::StrongGusts => 900,
            Kind::Neutral => 0,
            Kind::Growing => 1500,
            Kind::Whole => 1,
            Kind::Steep | Kind::Extreme => 1048576,
        }
    }

    /// The greatest size of the gains, before they are made whole.
    pub fn gains(self) -> i64
        ensures value { result ≡ pos (gain_size self) }
        ensures range { UpTo (pos (2 ^ 20)) result }
    {
        match self {
            Kind::Whole => 1,
            Kind::Steep | Kind::Extreme => 1048576,
            _ => 4096,
        }
    }

    /// The greatest size of a gust.
    pub fn gusts(self) -> i64
        ensures value { result ≡ pos (gust_size self) }
        ensures range { UpTo (pos (2 ^ 24)) result }
    {
        match self {
            Kind::Whole => 4,
            Kind::Steep => 50,
            Kind::StrongGusts | Kind::Extreme => 16777216,
            _ => 200,
        }
    }

    /// The greatest size of a part at the start.
    pub fn start(self) -> i64
        ensures value { result ≡ pos (start_size self) }
        ensures range { UpTo (pos (2 ^ 30)) result }
    {
        match self {
            Kind::Whole => 20,
            Kind::Steep => 100,
            Kind::FarStarts | Kind::Extreme => 1073741824,
            _ => 1100,
        }
    }
}
