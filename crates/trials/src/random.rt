//! Numbers drawn from a fixed seed, so that the program does the same each time.
ghost use Rattle.std.specs.Prelude.{◌≡◌, ◌+◌, ◌*◌, ◌/◌, ◌^◌, ◌<◌, ◌≤◌, length, pos, ◌-ℤ◌, unsigned_abs};
ghost use Rattle.trials.specs.Random.{next, Drawable, UpTo};

/// A linear congruential generator.
#[derive(Drop)]
pub struct Random {
    seed: u64,
}

impl Random {
    pub fn new(seed: u64) -> Random
        ensures { result.seed ≡ seed }
    {
        Random { seed }
    }

    /// The next number below 2^32: the upper half of the next seed.
    fn draw(&mut self) -> u64
        ensures seed { self.new.seed ≡ next self.old.seed }
        ensures value { result ≡ next self.old.seed / 2 ^ 32 }
    {
        self.seed = self
            .seed
            .wrapping_mul(6364136223846793005)
            .wrapping_add(1442695040888963407);
        self.seed / 4294967296
    }

    /// A number below `n`.
    pub fn below(&mut self, n: u64) -> u64
        requires { 0 < n }
        ensures { result < n }
    {
        self.draw() % n
    }

    /// A number from 0 to `most`.
    pub fn up_to(&mut self, most: i64) -> i64
        requires { UpTo (pos (2 ^ 30)) most }
        ensures { UpTo most result }
    {
        self.below(most as u64 + 1) as i64
    }

    /// `size` or `-size`.
    pub fn signed(&mut self, size: i64) -> i64
        requires { unsigned_abs size ≤ 2 ^ 30 }
        ensures { unsigned_abs result ≡ unsigned_abs size }
    {
        if self.below(2) == 0 { size } else { -size }
    }

    /// A number within `±most`, at one of its ends every other time.
    pub fn within(&mut self, most: i64) -> i64
        requires { UpTo (pos (2 ^ 30)) most }
        ensures { unsigned_abs result ≤ unsigned_abs most }
    {
        let size = if self.below(2) == 0 {
            most
        } else {
            self.up_to(most)
        };
        self.signed(size)
    }

    /// A number within `radius` of `centre`, or one of the two farthest.
    pub fn about(&mut self, centre: i64, radius: i64, at_end: bool) -> i64
        requires { Drawable centre radius }
        ensures { unsigned_abs (result -ℤ centre) ≤ unsigned_abs radius }
    {
        let offset = if at_end {
            self.signed(radius)
        } else {
            self.within(radius)
        };
        centre + offset
    }

    /// Which of four parts are rounded up.
    pub fn roundings(&mut self) -> [bool; 4]
        ensures { length result ≡ 4 }
    {
        std::array::from_fn(|_| self.below(2) == 0)
    }
}
