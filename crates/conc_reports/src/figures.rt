ghost use Rattle.std.specs.Prelude.{◌≡◌, ◌+◌, ◌*◌, ◌^◌, ◌<◌, ◌+ℤ◌, ◌≤ℤ◌, neg_ℤ, pos};

/// How many rows, and the sum of what they add, each of which 64 bits hold.
#[derive(Clone, Copy)]
pub struct Figures {
    pub count: u64,
    pub sum: i128,
    ghost least: { neg_ℤ (pos (2 ^ 63 * count)) ≤ℤ sum },
    ghost most: { sum ≤ℤ pos (2 ^ 63 * count) },
}

impl Figures {
    /// Those of no row.
    pub fn none() -> Self
        ensures count { result.count ≡ 0 }
        ensures sum { result.sum ≡ pos 0 }
    {
        Figures { count: 0, sum: 0 }
    }

    /// These and one more row, which adds a value.
    pub fn with(self, value: i64) -> Self
        requires { self.count < 2 ^ 63 }
        ensures count { result.count ≡ self.count + 1 }
        ensures sum { result.sum ≡ self.sum +ℤ value }
    {
        Figures {
            count: self.count + 1,
            sum: self.sum + i128::from(value),
        }
    }
}
