// Sets of ranks.
ghost use Rattle.std.specs.Prelude.{◌≡◌, ℕ, Bool, false, true, ◌<◌, ◌≤◌, ◌↔◌, ◌&&◌, ◌||◌, not, nat_eq, IsTrue, IsSome, IfSome, IfNone};

/// A set of ranks below 64.
#[derive(Clone, Copy, Debug, PartialEq, Eq)]
pub struct RankSet {
    /// Bit r, counted from the lowest, is 1 where rank r is in the set.
    pub bits: u64,
}

impl RankSet {
    ghost use Rattle.local_mesh.specs.RankSet.{has};

    /// No rank.
    pub fn empty() -> RankSet
        ensures { (k : ℕ) → has result k ≡ false }
    {
        RankSet { bits: 0 }
    }

    /// This set and one more rank.
    pub fn with(self, rank: u32) -> RankSet
        requires { rank < 64 }
        ensures { (k : ℕ) → has result k ≡ (has self k || nat_eq k rank) }
    {
        RankSet {
            bits: self.bits | (1 << rank),
        }
    }

    /// The ranks of either.
    pub fn union(self, other: RankSet) -> RankSet
        ensures { (k : ℕ) → has result k ≡ (has self k || has other k) }
    {
        RankSet {
            bits: self.bits | other.bits,
        }
    }

    /// The ranks of this set that aren't of the other.
    pub fn minus(self, other: RankSet) -> RankSet
        ensures { (k : ℕ) → k < 64 → has result k ≡ (has self k && not (has other k)) }
    {
        RankSet {
            bits: self.bits & !other.bits,
        }
    }

    /// Whether no rank is in the set.
    pub fn is_empty(self) -> bool
        ensures { IsTrue result ↔ ((k : ℕ) → k < 64 → has self k ≡ false) }
    {
        self.bits == 0
    }

    /// The least rank, if there is one.
    pub fn first(self) -> Option<u32>
        ensures some { IfSome result (λ r. (r < 64) × (has self r ≡ true) × ((k : ℕ) → k < r → has self k ≡ false)) }
        ensures none { IfNone result ((k : ℕ) → k < 64 → has self k ≡ false) }
    {
        if self.bits == 0 {
            None
        } else {
            Some(self.bits.trailing_zeros())
        }
    }

    /// This set less its least rank; it has a smaller number.
    pub fn without(self, rank: u32) -> RankSet
        requires within { rank < 64 }
        requires there { has self rank ≡ true }
        ensures less { result.bits < self.bits }
        ensures has { (k : ℕ) → k < 64 → has result k ≡ (has self k && not (nat_eq k rank)) }
    {
        RankSet {
            bits: self.bits & !(1 << rank),
        }
    }
}
