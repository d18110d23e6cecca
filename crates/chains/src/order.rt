// The orders of sorted chains. Rests on nothing.
ghost use Rattle.std.specs.Prelude.{◌≡◌, ℕ, Bool};
ghost use Rattle.chains.specs.Table.{rising, falling};

// Which words come before q on a chain.
pub trait Order {
    ghost precedes: { ℕ → ℕ → Bool };

    fn precedes(x: usize, q: usize) -> bool
        ensures { result ≡ precedes x q };
}

// Those below it, where words rise.
pub struct Rising;

// Those above it, where words fall.
pub struct Falling;

impl Order for Rising {
    ghost precedes = { rising };

    #[tactic(auto, unfolding(crate::specs::Table::rising))]
    fn precedes(x: usize, q: usize) -> bool {
        x < q
    }
}

impl Order for Falling {
    ghost precedes = { falling };

    #[tactic(auto, unfolding(crate::specs::Table::falling))]
    fn precedes(x: usize, q: usize) -> bool {
        q < x
    }
}
