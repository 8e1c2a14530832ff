// Seatings of fingerprints in buckets: the theorems that a table of fingerprints rests on. A seating gives each held
// fingerprint its quotient's or its remainder's bucket, and no bucket more than its rows. Each function here does
// nothing: its contract is the theorem.
#![tactic(auto)]

ghost use Rattle.std.specs.Prelude.{◌≡◌, ℕ, ◌<◌, ◌≤◌, Bool, true, Decides};
ghost use Rattle.seatings.specs.Counts.{count};
ghost use Rattle.seatings.specs.Seatings.{Seating, seatable, also};
ghost use Rattle.seatings.specs.Closed.{Closed};

// The computed test `seatable` is true where there is a seating, and false where there is none.
pub fn seatable_decides_seating()
    ensures { (m b range : ℕ) (held : ℕ → Bool) → Decides (seatable m b range held) (Seating m b range held) }
{}

// A set of full buckets that the fingerprints in it cannot leave has no room for one more that can sit only there:
// no seating, however the held fingerprints are moved, seats that one too.
pub fn full_and_closed_has_no_seating()
    ensures { (m b range : ℕ) (held place : ℕ → Bool) (f : ℕ) (V : ℕ → Bool) →
        Closed m b range held place f V → Seating m b range (also f held) → ⊥ }
{}

// Where the held fingerprints have a seating, so has each part of them.
pub fn seating_of_more_is_seating_of_fewer()
    ensures { (m b range : ℕ) (held kept : ℕ → Bool) →
        ((f : ℕ) → f < range → kept f ≡ true → held f ≡ true) →
        Seating m b range held → Seating m b range kept }
{}

// At most k numbers below n pass a test, if each that passes has a place of its own below k.
pub fn at_most_one_each()
    ensures { (p : ℕ → Bool) (n k : ℕ) (place : ℕ → ℕ) →
        ((f : ℕ) → f < n → p f ≡ true → place f < k) →
        ((f g : ℕ) → f < n → g < n → p f ≡ true → p g ≡ true → place f ≡ place g → f ≡ g) →
        count p n ≤ k }
{}

// At least k numbers below n pass a test, if each of k places has one that passes of its own.
pub fn at_least_one_each()
    ensures { (p : ℕ → Bool) (n k : ℕ) (number : ℕ → ℕ) →
        ((r : ℕ) → r < k → (number r < n) × (p (number r) ≡ true)) →
        ((r s : ℕ) → r < k → s < k → number r ≡ number s → r ≡ s) →
        k ≤ count p n }
{}
