// What the definitions mean.

ghost use Rattle.std.specs.Prelude.{◌≡◌, ℕ, ◌<◌, ◌≤◌, Bool, true, false, List, length, take};
ghost use Rattle.sv_tree.specs.Longest.{longest};

/// The longest prefix passes, and no longer one does.
pub fn longest_is_longest()
    ensures passes { (p : List ℕ → Bool) (s : List ℕ) → 0 < longest p s → p (take (longest p s) s) ≡ true }
    ensures no_longer { (p : List ℕ → Bool) (s : List ℕ) (n : ℕ) → longest p s < n → n ≤ length s → p (take n s) ≡ false }
    ensures within { (p : List ℕ → Bool) (s : List ℕ) → longest p s ≤ length s }
{}
