//! How a caller states what the value of a turn and its passes keep.
ghost use Rattle.std.specs.Prelude.{◌≡◌, ℕ, List, length, slice_get, slice_set, Some};

/// The rule of a turn over a value of type `T`, whose passes have views of type `V`, plain data that exists in proofs alone.
pub trait Protocol<T, V> {
    /// What may be opened with so many passes.
    ghost opens: { T → ℕ → Type 0 };

    /// The views that the passes have at the opening, by their numbers.
    ghost first: { T → ℕ → List V };

    /// The rule, of the value while nobody is inside and of the views of the passes.
    ghost holds: { T → List V → Type 0 };

    /// What the holder with this view may do: the value that it found, and the one that it leaves.
    ghost may: { V → T → T → Type 0 };

    /// Its view afterwards.
    ghost next: { V → T → T → V };

    /// What a pass with this view learns of the value that it finds.
    ghost knows: { T → V → Type 0 };

    /// There is a view for each pass.
    ghost sized: { (x : T) (n : ℕ) → opens x n → length (first x n) ≡ n };

    /// The rule holds at the opening.
    ghost starts: { (x : T) (n : ℕ) → opens x n → holds x (first x n) };

    /// What a holder may do keeps the rule.
    ghost keeps: { (x y : T) (views : List V) (i : ℕ) (v : V) → holds x views → slice_get views i ≡ Some v → may v x y
        → holds y (slice_set views i (next v x y)) };

    /// The rule gives what a pass learns.
    ghost tells: { (x : T) (views : List V) (i : ℕ) (v : V) → holds x views → slice_get views i ≡ Some v → knows x v };
}
