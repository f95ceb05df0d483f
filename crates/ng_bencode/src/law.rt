ghost use Rattle.std.specs.Prelude.{◌≡◌, ◌++◌, ◌<◌, ◌^◌, ℕ, List, length};
ghost use Rattle.ng_bencode.specs.Tree.{Tree};
ghost use Rattle.ng_bencode.specs.Spells.{Spells};

/// No spelling begins another, so what was written is read again whatever follows it: where two texts that
/// begin with spellings are the same, these are spellings of the same tree.
///
/// It stops at 2^64 bytes, as std's laws of decimal numbers do; a slice holds fewer.
pub fn one_reading()
    ensures { (a b : Tree) (m n x y : List ℕ) →
        Spells m a → Spells n b → length m < 2 ^ 64 → length n < 2 ^ 64 →
        m ++ x ≡ n ++ y → (a ≡ b) × (m ≡ n) × (x ≡ y) }
{}
