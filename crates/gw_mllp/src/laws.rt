//! Laws on the definitions.
ghost use Rattle.std.specs.Prelude.{◌≡◌, ◌↔◌, List, ℕ, Option};
ghost use Rattle.gw_mllp.specs.Stream.{Blocks, Held, IsLong, Overlong, Stands};

/// A stream is cut into blocks and a rest in one way.
pub fn one_cut()
    ensures { (stream : List ℕ) (blocks others : List (List ℕ)) (left right : Option (List ℕ)) →
        Blocks stream blocks left → Blocks stream others right → (blocks ≡ others) × (left ≡ right) }
{}

/// However the stream was cut, it and the blocks that were returned determine what a decoder holds.
pub fn one_decoder()
    ensures { (stream : List ℕ) (given : List (List ℕ)) (a b : Held) → Stands stream given a → Stands stream given b → a ≡ b }
{}

/// A decoder is in a block that is too long exactly where the stream has such a block.
pub fn long_exactly()
    ensures { (stream : List ℕ) (given : List (List ℕ)) (held : Held) → Stands stream given held → (held.tail ≡ Overlong) ↔ IsLong stream }
{}
