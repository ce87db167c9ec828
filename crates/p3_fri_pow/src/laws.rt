//! Laws as calls that give nothing and whose contracts are theorems over the definitions. Their
//! bodies only read: a number that is read is known to fit its type.

ghost use Rattle.std.specs.Prelude.{◌≡◌, ℕ, true, Option};
ghost use Rattle.p3_challenger_core.specs.Run.{After};
ghost use Rattle.p3_fri_pow.specs.Fits.{FitsPoints};
ghost use Rattle.p3_fri_pow.specs.Pow.{shown_attempt};

/// At no bits a proof of work passes and changes nothing, whether a witness is shown or not. So the
/// replay of a prover, which has none to show, and that of a verifier are the same.
pub fn no_bits_law<C, F>()
    ensures { (observe : C → F → C) (draw_bits : C → ℕ → After C ℕ) (c : C) (witness : Option F)
        → shown_attempt observe draw_bits c 0 witness ≡ record { value = true; state = c } }
{}

/// Eight bytes hold the numbers of a list, and its length.
pub fn points_fit(points: &[usize])
    ensures { FitsPoints points.now }
{}
