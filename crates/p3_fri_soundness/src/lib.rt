//! What acceptance shows, by counting and without a probability: of an accepted proof, and of the
//! words and the tables whose rows it opens. It has no program code: its function is a law, whose
//! contract is a theorem on the relation that verifiers decide.
#![tactic(auto)]

ghost use Rattle.p3_fri_soundness.specs.Laws.{AcceptedProofsAreSound, BoundWordsAreOpened};
ghost use Rattle.p3_fri_soundness.specs.Laws.{TreesAreSound};

/// Over all two-adic fields, all challengers, and all commitments of which openings are told by a
/// test. Of an accepted proof, and of any words and tables whose rows it opens: each drawn position
/// passes; either all but `failing` positions pass, or those that pass are fewer than all by more;
/// of each round's and each batch's challenges at most a counted few are bad; and where none that
/// was drawn is bad, and all but `failing` positions pass, each column is, wherever positions pass,
/// a polynomial of low degree that has the claimed value. Where each commitment opens to one word,
/// or one list of tables, alone, the proof opens rows of these. And over trees of SHA-256 it opens
/// the rows of whatever words and tables the same commitments have another opening to, at the drawn
/// positions, or one of its openings collides with the other.
pub fn soundness_law<F, E, C, Com, Path, InCom, InPath>()
    ensures sound { AcceptedProofsAreSound F E C Com Path InCom InPath }
    ensures opened { BoundWordsAreOpened F E C Com Path InCom InPath }
    ensures trees { TreesAreSound F E C Com Path InCom InPath }
{}
