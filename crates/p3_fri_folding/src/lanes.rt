//! The fold of rows by lanes: several rows at a time, one to a lane.

ghost use Rattle.std.specs.Prelude.{◌≡◌, ◌+◌, ◌*◌, ◌<◌, ◌≤◌, ◌^◌, ℕ, suc, [], ◌∷◌, length, map};
ghost use Rattle.algebra.specs.Folds.{fold_value, IsHalfInverse};
ghost use Rattle.p3_fri_folding.specs.Rows.{StartsRow};

use crate::challenges::Challenges;
use crate::folding::{half_inverse, root_inverse};
use p3_field_core::{
    Field, PackableExtension, PackableField, PackedExtension, PackedField, TwoAdicField,
};

/// In each lane the fold of two values at `s` and `-s`, by half the inverse of that lane's `s`.
///
/// Half the sum is the second value and half the difference, so the difference is multiplied once,
/// by the challenge over `2 s` and one half.
fn fold_pair_by_lanes<F: TwoAdicField + PackableField, EF: PackableExtension<F>>(
    half_inverses: F::Packing,
    beta: EF,
    left: EF::ExtensionPacking,
    right: EF::ExtensionPacking,
) -> EF::ExtensionPacking
    ensures { (l i h : ℕ) → l < EF.ExtensionPacking.WIDTH → i < 2 ^ h → h < F.TWO_ADICITY →
        IsHalfInverse F.ops F.root i h (F.Packing.lane half_inverses l) →
        EF.ExtensionPacking.lane result l
        ≡ fold_value EF.ops (λ k. EF.lift (F.root k)) i h 1 beta
        (EF.ExtensionPacking.lane left l ∷ EF.ExtensionPacking.lane right l ∷ []) }
{
    let beta = EF::ExtensionPacking::broadcast(beta);
    let half = EF::ExtensionPacking::broadcast(EF::ONE.halve());
    right + (left - right) * (beta.scale_lanes(half_inverses) + half)
}

/// In each lane the fold of a row half by half, and half the inverse of the row's point, by which
/// the halves' folds are folded: `fold_halves` lane by lane, over rows whose first pairs start at
/// other points.
pub(crate) fn fold_halves_by_lanes<F: TwoAdicField + PackableField, EF: PackableExtension<F>>(
    values: &[EF::ExtensionPacking],
    log_arity: usize,
    half_inverses: F::Packing,
    root_inverse: F,
    challenges: &Challenges<EF>,
) -> (EF::ExtensionPacking, F::Packing)
    requires positive { 1 ≤ log_arity }
    requires width { length values.now ≡ 2 ^ log_arity }
    requires rounds { log_arity ≤ challenges.now.rounds }
    ensures value { (l i h a : ℕ) → l < EF.ExtensionPacking.WIDTH → log_arity ≡ suc a →
        i < 2 ^ h → h + suc a ≤ F.TWO_ADICITY →
        StartsRow F.ops F.root i h a (F.Packing.lane half_inverses l) root_inverse →
        EF.ExtensionPacking.lane result.0 l
        ≡ fold_value EF.ops (λ k. EF.lift (F.root k)) i h (suc a) challenges.now.beta
        (map (λ v. EF.ExtensionPacking.lane v l) values.now) }
    ensures half_inverse { (l i h a : ℕ) → l < EF.ExtensionPacking.WIDTH → log_arity ≡ suc a →
        h + suc a ≤ F.TWO_ADICITY →
        StartsRow F.ops F.root i h a (F.Packing.lane half_inverses l) root_inverse →
        IsHalfInverse F.ops F.root i h (F.Packing.lane result.1 l) }
{
    let round = log_arity - 1;
    let beta = challenges.of_round(round);
    if round == 0 {
        let fold = fold_pair_by_lanes::<F, EF>(half_inverses, beta, values[0], values[1]);
        return (fold, half_inverses);
    }
    let (first, second) = values.split_at(values.len() / 2);
    let square = root_inverse.square();
    let middle = half_inverses * F::Packing::broadcast(root_inverse);
    let (left, first_half) = fold_halves_by_lanes::<F, EF>(
        first,
        round,
        half_inverses,
        square,
        challenges,
    );
    let (right, _) = fold_halves_by_lanes::<F, EF>(second, round, middle, square, challenges);
    let half = (first_half + first_half) * first_half;
    (fold_pair_by_lanes::<F, EF>(half, beta, left, right), half)
}

/// Half the inverses of the first points of rows' first pairs, for the rows from `first` on, one to
/// a lane.
fn half_inverses_from<F: TwoAdicField + PackableField>(
    root: F,
    first: usize,
    log_height: usize,
    log_arity: usize,
) -> F::Packing
    requires positive { 1 ≤ log_arity }
    requires within_word { first + F.Packing.WIDTH ≤ 2 ^ log_height }
    requires within_two_adicity { log_height + log_arity ≤ F.TWO_ADICITY }
    requires is_root { root ≡ F.root (log_height + log_arity) }
    ensures { (l a : ℕ) → l < F.Packing.WIDTH → log_arity ≡ suc a →
        IsHalfInverse F.ops F.root ((first + l) * 2 ^ a) (log_height + a)
        (F.Packing.lane result l) }
{
    F::Packing::from_fn(|lane| half_inverse(root, first + lane, log_height, log_arity))
}

/// The folds at `beta` of the rows from `first` on, one to a lane, each of `2^log_arity` values, to
/// a word of log height `log_height`: entry `j` of a row is that lane of `values[j]`. The values
/// are left as anything.
pub fn fold_lanes<F: TwoAdicField + PackableField, EF: PackableExtension<F>>(
    first: usize,
    log_height: usize,
    log_arity: usize,
    beta: EF,
    values: &mut [EF::ExtensionPacking],
) -> EF::ExtensionPacking
    requires positive { 1 ≤ log_arity }
    requires width { length values.old ≡ 2 ^ log_arity }
    requires within_word { first + EF.ExtensionPacking.WIDTH ≤ 2 ^ log_height }
    requires within_two_adicity { log_height + log_arity ≤ F.TWO_ADICITY }
    ensures { (l : ℕ) → l < EF.ExtensionPacking.WIDTH → EF.ExtensionPacking.lane result l
        ≡ fold_value EF.ops (λ k. EF.lift (F.root k)) (first + l) log_height log_arity beta
        (map (λ v. EF.ExtensionPacking.lane v l) values.old) }
{
    let challenges = Challenges::new(beta, log_arity);
    let root = F::two_adic_generator(log_height + log_arity);
    let root_inverse = root_inverse(root, log_height, log_arity);
    let half_inverses = half_inverses_from(root, first, log_height, log_arity);
    let (fold, _) = fold_halves_by_lanes::<F, EF>(
        values,
        log_arity,
        half_inverses,
        root_inverse,
        &challenges,
    );
    fold
}
