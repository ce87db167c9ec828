//! Whether the cosets of a quotient's chunks are disjoint.

ghost use Rattle.std.specs.Prelude.{◌≡◌, ◌≢◌, ◌<◌, ◌↔◌, All, IsTrue, length, map};
ghost use Rattle.std.specs.Prelude.{slice_index_or};
ghost use Rattle.algebra.specs.Cosets.{vanishing};
ghost use Rattle.p3_fri_masks.specs.QuotientMasks.{AreDisjoint, IsOffOthers};

use p3_field_core::{Field, TwoAdicField, TwoAdicMultiplicativeCoset};

/// Whether these cosets have one size.
fn have_one_size<F: TwoAdicField>(domains: &[TwoAdicMultiplicativeCoset<F>]) -> bool
    ensures { let log_sizes = map (λ d. d.log_size) domains.now in
        IsTrue result ↔ All (λ n. n ≡ slice_index_or log_sizes 0 0) log_sizes }
{
    for domain in domains {
        if domain.log_size() != domains[0].log_size() {
            return false;
        }
    }
    true
}

/// Whether the point lies on none of these cosets.
fn is_off_each<F: TwoAdicField>(domains: &[TwoAdicMultiplicativeCoset<F>], point: F) -> bool
    ensures { IsTrue result ↔ All (λ d.
        vanishing F.ops d.shift d.log_size point ≢ F.ops.zero) domains.now }
{
    for domain in domains {
        if domain.vanishing_poly_at_point(point).is_zero() {
            return false;
        }
    }
    true
}

/// Whether the first point of the coset at `index` lies on no other coset.
fn is_off_others<F: TwoAdicField>(domains: &[TwoAdicMultiplicativeCoset<F>], index: usize) -> bool
    requires { index < length domains.now }
    ensures { IsTrue result ↔ IsOffOthers F.ops (map (λ d. d.log_size) domains.now)
        (map (λ d. d.shift) domains.now) index }
{
    let point = domains[index].first_point();
    let (before, _) = domains.split_at(index);
    let (_, after) = domains.split_at(index + 1);
    is_off_each(before, point) && is_off_each(after, point)
}

/// Whether these cosets have one size and are disjoint.
pub fn are_disjoint<F: TwoAdicField>(domains: &[TwoAdicMultiplicativeCoset<F>]) -> bool
    ensures { IsTrue result ↔ AreDisjoint F.ops (map (λ d. d.log_size) domains.now)
        (map (λ d. d.shift) domains.now) }
{
    if !have_one_size(domains) {
        return false;
    }
    for index in 0..domains.len() {
        if !is_off_others(domains, index) {
            return false;
        }
    }
    true
}
