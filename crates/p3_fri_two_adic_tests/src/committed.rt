//! Columns committed to, by any scheme.

ghost use Rattle.std.specs.Prelude.{◌≡◌, map};
ghost use Rattle.p3_fri_extensions.specs.Extension.{FitsDomain};

use crate::scheme::Domain;
use crate::tested::Tested;
use p3_field::{BabyBear, Field, TwoAdicMultiplicativeCoset};
use p3_matrix::RowMajorMatrix;
use p3_pcs::KnownCommitment;
use std::alloc::Global;
use std::process::Abort;

/// The subgroup of as many points as this power of two.
fn subgroup(rt: &impl Abort, size: usize) -> Domain {
    let log_size = size.trailing_zeros() as usize;
    TwoAdicMultiplicativeCoset::new(BabyBear::ONE, log_size).expect(rt, "not a domain")
}

/// The column on this domain, where it has an extension.
fn column(
    rt: &impl Abort,
    alloc: Global,
    domain: Domain,
    numbers: &[u64],
) -> RowMajorMatrix<BabyBear>
    ensures { FitsDomain 27 1 domain.log_size result }
{
    let mut values = Vec::new(alloc);
    for number in numbers {
        values
            .push(BabyBear::from_u64(*number))
            .expect(rt, "memory");
    }
    let matrix = RowMajorMatrix::new(values, 1);
    assert!(rt;
        matrix.height() == domain.size() && domain.log_size() <= 8,
        "not a column on its domain"
    );
    matrix
}

/// One commitment to these columns, and its data: they are what a prover holds, and the domains are
/// of their sizes.
pub(crate) fn commit<P: Tested>(
    rt: &impl Abort,
    scheme: &mut P,
    alloc: Global,
    columns: &[&[u64]],
) -> (KnownCommitment<[u8; 32], Domain>, P::ProverData)
    requires { P.IsTested scheme.old }
    ensures kept { P.Keeps scheme.old scheme.new }
    ensures commitment { (P.rules scheme.new).commitment_of result.1 ≡ result.0.commitment }
    ensures honest { (P.rules scheme.new).IsHonest result.1 }
    ensures sizes { let r = P.rules scheme.new in map r.domain_size result.0.domains.items
        ≡ map (λ m. m.size) (r.committed_polynomials result.1) }
{
    let mut domains = Vec::new(alloc);
    let mut evaluations = Vec::new(alloc);
    for numbers in columns {
        let domain = scheme.natural_domain_for_degree(subgroup(rt, numbers.len()).size());
        domains.push(domain).expect(rt, "memory");
        let matrix = column(rt, alloc, domain, *numbers);
        evaluations.push((domain, matrix)).expect(rt, "memory");
    }
    let Ok(pair) = scheme.commit(alloc, evaluations) else {
        panic!(rt; "memory was refused")
    };
    let (commitment, data) = pair;
    let known = KnownCommitment {
        commitment,
        domains,
    };
    (known, data)
}
