//! What is tested of any scheme, and of the scheme over two-adic fields: that is named here alone,
//! since each mention of its instance is proved anew.

use crate::columns::{coset, listed};
use crate::committed::{OfLine, OfWords, are_words_met, is_line_met};
use crate::evaluations::{Reading, is_read};
use crate::periodic::{Table, is_tabulated};
use crate::scheme::Scheme;
use crate::stark::{Case, are_opened};
use crate::tested::Tested;
use crate::{committed, evaluations, periodic, stark};
use std::alloc::Global;
use std::process::Abort;

/// What is tested, and by which case.
pub(crate) enum Part {
    Line(OfLine),
    Words(OfWords),
    Read(Reading),
    Periodic(Table),
    /// Heights of traces go from one to the two-adicity, and nothing is hidden.
    Heights,
    /// No random polynomials are committed to.
    NoneRandom,
    Stark(Case),
}

/// What the scheme offers to a STARK.
static OFFERED: [Part; 2] = [Part::Heights, Part::NoneRandom];

/// Whether it holds of a scheme.
fn holds_of<P: Tested>(rt: &impl Abort, alloc: Global, part: &Part) -> bool {
    let mut scheme = P::made();
    match part {
        Part::Line(asked) => is_line_met(rt, alloc, scheme, *asked),
        Part::Words(asked) => are_words_met(rt, alloc, scheme, asked),
        Part::Read(reading) => is_read(rt, alloc, scheme, reading),
        Part::Periodic(table) => is_tabulated(rt, alloc, scheme, table),
        Part::Heights => {
            let least = scheme.log_min_trace_height();
            let greatest = scheme.log_max_trace_height();
            least == 0 && greatest == 27 && !P::ZK
        },
        Part::NoneRandom => {
            let domains = listed(rt, alloc, coset(rt, 1, 1));
            match scheme.get_opt_randomization_poly_commitment(alloc, domains) {
                Ok(found) => found.is_none(),
                Err(_) => panic!(rt; "memory was refused"),
            }
        },
        Part::Stark(case) => are_opened(rt, alloc, scheme, case),
    }
}

/// Whether it holds of the scheme over two-adic fields.
fn holds(rt: &impl Abort, alloc: Global, part: &Part) -> bool {
    holds_of::<Scheme>(rt, alloc, part)
}

/// Asserts that each of these does.
fn assert_all(rt: &impl Abort, alloc: Global, name: &str, parts: &[Part]) {
    for (index, part) in parts.iter().enumerate() {
        assert!(rt; holds(rt, alloc, part), "{name}, part {index}");
    }
}

#[test]
fn parts_hold_of_the_scheme(rt: HostRuntime) {
    let alloc = rt.alloc();
    assert_all(&rt, alloc, "offered", &OFFERED);
    assert_all(&rt, alloc, "committed", &committed::PARTS);
    assert_all(&rt, alloc, "evaluations", &evaluations::PARTS);
    assert_all(&rt, alloc, "periodic", &periodic::PARTS);
    assert_all(&rt, alloc, "stark", &stark::PARTS);
}
