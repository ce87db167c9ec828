//! The calls, by name.

use crate::answer::Name;

/// A call of a scheme.
pub enum SchemeCall {
    Commit,
    Open,
    OpenAtTwoPoints,
    Verify,
    GetQuotientLdes,
    CommitLdes,
    GetEvaluationsOnDomain,
}

/// A call that begins a transcript.
pub enum TranscriptCall {
    LowDegreeTest,
    Opening,
}

/// A call of a tree.
pub enum TreeCall {
    Commit,
    OpenMultiBatch,
}

/// A call of the converse that interpolates.
pub enum Interpolation {
    Unfold,
    UnfoldWithInput,
    Unbatch,
}

/// A call.
pub enum Call {
    Plain(SchemeCall),
    Hiding(SchemeCall),
    Prover(TranscriptCall),
    Verifier(TranscriptCall),
    Tree(TreeCall),
    FromPlain,
    Interpolate(Interpolation),
    Unquotient,
    UnfoldTree,
}

/// All calls, by what they belong to and their own names.
pub static CALLS: [(Name, Call); 26] = [
    (("plain", "commit"), Call::Plain(SchemeCall::Commit)),
    (("plain", "open"), Call::Plain(SchemeCall::Open)),
    (
        ("plain", "open_at_two_points"),
        Call::Plain(SchemeCall::OpenAtTwoPoints),
    ),
    (("plain", "verify"), Call::Plain(SchemeCall::Verify)),
    (
        ("plain", "get_quotient_ldes"),
        Call::Plain(SchemeCall::GetQuotientLdes),
    ),
    (
        ("plain", "commit_ldes"),
        Call::Plain(SchemeCall::CommitLdes),
    ),
    (
        ("plain", "get_evaluations_on_domain"),
        Call::Plain(SchemeCall::GetEvaluationsOnDomain),
    ),
    (("hiding", "commit"), Call::Hiding(SchemeCall::Commit)),
    (("hiding", "open"), Call::Hiding(SchemeCall::Open)),
    (
        ("hiding", "open_at_two_points"),
        Call::Hiding(SchemeCall::OpenAtTwoPoints),
    ),
    (("hiding", "verify"), Call::Hiding(SchemeCall::Verify)),
    (
        ("hiding", "get_quotient_ldes"),
        Call::Hiding(SchemeCall::GetQuotientLdes),
    ),
    (
        ("hiding", "commit_ldes"),
        Call::Hiding(SchemeCall::CommitLdes),
    ),
    (
        ("hiding", "get_evaluations_on_domain"),
        Call::Hiding(SchemeCall::GetEvaluationsOnDomain),
    ),
    (
        ("transcript", "prover"),
        Call::Prover(TranscriptCall::LowDegreeTest),
    ),
    (
        ("transcript", "verifier"),
        Call::Verifier(TranscriptCall::LowDegreeTest),
    ),
    (
        ("transcript", "pcs_prover"),
        Call::Prover(TranscriptCall::Opening),
    ),
    (
        ("transcript", "pcs_verifier"),
        Call::Verifier(TranscriptCall::Opening),
    ),
    (("tree", "commit"), Call::Tree(TreeCall::Commit)),
    (
        ("tree", "open_multi_batch"),
        Call::Tree(TreeCall::OpenMultiBatch),
    ),
    (("proof", "from_plain"), Call::FromPlain),
    (
        ("converse", "unfold"),
        Call::Interpolate(Interpolation::Unfold),
    ),
    (
        ("converse", "unfold_with_input"),
        Call::Interpolate(Interpolation::UnfoldWithInput),
    ),
    (
        ("converse", "unbatch"),
        Call::Interpolate(Interpolation::Unbatch),
    ),
    (("converse", "unquotient"), Call::Unquotient),
    (("converse", "unfold_tree"), Call::UnfoldTree),
];
