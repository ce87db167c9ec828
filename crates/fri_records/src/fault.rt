//! Why a record is refused, and where.

ghost use Rattle.std.specs.Prelude.{◌≡◌};
ghost use Rattle.fri_records.specs.declared.fault.RequestError.TheVariants as request;
ghost use Rattle.fri_records.specs.declared.fault.ReadError.TheVariants as read;
ghost use Rattle.fri_records.specs.declared.fault.VerifyError.TheVariants as statement;
ghost use Rattle.fri_records.specs.Failures.{unread_request, unread, failure_of};
ghost use Rattle.fri_records.specs.Failures.{IsUnformed};

use p3_fri_plain::PlainProofError;
use p3_fri_relation::error::FriError;
use p3_mmcs::Sha256MmcsError;
use std::alloc::{AllocError, AllocFailed};
use std::error::Error;
use std::fmt;
use std::fmt::{Debug, Display};

/// What a number or a list isn't.
#[derive(Clone, Copy, Debug)]
pub enum Fault {
    /// The blowup isn't one for which matrices have room within the two-adicity.
    LogBlowup,
    /// The blowup and the final polynomial together have no size.
    LogFinalPolyLen,
    /// Without a cap no round would fold.
    MaxLogArity,
    /// Without queries there is nothing to open.
    NumQueries,
    /// A difficulty is past what a challenger draws at once.
    ProofOfWorkBits,
    /// There is no matrix.
    Matrices,
    /// The field has no coset of this size, or its extension has none.
    LogSize,
    /// Zero moves no subgroup, and a number past the order is no element.
    Shift,
    /// A matrix has some column.
    Width,
    /// There isn't one value for each column of each row.
    Values,
    /// A matrix is opened at some point.
    Points,
    /// A number isn't below the order.
    Element,
    /// An element of the extension isn't given by as many numbers as its degree.
    ExtensionElement,
    /// A commitment isn't the hex text of 32 bytes.
    Commitment,
    /// A digest of a proof hasn't 32 bytes.
    Digest,
    /// A context isn't the hex text of bytes.
    Context,
    /// Another batch is preprocessed already.
    Preprocessed,
    /// A seed isn't the hex text of 32 bytes.
    Seed,
    /// Other matrices were committed to.
    Kept,
}

impl Fault {
    /// What was expected of its field.
    pub fn expected(&self) -> &'static str {
        match self {
            Fault::LogBlowup => "a number from 1 to the field's two-adicity",
            Fault::LogFinalPolyLen => "a number below 64 together with log_blowup",
            Fault::MaxLogArity => "a number above 0",
            Fault::NumQueries => "a number above 0",
            Fault::ProofOfWorkBits => "proofs of work of at most 63 bits",
            Fault::Matrices => "some matrix",
            Fault::LogSize => "a number up to the field's two-adicity, with log_blowup where it \
is committed to",
            Fault::Shift => "a number above 0 and below the field's order",
            Fault::Width => "a number above 0",
            Fault::Values => "as many values as the domain has points, times the width",
            Fault::Points => "some point",
            Fault::Element => "a number below the field's order",
            Fault::ExtensionElement => "numbers below the field's order, as many as the \
extension's degree",
            Fault::Commitment => "64 hex digits",
            Fault::Digest => "digests of 32 bytes",
            Fault::Context => "an even number of hex digits",
            Fault::Preprocessed => "at most one preprocessed batch",
            Fault::Seed => "64 hex digits",
            Fault::Kept => "the domains and widths that were committed to",
        }
    }

    /// The field that has it, of what is at its place; of the whole where that has no name.
    fn field(&self) -> &'static str {
        match self {
            Fault::LogBlowup => "parameters.log_blowup",
            Fault::LogFinalPolyLen => "parameters.log_final_poly_len",
            Fault::MaxLogArity => "parameters.max_log_arity",
            Fault::NumQueries => "parameters.num_queries",
            Fault::ProofOfWorkBits => "parameters",
            Fault::Matrices | Fault::Kept => "commitments",
            Fault::LogSize => ".domain.log_size",
            Fault::Shift => ".domain.shift",
            Fault::Width => ".width",
            Fault::Values => ".values",
            Fault::Points => ".points",
            Fault::Element | Fault::ExtensionElement | Fault::Digest => "",
            Fault::Commitment => ".commitment",
            Fault::Context => "context",
            Fault::Preprocessed => ".preprocessed",
            Fault::Seed => "hiding.seed",
        }
    }
}

/// What a place is in.
#[derive(Clone, Copy, Debug)]
pub enum Record {
    Request,
    Claims,
    Proof,
}

/// Where in a record, by positions that count from 0: the commitment, its matrix, and of that the
/// point and the value. Without any it is in the parameters, the context, the proof or the whole.
#[derive(Clone, Copy, Debug)]
pub struct Place {
    pub record: Record,
    pub commitment: Option<usize>,
    pub matrix: Option<usize>,
    pub point: Option<usize>,
    pub value: Option<usize>,
}

impl Place {
    /// No place in particular, of a request or of the parameters and the context of a statement.
    pub const NONE: Place = Place {
        record: Record::Request,
        commitment: None,
        matrix: None,
        point: None,
        value: None,
    };

    /// Somewhere in claims.
    pub const CLAIMS: Place = Place {
        record: Record::Claims,
        commitment: None,
        matrix: None,
        point: None,
        value: None,
    };

    /// Somewhere in the proof.
    pub const PROOF: Place = Place {
        record: Record::Proof,
        commitment: None,
        matrix: None,
        point: None,
        value: None,
    };

    /// The fault at this place.
    pub fn lacks(self, fault: Fault) -> Misfit {
        Misfit { fault, place: self }
    }

    /// Prints the fields that lead to the place, as `claims[1].matrices[0].points[2]`, and nothing
    /// of none.
    pub fn fmt_fields<W: fmt::Write>(&self, f: &mut fmt::Formatter<W>) -> fmt::Result {
        let commitments = match self.record {
            Record::Request => "commitments",
            Record::Claims => "claims",
            Record::Proof => return f.write_str("proof"),
        };
        fmt_entry(f, commitments, self.commitment)?;
        fmt_entry(f, ".matrices", self.matrix)?;
        fmt_entry(f, ".points", self.point)?;
        fmt_entry(f, ".values", self.value)
    }

    /// The field of a point that claims have there, where the place is no value's.
    fn point_field(&self) -> &'static str {
        match (self.record, self.value) {
            (Record::Claims, None) => ".point",
            _ => "",
        }
    }
}

/// Prints the entry of a list, if its position is known.
fn fmt_entry<W: fmt::Write>(
    f: &mut fmt::Formatter<W>,
    list: &str,
    index: Option<usize>,
) -> fmt::Result {
    match index {
        Some(index) => write!(f, "{list}[{index}]"),
        None => Ok(()),
    }
}

/// A fault at its place.
#[derive(Clone, Copy, Debug)]
pub struct Misfit {
    pub fault: Fault,
    pub place: Place,
}

/// The fault's name, its field, and what was expected, as
/// `Element: commitments[0].matrices[0].values[1]: expected a number below the field's order`.
impl fmt::Display for Misfit {
    fn fmt<W: fmt::Write>(&self, f: &mut fmt::Formatter<W>) -> fmt::Result {
        let fault = self.fault;
        write!(f, "{fault:?}: ")?;
        self.place.fmt_fields(f)?;
        let field = match fault {
            Fault::Element | Fault::ExtensionElement => self.place.point_field(),
            _ => fault.field(),
        };
        write!(f, "{field}: expected {}", fault.expected())
    }
}

/// Why nothing was committed to or opened, by a scheme whose prover refuses for a reason of type
/// `E`.
#[derive(Debug, Drop)]
pub enum RequestError<E> {
    /// The request isn't well formed.
    Malformed(Misfit),
    /// The scheme refused it.
    Refused(E),
    /// Memory was refused.
    OutOfMemory,
}

/// Why the verifier refuses.
pub type VerifierError = FriError<Sha256MmcsError, Sha256MmcsError>;

/// Why claims and a proof weren't accepted.
#[derive(Debug, Drop)]
pub enum VerifyError {
    /// They aren't well formed.
    Malformed(Misfit),
    /// They aren't accepted.
    Refused(VerifierError),
    /// Memory was refused.
    OutOfMemory,
}

impl<E: Debug + Display> Display for RequestError<E> {
    fn fmt<W: fmt::Write>(&self, f: &mut fmt::Formatter<W>) -> fmt::Result {
        match self {
            RequestError::Malformed(misfit) => write!(f, "{misfit}"),
            RequestError::Refused(error) => write!(f, "{error:?}: {error}"),
            RequestError::OutOfMemory => f.write_str("OutOfMemory: out of memory"),
        }
    }
}

impl fmt::Display for VerifyError {
    fn fmt<W: fmt::Write>(&self, f: &mut fmt::Formatter<W>) -> fmt::Result {
        match self {
            VerifyError::Malformed(misfit) => write!(f, "{misfit}"),
            VerifyError::Refused(error) => write!(f, "{error:?}: {error}"),
            VerifyError::OutOfMemory => f.write_str("OutOfMemory: out of memory"),
        }
    }
}

impl<E: Debug + Display + Drop> Error for RequestError<E> {}

impl Error for VerifyError {}

/// What a record doesn't have, or want of memory to read it.
#[derive(Clone, Copy)]
pub enum ReadError {
    Malformed(Misfit),
    OutOfMemory,
}

impl From<Misfit> for ReadError {
    ghost from_gives = { λ misfit e. e ≡ read.Malformed misfit };

    fn from(misfit: Misfit) -> ReadError {
        ReadError::Malformed(misfit)
    }
}

impl<T: Drop> From<AllocFailed<T>> for ReadError {
    ghost from_gives = { λ _ e. e ≡ read.OutOfMemory };

    fn from(_error: AllocFailed<T>) -> ReadError {
        ReadError::OutOfMemory
    }
}

impl From<AllocError> for ReadError {
    ghost from_gives = { λ _ e. e ≡ read.OutOfMemory };

    fn from(_error: AllocError) -> ReadError {
        ReadError::OutOfMemory
    }
}

impl<E: Drop> From<ReadError> for RequestError<E> {
    ghost from_gives = { λ e f. f ≡ unread_request e };

    fn from(error: ReadError) -> RequestError<E> {
        match error {
            ReadError::Malformed(misfit) => RequestError::Malformed(misfit),
            ReadError::OutOfMemory => RequestError::OutOfMemory,
        }
    }
}

impl<T: Drop, E: Drop> From<AllocFailed<T>> for RequestError<E> {
    ghost from_gives = { λ _ e. e ≡ request.OutOfMemory };

    fn from(_error: AllocFailed<T>) -> RequestError<E> {
        RequestError::OutOfMemory
    }
}

impl<E: Drop> From<AllocError> for RequestError<E> {
    ghost from_gives = { λ _ e. e ≡ request.OutOfMemory };

    fn from(_error: AllocError) -> RequestError<E> {
        RequestError::OutOfMemory
    }
}

impl From<ReadError> for VerifyError {
    ghost from_gives = { λ e f. f ≡ unread e };

    fn from(error: ReadError) -> VerifyError {
        match error {
            ReadError::Malformed(misfit) => VerifyError::Malformed(misfit),
            ReadError::OutOfMemory => VerifyError::OutOfMemory,
        }
    }
}

impl From<VerifierError> for VerifyError {
    ghost from_gives = { λ e f. f ≡ failure_of e };

    fn from(error: VerifierError) -> VerifyError {
        match error {
            FriError::OutOfMemory => VerifyError::OutOfMemory,
            _ => VerifyError::Refused(error),
        }
    }
}

impl From<AllocError> for VerifyError {
    ghost from_gives = { λ _ e. e ≡ statement.OutOfMemory };

    fn from(_error: AllocError) -> VerifyError {
        VerifyError::OutOfMemory
    }
}

/// The faults of a plain form have their place in the proof.
impl From<PlainProofError> for VerifyError {
    ghost from_gives = { IsUnformed };

    fn from(error: PlainProofError) -> VerifyError {
        let place = Place::PROOF;
        match error {
            PlainProofError::ElementOutOfRange => {
                VerifyError::Malformed(place.lacks(Fault::Element))
            },
            PlainProofError::ElementLength => {
                VerifyError::Malformed(place.lacks(Fault::ExtensionElement))
            },
            PlainProofError::DigestLength => VerifyError::Malformed(place.lacks(Fault::Digest)),
            PlainProofError::OutOfMemory => VerifyError::OutOfMemory,
        }
    }
}
