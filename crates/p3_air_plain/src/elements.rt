//! Elements of their canonical numbers, in rows and lists.

ghost use Rattle.std.specs.Prelude.{◌≡◌, map, IfOk, IfErr};
ghost use Rattle.algebra.specs.Nested.{lists};
ghost use Rattle.p3_air.specs.Satisfied.{Assigned};
ghost use Rattle.p3_air.specs.Shapes.{assigned};
ghost use Rattle.p3_air_plain.specs.Elements.{ListFault, RowsFault, AssignedFault};
ghost use Rattle.p3_air_plain.specs.Elements.{assigned_numbers, owned_assigned};

use crate::element::element;
use crate::error::{ElementError, Part};
use p3_air::Assignment;
use p3_field_core::PrimeField64;
use std::alloc::Global;

/// What a constraint system is held against, with its own memory.
#[derive(Debug, Drop)]
pub struct OwnedAssignment<F> {
    pub trace: Vec<Vec<F>>,
    pub preprocessed: Vec<Vec<F>>,
    pub public_values: Vec<F>,
    pub periodic: Vec<Vec<F>>,
}

impl<F> OwnedAssignment<F> {
    /// The same, borrowed.
    pub fn borrowed(&self) -> Assignment<'_, F>
        ensures { assigned result ≡ owned_assigned self.now }
    {
        Assignment {
            trace: self.trace.as_slice(),
            preprocessed: self.preprocessed.as_slice(),
            public_values: self.public_values.as_slice(),
            periodic: self.periodic.as_slice(),
        }
    }
}

/// The elements of these numbers, which are row `row` of this part.
pub fn elements_from_plain<F: PrimeField64>(
    alloc: Global,
    numbers: &[u64],
    part: Part,
    row: usize,
) -> Result<Vec<F>, ElementError>
    ensures numbers { IfOk result (λ xs. map F.canonical xs.items ≡ numbers.now) }
    ensures refused { IfErr result (ListFault F.ORDER_U64 part row numbers.now) }
{
    let mut elements = match Vec::with_capacity(alloc, numbers.len()) {
        Ok(elements) => elements,
        Err(_) => return Err(ElementError::OutOfMemory),
    };
    for entry in 0..numbers.len() {
        let Some(value) = element(numbers[entry]) else {
            return Err(ElementError::OutOfRange { part, row, entry });
        };
        if elements.push(value).is_err() {
            return Err(ElementError::OutOfMemory);
        }
    }
    Ok(elements)
}

/// The rows of elements of these numbers, which are this part.
pub fn rows_from_plain<F: PrimeField64>(
    alloc: Global,
    rows: &[Vec<u64>],
    part: Part,
) -> Result<Vec<Vec<F>>, ElementError>
    ensures numbers { IfOk result (λ all. map (map F.canonical) (lists all.items)
        ≡ lists rows.now) }
    ensures refused { IfErr result (RowsFault F.ORDER_U64 part (lists rows.now)) }
{
    let mut all = match Vec::with_capacity(alloc, rows.len()) {
        Ok(all) => all,
        Err(_) => return Err(ElementError::OutOfMemory),
    };
    for row in 0..rows.len() {
        let elements = match elements_from_plain(alloc, rows[row].as_slice(), part, row) {
            Ok(elements) => elements,
            Err(fault) => return Err(fault),
        };
        if all.push(elements).is_err() {
            return Err(ElementError::OutOfMemory);
        }
    }
    Ok(all)
}

/// The elements of what a constraint system is to be held against.
pub fn assignment_from_plain<F: PrimeField64>(
    alloc: Global,
    given: &Assignment<'_, u64>,
) -> Result<OwnedAssignment<F>, ElementError>
    ensures numbers { IfOk result (λ owned.
        assigned_numbers F.canonical (owned_assigned owned) ≡ assigned given.now) }
    ensures refused { IfErr result (AssignedFault F.ORDER_U64 (assigned given.now)) }
{
    let preprocessed = match rows_from_plain(alloc, given.preprocessed, Part::Preprocessed) {
        Ok(rows) => rows,
        Err(fault) => return Err(fault),
    };
    let periodic = match rows_from_plain(alloc, given.periodic, Part::Periodic) {
        Ok(columns) => columns,
        Err(fault) => return Err(fault),
    };
    let values = elements_from_plain(alloc, given.public_values, Part::PublicValues, 0);
    let public_values = match values {
        Ok(values) => values,
        Err(fault) => return Err(fault),
    };
    let trace = match rows_from_plain(alloc, given.trace, Part::Trace) {
        Ok(rows) => rows,
        Err(fault) => return Err(fault),
    };
    Ok(OwnedAssignment {
        trace,
        preprocessed,
        public_values,
        periodic,
    })
}
