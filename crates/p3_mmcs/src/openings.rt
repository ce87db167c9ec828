//! What is claimed of committed matrices: values at points, nested by commitment, matrix and point.

/// The values claimed at a point, one for each column of a matrix.
#[derive(Debug, PartialEq, Eq, Drop)]
pub struct PointOpening<EF> {
    pub point: EF,
    pub values: Vec<EF>,
}

/// What is claimed of a matrix whose columns are functions on `domain`, at each point.
#[derive(Debug, PartialEq, Eq, Drop)]
pub struct MatrixOpening<EF, Domain> {
    pub domain: Domain,
    pub points: Vec<PointOpening<EF>>,
}

/// What is claimed of the matrices under a commitment, in their order.
#[derive(Debug, PartialEq, Eq, Drop)]
pub struct CommitmentOpening<EF, Com, Domain> {
    pub commitment: Com,
    pub matrices: Vec<MatrixOpening<EF, Domain>>,
}

/// The same under the name that FRI's verifier uses.
pub type CommitmentWithOpeningPoints<EF, Com, Domain> = CommitmentOpening<EF, Com, Domain>;

/// The values at a point, nested by commitment, matrix and point: one for each column.
pub type OpenedValues<EF> = Vec<Vec<Vec<Vec<EF>>>>;
