//! The quotient's values at several points at once, one to a lane.

ghost use Rattle.std.specs.Prelude.{◌≡◌, ◌≢◌, ◌<◌, ◌≤◌, ◌+◌, ◌++◌, ℕ, All, OnOk, length, map};
ghost use Rattle.std.specs.Prelude.{reverse, slice_index_or};
ghost use Rattle.std.specs.List.{flat_map};
ghost use Rattle.algebra.specs.Field.{pow};
ghost use Rattle.algebra.specs.Polynomial.{tabulate, sum_below};
ghost use Rattle.p3_field_core.specs.RowSums.{row_term};
ghost use Rattle.stark_algebra.specs.Selectors.{zerofier};
ghost use Rattle.p3_air.specs.Nodes.{node_meaning, meanings, values_in};
ghost use Rattle.p3_air.specs.WellFormed.{IsGrounded, IsWellFormed};
ghost use Rattle.p3_air.specs.Shapes.{entries_of, HasWidths};
ghost use Rattle.p3_uni_stark_identity.specs.Selectors.{AreSelectorsAt};
ghost use Rattle.p3_uni_stark_identity.specs.Folding.{selected_by};
ghost use Rattle.p3_uni_stark_quotient.specs.Lanes.{in_lane, lane_entries, selectors_in_lane};
ghost use Rattle.p3_uni_stark_quotient.specs.Lanes.{selected_in_lane, selected_lanes};
ghost use Rattle.p3_uni_stark_quotient.specs.Quotient.{quotient_on_row};

use p3_air::{Air, AirLayout, Constraint, Node, Rows, Window};
use p3_field_core::{ExtensionField, Field, PackedField};
use p3_uni_stark_identity::LagrangeSelectors;
use std::alloc::{AllocError, Global};

/// Room for what is computed of a block of rows, which lives for all blocks.
#[derive(Drop)]
pub(crate) struct LaneBuffers<F, EF, P> {
    /// The nodes' values.
    nodes: Vec<P>,
    /// The constraints' values times their selectors, lane after lane.
    selected: Vec<F>,
    /// The constraints' sums, one to a lane.
    sums: Vec<EF>,
}

impl<F: Copy, EF: Copy, P: Copy> LaneBuffers<F, EF, P> {
    /// Empty buffers.
    pub(crate) fn new(alloc: Global) -> Self {
        LaneBuffers {
            nodes: Vec::new(alloc),
            selected: Vec::new(alloc),
            sums: Vec::new(alloc),
        }
    }
}

/// In each lane the value of node number `earlier.len()`, by the values of those before it.
fn node_by_lanes<F: Field, P: PackedField<F>>(
    layout: &AirLayout,
    node: Node<F>,
    window: &Window<'_, F, P>,
    earlier: &[P],
) -> P
    requires grounded { IsGrounded layout.now (length earlier.now) node }
    requires widths { HasWidths layout.now (entries_of window.now) }
    ensures { (l : ℕ) → l < P.WIDTH → P.lane result l ≡ node_meaning
        (values_in F.ops (λ x. x) F.ops.zero (lane_entries P.lane l (entries_of window.now)))
        (in_lane P.lane l earlier.now) node }
{
    match node {
        Node::Constant(value) => P::broadcast(value),
        Node::Local(column) => window.local[column],
        Node::Next(column) => window.next[column],
        Node::Preprocessed(column) => window.preprocessed[column],
        Node::PreprocessedNext(column) => window.preprocessed_next[column],
        Node::Public(index) => P::broadcast(window.public_values[index]),
        Node::Periodic(column) => window.periodic[column],
        Node::Add(a, b) => earlier[a] + earlier[b],
        Node::Sub(a, b) => earlier[a] - earlier[b],
        Node::Mul(a, b) => earlier[a] * earlier[b],
        Node::Neg(a) => -earlier[a],
    }
}

/// The values of all nodes in order, lane by lane, in the place of what `values` held.
fn evaluate_by_lanes<F: Field, P: PackedField<F>>(
    air: &Air<F>,
    window: &Window<'_, F, P>,
    values: &mut Vec<P>,
) -> Result<(), AllocError>
    requires well_formed { IsWellFormed air.now }
    requires widths { HasWidths air.now.layout (entries_of window.now) }
    ensures { (l : ℕ) → l < P.WIDTH → OnOk result (in_lane P.lane l values.new.items ≡ meanings
        (values_in F.ops (λ x. x) F.ops.zero (lane_entries P.lane l (entries_of window.now)))
        air.now.nodes.items) }
{
    values.clear();
    for i in 0..air.nodes.len() {
        let value = node_by_lanes(&air.layout, air.nodes[i], window, values.as_slice());
        values.push(value)?;
    }
    Ok(())
}

/// The selectors of the points from `start` on, one to a lane.
pub(crate) fn pack_selectors<F: Field, P: PackedField<F>>(
    selectors: &[LagrangeSelectors<F>],
    start: usize,
) -> LagrangeSelectors<P>
    requires { start + P.WIDTH ≤ length selectors.now }
    ensures { (l : ℕ) (s : LagrangeSelectors F) → l < P.WIDTH
        → selectors_in_lane P.lane l result ≡ slice_index_or selectors.now (start + l) s }
{
    let mut first = P::broadcast(F::ZERO);
    let mut last = first;
    let mut transition = first;
    let mut inverse = first;
    for lane in 0..P::WIDTH {
        let here = selectors[start + lane];
        first = first.with_lane(lane, here.is_first_row);
        last = last.with_lane(lane, here.is_last_row);
        transition = transition.with_lane(lane, here.is_transition);
        inverse = inverse.with_lane(lane, here.inv_vanishing);
    }
    LagrangeSelectors {
        is_first_row: first,
        is_last_row: last,
        is_transition: transition,
        inv_vanishing: inverse,
    }
}

/// A value on these rows, times their selector, lane by lane.
fn select_by_lanes<F: Field, P: PackedField<F>>(
    rows: Rows,
    value: P,
    selectors: &LagrangeSelectors<P>,
) -> P
    ensures { (l : ℕ) → l < P.WIDTH → P.lane result l
        ≡ selected_by F.ops (selectors_in_lane P.lane l selectors.now) rows (P.lane value l) }
{
    match rows {
        Rows::All => value,
        Rows::First => selectors.is_first_row * value,
        Rows::Last => selectors.is_last_row * value,
        Rows::Transition => selectors.is_transition * value,
    }
}

/// Appends the element in each lane.
fn push_lanes<F: Field, P: PackedField<F>>(
    elements: &mut Vec<F>,
    packed: P,
) -> Result<(), AllocError>
    ensures { OnOk result (elements.new.items
        ≡ elements.old.items ++ tabulate P.WIDTH (P.lane packed)) }
{
    for lane in 0..P::WIDTH {
        elements.push(packed.lane(lane))?;
    }
    Ok(())
}

/// The constraints' values, each times its selector, lane after lane, in the place of what
/// `selected` held.
fn select_all_by_lanes<F: Field, P: PackedField<F>>(
    constraints: &[Constraint],
    values: &[P],
    selectors: &LagrangeSelectors<P>,
    selected: &mut Vec<F>,
) -> Result<(), AllocError>
    requires nodes { All (λ c. c.node < length values.now) constraints.now }
    ensures { OnOk result (selected.new.items ≡ flat_map
        (selected_lanes F.ops P.lane selectors.now values.now P.WIDTH) constraints.now) }
{
    selected.clear();
    for constraint in constraints {
        let value = select_by_lanes(constraint.rows, values[constraint.node], selectors);
        push_lanes(selected, value)?;
    }
    Ok(())
}

/// As many zeros, in the place of what `sums` held.
fn reset<EF: Field>(sums: &mut Vec<EF>, count: usize) -> Result<(), AllocError>
    ensures { OnOk result (sums.new.items ≡ tabulate count (λ _. EF.ops.zero)) }
{
    sums.clear();
    for _ in 0..count {
        sums.push(EF::ZERO)?;
    }
    Ok(())
}

/// The sums of the constraints' values times their selectors and the powers beside them, one to a
/// lane, in the place of what `sums` held.
fn sum_by_lanes<F: Field, EF: ExtensionField<F>, P: PackedField<F>>(
    constraints: &[Constraint],
    powers: &[EF],
    values: &[P],
    selectors: &LagrangeSelectors<P>,
    selected: &mut Vec<F>,
    sums: &mut Vec<EF>,
) -> Result<(), AllocError>
    requires nodes { All (λ c. c.node < length values.now) constraints.now }
    requires powers { length powers.now ≡ length constraints.now }
    ensures len { OnOk result (length sums.new.items ≡ P.WIDTH) }
    ensures sums { (l : ℕ) → l < P.WIDTH → OnOk result
        (slice_index_or sums.new.items l EF.ops.zero ≡ sum_below EF.ops (length constraints.now)
        (row_term F.ops EF.ops EF.lift powers.now
        (map (selected_in_lane F.ops P.lane selectors.now values.now l) constraints.now))) }
{
    select_all_by_lanes(constraints, values, selectors, selected)?;
    reset(sums, P::WIDTH)?;
    let entries = selected.as_slice();
    EF::add_weighted_rows(sums.as_mut_slice(), entries, powers);
    Ok(())
}

/// Appends the sum in each lane, over the value of the vanishing polynomial there.
fn push_scaled<F: Field, EF: ExtensionField<F>, P: PackedField<F>>(
    values: &mut Vec<EF>,
    sums: &[EF],
    inv_vanishing: P,
) -> Result<(), AllocError>
    requires { length sums.now ≡ P.WIDTH }
    ensures { OnOk result (values.new.items ≡ values.old.items ++ tabulate P.WIDTH (λ l.
        EF.ops.mul (slice_index_or sums.now l EF.ops.zero) (EF.lift (P.lane inv_vanishing l)))) }
{
    for lane in 0..P::WIDTH {
        values.push(sums[lane].scale(inv_vanishing.lane(lane)))?;
    }
    Ok(())
}

/// Appends the quotient's value in each lane, where constraints see that lane of the window. The
/// constraints are given in reverse, beside the powers of a challenge from one on. Nothing grows
/// once the buffers have had room for one block.
pub(crate) fn push_by_lanes<F: Field, EF: ExtensionField<F>, P: PackedField<F>>(
    air: &Air<F>,
    reversed: &[Constraint],
    powers: &[EF],
    window: &Window<'_, F, P>,
    selectors: &LagrangeSelectors<P>,
    buffers: &mut LaneBuffers<F, EF, P>,
    values: &mut Vec<EF>,
) -> Result<(), AllocError>
    requires well_formed { IsWellFormed air.now }
    requires widths { HasWidths air.now.layout (entries_of window.now) }
    requires reversed { reversed.now ≡ reverse air.now.constraints.items }
    requires powers { length powers.now ≡ length reversed.now }
    ensures { (g : F) (n : ℕ) (alpha : EF) (x : ℕ → F)
        → powers.now ≡ tabulate (length reversed.now) (λ i. pow EF.ops alpha i)
        → ((l : ℕ) → l < P.WIDTH
        → AreSelectorsAt F.ops g n (x l) (selectors_in_lane P.lane l selectors.now))
        → ((l : ℕ) → l < P.WIDTH → zerofier F.ops n (x l) ≢ F.ops.zero)
        → g ≢ F.ops.zero → zerofier F.ops n F.ops.one ≡ F.ops.zero
        → zerofier F.ops n (F.ops.inv g) ≡ F.ops.zero
        → OnOk result (values.new.items ≡ values.old.items ++ tabulate P.WIDTH (λ l.
        quotient_on_row F.ops EF.ops EF.lift air.now g n alpha
        (lane_entries P.lane l (entries_of window.now)) (x l))) }
{
    evaluate_by_lanes(air, window, &mut buffers.nodes)?;
    let nodes = buffers.nodes.as_slice();
    let selected = &mut buffers.selected;
    sum_by_lanes(
        reversed,
        powers,
        nodes,
        selectors,
        selected,
        &mut buffers.sums,
    )?;
    let sums = buffers.sums.as_slice();
    push_scaled(values, sums, selectors.inv_vanishing)?;
    Ok(())
}
