//! What a transcript is bound to before its first step.

ghost use Rattle.std.specs.Prelude.{◌≡◌, ◌++◌, ◌∷◌, [], IfOk, OnOk, OnErr, map};
ghost use Rattle.std.specs.List.{flat_map};
ghost use Rattle.algebra.specs.Nested.{lists};
ghost use Rattle.p3_challenger_fs.specs.Description.{stream_of};
ghost use Rattle.p3_challenger_fs.specs.Pattern.{step_of, turn_of, step_bytes, number_bytes};
ghost use Rattle.p3_challenger_fs.specs.Pattern.{text_bytes, type_bytes, length_bytes};

use crate::pattern::{Hierarchy, Interaction, InteractionPattern, Kind, Length, Turn, TypeTag};
use std::alloc::{AllocError, Global};

/// A protocol's version and name, the steps of its transcript, and the labels of an instance, which
/// bind what the steps don't determine.
#[derive(Debug, Drop)]
pub struct DomainSeparator {
    version: u8,
    name: &'static [u8],
    pattern: InteractionPattern,
    labels: Vec<Vec<u8>>,
}

/// What both sides absorb first, and the steps that they play then.
#[derive(Debug, Drop)]
pub struct Seed {
    pub(crate) stream: Vec<u8>,
    pub(crate) turns: Vec<Turn>,
}

/// Room for a step in the buffer of a stream, in bytes; with a longer label the buffer grows.
const STEP_ROOM: usize = 64;

/// Room for a label of one number, in bytes.
const LABEL_ROOM: usize = 16;

#[tactic(auto, unfolding(crate::specs::Separator::description))]
impl DomainSeparator {
    ghost use Rattle.p3_challenger_fs.specs.Pattern.{pattern_steps};
    ghost use Rattle.p3_challenger_fs.specs.Separator.{description, seed_bytes, seed_turns};

    /// The separator of a protocol, without labels.
    pub fn new(alloc: Global, version: u8, name: &'static [u8], pattern: InteractionPattern) -> Self
        ensures { description result ≡ record {
          version = version;
          name = name.now;
          steps = pattern_steps pattern;
          labels = [];
        } }
    {
        Self {
            version,
            name,
            pattern,
            labels: Vec::new(alloc),
        }
    }

    /// Adds a label of the instance. A refusal leaves the separator as it was.
    pub fn instance(&mut self, alloc: Global, label: &[u8]) -> Result<(), AllocError>
        ensures ok { OnOk result (description self.new ≡ record (description self.old) {
          labels = (description self.old).labels ++ label.now ∷ [];
        }) }
        ensures err { OnErr result (description self.new ≡ description self.old) }
    {
        let label = Vec::from_slice(alloc, label)?;
        self.labels.push(label)?;
        Ok(())
    }

    /// The stream, and the steps that a driver plays after it.
    pub fn seed(&self, alloc: Global) -> Result<Seed, AllocError>
        ensures stream { IfOk result (λ seed. seed_bytes seed ≡ stream_of (description self.now)) }
        ensures turns { IfOk result (λ seed.
            seed_turns seed ≡ map turn_of (description self.now).steps) }
    {
        let stream = self.seed_stream(alloc)?;
        let turns = turns_of(alloc, self.pattern.steps())?;
        Ok(Seed { stream, turns })
    }
}

#[tactic(auto, unfolding(crate::specs::Separator::description, crate::specs::Pattern::seed_stream))]
impl DomainSeparator {
    ghost use Rattle.p3_challenger_fs.specs.Separator.{description};

    /// The stream of bytes that binds the description, and determines it.
    pub fn seed_stream(&self, alloc: Global) -> Result<Vec<u8>, AllocError>
        ensures { IfOk result (λ bytes. bytes.items ≡ stream_of (description self.now)) }
    {
        let steps = self.pattern.steps();
        let room = STEP_ROOM
            .saturating_mul(steps.len().saturating_add(1))
            .saturating_add(LABEL_ROOM.saturating_mul(self.labels.len()));
        let mut stream = Vec::with_capacity(alloc, room)?;
        stream.push(self.version)?;
        push_text(&mut stream, self.name)?;
        push_number(&mut stream, steps.len())?;
        push_steps(&mut stream, steps)?;
        push_number(&mut stream, self.labels.len())?;
        push_labels(&mut stream, &self.labels)?;
        Ok(stream)
    }
}

/// The steps without their labels.
fn turns_of(alloc: Global, steps: &[Interaction]) -> Result<Vec<Turn>, AllocError>
    ensures { IfOk result (λ turns. turns.items ≡ map turn_of (map step_of steps.now)) }
{
    let mut turns = Vec::with_capacity(alloc, steps.len())?;
    for step in steps {
        turns.push(step.turn())?;
    }
    Ok(turns)
}

/// Appends a number in eight bytes, the highest first.
fn push_number(stream: &mut Vec<u8>, n: usize) -> Result<(), AllocError>
    ensures { OnOk result (stream.new.items ≡ stream.old.items ++ number_bytes n) }
{
    stream.extend_from_slice(&(n as u64).to_be_bytes())
}

/// Appends a text's length and its bytes.
fn push_text(stream: &mut Vec<u8>, bytes: &[u8]) -> Result<(), AllocError>
    ensures { OnOk result (stream.new.items ≡ stream.old.items ++ text_bytes bytes.now) }
{
    push_number(stream, bytes.len())?;
    stream.extend_from_slice(bytes)
}

/// Appends a step.
fn push_step(stream: &mut Vec<u8>, step: &Interaction) -> Result<(), AllocError>
    ensures { OnOk result (stream.new.items ≡ stream.old.items ++ step_bytes (step_of step.now)) }
{
    stream.push(match step.hierarchy {
        Hierarchy::Atomic => 0x00,
        Hierarchy::Begin => 0x01,
        Hierarchy::End => 0x02,
    })?;
    stream.push(match step.kind {
        Kind::Message => 0x00,
        Kind::Challenge => 0x01,
        Kind::Pow => 0x02,
        Kind::Protocol => 0x03,
    })?;
    push_type(stream, step.type_tag)?;
    push_text(stream, step.label.as_bytes())?;
    push_length(stream, step.length)
}

/// Appends the type of a step's values.
fn push_type(stream: &mut Vec<u8>, type_tag: TypeTag) -> Result<(), AllocError>
    ensures { OnOk result (stream.new.items ≡ stream.old.items ++ type_bytes type_tag) }
{
    match type_tag {
        TypeTag::Opaque => stream.push(0x00)?,
        TypeTag::Algebra { degree } => {
            stream.push(0x01)?;
            push_number(stream, degree)?;
        },
        TypeTag::Bits { width } => {
            stream.push(0x02)?;
            push_number(stream, width)?;
        },
        TypeTag::Marker => stream.push(0x03)?,
    }
    Ok(())
}

/// Appends the number of a step's values.
fn push_length(stream: &mut Vec<u8>, length: Length) -> Result<(), AllocError>
    ensures { OnOk result (stream.new.items ≡ stream.old.items ++ length_bytes length) }
{
    match length {
        Length::Scalar => stream.push(0x00)?,
        Length::Fixed(n) => {
            stream.push(0x01)?;
            push_number(stream, n)?;
        },
    }
    Ok(())
}

/// Appends steps in order.
fn push_steps(stream: &mut Vec<u8>, steps: &[Interaction]) -> Result<(), AllocError>
    ensures { OnOk result (stream.new.items ≡ stream.old.items
        ++ flat_map step_bytes (map step_of steps.now)) }
{
    for step in steps {
        push_step(stream, step)?;
    }
    Ok(())
}

/// Appends labels in order.
fn push_labels(stream: &mut Vec<u8>, labels: &[Vec<u8>]) -> Result<(), AllocError>
    ensures { OnOk result (stream.new.items ≡ stream.old.items
        ++ flat_map text_bytes (lists labels.now)) }
{
    for label in labels {
        push_text(stream, label)?;
    }
    Ok(())
}
