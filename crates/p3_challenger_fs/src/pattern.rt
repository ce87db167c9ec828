//! What a transcript is described by.

ghost use Rattle.std.specs.Prelude.{◌≡◌};
ghost use Rattle.p3_challenger_fs.specs.declared.pattern.Length.TheVariants.{Scalar};
ghost use Rattle.p3_challenger_fs.specs.declared.pattern.TypeTag.TheVariants.{Opaque, Algebra};
ghost use Rattle.p3_challenger_fs.specs.declared.pattern.TypeTag.TheVariants.{Bits, Marker};

use p3_field_core::{ExtensionField, Field};

/// Where a step stands: by itself, or as an end of a bracket around a protocol that is run inside.
#[derive(Clone, Copy, Debug, PartialEq, Eq)]
pub enum Hierarchy {
    Atomic,
    Begin,
    End,
}

/// What a step does: a value is absorbed, one is drawn, a proof of work is given, or a protocol is
/// bracketed.
#[derive(Clone, Copy, Debug, PartialEq, Eq)]
pub enum Kind {
    Message,
    Challenge,
    Pow,
    Protocol,
}

/// The type of a step's values.
#[derive(Clone, Copy, Debug, PartialEq, Eq)]
pub enum TypeTag {
    /// A value whose encoding belongs to another layer, as a commitment.
    Opaque,
    /// Elements of an extension of this degree.
    Algebra { degree: usize },
    /// Numbers of this width in bits.
    Bits { width: usize },
    /// No value.
    Marker,
}

/// How many values a step has.
#[derive(Clone, Copy, Debug, PartialEq, Eq)]
pub enum Length {
    /// One, or none for a marker.
    Scalar,
    /// So many; for a proof of work it is the number of its bits.
    Fixed(usize),
}

/// A step of a transcript.
#[derive(Clone, Copy, Debug)]
pub struct Interaction {
    pub hierarchy: Hierarchy,
    pub kind: Kind,
    pub type_tag: TypeTag,
    pub label: &'static str,
    pub length: Length,
}

/// A step without its label, which is bound before the first step: what a driver plays.
#[derive(Clone, Copy, Debug, PartialEq, Eq)]
pub struct Turn {
    pub hierarchy: Hierarchy,
    pub kind: Kind,
    pub type_tag: TypeTag,
    pub length: Length,
}

impl Interaction {
    ghost use Rattle.p3_challenger_fs.specs.Pattern.{step, step_of, turn_of};

    /// The step without its label.
    pub fn turn(&self) -> Turn
        ensures { result ≡ turn_of (step_of self.now) }
    {
        Turn {
            hierarchy: self.hierarchy,
            kind: self.kind,
            type_tag: self.type_tag,
            length: self.length,
        }
    }

    /// A step of values whose encoding belongs to another layer.
    pub fn opaque(hierarchy: Hierarchy, kind: Kind, label: &'static str, length: Length) -> Self
        ensures { step_of result ≡ step hierarchy kind Opaque label.now length }
    {
        Self {
            hierarchy,
            kind,
            type_tag: TypeTag::Opaque,
            label,
            length,
        }
    }

    /// A step of elements of the extension `EF` of `F`; with `F` for `EF` its degree is 1.
    pub fn algebra<F: Field, EF: ExtensionField<F>>(
        hierarchy: Hierarchy,
        kind: Kind,
        label: &'static str,
        length: Length,
    ) -> Self
        ensures { step_of result ≡ step hierarchy kind (Algebra EF.DIMENSION) label.now length }
    {
        Self {
            hierarchy,
            kind,
            type_tag: TypeTag::Algebra {
                degree: EF::DIMENSION,
            },
            label,
            length,
        }
    }

    /// A step of numbers of `width` bits.
    pub fn bits(
        hierarchy: Hierarchy,
        kind: Kind,
        label: &'static str,
        width: usize,
        length: Length,
    ) -> Self
        ensures { step_of result ≡ step hierarchy kind (Bits width) label.now length }
    {
        Self {
            hierarchy,
            kind,
            type_tag: TypeTag::Bits { width },
            label,
            length,
        }
    }

    /// A step without a value.
    pub fn marker(hierarchy: Hierarchy, kind: Kind, label: &'static str) -> Self
        ensures { step_of result ≡ step hierarchy kind Marker label.now Scalar }
    {
        Self {
            hierarchy,
            kind,
            type_tag: TypeTag::Marker,
            label,
            length: Length::Scalar,
        }
    }
}

/// The steps of a transcript, in order.
#[derive(Debug, Drop)]
pub struct InteractionPattern {
    steps: Vec<Interaction>,
}

#[tactic(auto, unfolding(crate::specs::Pattern::pattern_steps))]
impl InteractionPattern {
    ghost use Rattle.p3_challenger_fs.specs.Pattern.{step_of, pattern_steps};
    ghost use Rattle.std.specs.Prelude.{map};

    /// The pattern of these steps.
    pub fn new(steps: Vec<Interaction>) -> Self
        ensures { pattern_steps result ≡ map step_of steps.items }
    {
        Self { steps }
    }

    /// The steps.
    pub fn steps(&self) -> &[Interaction]
        ensures { map step_of result.now ≡ pattern_steps self.now }
    {
        &self.steps
    }
}
