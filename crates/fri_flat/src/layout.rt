//! How the numbers of a field lie in bytes.

ghost use Rattle.std.specs.Prelude.{◌≡◌};
ghost use Rattle.fri_flat.specs.Flat.{number_size};

/// How many bytes the number of an element of a prime field takes.
#[derive(Clone, Copy)]
pub(crate) enum Width {
    Four,
    Eight,
}

impl Width {
    /// So many.
    pub fn bytes(self) -> usize
        ensures { result ≡ number_size self }
    {
        match self {
            Width::Four => 4,
            Width::Eight => 8,
        }
    }
}

/// How bytes hold the elements of a prime field and of its extension.
#[derive(Clone, Copy)]
pub(crate) struct Layout {
    pub width: Width,
    /// How many numbers an element of the extension has.
    pub degree: usize,
}
