//! The challenges of the rounds in which a row is folded by two.

ghost use Rattle.std.specs.Prelude.{◌≡◌, ◌<◌, ◌^◌, ℕ};
ghost use Rattle.algebra.specs.Field.{pow};

use p3_field_core::Field;

/// The challenges `beta`, `beta^2`, `beta^4` and so on, one for each round. The first three are
/// kept, since only one pair of values of fifteen or more meets a later one.
#[derive(Drop)]
pub(crate) struct Challenges<EF: Field> {
    beta: EF,
    rounds: usize,
    second: EF,
    third: EF,
    first_factor: EF::Prepared,
    second_factor: EF::Prepared,
    ghost first_is: { EF.factor_of first_factor ≡ beta },
    ghost factor_is: { EF.factor_of second_factor ≡ second },
    ghost second_is: { 1 < rounds → second ≡ pow EF.ops beta 2 },
    ghost third_is: { 2 < rounds → third ≡ pow EF.ops beta 4 },
}

impl<EF: Field> Challenges<EF> {
    /// Those of so many rounds, from `beta` on.
    pub(crate) fn new(beta: EF, rounds: usize) -> Self
        ensures beta { result.beta ≡ beta }
        ensures rounds { result.rounds ≡ rounds }
    {
        let second = if rounds > 1 { beta.square() } else { beta };
        let third = if rounds > 2 { second.square() } else { second };
        Self {
            beta,
            rounds,
            second,
            third,
            first_factor: beta.prepare(),
            second_factor: second.prepare(),
        }
    }

    /// That of a round, the first of which is 0.
    pub(crate) fn of_round(&self, round: usize) -> EF
        requires { round < self.now.rounds }
        ensures { result ≡ pow EF.ops self.now.beta (2 ^ round) }
    {
        match round {
            0 => self.beta,
            1 => self.second,
            _ => self.third.exp_power_of_2(round - 2),
        }
    }

    /// The same as a factor.
    pub(crate) fn factor_of_round(&self, round: usize) -> EF::Prepared
        requires { round < self.now.rounds }
        ensures { EF.factor_of result ≡ pow EF.ops self.now.beta (2 ^ round) }
    {
        match round {
            0 => self.first_factor,
            1 => self.second_factor,
            _ => self.of_round(round).prepare(),
        }
    }
}
