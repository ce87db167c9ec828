//! Schedules, and the constructors' parameters.

ghost use Rattle.std.specs.Prelude.{◌+◌, ◌*◌, ◌<◌, ◌^◌};

use p3_fri_core::config::{
    FriParameters, compute_log_arity_for_round, fold_schedule, is_strictly_falling,
};
use p3_mmcs::GrindingSites;
use std::process::Abort;

/// Heights, the most that a round folds, and the schedule from them down to 2.
struct Schedule {
    name: &'static str,
    heights: &'static [usize],
    max_log_arity: usize,
    rounds: &'static [usize],
}

static SCHEDULES: [Schedule; 8] = [
    Schedule {
        name: "one input",
        heights: &[10],
        max_log_arity: 3,
        rounds: &[3, 3, 2],
    },
    Schedule {
        name: "an input within a round",
        heights: &[10, 6],
        max_log_arity: 3,
        rounds: &[3, 1, 3, 1],
    },
    Schedule {
        name: "an input within the first round",
        heights: &[10, 8],
        max_log_arity: 3,
        rounds: &[2, 3, 3],
    },
    Schedule {
        name: "no input",
        heights: &[],
        max_log_arity: 3,
        rounds: &[],
    },
    Schedule {
        name: "an input at the final height",
        heights: &[2],
        max_log_arity: 3,
        rounds: &[],
    },
    Schedule {
        name: "an input below it",
        heights: &[1],
        max_log_arity: 3,
        rounds: &[],
    },
    Schedule {
        name: "two inputs, one below it",
        heights: &[10, 1],
        max_log_arity: 3,
        rounds: &[3, 3, 2],
    },
    Schedule {
        name: "rounds by two",
        heights: &[10],
        max_log_arity: 1,
        rounds: &[1, 1, 1, 1, 1, 1, 1, 1],
    },
];

static HEIGHTS: [(&str, &[usize], bool); 4] = [
    ("no heights fall", &[], true),
    ("heights fall", &[10, 6, 0], true),
    ("equal heights", &[10, 10], false),
    ("rising heights", &[10, 6, 7], false),
];

#[test]
fn schedules_stop_where_an_input_joins(rt: HostRuntime) {
    for (name, heights, falling) in &HEIGHTS {
        if is_strictly_falling(*heights) != *falling {
            rt.panic(*name);
        }
    }
    for case in &SCHEDULES {
        let (heights, most) = (case.heights, case.max_log_arity);
        if !is_strictly_falling(heights) || most == 0 {
            rt.panic(case.name);
        }
        let schedule = fold_schedule(rt.alloc(), heights, 2, most).expect(&rt, case.name);
        if schedule.as_slice() != case.rounds {
            rt.panic(case.name);
        }
    }
    // the cap, the distance to the final height, that to the next input, and one above a low input
    let rounds = [
        compute_log_arity_for_round(10, None, 2, 3),
        compute_log_arity_for_round(4, None, 2, 3),
        compute_log_arity_for_round(7, Some(6), 2, 3),
        compute_log_arity_for_round(10, Some(1), 2, 9),
    ];
    assert!(rt; rounds == [3, 2, 1, 8]);
}

/// A constructor of parameters.
enum Preset {
    Testing(usize),
    TestingZk,
    Benchmark,
    BenchmarkHighArity,
    BenchmarkZk,
}

/// Its parameters, with 7 for the tree.
fn parameters_of(preset: &Preset) -> FriParameters<u8>
    ensures { result.log_blowup * result.num_queries + result.query_proof_of_work_bits < 2 ^ 64 }
{
    match preset {
        Preset::Testing(log_final_poly_len) => FriParameters::new_testing(7, *log_final_poly_len),
        Preset::TestingZk => FriParameters::new_testing_zk(7),
        Preset::Benchmark => FriParameters::new_benchmark(7),
        Preset::BenchmarkHighArity => FriParameters::new_benchmark_high_arity(7),
        Preset::BenchmarkZk => FriParameters::new_benchmark_zk(7),
    }
}

/// A constructor's soundness bits and its regime: logarithms of blowup, bits of the final
/// polynomial and of the arity, the number of queries, and the bits of proof of work in the commit
/// phase and in the query phase.
struct Constructed {
    name: &'static str,
    preset: Preset,
    bits: usize,
    regime: [usize; 6],
}

static CONSTRUCTED: [Constructed; 7] = [
    Constructed {
        name: "for tests",
        preset: Preset::Testing(0),
        bits: 5,
        regime: [2, 0, 1, 2, 1, 1],
    },
    Constructed {
        name: "for tests, long",
        preset: Preset::Testing(3),
        bits: 5,
        regime: [2, 3, 1, 2, 1, 1],
    },
    Constructed {
        name: "for tests, longer",
        preset: Preset::Testing(12),
        bits: 5,
        regime: [2, 12, 1, 2, 1, 1],
    },
    Constructed {
        name: "for tests, hiding",
        preset: Preset::TestingZk,
        bits: 5,
        regime: [2, 0, 1, 2, 1, 1],
    },
    Constructed {
        name: "for figures",
        preset: Preset::Benchmark,
        bits: 116,
        regime: [1, 0, 1, 100, 0, 16],
    },
    Constructed {
        name: "for figures, high",
        preset: Preset::BenchmarkHighArity,
        bits: 116,
        regime: [1, 0, 3, 100, 0, 16],
    },
    Constructed {
        name: "for figures, hiding",
        preset: Preset::BenchmarkZk,
        bits: 216,
        regime: [2, 0, 1, 100, 0, 16],
    },
];

/// Whether the constructor's parameters have these bits and this regime, and the tree.
fn is_constructed(case: &Constructed) -> bool {
    let parameters = parameters_of(&case.preset);
    let regime = parameters.security_regime();
    let numbers = [
        regime.log_blowup,
        regime.log_final_poly_len,
        regime.max_log_arity,
        regime.num_queries,
        regime.commit_pow_bits,
        regime.query_pow_bits,
    ];
    let bits = parameters.conjectured_soundness_bits();
    (bits == case.bits) & (numbers == case.regime) & (parameters.mmcs == 7)
}

/// How parameters are printed.
static PRINTED: &str = "FriParameters { log_blowup: 2, log_final_poly_len: 0, max_log_arity: 1, \
    num_queries: 100, batch_proof_of_work_bits: 10, commit_proof_of_work_bits: 0, \
    query_proof_of_work_bits: 16, mmcs: 7 }";

#[test]
fn parameters_are_constructed_read_cloned_and_printed(rt: HostRuntime) {
    for case in &CONSTRUCTED {
        if !is_constructed(case) {
            rt.panic(case.name);
        }
    }
    let mut parameters = FriParameters::new_testing(7u8, 3);
    let powers_of_two = [
        parameters.blowup(),
        parameters.final_poly_len(),
        parameters.max_arity(),
        FriParameters::new_benchmark_high_arity(7u8).max_arity(),
    ];
    let without = parameters.grinding_sites();
    parameters.batch_proof_of_work_bits = 7;
    // the batch's bits are a site of their own
    let sites = GrindingSites {
        batch_combination: 7,
    };
    assert!(rt;
        (powers_of_two == [4, 8, 2, 8])
            & (without == GrindingSites::NONE)
            & (parameters.grinding_sites() == sites)
    );
    let parameters = FriParameters::new_benchmark_zk(7u8)
        .clone()
        .expect(&rt, "memory");
    let text = format!(in rt.alloc(); "{parameters:?}").expect(&rt, "memory");
    assert!(rt; text.as_str() == PRINTED);
}
