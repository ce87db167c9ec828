//! A system with a node of each kind and a constraint on each kind of rows, and a proof of a trace
//! that satisfies it, as `tools/relation/stark.py` makes it.

ghost use Rattle.std.specs.Prelude.{◌≡◌};
ghost use Rattle.p3_fri_relation.specs.Views.{parameters_of};
ghost use Rattle.p3_fri_two_adic.specs.Ranges.{InVerifierRange};

use p3_air_plain::PlainAir;
use p3_dft::Radix2Dit;
use p3_field::{BabyBear, BabyBear4};
use p3_fri_folding::FriParameters;
use p3_fri_plain::{PlainFriProof, TwoAdicFriProof};
use p3_fri_two_adic::TwoAdicFriPcs;
use p3_mmcs::Sha256Mmcs;
use p3_uni_stark_plain::{PlainStarkProof, StarkProof, stark_from_plain};
use std::alloc::Global;
use std::process::Abort;

/// `x' = x + p + 3 * s'`, by a periodic column `p` and a preprocessed one `s` of zeros and ones,
/// from the first public value to the last.
pub(crate) static SYSTEM: &str =
    "{\"layout\":{\"width\":1,\"preprocessed_width\":1,\"num_public_values\":2,\
\"num_periodic_columns\":1},\"nodes\":[{\"local\":0},{\"next\":0},{\"preprocessed\":0},\
{\"preprocessed_next\":0},{\"public\":0},{\"public\":1},{\"periodic\":0},{\"constant\":3},\
{\"mul\":[7,3]},{\"add\":[6,8]},{\"neg\":0},{\"add\":[1,10]},{\"sub\":[11,9]},{\"sub\":[0,4]},\
{\"sub\":[0,5]},{\"mul\":[2,2]},{\"sub\":[15,2]}],\"constraints\":[{\"rows\":\"first\",\
\"node\":13},{\"rows\":\"last\",\"node\":14},{\"rows\":\"transition\",\"node\":12},\
{\"rows\":\"all\",\"node\":16}]}";

/// The preprocessed column, in rows.
static PREPROCESSED: &str = "[[1],[0],[1],[1]]";

/// The commitment to it.
pub(crate) const KEY: [u8; 32] = [
    187, 42, 66, 180, 49, 108, 51, 192, 111, 168, 143, 144, 52, 96, 21, 227, 146, 242, 122, 246,
    89, 230, 197, 195, 83, 227, 255, 73, 9, 99, 30, 228,
];

/// The periodic column.
static PERIODIC: &str = "[[5,7]]";

/// The proof of the trace 2, 7, 17, 25.
pub(crate) static PROOF: &str =
    "{\"commitments\":{\"trace\":[72,31,18,38,53,222,167,154,23,5,209,32,210,104,18,145,93,155,\
48,51,196,173,142,185,95,217,143,212,158,60,193,204],\"quotient_chunks\":[54,74,227,80,141,83,0,\
187,89,101,85,171,87,31,23,170,163,223,54,66,80,116,107,193,223,101,108,23,14,158,61,236],\
\"random\":null},\"opened_values\":{\"trace_local\":[[1113121529,869233835,39547105,1647932578]],\
\"trace_next\":[[225468531,1991251547,333259944,166667528]],\"preprocessed_local\":[[940596535,\
1610870464,175578363,1300676188]],\"preprocessed_next\":[[1166195076,640643482,1585647006,\
39314634]],\"quotient_chunks\":[[[1838116156,959525885,1667480895,1499563245],[791624106,\
260260714,734078816,573075366],[1989843282,1581266618,965951479,1580713980],[1078671488,\
276827472,1406244330,1511588032]]],\"random\":[]},\"opening_proof\":{\"batch_pow_witness\":0,\
\"commit_phase_commits\":[[39,225,86,163,225,12,44,178,157,168,20,254,200,148,211,235,109,195,\
158,50,236,101,222,97,87,14,132,2,125,96,152,201],[133,108,75,182,77,174,251,47,167,255,131,157,\
201,75,90,46,153,112,21,38,152,3,205,85,97,67,165,29,30,122,96,137]],\"commit_pow_witnesses\":[0,\
0],\"input_openings\":[{\"opened_values\":[[[1492885983]]],\"paths\":[[[160,178,163,115,101,165,\
93,19,196,51,106,118,118,186,202,104,106,86,14,170,171,197,35,31,233,223,140,40,125,14,219,151],\
[231,32,216,233,200,104,156,103,148,47,239,189,87,3,106,244,214,104,37,221,179,201,85,88,107,254,\
235,142,199,123,231,226],[14,221,128,151,227,37,6,254,109,137,174,188,225,247,75,102,122,119,229,\
220,175,221,185,144,46,232,86,107,122,178,193,181]]]},{\"opened_values\":[[[755784378]]],\
\"paths\":[[[191,116,157,208,93,141,34,17,230,112,39,227,198,61,159,38,41,102,111,64,135,80,83,\
24,116,53,138,142,149,155,157,35],[156,79,56,92,32,15,76,89,59,253,98,244,192,137,143,132,147,\
159,47,131,215,245,240,63,110,66,160,236,211,136,126,5],[58,116,52,128,207,216,26,105,19,255,237,\
166,72,162,163,108,14,222,100,211,254,249,176,123,213,127,9,91,76,113,104,202]]]},\
{\"opened_values\":[[[89094468,1296032843,1961453335,1709586307]]],\"paths\":[[[19,98,66,105,46,\
134,80,53,244,53,126,107,248,182,97,169,3,123,129,127,255,123,25,197,243,14,95,173,124,37,28,\
171],[232,82,190,124,168,179,33,49,160,173,84,225,9,253,210,141,136,74,242,170,116,86,145,221,\
150,225,67,250,222,45,17,52],[184,65,109,99,193,192,214,92,106,81,128,246,243,35,214,219,213,232,\
97,77,131,157,72,184,183,240,21,209,176,231,171,44]]]}],\
\"commit_phase_openings\":[{\"sibling_values\":[[[222801527,495036480,402736123,1423411439]]],\
\"paths\":[[[187,120,222,62,195,95,255,244,198,123,246,235,35,97,48,218,152,210,146,40,161,97,62,\
70,195,19,129,7,211,247,226,133],[93,196,10,247,222,71,209,152,116,192,16,236,239,8,179,1,166,\
179,92,93,31,23,30,132,242,55,223,212,215,246,71,165]]]},{\"sibling_values\":[[[83339075,\
582258093,1201105653,1485913172]]],\"paths\":[[[132,2,40,28,74,216,112,28,147,234,112,90,118,198,\
73,159,16,138,167,39,200,66,58,96,141,203,152,108,104,143,82,145]]]}],\"final_poly\":[[345444904,\
241264812,50532512,1377722503]],\"query_pow_witness\":0},\"log_height\":2}";

/// Rows or columns of numbers.
pub(crate) fn rows(rt: &impl Abort, alloc: Global, text: &str) -> Vec<Vec<u64>> {
    serde_json::from_str(alloc, text).expect(rt, "no rows of numbers")
}

/// The system, and what it speaks of beside a trace and public values.
#[derive(Drop)]
pub(crate) struct Known {
    pub form: PlainAir,
    pub preprocessed: Vec<Vec<u64>>,
    pub periodic: Vec<Vec<u64>>,
}

pub(crate) fn system(rt: &impl Abort, alloc: Global) -> Known {
    Known {
        form: serde_json::from_str(alloc, SYSTEM).expect(rt, "no system"),
        preprocessed: rows(rt, alloc, PREPROCESSED),
        periodic: rows(rt, alloc, PERIODIC),
    }
}

/// The proof of this text's form.
pub(crate) fn proof(rt: &impl Abort, alloc: Global) -> StarkProof<TwoAdicFriProof> {
    let form = serde_json::from_str::<PlainStarkProof<PlainFriProof>>(alloc, PROOF);
    stark_from_plain(alloc, &form.expect(rt, "no form of a proof")).expect(rt, "no proof")
}

pub(crate) type Scheme = TwoAdicFriPcs<
    BabyBear,
    Radix2Dit<BabyBear>,
    Sha256Mmcs<BabyBear>,
    Sha256Mmcs<BabyBear4>,
>;

/// A blowup of 2, folds by two to a constant, one query and no proof of work.
pub(crate) fn scheme() -> Scheme
    ensures { InVerifierRange (parameters_of result.fri) 27 63 }
{
    let parameters = FriParameters {
        log_blowup: 1,
        log_final_poly_len: 0,
        max_log_arity: 1,
        num_queries: 1,
        batch_proof_of_work_bits: 0,
        commit_proof_of_work_bits: 0,
        query_proof_of_work_bits: 0,
        mmcs: Sha256Mmcs::new(),
    };
    TwoAdicFriPcs::new(Radix2Dit::default(), Sha256Mmcs::new(), parameters)
}
