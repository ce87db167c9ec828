//! The Fibonacci numbers as a system, and 32 rows of them.

/// Each row has the last two numbers; public are the first two and the last.
pub(crate) const SYSTEM: &str = "{\"parameters\":{\"log_blowup\":1,\"log_final_poly_len\":0,\
\"max_log_arity\":2,\"num_queries\":4,\"batch_proof_of_work_bits\":0,\
\"commit_proof_of_work_bits\":0,\"query_proof_of_work_bits\":2},\"num_random_codewords\":4,\
\"air\":{\"layout\":{\"width\":2,\"preprocessed_width\":0,\"num_public_values\":3,\
\"num_periodic_columns\":0},\"nodes\":[{\"local\":0},{\"local\":1},{\"next\":0},{\"next\":1},\
{\"public\":0},{\"sub\":[0,4]},{\"public\":1},{\"sub\":[1,6]},{\"sub\":[2,1]},{\"add\":[0,1]},\
{\"sub\":[3,9]},{\"public\":2},{\"sub\":[1,11]}],\"constraints\":[{\"rows\":\"first\",\
\"node\":5},{\"rows\":\"first\",\"node\":7},{\"rows\":\"transition\",\"node\":8},\
{\"rows\":\"transition\",\"node\":10},{\"rows\":\"last\",\"node\":12}]}}";

pub(crate) const TRACE: &str = "{\"public_values\":[0,1,2178309],\"trace\":[[0,1],[1,1],[1,2],[2,\
3],[3,5],[5,8],[8,13],[13,21],[21,34],[34,55],[55,89],[89,144],[144,233],[233,377],[377,610],\
[610,987],[987,1597],[1597,2584],[2584,4181],[4181,6765],[6765,10946],[10946,17711],[17711,\
28657],[28657,46368],[46368,75025],[75025,121393],[121393,196418],[196418,317811],[317811,\
514229],[514229,832040],[832040,1346269],[1346269,2178309]]}";

/// The first three rows of it.
pub(crate) const THREE_ROWS: &str = "{\"public_values\":[0,1,2],\"trace\":[[0,1],[1,1],[1,2]]}";

/// What the verifier knows of that.
pub(crate) const PUBLIC_VALUES: &str = "{\"public_values\":[0,1,2178309]}";
