//! Tables of cases with names.

/// The name of the first case whose value isn't the one found in its place.
pub fn first_wrong<T: Copy + PartialEq>(
    found: &[T],
    cases: &[(&'static str, T)],
) -> Option<&'static str> {
    if found.len() != cases.len() {
        return Some("the number of cases");
    }
    for (value, (name, wanted)) in found.iter().zip(cases) {
        if *value != *wanted {
            return Some(*name);
        }
    }
    None
}
