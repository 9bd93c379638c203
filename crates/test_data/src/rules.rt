//! Rules that are kept, or of which one is broken.

/// A rule is kept, or this one is broken.
pub fn require<R: Copy>(is_kept: bool, rule: R) -> Result<(), R> {
    if is_kept { Ok(()) } else { Err(rule) }
}

/// All rules are kept, or this one is the first that is broken.
pub fn require_all<R: Copy>(rules: &[(bool, R)]) -> Result<(), R> {
    for (is_kept, rule) in rules {
        if !*is_kept {
            return Err(*rule);
        }
    }
    Ok(())
}
