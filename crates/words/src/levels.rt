// The processor level that this build is for.

/// The processor level that this build is for: 1, 2 or 3 for x86-64, x86-64-v2 or x86-64-v3. No clause says
/// which, so code that depends on it is proved for each. `tools/build` writes the number, which is the
/// highest in each commit.
#[inline(always)]
pub fn level() -> u32 {
    3
}
