//! The variables of an environment ("Environment Variables" of the manual of the C library).
ghost use Rattle.std.specs.Prelude.{◌≡◌, ◌≢◌, ◌==◌, ◌+◌, ◌<◌, ◌++◌, ◌∷◌, All, IfOk, IfSome, IsNone, length, take, drop, position, map};
ghost use Rattle.std.specs.Option.{option_map};
ghost use Rattle.envsubst.specs.Prelude.{pairs_in, variable_of, variables_of};

use std::alloc::{AllocError, Global};

const EQUALS: u8 = b'=';

/// The name and the value of an entry of the environment, `NAME=VALUE`: what stands before and
/// after its first `=`. `None` where it has no `=`.
pub fn name_and_value(entry: &[u8]) -> Option<(&[u8], &[u8])>
    ensures parts { IfSome result (λ v. entry.now ≡ v.0.now ++ 61 ∷ v.1.now) }
    ensures first { IfSome result (λ v. All (λ b. b ≢ 61) v.0.now) }
    ensures none { IsNone result → All (λ b. b ≢ 61) entry.now }
    ensures variable { option_map (λ v. (v.0.now, v.1.now)) result ≡ variable_of entry.now }
{
    let at = first_equals(entry)?;
    Some((&entry[..at], &entry[at + 1..]))
}

/// Where the first `=` stands.
fn first_equals(entry: &[u8]) -> Option<usize>
    ensures index { result ≡ position (λ b. b == 61) entry.now }
    ensures bound { IfSome result (λ at. at < length entry.now) }
    ensures there { IfSome result (λ at. entry.now ≡ take at entry.now ++ 61 ∷ drop (at + 1) entry.now) }
    ensures before { IfSome result (λ at. All (λ b. b ≢ 61) (take at entry.now)) }
    ensures none { IsNone result → All (λ b. b ≢ 61) entry.now }
{
    entry.iter().position(|&byte| byte == EQUALS)
}

/// The variables of an environment, by its entries: those that have a name and a value, in order.
pub fn variables_in(alloc: Global, entries: &[Vec<u8>]) -> Result<Vec<(&[u8], &[u8])>, AllocError>
    ensures { IfOk result (λ variables. pairs_in variables.items
        ≡ variables_of (map (λ entry. entry.items) entries.now)) }
{
    let mut variables = Vec::with_capacity(alloc, entries.len())?;
    for entry in entries {
        if let Some(variable) = name_and_value(entry.as_slice()) {
            variables.push(variable)?;
        }
    }
    Ok(variables)
}
