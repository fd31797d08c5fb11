// The marks of a search in the scratch buffer: those of the candidates for embeddings or isomorphisms, and those of the candidates that given pairs allow.

#![tactic(auto)]

ghost use Rattle.std.specs.Prelude.{◌≡◌, ◌≤◌, length};
ghost use Rattle.semigroups.specs.InnerSearch.{plain_kind};
ghost use Rattle.semigroups.specs.Tables.{product, Accepted};
ghost use Rattle.semigroups.specs.Scratch.{scratch_size};
ghost use Rattle.semigroups.specs.Calls.{overwritten};
ghost use Rattle.semigroups.specs.InnerCalls.{scratch_after};
ghost use Rattle.semigroups.specs.Maps.{embeddings};
ghost use Rattle.semigroups.specs.Candidates.{candidate};
ghost use Rattle.calls.specs.Allowed.{allowed_candidate};
ghost use Rattle.marking.specs.InnerMasks.{masked_bytes, clears_nothing};

// Marks the candidates for embeddings in scratch, or with `onto` those for isomorphisms. Bytes after the marks are untouched.
pub fn mark(onto: bool, source: &[u8], m: usize, target: &[u8], n: usize, scratch: &mut [u8])
    requires accepted { Accepted m source.now × Accepted n target.now }
    requires n_in_bounds { scratch_size m n ≤ length scratch.old }
    ensures scratch { scratch.new ≡ scratch_after m n (candidate (plain_kind onto) m (product m source.now) n (product n target.now)) scratch.old }
{
    if onto {
        candidates::fill_isomorphisms(source, m, target, n, scratch);
    } else {
        candidates::fill_embeddings(source, m, target, n, scratch);
    }
}

// Clears each bit of the first `size` bytes of scratch that is not set in the pairs.
fn keep_pairs(pairs: &[u8], size: usize, scratch: &mut [u8])
    requires { (size ≤ length pairs.now) × (size ≤ length scratch.old) }
    ensures scratch { scratch.new ≡ overwritten (masked_bytes size pairs.now scratch.old) scratch.old }
{
    for place in 0..size {
        scratch[place] &= pairs[place];
    }
}

// Returns whether every bit that is set in the first `size` bytes of scratch is also set in the pairs.
fn allows_all(pairs: &[u8], size: usize, scratch: &[u8]) -> bool
    requires { (size ≤ length pairs.now) × (size ≤ length scratch.now) }
    ensures answer { result ≡ clears_nothing size pairs.now scratch.now }
{
    (0..size).all(|place| scratch[place] & pairs[place] == scratch[place])
}

// Marks in scratch the candidates for embeddings that the pairs allow. Returns whether the pairs allow every candidate.
pub fn mark_among(
    source: &[u8],
    m: usize,
    target: &[u8],
    n: usize,
    pairs: &[u8],
    scratch: &mut [u8],
) -> bool
    requires accepted { Accepted m source.now × Accepted n target.now }
    requires n_in_bounds { (scratch_size m n ≤ length pairs.now) × (scratch_size m n ≤ length scratch.old) }
    ensures answer { result ≡ clears_nothing (scratch_size m n) pairs.now (scratch_after m n (candidate embeddings m (product m source.now) n (product n target.now)) scratch.old) }
    ensures scratch { scratch.new ≡ scratch_after m n (allowed_candidate m (product m source.now) n (product n target.now) pairs.now) scratch.old }
{
    mark(false, source, m, target, n, scratch);
    let size = candidates::scratch_size(m, n);
    let all = allows_all(pairs, size, &*scratch);
    keep_pairs(pairs, size, scratch);
    all
}
