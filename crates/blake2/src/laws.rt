// What the parameters and the states of a hasher are, apart from what the functions do.

ghost use Rattle.std.specs.Prelude.{◌≡◌, ◌*◌, ◌↔◌, length, None};
ghost use Rattle.words.specs.Mix.{Variant};
ghost use Rattle.blake2.specs.Begun.{IsBegun2b, IsBegun2s};
ghost use Rattle.blake2.specs.Blake2.{IsParameters, Parameters, from_list, listed, word_len};
ghost use Rattle.blake2.specs.Faults.{parameter_fault};
ghost use Rattle.blake2.specs.declared.state2b.Blake2bState.{Blake2bState};
ghost use Rattle.blake2.specs.declared.state2s.Blake2sState.{Blake2sState};

/// Does nothing. Its contract says that the parameters that are not refused are exactly those that the
/// function has (RFC 7693, section 2.1; the BLAKE2 paper, section 2.5), if salt and personalization have two
/// words each, and that all of these are read back from their list.
#[tactic(auto, using(crate::specs::inside::Listed::parameters_read_back))]
pub fn parameter_laws()
    ensures allowed { (k : Variant) (p : Parameters) → length p.salt ≡ 2 * word_len k
        → length p.personal ≡ 2 * word_len k
        → (parameter_fault (8 * word_len k) p.digest_length (length p.key) ≡ None) ↔ IsParameters k p }
    ensures read_back { (k : Variant) (p : Parameters) → IsParameters k p
        → from_list k (listed p) ≡ p }
{}

/// Does nothing. Its contract says that a state of zeros is not a hasher's, since its digest length is 0.
#[tactic(auto, unfolding(crate::specs::Begun::IsBegun2b, crate::specs::Begun::IsBegun2s))]
pub fn state_laws()
    ensures zeros_2b { (s : Blake2bState) → s.digest_length ≡ 0 → IsBegun2b s → ⊥ }
    ensures zeros_2s { (s : Blake2sState) → s.digest_length ≡ 0 → IsBegun2s s → ⊥ }
{}
