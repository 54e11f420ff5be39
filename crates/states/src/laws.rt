// What the states of a hasher are, apart from what the functions do.

ghost use Rattle.std.specs.Prelude.{◌≡◌};
ghost use Rattle.states.specs.Begun.{IsBegun256, IsBegun512};
ghost use Rattle.states.specs.declared.state256.Sha256State.{Sha256State};
ghost use Rattle.states.specs.declared.state512.Sha512State.{Sha512State};

/// Does nothing. Its contract says that a state of zeros is not a hasher's, since its digest length is 0.
#[tactic(auto, unfolding(crate::specs::Begun::IsBegun256, crate::specs::Begun::IsBegun512))]
pub fn state_laws()
    ensures zeros_256 { (s : Sha256State) → s.digest_length ≡ 0 → IsBegun256 s → ⊥ }
    ensures zeros_512 { (s : Sha512State) → s.digest_length ≡ 0 → IsBegun512 s → ⊥ }
{}
