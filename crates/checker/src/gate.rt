//! The gate that each worker of a check passes before it decides.

/// A gate that workers pass, each once, before they decide. Tests use one to see that workers run side by
/// side; a program takes [`OpenGate`].
pub trait Gate {
    ghost use Rattle.std.specs.Prelude.{ℕ, ◌≡◌, true, false};

    /// Which workers it may refuse.
    ghost may_refuse: { Self → ℕ → Type 0 };

    /// Which workers have passed. Where the gate is not known, as in a check, only `pass` can give it.
    ghost passed: { Self → ℕ → Type 0 };

    /// Returns whether the worker with this number passes. It may wait.
    fn pass(&self, worker: u32) -> bool
        ensures passed { result ≡ true → passed self.now worker }
        ensures refused { result ≡ false → may_refuse self.now worker };
}

/// A gate that lets every worker pass.
#[derive(Clone, Copy, Debug)]
pub struct OpenGate;

impl Gate for OpenGate {
    ghost use Rattle.std.specs.Prelude.{⊤};

    ghost may_refuse = { λ gate worker. ⊥ };

    ghost passed = { λ gate worker. ⊤ };

    fn pass(&self, worker: u32) -> bool {
        true
    }
}
