// The bytes that a sink has taken. They exist only in proofs.
ghost use Rattle.std.specs.Prelude.{◌≡◌, ◌++◌, [], ℕ, List};
ghost use base.Fml.{ftrue};

use std::marker::Model;

/// The bytes that were taken so far, for contracts alone.
#[derive(Drop)]
pub(crate) struct Taken {
    pub ghost text: { List ℕ },
}

impl Model for Taken {
    ghost also_owns = { λ _. ftrue };
}

/// Bytes that a sink is given.
#[derive(Clone, Copy, Drop)]
pub(crate) struct Piece<'a> {
    pub bytes: &'a [u8],
}

impl Taken {
    /// No bytes.
    pub(crate) fn nothing() -> Taken
        ensures { result.text ≡ [] }
    {
        Taken {}
    }

    /// These bytes after the others.
    pub(crate) fn with(&self, _more: &Piece<'_>) -> Taken
        ensures { result.text ≡ self.now.text ++ _more.now.bytes.now }
    {
        Taken {}
    }
}
