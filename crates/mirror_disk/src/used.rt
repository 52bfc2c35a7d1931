// Which sides of a mirror are in use.

ghost use Rattle.std.specs.Prelude.{◌≡◌, ◌≢◌, true, false};

/// What a mirror does with its sides.
#[derive(Clone, Copy, Debug, PartialEq, Eq)]
pub enum Used {
    /// It is its first side alone.
    Plain,
    /// Both sides are in use.
    Both,
    /// The second side was left out.
    OnlyFirst,
    /// The first side was left out.
    OnlySecond,
    /// Both failed.
    Broken,
    /// A bind of the sides failed.
    Unbound,
}

impl Used {
    ghost use Rattle.mirror_disk.specs.declared.used.Used.TheVariants.{Broken};

    /// Whether a call that led to this was done by a side.
    pub(crate) fn goes_on(self) -> bool
        ensures works { result ≡ true → self ≢ Broken }
        ensures broken { result ≡ false → self ≡ Broken }
    {
        match self {
            Used::Broken => false,
            Used::Plain | Used::Both | Used::OnlyFirst | Used::OnlySecond | Used::Unbound => true,
        }
    }
}
