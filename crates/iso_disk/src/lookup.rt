// Whether a name is taken, before a device is made under it.
ghost use Rattle.std.specs.Prelude.{Bool, List, ℕ};

use crate::disk::Image;

/// A disk that can say whether a name is free.
pub trait Lookup: Image {
    /// What an answer says of the disk and of the name. That is up to the disk: of a real file it says nothing.
    ghost seen: { Self → List ℕ → Bool → Type 0 };

    /// Whether no device has this name. It is false where one has it, and where it cannot be seen that none has. It binds nothing
    /// and changes nothing.
    fn is_free(&self, name: &str) -> bool
        ensures { seen self.now name.now result };
}
