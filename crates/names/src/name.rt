// A kind of name, and the rows that have one.
ghost use Rattle.std.specs.Prelude.{◌≡◌, Decides};
ghost use Rattle.names.specs.Names.{Sameness};

// A kind of name: its sameness is defined. (`Eq` would leave it to a test: its laws don't say which two names are the same.)
pub trait Name: Copy {
    // which two are the same name
    ghost same: { Self → Self → Type 0 };

    // Whether the two are the same name.
    fn is_same(&self, other: &Self) -> bool
        ensures { Decides result (same self.now other.now) };

    // What each kind must prove of it.
    ghost sameness: { Sameness same };
}

// A row that has a name.
pub trait Named {
    type Kind: Name;

    // the name of each row
    ghost name: { Self → Self.Kind };

    // Its name.
    fn name(&self) -> Self::Kind
        ensures { result ≡ name self.now };
}
