//! Which keys a list shows.
ghost use Rattle.std.specs.Prelude.{◌≡◌};
ghost use Rattle.mst_commands.specs.Bounds.{is_in_bounds};

/// From the first key, to the last one, of those that begin alike.
#[derive(Clone, Copy)]
pub struct Bounds<'a> {
    pub first: Option<&'a str>,
    pub last: Option<&'a str>,
    pub prefix: Option<&'a str>,
}

/// How a list is written.
#[derive(Clone, Copy)]
pub struct Listing<'a> {
    /// Which keys are listed.
    pub bounds: Bounds<'a>,
    /// How many keys are listed at most.
    pub limit: u64,
    /// Whether each line is an object of JSON.
    pub json: bool,
}

impl Bounds<'_> {
    /// Whether a key is within the bounds.
    pub fn hold(&self, key: &str) -> bool
        ensures { result ≡ is_in_bounds self.now key.now }
    {
        let from_first = match self.first {
            Some(first) => first <= key,
            None => true,
        };
        let to_last = match self.last {
            Some(last) => key <= last,
            None => true,
        };
        let alike = match self.prefix {
            Some(prefix) => key.as_bytes().starts_with(prefix.as_bytes()),
            None => true,
        };
        from_first && to_last && alike
    }
}
