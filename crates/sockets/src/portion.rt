//! How much of a client is read at a time.

ghost use Rattle.std.specs.Prelude.{◌≡◌};
ghost use Rattle.sockets.specs.Portions.{portion_size, smaller_portion, larger_portion};

/// So many octets of a client are read at a time at most, in one event.
#[derive(Clone, Copy, Debug, PartialEq, Eq, Drop)]
pub enum Portion {
    /// 1,024.
    Least,
    /// 2,048.
    Small,
    /// 4,096.
    Large,
    /// 65,536, as many as may come in one event.
    Whole,
}

impl Portion {
    /// How many octets these are.
    pub fn octets(self) -> usize
        ensures { result ≡ portion_size self }
    {
        match self {
            Portion::Least => 1024,
            Portion::Small => 2048,
            Portion::Large => 4096,
            Portion::Whole => 65536,
        }
    }

    /// The next smaller one; there is none below the least.
    pub fn smaller(self) -> Portion
        ensures { result ≡ smaller_portion self }
    {
        match self {
            Portion::Least | Portion::Small => Portion::Least,
            Portion::Large => Portion::Small,
            Portion::Whole => Portion::Large,
        }
    }

    /// The next larger one. A portion doesn't grow to the whole.
    pub fn larger(self) -> Portion
        ensures { result ≡ larger_portion self }
    {
        match self {
            Portion::Least => Portion::Small,
            Portion::Small | Portion::Large => Portion::Large,
            Portion::Whole => Portion::Whole,
        }
    }
}
