// The kinds of nodes and of the sides of rules, which files number from 0.
ghost use Rattle.std.specs.Prelude.{◌≡◌, ltb};
ghost use Rattle.request.specs.Tables.{KindOf, code};

#[derive(Clone, Copy)]
pub enum Kind {
    Store,
    Load,
    Fence,
    Any,
}

impl Kind {
    pub(crate) fn of(byte: u8) -> Option<Kind>
        ensures { KindOf byte result }
    {
        match byte {
            0 => Some(Kind::Store),
            1 => Some(Kind::Load),
            2 => Some(Kind::Fence),
            3 => Some(Kind::Any),
            _ => None,
        }
    }

    // Its number in a file.
    pub fn code(self) -> u8
        ensures { result ≡ code self }
    {
        self as u8
    }

    // Whether a rule's side of this kind has a variable.
    pub(crate) fn has_variable(self) -> bool
        ensures { result ≡ ltb (code self) 2 }
    {
        matches!(self, Kind::Store | Kind::Load)
    }
}
