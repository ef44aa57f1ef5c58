// What a field of a line ends with.
ghost use Rattle.std.specs.Prelude.{◌≡◌};
ghost use Rattle.text.specs.Ends.{end_byte};

#[derive(Clone, Copy, PartialEq, Eq, Debug)]
pub enum End {
    Comma,
    LineFeed,
}

impl End {
    // The byte that ends the field.
    pub fn byte(self) -> u8
        ensures { result ≡ end_byte self }
    {
        match self {
            End::Comma => b',',
            End::LineFeed => b'\n',
        }
    }
}
