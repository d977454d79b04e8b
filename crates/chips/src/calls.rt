// How often a chip has been called.
ghost use Rattle.std.specs.Prelude.{◌≡◌, ◌^◌, ◌<◌};
ghost use Rattle.chips.specs.Kind.{one_more};

// The arms, digits and settles answered since a chip was made, modulo 2^32.
#[derive(Clone, Copy)]
pub struct Calls {
    pub made: u32,
    ghost few: { made < 2 ^ 32 },
}

impl Calls {
    pub fn one_more(&mut self)
        ensures { self.new.made ≡ one_more self.old.made }
    {
        self.made = self.made.wrapping_add(1);
    }
}
