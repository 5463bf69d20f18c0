// What an object that carries blocks says of them.
ghost use Rattle.std.specs.Prelude.{◌≡◌};

// The two kinds of object that carry blocks: writes as they came, and blocks moved out of an older object. Each has the number that a header has for it.
#[derive(Clone, Copy, PartialEq, Eq, Debug)]
pub enum Carrier {
    Data = 1,
    Clean = 2,
}

// So many neighbouring blocks, from an address on.
#[derive(Clone, Copy, PartialEq, Eq, Debug)]
pub struct Entry {
    pub address: u32,
    pub count: u32,
}

impl Carrier {
    ghost use Rattle.objects.specs.Rules.{most_blocks};

    // How many blocks an entry may have.
    pub(crate) fn most_blocks(self) -> u32
        ensures { result ≡ most_blocks self }
    {
        match self {
            Carrier::Data => 8,
            Carrier::Clean => 32,
        }
    }
}

impl Entry {
    ghost use Rattle.objects.specs.Rules.{entry_fits};

    // Whether the entry keeps its rules.
    pub(crate) fn fits(self, most: u32, blocks: u32) -> bool
        ensures { result ≡ entry_fits most blocks self }
    {
        self.count >= 1
            && self.count <= most
            && u64::from(self.address) + u64::from(self.count) <= u64::from(blocks)
    }
}
