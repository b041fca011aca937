// The capability list.
ghost use Rattle.std.specs.Prelude.{◌≡◌, cond, ◌<◌};
ghost use Rattle.model.specs.Capabilities.{pointer};
ghost use Rattle.layout.specs.Walk.{BeginsAt};
ghost use Rattle.layout.specs.Places.{times, one_more, first_pointer, listing_of};

// Where the capabilities with one ID are: nowhere, at one place, or at more, of which the first counts; and how many there are.
#[derive(Clone, Copy)]
pub enum Found {
    Nowhere,
    Once(usize),
    Again(usize, usize),
}

// What a list that is not broken says of MSI (ID 05h) and of MSI-X (ID 11h).
#[derive(Clone, Copy)]
pub struct Listing {
    pub msi: Found,
    pub msix: Found,
}

impl Found {
    // With a capability at a place, if its ID is the one looked for.
    fn with(self, hit: bool, at: usize) -> Found
        requires { times self < 48 }
        ensures { result ≡ cond hit (one_more self at) self }
    {
        if !hit {
            return self;
        }
        match self {
            Found::Nowhere => Found::Once(at),
            Found::Once(first) => Found::Again(first, 2),
            Found::Again(first, times) => Found::Again(first, times + 1),
        }
    }
}

// A pointer without its low two bits.
pub fn place(p: u8) -> usize
    ensures { (result ≡ pointer p) × (result < 253) }
{
    (p / 4 * 4) as usize
}

// Status bit 4 says that there is a list.
pub fn first_pointer(c: &[u8; 256]) -> u8
    ensures { result ≡ first_pointer c.now }
{
    if c[6] / 16 % 2 == 1 { c[0x34] } else { 0 }
}

// The places of the listed capabilities: from a pointer on, at most `left` more.
#[derive(Drop)]
pub struct Places<'a> {
    pub config: &'a [u8; 256],
    pub link: u8,
    pub left: usize,
}

impl<'a> Places<'a> {
    // A list has at most 48 capabilities.
    pub fn of(config: &'a [u8; 256]) -> Places<'a>
        ensures { BeginsAt config.now result }
    {
        Places {
            config,
            link: first_pointer(config),
            left: 48,
        }
    }
}

impl<'a> Iterator for Places<'a> {
    ghost use Rattle.std.specs.Iterator.{at_most};
    ghost use Rattle.layout.specs.Walk.{GivesPlace};

    type Item = usize;

    ghost next_gives = { GivesPlace };

    ghost remaining = { λ s. at_most s.left };

    // None is below 40h.
    fn next(&mut self) -> Option<usize> {
        let at = place(self.link);
        if at < 64 || self.left == 0 {
            return None;
        }
        self.left -= 1;
        self.link = self.config[at + 1];
        Some(at)
    }
}

// There is no listing of a broken list: behind the last place a pointer other than 0 stands.
pub fn read_list(c: &[u8; 256]) -> Option<Listing>
    ensures { result ≡ listing_of c.now }
{
    let mut msi = Found::Nowhere;
    let mut msix = Found::Nowhere;
    let mut places = Places::of(c);
    while let Some(at) = places.next() {
        let id = c[at];
        msi = msi.with(id == 0x05, at);
        msix = msix.with(id == 0x11, at);
    }
    (place(places.link) == 0).then_some(Listing { msi, msix })
}
