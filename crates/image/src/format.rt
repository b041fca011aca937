// The format of a saved image.
ghost use Rattle.std.specs.Prelude.{◌≡◌, ◌^◌, ◌<◌};
ghost use Rattle.image.specs.Layout.{layout, image_size};

// An image: the lengths of its table and of its pending array, which stand behind the fixed part.
#[derive(Clone, Copy)]
pub struct Image {
    pub table: usize,
    pub pending: usize,
}

impl Image {
    // "IRQ"
    pub const MARK: [u8; 3] = [0x49, 0x52, 0x51];

    pub const VERSION: u16 = 1;

    // The offset of each field.
    pub const VERSION_AT: usize = 3;

    pub const FLAGS: usize = 5;

    pub const EVENTS: usize = 6;

    pub const REQUESTER: usize = 8;

    pub const WAITING: usize = 10;

    pub const SIZES: usize = 14;

    pub const CONFIG: usize = 38;

    // The fixed part has this length, too.
    pub const TABLE: usize = 294;

    // How many bytes there are from the flags to the sizes.
    pub const NUMBERS: usize = Self::SIZES - Self::FLAGS;

    // How many bytes a card has: from the flags to the last configuration byte.
    pub const CARD: usize = Self::TABLE - Self::FLAGS;

    pub fn new(table: usize, pending: usize) -> Self
        ensures { result ≡ layout table pending }
    {
        Self { table, pending }
    }

    // The length of the whole image.
    pub fn len(self) -> usize
        requires { image_size self.table self.pending < 2 ^ 64 }
        ensures { result ≡ image_size self.table self.pending }
    {
        Self::TABLE + self.table + self.pending
    }
}
