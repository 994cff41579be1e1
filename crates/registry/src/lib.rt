// The words that the path and the image share: the tags of records, what a record has, the relations, the limits.
#![tactic(auto)]

ghost use Rattle.std.specs.Prelude.{◌≡◌, ◌≤◌};
ghost use Rattle.registry.specs.Tags.{width_of};
ghost use Rattle.registry.specs.Defects.{defect_number};

// The tags of records (S4.3). Those up to the AS block are blocks.
pub const IPV4_NETWORK: u8 = 0x10;

pub const IPV6_NETWORK: u8 = 0x11;

pub const AS_BLOCK: u8 = 0x12;

pub const DOMAIN: u8 = 0x13;

pub const NAMESERVER: u8 = 0x14;

pub const ENTITY: u8 = 0x15;

// The limits (S2.1, S2.5, S4.1, S4.3, S4.4).
pub const MOST_RECORDS: usize = 4096;

pub const MOST_IMAGE: usize = 262144;

pub const MOST_PATH: usize = 1024;

pub const MOST_PATHS: usize = 64;

pub const MOST_HOST: usize = 253;

pub const MOST_TEXT: usize = 64;

// The same as numbers of 32 bits.
pub const MOST_COUNT: u32 = MOST_RECORDS as u32;

pub const IMAGE_END: u32 = MOST_IMAGE as u32;

// The tag and the length of a field come before its contents. The range of a block comes after two such heads: the block's and its own.
pub const HEAD: usize = 3;

pub const RANGE_OFFSET: usize = 6;

// A number for each record of an image.
pub type PerRecord = [u32; MOST_RECORDS];

// What a text of the registry is: a handle (field 21), a name (field 22), or the host name in field 22 of records 13 and 14.
#[derive(Clone, Copy)]
pub enum Text {
    Handle,
    Name,
    Host,
}

// The parts of a record that are handed back.
#[derive(Clone, Copy)]
pub enum Part {
    Range,
    Handle,
    Name,
}

#[derive(Clone, Copy)]
pub enum Relation {
    Up,
    Down,
    Top,
    Bottom,
}

// What is wrong with an image (S5.1), by its number.
#[derive(Clone, Copy, Debug, PartialEq, Eq)]
pub enum Defect {
    TooLong = 1,
    BadStart = 2,
    BadRecord = 3,
    BadFields = 4,
    BadContents = 5,
    Unsorted = 6,
    Crossing = 7,
}

impl Defect {
    pub fn number(self) -> u32
        ensures { result ≡ defect_number self }
    {
        self as u32
    }

    pub fn at(self, place: u32) -> Flaw
        ensures { result ≡ record { defect = self; place = place } }
    {
        Flaw {
            defect: self,
            place,
        }
    }
}

// A defect, and the number of the record that has it; 0 where it is the image's (S5.2).
#[derive(Clone, Copy, Debug, PartialEq, Eq)]
pub struct Flaw {
    pub defect: Defect,
    pub place: u32,
}

// The bytes of an address or number of a block.
pub fn width_of(tag: u8) -> usize
    ensures { (result ≡ width_of tag) × (result ≤ 16) }
{
    if tag == IPV6_NETWORK { 16 } else { 4 }
}
