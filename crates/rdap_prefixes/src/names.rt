// The names of lists: whether two networks have the same one.
ghost use Rattle.std.specs.Prelude.{◌<◌};

use crate::networks::Networks;
use files::part;
use formats::Format;

// The slots of the table of names. There are at most 4,096 networks, so that at least half of it is free.
const SLOTS: usize = 8192;

// The numbers of networks, each by the hash of its list's name or in the first free slot after it.
#[derive(Drop)]
struct Names<'a> {
    networks: Networks<'a>,
    table: [Option<u32>; SLOTS],
}

// One byte more, as FNV-1a does.
fn mix(hash: u64, b: u8) -> u64 {
    (hash ^ u64::from(b)) % 4294967296 * 16777619
}

fn hash_of(name: &[u8]) -> usize
    ensures { result < 8192 }
{
    let mut hash: u64 = 2166136261;
    for b in name {
        hash = mix(hash, *b);
    }
    (hash / 65536 % 8192) as usize
}

impl<'a> Names<'a> {
    fn has_name(&self, number: u32, name: &[u8]) -> bool {
        let mut room = [0u8; 64];
        let n = self.networks.put_name(number, &mut room);
        part(&room, 0, n) == name
    }

    // Enters a network by its list's name, unless a network has that name already: then gives that one.
    fn enter(&mut self, number: u32) -> Option<u32> {
        let mut room = [0u8; 64];
        let n = self.networks.put_name(number, &mut room);
        let name = part(&room, 0, n);
        let start = hash_of(name);
        for step in 0..SLOTS {
            let at = (start + step) % SLOTS;
            let Some(other) = self.table[at] else {
                self.table[at] = Some(number);
                return None;
            };
            if self.has_name(other, name) {
                return Some(other);
            }
        }
        None
    }
}

// The first two of the networks to be listed from a number up to another that have the same name.
fn clash_in(networks: Networks, from: u32, until: u32) -> Option<(u32, u32)> {
    let mut names = Names {
        networks,
        table: [None; SLOTS],
    };
    for number in from..until {
        if networks.is_listed(number) {
            if let Some(first) = names.enter(number) {
                return Some((first, number));
            }
        }
    }
    None
}

// The first two of those before a number, IPv4 up to the middle. A plain list has no name; in cisco each family has names of its own.
pub fn clash_of(networks: Networks, middle: u32, until: u32) -> Option<(u32, u32)> {
    match networks.format {
        Format::Plain => None,
        Format::Cisco => match clash_in(networks, 0, middle) {
            Some(clash) => Some(clash),
            None => clash_in(networks, middle, until),
        },
        Format::Bird | Format::Juniper | Format::Json => clash_in(networks, 0, until),
    }
}
